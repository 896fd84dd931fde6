//! A blank record for a node that stands in for a lost one.

use crate::command::{Options, Replacement};
use crate::failure::{Failure, folder_fault, owned};
use crate::owners::{claim, is_claimed};
use crate::records::{is_there, open_record, todo_of};
use crate::setup::Setup;
use crate::timing::clock;
use floored::Floored;
use net_script::{Command, put_floor, read_command};
use protocol::{Event, NodeId};
use serving::Times;
use stable_record::FileRecord;
use std::alloc::Global;
use std::fs;
use std::io::{self, ErrorKind};
use xid::{Floor, Refusal};

/// A place in the order of names, as it is written. Refused: memory ran out.
pub fn place_text(alloc: Global, floor: &Floor) -> Result<String, Failure> {
    let mut words = Vec::new(alloc);
    put_floor(&mut words, floor)?;
    let mut text = String::new(alloc);
    for byte in words.iter().skip(1) {
        text.push(char::from(*byte))?;
    }
    Ok(text)
}

/// The place that is written so, as in a script.
fn place_of(alloc: Global, name: &str, place: &str) -> Result<Floor, Failure> {
    let line = format!(in alloc; "replace {name} {place}")?;
    let command = read_command(alloc, line.as_bytes())?;
    match &command {
        Some(Command::Do(Event::Replace { floor, .. })) => Ok(*floor),
        _ => Err(Failure::Place {
            place: owned(alloc, place)?,
        }),
    }
}

/// The first place that is too far ahead of the clock to be begun now, where names stand in time.
fn place_ahead(rt: HostRuntime, setup: &Setup) -> Result<Floor, Failure> {
    let naming = setup.cluster.naming;
    if !naming.timed {
        return Err(Failure::Untimed);
    }
    let times = Times {
        format: naming.format,
        ahead: u64::from(naming.ahead),
        keep: None,
    };
    Ok(times.floor_above(clock(&rt)?))
}

/// From which place on the blank node is to take part.
fn place_wanted(
    rt: HostRuntime,
    setup: &Setup,
    options: Options,
    replacement: Replacement,
) -> Result<Floor, Failure> {
    match replacement {
        Replacement::From(place) => place_of(rt.alloc(), options.name, place),
        Replacement::Ahead => place_ahead(rt, setup),
    }
}

/// That no record stands at a path.
fn refuse_record(rt: HostRuntime, path: &str) -> Result<(), Failure> {
    if is_there(rt, path)? {
        return Err(Failure::HasRecord {
            file: owned(rt.alloc(), path)?,
        });
    }
    Ok(())
}

/// Takes away what another try has left at a path.
fn remove_if_there(rt: HostRuntime, path: &str) -> io::Result<()> {
    match fs::remove_file(&rt, path) {
        Err(error) if error.kind() != ErrorKind::NotFound => Err(error),
        _ => Ok(()),
    }
}

/// The blank node of this path stands in for the lost one.
fn stand_in(rt: HostRuntime, setup: &Setup, path: &str, floor: &Floor) -> Result<(), Failure> {
    let record = match open_record(rt, path) {
        Ok(record) => record,
        Err(failure) => return Err(failure),
    };
    let refused = match Floored::open(rt.alloc(), &setup.cluster.config, setup.who, record) {
        Ok(node) => {
            let mut node: Floored<FileRecord> = node;
            node.stand_in(floor)
        }
        Err((_record, refusal)) => Err(refusal),
    };
    match refused {
        Ok(()) => Ok(()),
        Err(Refusal::NoMemory) => Err(Failure::Memory),
        Err(refusal) => Err(Failure::Device {
            refusal,
            what: owned(rt.alloc(), path)?,
            todo: todo_of(refusal),
        }),
    }
}

/// The blank record is made beside its path, and then put there, so that none is ever there without its place. Until then the node doesn't
/// start, and another try begins anew.
fn make_whole(rt: HostRuntime, setup: &Setup, path: &str, floor: &Floor) -> Result<(), Failure> {
    let aside = format!(in rt.alloc(); "{path}.blank")?;
    if let Err(error) = remove_if_there(rt, aside.as_str()) {
        return Err(folder_fault(aside, error));
    }
    stand_in(rt, setup, aside.as_str(), floor)?;
    match fs::rename(&rt, aside.as_str(), path) {
        Ok(()) => Ok(()),
        Err(error) => Err(folder_fault(aside, error)),
    }
}

/// A blank record is made, of an acceptor or a leader that stands in for a lost one and takes part from a place on in the order of names;
/// the answer is that place. Refused, and nothing is made: a resource manager; a place that is none; names that stand in no time, where the
/// place is to follow the clock; a record that is there; a folder with another's. Refused too: the folder can't be used, or memory ran out.
pub fn replace(
    rt: HostRuntime,
    setup: &Setup,
    options: Options,
    path: &str,
    replacement: Replacement,
) -> Result<Floor, Failure> {
    if let NodeId::R(_) = setup.who {
        return Err(Failure::IsManager {
            name: owned(rt.alloc(), options.name)?,
        });
    }
    let floor = place_wanted(rt, setup, options, replacement)?;
    refuse_record(rt, path)?;
    if !is_claimed(rt, setup, options)? {
        claim(rt, setup, options)?;
    }
    make_whole(rt, setup, path, &floor)?;
    Ok(floor)
}
