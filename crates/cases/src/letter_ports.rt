//! A node at a port whose datagrams are letters, over one in memory.

use crate::ports::{say_came, say_gone};
use crate::{groups, nodes};
use case_lines::{Page, Part, Place, Stop, in_memory, run_calls, wanted, words};
use letter_port::LetterPort;
use net_script::Command;
use node_core::Sizes;
use port::{FakePort, MAX_TAKEN, Member};
use protocol::Event;
use stable_record::MemRecord;
use std::alloc::Global;

/// A node and its port.
#[derive(Drop)]
struct Station {
    sizes: Sizes,
    node: Member<MemRecord>,
    port: LetterPort<FakePort>,
}

/// The bytes of a line that says that a datagram comes, if it does.
fn put_in(line: &[u8]) -> Option<&[u8]> {
    match words::cut(line) {
        (b"put", rest) => Some(rest),
        _ => None,
    }
}

/// Runs the calls of a case: the call of the port beneath that fails (0: none), and then as of a node over an empty record in memory.
/// First come the datagrams that wait.
pub fn run(alloc: Global, rest: &[u8], calls: &[String], page: &mut Page) -> Result<(), Stop> {
    let (call, rest) = words::cut(rest);
    let (name, rest) = words::cut(rest);
    let mut port = FakePort::new(alloc, u64::from(words::number(call)?));
    let mut waiting = 0usize;
    for line in calls {
        let Some(bytes) = put_in(line.as_bytes()) else {
            break;
        };
        wanted(port.put(&words::bytes(alloc, bytes)?))?;
        page.bytes(line.as_bytes())?;
        page.bytes(b" -> ok\n")?;
        waiting = waiting.saturating_add(1);
    }
    let (config, _rest) = words::cluster(alloc, rest)?;
    let place = Place::new(config, words::node(name)?);
    let sizes = place.config.sizes();
    let record = in_memory(alloc, b"-")?;
    let node = match place.open(record, alloc, page) {
        Ok(node) => node,
        Err(stop) => return Err(stop),
    };
    let port = LetterPort::new(alloc, port, sizes)?;
    let mut station = Station { sizes, node, port };
    run_calls(
        &mut station,
        alloc,
        calls.get(waiting..).unwrap_or(&[]),
        page,
    )?;
    place.say_record(station.node.into_record(), alloc, page)
}

/// The next message of a port.
fn take(port: &mut LetterPort<FakePort>, page: &mut Page) -> Result<(), Stop> {
    let mut buffer = [0; MAX_TAKEN];
    match port.recv(&mut buffer) {
        Ok(Some(len)) => {
            page.hex(&buffer[..len.min(MAX_TAKEN)])?;
            page.end_line()
        }
        Ok(None) => page.nothing(),
        Err(refusal) => page.finished(Err(refusal)),
    }
}

/// How many messages a port gives, until it gives none or fails.
fn count_messages(port: &mut LetterPort<FakePort>) -> u64 {
    let mut buffer = [0; MAX_TAKEN];
    let mut count: u64 = 0;
    for _ in 0..MAX_TAKEN {
        match port.recv(&mut buffer) {
            Ok(Some(_)) => count = count.saturating_add(1),
            _ => return count,
        }
    }
    count
}

/// How many messages are taken of all beginnings of a letter together.
fn taken_cuts(sizes: Sizes, alloc: Global, letter: &[u8]) -> Result<u64, Stop> {
    let mut taken: u64 = 0;
    for len in 0..letter.len().min(MAX_TAKEN) {
        let mut port = FakePort::new(alloc, 0);
        wanted(port.put(&letter[..len]))?;
        let mut port = LetterPort::new(alloc, port, sizes)?;
        taken = taken.saturating_add(count_messages(&mut port));
    }
    Ok(taken)
}

/// A node handles a group of inputs.
fn group(station: &mut Station, alloc: Global, line: &[u8], page: &mut Page) -> Result<(), Stop> {
    let items = groups::items(alloc, line)?;
    let inputs = groups::inputs(alloc, &items)?;
    let mut outs = groups::places(alloc, inputs.len())?;
    match station.port.call_all(&mut station.node, &inputs, &mut outs) {
        Ok(()) => page.finished(Ok(()))?,
        Err(error) => page.finished(Err(error.into()))?,
    }
    say_came(outs, page)
}

/// A node is asked to raise its floor, by the words of an event, as in a script.
fn rise(station: &mut Station, alloc: Global, line: &[u8], page: &mut Page) -> Result<(), Stop> {
    let command = nodes::command(alloc, line)?;
    match &command {
        Command::Do(Event::Raise { rm: _, floor }) => {
            page.finished(station.port.raise(&mut station.node, floor))
        }
        _ => Err(Stop::Unread),
    }
}

impl Part for Station {
    fn call(&mut self, alloc: Global, line: &[u8], page: &mut Page) -> Result<(), Stop> {
        let (verb, rest) = words::cut(line);
        match verb {
            b"take" => take(&mut self.port, page),
            b"cuts" => {
                page.number(taken_cuts(self.sizes, alloc, &words::bytes(alloc, rest)?)?)?;
                page.end_line()
            }
            b"group" => group(self, alloc, rest, page),
            b"floor" => rise(self, alloc, line, page),
            b"restart" => page.finished(self.node.restart()),
            b"tear" => {
                self.node.arm(words::number(rest)? as usize);
                page.finished(Ok(()))
            }
            b"gone" => say_gone(self.port.port(), page),
            b"faults" => {
                page.number(self.port.faults())?;
                page.number(self.port.dropped())?;
                page.end_line()
            }
            _ => Err(Stop::Unread),
        }
    }
}
