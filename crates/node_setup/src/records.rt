//! A node's record in its folder.

use crate::command::Options;
use crate::failure::{Failure, folder_fault, owned};
use crate::owners::{claim, is_claimed};
use crate::setup::Setup;
use port::Member;
use stable_record::{FileRecord, RecordError};
use std::alloc::{AllocError, Global};
use std::fs;
use std::io::ErrorKind;
use xid::Refusal;

/// Whether a file is there.
pub(crate) fn is_there(rt: HostRuntime, path: &str) -> Result<bool, Failure> {
    match fs::metadata(&rt, path) {
        Ok(_) => Ok(true),
        Err(error) if error.kind() == ErrorKind::NotFound => Ok(false),
        Err(error) => Err(folder_fault(owned(rt.alloc(), path)?, error)),
    }
}

/// The path of the node's record.
pub fn record_path(alloc: Global, options: Options) -> Result<String, AllocError> {
    let (folder, name) = (options.folder, options.name);
    format!(in alloc; "{folder}/{name}.rec")
}

/// What is to be done where a record can't be opened for this reason.
pub(crate) fn todo_of(refusal: Refusal) -> &'static str {
    match refusal {
        Refusal::Damaged =>
            "do not start it again, nor with an older record: see 'A record is gone' in docs/DEPLOY.md",
        _ => "let no other process have it open, and let the node write in its folder",
    }
}

/// The record of this path.
pub(crate) fn open_record(rt: HostRuntime, path: &str) -> Result<FileRecord, Failure> {
    match FileRecord::open(rt, path) {
        Ok(record) => Ok(record),
        Err(RecordError::Memory) => Err(Failure::Memory),
        Err(RecordError::Fault) => Err(Failure::Device {
            refusal: Refusal::FileFault,
            what: owned(rt.alloc(), path)?,
            todo: todo_of(Refusal::FileFault),
        }),
    }
}

/// The node over the record of this path.
fn open_member(rt: HostRuntime, setup: &Setup, path: &str) -> Result<Member<FileRecord>, Failure> {
    let record = match open_record(rt, path) {
        Ok(record) => record,
        Err(failure) => return Err(failure),
    };
    match Member::open(rt.alloc(), &setup.cluster.config, setup.who, record) {
        Ok(node) => Ok(node),
        Err((_record, Refusal::NoMemory)) => Err(Failure::Memory),
        Err((_record, refusal)) => Err(Failure::Device {
            refusal,
            what: owned(rt.alloc(), path)?,
            todo: todo_of(refusal),
        }),
    }
}

/// That the record is there which the folder's node has had.
fn require_record(rt: HostRuntime, path: &str) -> Result<(), Failure> {
    if !is_there(rt, path)? {
        return Err(Failure::NoRecord {
            file: owned(rt.alloc(), path)?,
        });
    }
    Ok(())
}

/// The node over its record, at the record's path: from then on it is known whose the folder's record is. Refused: it is another node's
/// or another cluster's; it is gone that stood here; its file can't be used, or is damaged; or memory ran out.
pub fn open_node(
    rt: HostRuntime,
    setup: &Setup,
    options: Options,
    path: &str,
) -> Result<Member<FileRecord>, Failure> {
    let is_claimed = is_claimed(rt, setup, options)?;
    if is_claimed {
        require_record(rt, path)?;
    }
    let node = match open_member(rt, setup, path) {
        Ok(node) => node,
        Err(failure) => return Err(failure),
    };
    if !is_claimed {
        claim(rt, setup, options)?;
    }
    Ok(node)
}
