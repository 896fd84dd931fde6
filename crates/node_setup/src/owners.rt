//! The file beside a record that says whose the record is: which node's, and of which cluster.

use crate::command::Options;
use crate::failure::{Failure, folder_fault};
use crate::setup::Setup;
use cluster_file::Owner;
use std::alloc::{AllocError, Global};
use std::fs;
use std::io::{self, ErrorKind};

/// Writes a file whole, or not at all.
fn write_whole(rt: HostRuntime, path: &str, bytes: &[u8]) -> io::Result<()> {
    let new_path = format!(in rt.alloc(); "{path}.new")?;
    fs::write(&rt, new_path.as_str(), bytes)?;
    fs::File::open(&rt, new_path.as_str())?.sync_all()?;
    fs::rename(&rt, new_path.as_str(), path)
}

/// The bytes of a file, if it is there.
fn read_if_there(rt: HostRuntime, path: &str) -> io::Result<Option<Vec<u8>>> {
    match fs::read(&rt, path) {
        Ok(bytes) => Ok(Some(bytes)),
        Err(error) if error.kind() == ErrorKind::NotFound => Ok(None),
        Err(error) => Err(error),
    }
}

/// A text without the LF at its end, as it is shown.
fn shown(alloc: Global, text: &[u8]) -> Result<String, AllocError> {
    let line = text.strip_suffix(b"\n".as_slice()).unwrap_or(text);
    let mut shown = String::new(alloc);
    for byte in line.iter().take(100) {
        shown.push(if byte.is_ascii_graphic() || *byte == b' ' {
            char::from(*byte)
        } else {
            '?'
        })?;
    }
    Ok(shown)
}

/// The file that says whose the folder's record is.
fn owner_path(alloc: Global, options: Options) -> Result<String, AllocError> {
    let (folder, name) = (options.folder, options.name);
    format!(in alloc; "{folder}/{name}.cluster")
}

/// Who has the record.
fn owner_of(setup: &Setup) -> Owner {
    Owner {
        who: setup.who,
        digest: setup.digest,
    }
}

/// Whether it is known whose the folder's record is: this node's, of this cluster. Refused: it is another's.
pub(crate) fn is_claimed(
    rt: HostRuntime,
    setup: &Setup,
    options: Options,
) -> Result<bool, Failure> {
    let alloc = rt.alloc();
    let (path, owner) = (owner_path(alloc, options)?, owner_of(setup));
    match read_if_there(rt, path.as_str()) {
        Ok(Some(text)) if owner.is_named_by(&text) => Ok(true),
        Ok(Some(text)) => Err(Failure::Digest {
            file: path,
            found: shown(alloc, &text)?,
            wanted: shown(alloc, owner.text().as_slice())?,
        }),
        Ok(None) => Ok(false),
        Err(error) => Err(folder_fault(path, error)),
    }
}

/// From now on it is known whose the folder's record is.
pub(crate) fn claim(rt: HostRuntime, setup: &Setup, options: Options) -> Result<(), Failure> {
    let path = owner_path(rt.alloc(), options)?;
    match write_whole(rt, path.as_str(), owner_of(setup).text().as_slice()) {
        Ok(()) => Ok(()),
        Err(error) => Err(folder_fault(path, error)),
    }
}
