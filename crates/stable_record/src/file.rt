ghost use Rattle.std.specs.Prelude.{◌≡◌, ◌≤◌, ◌<◌, length, IfOk};
ghost use Rattle.stable_record.specs.Held.{IsCounted};
ghost use Rattle.stable_record.specs.Records.{file_held, just_opened};
ghost use Rattle.stable_record.specs.declared.record.RecordError.TheVariants.{Fault};

use crate::record::{Record, RecordError};
use std::alloc::Global;
use std::fs::{self, File, OpenOptions};
use std::io::{self, ErrorKind, Read, Write};
use std::os::fd::AsRawFd;
use std::os::unix::fs::{FileExt, MetadataExt};
use std::path::Path;

/// How many bytes are read from a file at a time, to be compared.
const CHUNK: usize = 4096;

/// A record in a file. It holds a copy of the file's bytes, which is read when the file is opened and changes as it writes; each change
/// that answers `Ok` is synced. It has the file's lock, so that no other process opens the record meanwhile.
///
/// It counts a fault where a call of the operating system fails (one that was interrupted is tried again), where the file holds other
/// bytes than the copy, and where its name has become that of another file. Where a sync or a cut has failed, nobody knows what the
/// disk has: the next call first puts the copy into a new file.
#[derive(Drop)]
pub struct FileRecord {
    rt: HostRuntime,
    path: String,
    new_path: String,
    folder: File,
    file: File,
    bytes: Vec<u8>,
    kept: usize,
    faults: u64,
    is_settled: bool,
}

impl FileRecord {
    /// The record in the file of this name, which is made where there is none; its folder has to be there. Refused: `Fault` where the
    /// record is open already, in this process or another, where the name is that of no plain file, or where the operating system fails,
    /// and `Memory`. A file of this name with `.new` behind it, which a replacement that was stopped has left, is no record: it isn't
    /// read, and the next replacement takes it away.
    pub fn open(rt: HostRuntime, path: &str) -> Result<FileRecord, RecordError>
        ensures { IfOk result (λ opened. file_held opened ≡ just_opened (file_held opened).bytes) }
    {
        let alloc = rt.alloc();
        let new_path = format!(in alloc; "{path}.new")?;
        let folder = folder_of(rt, path)?;
        let mut file = lock(rt, path, false)?;
        file.sync_all()?;
        folder.sync_all()?;
        let mut bytes = Vec::new(alloc);
        file.read_to_end(&mut bytes)?;
        Ok(FileRecord {
            rt,
            path: String::from_str(alloc, path)?,
            new_path,
            folder,
            file,
            bytes,
            kept: 0,
            faults: 0,
            is_settled: true,
        })
    }

    /// Counts a fault, and answers it.
    fn count(&mut self) -> RecordError
        ensures fault { result ≡ Fault }
        ensures counted { IsCounted self.old.faults self.new.faults }
        ensures bytes { self.new.bytes ≡ self.old.bytes }
        ensures kept { self.new.kept ≡ self.old.kept }
    {
        self.faults = self.faults.saturating_add(1);
        RecordError::Fault
    }

    /// Whether the disk has the copy. Where that isn't known, the copy is first put into a new file.
    fn settle(&mut self) -> bool
        ensures held { file_held self.new ≡ file_held self.old }
        ensures copy { self.new.bytes ≡ self.old.bytes }
    {
        if !self.is_settled {
            let Ok(file) = self.put_anew(&self.bytes) else {
                return false;
            };
            self.file = file;
            self.is_settled = self.folder.sync_all().is_ok();
        }
        self.is_settled
    }

    /// Puts a new file with these bytes, synced, under the record's name. Where it fails, the name is still that of the old file, and the
    /// new one is taken away.
    fn put_anew(&self, bytes: &[u8]) -> io::Result<File> {
        let new_path = self.new_path.as_str();
        if !is_at(self.rt, &self.file, self.path.as_str())? {
            return Err(io::Error::other("the name is another file's"));
        }
        match fs::remove_file(&self.rt, new_path) {
            Err(e) if e.kind() != ErrorKind::NotFound => return Err(e),
            _ => {}
        }
        let made = self.make_anew(bytes);
        if made.is_err() {
            let _ = fs::remove_file(&self.rt, new_path);
        }
        made
    }

    /// Writes the new file, locked, and gives it the name.
    fn make_anew(&self, bytes: &[u8]) -> io::Result<File> {
        let mut file = lock(self.rt, self.new_path.as_str(), true)?;
        file.set_permissions(self.file.metadata()?.permissions())?;
        if write_some(&mut file, bytes) < bytes.len() {
            return Err(ErrorKind::WriteZero.into());
        }
        file.sync_all()?;
        fs::rename(&self.rt, self.new_path.as_str(), self.path.as_str())?;
        Ok(file)
    }

    /// Whether the file has the record's name, and the copy's bytes and no more.
    fn is_whole(&self) -> io::Result<bool> {
        Ok(is_at(self.rt, &self.file, self.path.as_str())? && holds(&self.file, &self.bytes)?)
    }
}

impl From<io::Error> for RecordError {
    fn from(error: io::Error) -> RecordError {
        match error.kind() {
            ErrorKind::OutOfMemory => RecordError::Memory,
            _ => RecordError::Fault,
        }
    }
}

/// The folder in which a name stands.
fn folder_of(rt: HostRuntime, path: &str) -> io::Result<File> {
    match Path::new(path).parent() {
        Some(parent) if !parent.as_str().is_empty() => File::open(&rt, parent),
        _ => File::open(&rt, "."),
    }
}

/// Opens the file of a name, a new one or the one that is there, to be read and to be written at its end, and takes its lock without
/// waiting.
fn lock(rt: HostRuntime, path: &str, is_new: bool) -> io::Result<File> {
    let mut file = OpenOptions::new()
        .read(true)
        .append(true)
        .create(true)
        .create_new(is_new)
        .open(&rt, path)?;
    // What is meant for a standard stream that was closed must not land in the record.
    if file.as_raw_fd() <= 2 {
        file = file.try_clone()?;
    }
    file.try_lock()?;
    if !is_at(rt, &file, path)? {
        return Err(io::Error::other("the name is another file's"));
    }
    Ok(file)
}

/// Whether a name is that of this file, and the file a plain one.
fn is_at(rt: HostRuntime, file: &File, path: &str) -> io::Result<bool> {
    let (found, named) = (file.metadata()?, fs::symlink_metadata(&rt, path)?);
    Ok(named.is_file() && found.dev() == named.dev() && found.ino() == named.ino())
}

/// Whether a file holds these bytes and no more.
fn holds(file: &File, bytes: &[u8]) -> io::Result<bool> {
    let mut chunk = [0; CHUNK];
    let mut rest = bytes;
    for _ in 0..u64::MAX {
        let at = bytes.len() - rest.len();
        match file.read_at(&mut chunk, at as u64) {
            Ok(0) => return Ok(rest.is_empty()),
            Ok(n) => match rest.strip_prefix(&chunk[..n]) {
                Some(after) => rest = after,
                None => return Ok(false),
            },
            Err(e) if e.kind() == ErrorKind::Interrupted => {}
            Err(e) => return Err(e),
        }
    }
    Ok(false)
}

/// Writes bytes to a file, and answers how many it took: all, or those before the call that failed.
fn write_some(file: &mut File, bytes: &[u8]) -> usize
    ensures { result ≤ length bytes.now }
{
    let mut kept = 0;
    for _ in 0..u64::MAX {
        if kept >= bytes.len() {
            return kept;
        }
        match file.write(&bytes[kept..]) {
            Ok(0) => return kept,
            Ok(n) => kept += n,
            Err(e) if e.kind() == ErrorKind::Interrupted => {}
            Err(_) => return kept,
        }
    }
    kept
}

impl Record for FileRecord {
    ghost held = { file_held };

    fn read(&mut self, alloc: Global) -> Result<Vec<u8>, RecordError> {
        let copy = self.bytes.to_vec(alloc)?;
        if !self.settle() {
            return Err(self.count());
        }
        match self.is_whole() {
            Ok(true) => Ok(copy),
            _ => Err(self.count()),
        }
    }

    fn append(&mut self, bytes: &[u8]) -> Result<(), RecordError> {
        self.bytes.reserve(bytes.len())?;
        if !self.settle() {
            self.kept = 0;
            return Err(self.count());
        }
        self.kept = write_some(&mut self.file, bytes);
        self.bytes.extend_from_slice(&bytes[..self.kept]).unwrap();
        self.is_settled = self.file.sync_data().is_ok();
        if self.is_settled && self.kept == bytes.len() {
            Ok(())
        } else {
            Err(self.count())
        }
    }

    fn cut(&mut self, len: usize) -> Result<(), RecordError> {
        if !self.settle() {
            return Err(self.count());
        }
        self.is_settled = false;
        if self.file.set_len(len as u64).is_err() {
            return Err(self.count());
        }
        self.bytes.truncate(len);
        self.is_settled = self.file.sync_data().is_ok();
        if self.is_settled {
            Ok(())
        } else {
            Err(self.count())
        }
    }

    fn replace(&mut self, bytes: &[u8]) -> Result<(), RecordError> {
        let copy = Vec::from_slice(self.rt.alloc(), bytes)?;
        let Ok(file) = self.put_anew(bytes) else {
            return Err(self.count());
        };
        self.file = file;
        self.bytes = copy;
        self.is_settled = self.folder.sync_all().is_ok();
        if self.is_settled {
            Ok(())
        } else {
            Err(self.count())
        }
    }

    fn kept(&self) -> usize {
        self.kept
    }

    fn faults(&self) -> u64 {
        self.faults
    }

    fn is_armed(&self) -> bool {
        false
    }
}
