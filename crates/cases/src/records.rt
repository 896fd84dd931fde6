//! Frames, and records of each kind.

use crate::ways::{ByValue, OverBytes, run_both};
use case_lines::{Page, Part, Stop, in_memory, run_calls, words};
use stable_record::{
    Entry, EntryKind, EntryView, Fact, FactView, FailRecord, FileRecord, Leaves, MemRecord, Record,
    RecordError, Tear, entries, take_frame, view_frame,
};
use std::alloc::Global;
use wire::{MAX_TX_BYTES, VERSION};
use xid::Refusal;

/// Reads frames, each call by itself.
#[derive(Drop)]
struct Frames;

/// Runs the calls of a case of frames.
pub fn run_frames(alloc: Global, calls: &[String], page: &mut Page) -> Result<(), Stop> {
    run_both(ByValue(Frames), OverBytes(Frames), alloc, calls, page)
}

/// The whole frames of bytes as they are written today, and how far they reach: their entries are built.
fn frames_by_value(alloc: Global, bytes: &[u8]) -> Result<(Vec<Vec<u8>>, usize), Refusal> {
    let (all, len) = entries(alloc, bytes)?;
    let mut frames = Vec::new(alloc);
    for entry in &all {
        let mut frame = Vec::new(alloc);
        entry.write(alloc, &mut frame)?;
        frames.push(frame)?;
    }
    Ok((frames, len))
}

/// Whether an entry has to be seen over its frame: it is about a transaction, and of version 2.
fn is_seen(frame: &[u8], entry: &Entry) -> bool {
    match entry.kind() {
        EntryKind::Snapshot | EntryKind::Row { .. } => false,
        EntryKind::Fact(_) | EntryKind::PastCommitted(_) | EntryKind::PastAborted(_) => {
            match frame.get(4) {
                Some(version) => *version == VERSION,
                None => false,
            }
        }
    }
}

/// The frame in front of bytes as it is written today, and what follows it: its entry is seen over the bytes where that can be, as in a
/// node that reads its record. Empty where it isn't seen and has to be.
fn first_over_bytes(alloc: Global, bytes: &[u8]) -> Result<Option<(Vec<u8>, &[u8])>, Refusal> {
    let mut frame = Vec::new(alloc);
    match view_frame(alloc, bytes) {
        Ok(Some((entry, after))) => {
            entry.write(&mut frame)?;
            return Ok(Some((frame, after)));
        }
        Ok(None) => {}
        Err(refusal) => return Err(refusal),
    }
    match take_frame(alloc, bytes) {
        Ok(Some((entry, after))) => {
            if !is_seen(bytes, &entry) {
                entry.write(alloc, &mut frame)?;
            }
            Ok(Some((frame, after)))
        }
        Ok(None) => Ok(None),
        Err(refusal) => Err(refusal),
    }
}

/// What `frames_by_value` says, over bytes.
fn frames_over_bytes(alloc: Global, bytes: &[u8]) -> Result<(Vec<Vec<u8>>, usize), Refusal> {
    let mut frames = Vec::new(alloc);
    let mut rest = bytes;
    for _frame in 0..bytes.len() {
        match first_over_bytes(alloc, rest) {
            Ok(Some((frame, after))) => {
                frames.push(frame)?;
                rest = after;
            }
            Ok(None) => return Ok((frames, bytes.len().saturating_sub(rest.len()))),
            Err(refusal) => return Err(refusal),
        }
    }
    Ok((frames, bytes.len()))
}

/// How far the whole frames reach, and then a line for each; or the refusal.
fn say_frames(read: Result<(Vec<Vec<u8>>, usize), Refusal>, page: &mut Page) -> Result<(), Stop> {
    match read {
        Ok((frames, len)) => {
            page.number(len as u64)?;
            page.end_line()?;
            for frame in &frames {
                page.bytes(b"frame")?;
                page.hex(frame)?;
                page.end_line()?;
            }
            Ok(())
        }
        Err(Refusal::NoMemory) => Err(Stop::Wanted),
        Err(refusal) => {
            page.refusal(refusal)?;
            page.end_line()
        }
    }
}

/// The bytes that a line says to read.
fn bytes_to_read(alloc: Global, line: &[u8]) -> Result<Vec<u8>, Stop> {
    let (verb, rest) = words::cut(line);
    if verb != b"read".as_slice() {
        return Err(Stop::Unread);
    }
    words::bytes(alloc, rest)
}

impl Part for ByValue<Frames> {
    fn call(&mut self, alloc: Global, line: &[u8], page: &mut Page) -> Result<(), Stop> {
        let bytes = bytes_to_read(alloc, line)?;
        say_frames(frames_by_value(alloc, &bytes), page)
    }
}

impl Part for OverBytes<Frames> {
    fn call(&mut self, alloc: Global, line: &[u8], page: &mut Page) -> Result<(), Stop> {
        let bytes = bytes_to_read(alloc, line)?;
        say_frames(frames_over_bytes(alloc, &bytes), page)
    }
}

/// The entry of a frame.
fn entry_of(alloc: Global, frame: &[u8]) -> Result<Entry, Stop> {
    let (all, _len) = entries(alloc, frame)?;
    for entry in all {
        return Ok(entry);
    }
    Err(Stop::Unread)
}

/// The entry whose frame a word is.
pub fn entry(alloc: Global, word: &[u8]) -> Result<Entry, Stop> {
    entry_of(alloc, &words::bytes(alloc, word)?)
}

/// The fact of a frame, built.
fn built(alloc: Global, frame: &[u8]) -> Result<Fact, Stop> {
    match entry_of(alloc, frame)?.into_kind() {
        EntryKind::Fact(kind) => Ok(Fact::new(kind)),
        _ => Err(Stop::Unread),
    }
}

/// The fact of a frame, as a node reads it: over its bytes, or built, where it is of version 1, and spelled into a buffer.
pub fn read<'a>(
    alloc: Global,
    frame: &'a [u8],
    buffer: &'a mut [u8; MAX_TX_BYTES],
) -> Result<FactView<'a>, Stop> {
    match view_frame(alloc, frame) {
        Ok(Some((EntryView::Fact(fact), _))) => return Ok(fact),
        Ok(Some(_)) => return Err(Stop::Unread),
        Ok(None) => {}
        Err(refusal) => return Err(refusal.into()),
    }
    if is_seen(frame, &entry_of(alloc, frame)?) {
        return Err(Stop::Unread);
    }
    Ok(FactView::of(built(alloc, frame)?, buffer))
}

/// What a failing record leaves.
pub fn leaves(word: &[u8]) -> Result<Leaves, Stop> {
    match word {
        b"old" => Ok(Leaves::Old),
        b"new" => Ok(Leaves::New),
        _ => Err(Stop::Unread),
    }
}

/// A record that fails, as `2 old HEX`: its second call, which leaves the old content.
pub fn failing(alloc: Global, rest: &[u8]) -> Result<FailRecord<MemRecord>, Stop> {
    let (number, rest) = words::cut(rest);
    let (left, bytes) = words::cut(rest);
    let inner = in_memory(alloc, bytes)?;
    let call = u64::from(words::number(number)?);
    Ok(FailRecord::new(inner, call, leaves(left)?))
}

/// Runs the calls of a case of a record: `memory HEX`, `failing CALL old HEX` or `file NAME`.
pub fn run(rt: HostRuntime, rest: &[u8], calls: &[String], page: &mut Page) -> Result<(), Stop> {
    let alloc = rt.alloc();
    let (kind, rest) = words::cut(rest);
    match kind {
        b"memory" => run_calls(&mut Torn(in_memory(alloc, rest)?), alloc, calls, page),
        b"failing" => run_calls(&mut Torn(failing(alloc, rest)?), alloc, calls, page),
        b"file" => run_calls(&mut Plain(in_file(rt, rest)?), alloc, calls, page),
        _ => Err(Stop::Unread),
    }
}

/// A record in a file of this name.
pub fn in_file(rt: HostRuntime, word: &[u8]) -> Result<FileRecord, Stop> {
    let name = String::from_utf8_lossy(rt.alloc(), word)?;
    match FileRecord::open(rt, name.as_str()) {
        Ok(record) => Ok(record),
        Err(_) => Err(Stop::Ended),
    }
}

/// A record in which no tear can be armed.
#[derive(Drop)]
struct Plain<R>(R);

/// A record in which a tear can be armed.
#[derive(Drop)]
struct Torn<R>(R);

/// What a call of a record gave.
fn told(done: Result<(), RecordError>) -> Result<Result<(), Refusal>, Stop> {
    match done {
        Ok(()) => Ok(Ok(())),
        Err(RecordError::Fault) => Ok(Err(Refusal::RecordFault)),
        Err(RecordError::Memory) => Err(Stop::Wanted),
    }
}

/// Cuts a record to its first bytes, so many, as far as it has them.
fn cut<R: Record>(record: &mut R, alloc: Global, len: u32) -> Result<(), RecordError> {
    let bytes = record.read(alloc)?;
    record.cut(bytes.len().min(len as usize))
}

/// A call of a record.
fn call_record<R: Record>(
    record: &mut R,
    alloc: Global,
    line: &[u8],
    page: &mut Page,
) -> Result<(), Stop> {
    let (verb, rest) = words::cut(line);
    match verb {
        b"append" => page.done(told(record.append(&words::bytes(alloc, rest)?))?)?,
        b"replace" => page.done(told(record.replace(&words::bytes(alloc, rest)?))?)?,
        b"cut" => page.done(told(cut(record, alloc, words::number(rest)?))?)?,
        b"read" => match record.read(alloc) {
            Ok(bytes) => page.hex(&bytes)?,
            Err(RecordError::Fault) => page.refusal(Refusal::RecordFault)?,
            Err(RecordError::Memory) => return Err(Stop::Wanted),
        },
        b"armed" => page.truth(record.is_armed())?,
        b"kept" => page.number(record.kept() as u64)?,
        b"faults" => page.number(record.faults())?,
        _ => return Err(Stop::Unread),
    }
    page.end_line()
}

impl<R: Record> Part for Plain<R> {
    fn call(&mut self, alloc: Global, line: &[u8], page: &mut Page) -> Result<(), Stop> {
        call_record(&mut self.0, alloc, line, page)
    }
}

impl<R: Tear> Part for Torn<R> {
    fn call(&mut self, alloc: Global, line: &[u8], page: &mut Page) -> Result<(), Stop> {
        match line.strip_prefix(b"tear ") {
            Some(bytes) => {
                self.0.arm(words::number(bytes)? as usize);
                page.word(b"ok")?;
                page.end_line()
            }
            None => call_record(&mut self.0, alloc, line, page),
        }
    }
}
