ghost use Rattle.std.specs.Prelude.{◌≡◌, ◌≤◌, length, take, Some, is_some, IfOk};
ghost use Rattle.stable_record.specs.declared.record.RecordError.TheVariants.{Memory};
ghost use Rattle.stable_record.specs.Held.{Held, refusal_of, HasRead, HasAdded, HasPut, armed_with};

use std::alloc::{AllocError, AllocFailed, Global};
use xid::Refusal;

/// Why a call of a record failed.
#[derive(Clone, Copy, Debug, PartialEq, Eq)]
pub enum RecordError {
    /// The record failed, and counted it.
    Fault,
    /// Memory ran out. The record is as it was.
    Memory,
}

impl From<AllocError> for RecordError {
    ghost from_gives = { λ _ e. e ≡ Memory };

    fn from(_error: AllocError) -> RecordError {
        RecordError::Memory
    }
}

impl<T: Drop> From<AllocFailed<T>> for RecordError {
    ghost from_gives = { λ _ e. e ≡ Memory };

    fn from(_error: AllocFailed<T>) -> RecordError {
        RecordError::Memory
    }
}

impl From<RecordError> for Refusal {
    ghost from_gives = { λ error refusal. refusal ≡ refusal_of error };

    fn from(error: RecordError) -> Refusal {
        match error {
            RecordError::Fault => Refusal::RecordFault,
            RecordError::Memory => Refusal::NoMemory,
        }
    }
}

/// Bytes that outlast their node: they are read whole, added to, cut and replaced. Each call that answers `Fault` was counted, and one
/// that answers `Memory` has left all as it was.
pub trait Record {
    /// What it holds.
    ghost held: { Self → Held };

    /// All its bytes. A refusal leaves them.
    fn read(&mut self, alloc: Global) -> Result<Vec<u8>, RecordError>
        ensures bytes { IfOk result (λ read. read.items ≡ (held self.old).bytes) }
        ensures step { HasRead (held self.old) (held self.new) result };

    /// Adds bytes at the end. Where it answers `Fault`, the first `kept()` of them were added; a tear that was armed makes it so, and is
    /// armed no longer.
    fn append(&mut self, bytes: &[u8]) -> Result<(), RecordError>
        ensures step { HasAdded bytes.now (held self.old) (held self.new) result };

    /// Leaves the first so many bytes. Where it answers `Fault`, it has left these or all.
    fn cut(&mut self, len: usize) -> Result<(), RecordError>
        requires within { len ≤ length (held self.old).bytes }
        ensures step { HasPut (take len (held self.old).bytes) (held self.old) (held self.new) result };

    /// Puts other bytes in the place of its own. Where it answers `Fault`, it holds the others or its own.
    fn replace(&mut self, bytes: &[u8]) -> Result<(), RecordError>
        ensures step { HasPut bytes.now (held self.old) (held self.new) result };

    /// How many bytes the last append added, of those that answered `Ok` or `Fault`.
    fn kept(&self) -> usize
        ensures { result ≡ (held self.now).kept };

    /// How often it has answered `Fault`. The count stays at its greatest value.
    fn faults(&self) -> u64
        ensures { result ≡ (held self.now).faults };

    /// Whether a tear is armed.
    fn is_armed(&self) -> bool
        ensures { result ≡ is_some (held self.now).armed };
}

/// A record of which an append can be made to stop.
pub trait Tear: Record {
    /// The next append that doesn't answer `Memory` adds the first so many of its bytes, all if it has fewer, and answers `Fault`. An
    /// earlier tear is armed no longer.
    fn arm(&mut self, n: usize)
        ensures { Self.Record.held self.new ≡ armed_with (Some n) (Self.Record.held self.old) };
}
