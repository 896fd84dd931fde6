ghost use Rattle.std.specs.Prelude.{◌≡◌, ◌≤◌, ◌+◌, ◌-◌, ◌==◌, min, false, length, take, is_some, Some, IfOk};
ghost use Rattle.stable_record.specs.Held.{HasAdded, HasPut, HasRead, IsCounted, armed_with, most_faults};
ghost use Rattle.stable_record.specs.declared.record.RecordError.TheVariants.{Fault};
ghost use Rattle.stable_record.specs.Records.{FailsInTurn, fail_held, is_made};

use crate::record::{Record, RecordError, Tear};
use std::alloc::Global;

/// What a record holds after the cut or the replacement that was made to fail.
#[derive(Clone, Copy, Debug, PartialEq, Eq)]
pub enum Leaves {
    /// Its bytes from before.
    Old,
    /// The bytes that were to stand.
    New,
}

/// A record over another, of which one call fails: `Fault` is answered and counted, where the other would not have failed.
#[derive(Drop)]
pub struct FailRecord<R> {
    inner: R,
    left: u64,
    leaves: Leaves,
    kept: usize,
    faults: u64,
}

impl<R: Record> FailRecord<R> {
    /// The record whose call of this number fails, counted from 1 over reads, appends, cuts and replacements; none fails where the
    /// number is 0. A cut or a replacement that fails so leaves what `leaves` says, an append adds nothing, unless a tear is armed, which
    /// then stops it.
    pub fn new(inner: R, call: u64, leaves: Leaves) -> FailRecord<R>
        ensures { result ≡ record { inner = inner; left = call; leaves = leaves; kept = 0; faults = 0 } }
    {
        FailRecord {
            inner,
            left: call,
            leaves,
            kept: 0,
            faults: 0,
        }
    }

    /// The record beneath.
    pub fn into_inner(self) -> R
        ensures { result ≡ self.inner }
    {
        self.inner
    }

    /// Whether this call is the one that fails. It counts the call.
    fn is_due(&mut self) -> bool
        ensures same { self.new ≡ record {
          inner = self.old.inner;
          left = self.old.left - 1;
          leaves = self.old.leaves;
          kept = self.old.kept;
          faults = self.old.faults;
        } }
        ensures due { result ≡ (self.old.left == 1) }
    {
        let due = self.left == 1;
        self.left = self.left.saturating_sub(1);
        due
    }

    /// Counts a fault, and answers it.
    fn count(&mut self) -> RecordError
        ensures fault { result ≡ Fault }
        ensures counted { IsCounted self.old.faults self.new.faults }
        ensures same { self.new ≡ record {
          inner = self.old.inner;
          left = self.old.left;
          leaves = self.old.leaves;
          kept = self.old.kept;
          faults = min (self.old.faults + 1) most_faults;
        } }
    {
        self.faults = self.faults.saturating_add(1);
        RecordError::Fault
    }
}

impl<R: Record> Record for FailRecord<R> {
    ghost held = { fail_held R.held };

    fn read(&mut self, alloc: Global) -> Result<Vec<u8>, RecordError>
        ensures bytes { IfOk result (λ read. read.items ≡ (fail_held R.held self.old).bytes) }
        ensures step { HasRead (fail_held R.held self.old) (fail_held R.held self.new) result }
        ensures turn { FailsInTurn (λ old new answer. HasRead (R.held old) (R.held new) answer) false self.old self.new result }
    {
        if self.is_due() {
            return Err(self.count());
        }
        match self.inner.read(alloc) {
            Ok(bytes) => Ok(bytes),
            Err(RecordError::Fault) => Err(self.count()),
            Err(RecordError::Memory) => Err(RecordError::Memory),
        }
    }

    fn append(&mut self, bytes: &[u8]) -> Result<(), RecordError>
        ensures step { HasAdded bytes.now (fail_held R.held self.old) (fail_held R.held self.new) result }
        ensures turn { FailsInTurn (λ old new answer. HasAdded bytes.now (R.held old) (R.held new) answer)
            (is_some (R.held self.old.inner).armed) self.old self.new result }
    {
        if self.is_due() && !self.inner.is_armed() {
            self.kept = 0;
            return Err(self.count());
        }
        match self.inner.append(bytes) {
            Ok(()) => {
                self.kept = bytes.len();
                Ok(())
            }
            Err(RecordError::Fault) => {
                self.kept = self.inner.kept();
                Err(self.count())
            }
            Err(RecordError::Memory) => Err(RecordError::Memory),
        }
    }

    fn cut(&mut self, len: usize) -> Result<(), RecordError>
        requires within { len ≤ length (fail_held R.held self.old).bytes }
        ensures step { HasPut (take len (fail_held R.held self.old).bytes) (fail_held R.held self.old) (fail_held R.held self.new) result }
        ensures turn { FailsInTurn (λ old new answer. HasPut (take len (R.held old).bytes) (R.held old) (R.held new) answer)
            (is_made self.old.leaves) self.old self.new result }
    {
        let due = self.is_due();
        if due && self.leaves == Leaves::Old {
            return Err(self.count());
        }
        match self.inner.cut(len) {
            Ok(()) => {
                if due {
                    return Err(self.count());
                }
                Ok(())
            }
            Err(RecordError::Fault) => Err(self.count()),
            Err(RecordError::Memory) => Err(RecordError::Memory),
        }
    }

    fn replace(&mut self, bytes: &[u8]) -> Result<(), RecordError>
        ensures step { HasPut bytes.now (fail_held R.held self.old) (fail_held R.held self.new) result }
        ensures turn { FailsInTurn (λ old new answer. HasPut bytes.now (R.held old) (R.held new) answer) (is_made self.old.leaves)
            self.old self.new result }
    {
        let due = self.is_due();
        if due && self.leaves == Leaves::Old {
            return Err(self.count());
        }
        match self.inner.replace(bytes) {
            Ok(()) => {
                if due {
                    return Err(self.count());
                }
                Ok(())
            }
            Err(RecordError::Fault) => Err(self.count()),
            Err(RecordError::Memory) => Err(RecordError::Memory),
        }
    }

    fn kept(&self) -> usize {
        self.kept
    }

    fn faults(&self) -> u64 {
        self.faults
    }

    fn is_armed(&self) -> bool {
        self.inner.is_armed()
    }
}

impl<R: Tear> Tear for FailRecord<R> {
    fn arm(&mut self, n: usize)
        ensures armed { fail_held R.Record.held self.new ≡ armed_with (Some n) (fail_held R.Record.held self.old) }
        ensures left { self.new.left ≡ self.old.left }
        ensures leaves { self.new.leaves ≡ self.old.leaves }
    {
        self.inner.arm(n);
    }
}
