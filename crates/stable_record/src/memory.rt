ghost use Rattle.std.specs.Prelude.{◌≡◌, is_some, Some, None};

use crate::record::{Record, RecordError, Tear};
use std::alloc::Global;

/// A record in memory, which never fails of itself: it answers `Fault` only where a tear is armed.
#[derive(Drop)]
pub struct MemRecord {
    alloc: Global,
    bytes: Vec<u8>,
    kept: usize,
    faults: u64,
    armed: Option<usize>,
}

impl MemRecord {
    ghost use Rattle.stable_record.specs.Records.{mem_held, fresh};

    /// A record of these bytes, with no fault counted and no tear armed.
    pub fn new(alloc: Global, bytes: Vec<u8>) -> MemRecord
        ensures { mem_held result ≡ fresh bytes.items }
    {
        MemRecord {
            alloc,
            bytes,
            kept: 0,
            faults: 0,
            armed: None,
        }
    }

    /// Its bytes.
    pub fn as_slice(&self) -> &[u8]
        ensures { result.now ≡ (mem_held self.now).bytes }
    {
        &self.bytes
    }
}

impl Record for MemRecord {
    ghost use Rattle.stable_record.specs.Records.{mem_held};

    ghost held = { mem_held };

    fn read(&mut self, alloc: Global) -> Result<Vec<u8>, RecordError> {
        Ok(self.bytes.to_vec(alloc)?)
    }

    fn append(&mut self, bytes: &[u8]) -> Result<(), RecordError> {
        match self.armed {
            None => {
                self.bytes.extend_from_slice(bytes)?;
                self.kept = bytes.len();
                Ok(())
            }
            Some(n) => {
                let kept = n.min(bytes.len());
                self.bytes.extend_from_slice(&bytes[..kept])?;
                self.kept = kept;
                self.armed = None;
                self.faults = self.faults.saturating_add(1);
                Err(RecordError::Fault)
            }
        }
    }

    fn cut(&mut self, len: usize) -> Result<(), RecordError> {
        self.bytes.truncate(len);
        Ok(())
    }

    fn replace(&mut self, bytes: &[u8]) -> Result<(), RecordError> {
        self.bytes = Vec::from_slice(self.alloc, bytes)?;
        Ok(())
    }

    fn kept(&self) -> usize {
        self.kept
    }

    fn faults(&self) -> u64 {
        self.faults
    }

    fn is_armed(&self) -> bool {
        self.armed.is_some()
    }
}

impl Tear for MemRecord {
    fn arm(&mut self, n: usize) {
        self.armed = Some(n);
    }
}
