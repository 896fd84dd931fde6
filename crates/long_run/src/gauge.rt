//! How many bytes a record has, while a node holds it.

ghost use Rattle.std.specs.Prelude.{length};
ghost use Rattle.stable_record.specs.Records.{mem_held};

use stable_record::{MemRecord, Record, RecordError};
use std::alloc::{AllocError, Global};
use std::cell::Cell;
use std::fmt;
use std::rc::Rc;

/// How many bytes a record has.
#[derive(Clone, Copy, Debug)]
pub struct Length {
    /// Now.
    pub now: usize,
    /// The most that it ever had.
    pub most: usize,
}

impl fmt::Display for Length {
    fn fmt<W: fmt::Write>(&self, f: &mut fmt::Formatter<W>) -> fmt::Result {
        write!(f, "{} {}", self.now, self.most)
    }
}

/// Shows how many bytes a record has.
#[derive(Drop)]
pub struct Gauge {
    shown: Rc<Cell<Length>>,
}

impl Gauge {
    /// What it shows.
    pub fn length(&self) -> Length {
        self.shown.get()
    }
}

/// A record in memory, whose length a gauge shows.
#[derive(Drop)]
pub struct GaugedRecord {
    inner: MemRecord,
    shown: Rc<Cell<Length>>,
}

impl GaugedRecord {
    /// An empty record, and its gauge.
    pub fn new(alloc: Global) -> Result<(GaugedRecord, Gauge), AllocError> {
        let shown = Rc::new(alloc, Cell::new(Length { now: 0, most: 0 }))?;
        let gauge = Gauge {
            shown: shown.clone()?,
        };
        let inner = MemRecord::new(alloc, Vec::new(alloc));
        Ok((GaugedRecord { inner, shown }, gauge))
    }

    /// The gauge shows what the record has now.
    fn show(&self) {
        let now = self.inner.as_slice().len();
        let most = self.shown.get().most.max(now);
        self.shown.set(Length { now, most });
    }
}

impl Record for GaugedRecord {
    ghost held = { λ r. mem_held r.inner };

    fn read(&mut self, alloc: Global) -> Result<Vec<u8>, RecordError> {
        self.inner.read(alloc)
    }

    fn append(&mut self, bytes: &[u8]) -> Result<(), RecordError> {
        let done = self.inner.append(bytes);
        self.show();
        done
    }

    fn cut(&mut self, len: usize) -> Result<(), RecordError> {
        let done = self.inner.cut(len);
        self.show();
        done
    }

    fn replace(&mut self, bytes: &[u8]) -> Result<(), RecordError> {
        let done = self.inner.replace(bytes);
        self.show();
        done
    }

    fn kept(&self) -> usize {
        self.inner.kept()
    }

    fn faults(&self) -> u64 {
        self.inner.faults()
    }

    fn is_armed(&self) -> bool {
        self.inner.is_armed()
    }
}
