//! What is called what: names ascend with the numbers of their transactions.
use anyhow::Result;
use std::alloc::Global;
use xid::{Bytes, Floor, Refusal, Tx, Xid};

/// The format of all names.
const FORMAT: u32 = 1;

/// The bqual of each transaction's one branch.
const BQUAL: &[u8] = b"b0";

/// How many keys there are, which the transactions write in turn.
const KEYS: u64 = 64;

/// The name of the transaction of a number.
#[derive(Clone, Copy, Debug)]
pub struct Name {
    number: u64,
}

impl Name {
    /// The name of the transaction of a number.
    pub fn new(number: u64) -> Name {
        Name { number }
    }

    /// The transaction, with a branch at the manager.
    pub fn tx(self) -> Result<Tx, Refusal> {
        Tx::new(i64::from(FORMAT), &self.number.to_be_bytes(), &[(0, BQUAL)])
    }

    /// Its branch.
    pub fn branch(self) -> Result<Xid, Refusal> {
        Xid::new(i64::from(FORMAT), &self.number.to_be_bytes(), BQUAL)
    }

    /// The floor that stands at this name: those of lower numbers are below.
    pub fn floor(self) -> Floor {
        Floor::new(FORMAT, &self.number.to_be_bytes())
    }

    /// The key that the transaction writes.
    pub fn key(self, alloc: Global) -> Result<Bytes, Refusal> {
        Bytes::copy_of(alloc, &(self.number % KEYS).to_be_bytes())
    }

    /// The value that it writes there.
    pub fn value(self, alloc: Global) -> Result<Bytes, Refusal> {
        Bytes::copy_of(alloc, &self.number.to_be_bytes())
    }
}
