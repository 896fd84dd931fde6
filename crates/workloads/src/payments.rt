//! The transactions, the keys and the values of a cluster.
use crate::numbers::Numbers;
use anyhow::{Result, bail};
use std::alloc::{AllocError, Global};
use xid::{Bytes, Sequence, Tx, Xid};

/// What the bquals of a transaction's branches are.
const BQUALS: [&[u8]; 2] = [b"b0", b"b1"];

/// What a cluster's transactions and rows are called: each cluster has names of its own, and so has each seed.
#[derive(Clone, Copy)]
pub struct Payments {
    /// What the gtrid of each transaction begins with.
    begin: [u8; 10],
    /// The number that stands in the gtrid of the first.
    transactions: u32,
    /// The number in the least key of each resource manager.
    keys: [u32; 2],
}

/// A word and a number of four bytes.
fn numbered(alloc: Global, word: &[u8], number: u32) -> Result<Bytes, AllocError> {
    let mut bytes = Vec::from_slice(alloc, word)?;
    bytes.extend_from_slice(&number.to_be_bytes())?;
    Ok(Sequence::new(bytes))
}

/// The last digit of a number.
fn digit(number: u32) -> u8 {
    b'0'.wrapping_add(u8::try_from(number % 10).unwrap_or(0))
}

impl Payments {
    /// The names of one of a hundred clusters. Those of another begin with other digits.
    pub fn new(cluster: u32, numbers: &mut Numbers) -> Payments {
        let mut begin = *b"payment-00";
        begin[8] = digit(cluster / 10);
        begin[9] = digit(cluster);
        let transactions = numbers.below(1 << 31);
        let keys = [numbers.below(1 << 31), numbers.below(1 << 31)];
        Payments {
            begin,
            transactions,
            keys,
        }
    }

    /// The gtrid of the transaction of a number.
    fn gtrid(&self, number: u32) -> [u8; 14] {
        let [k, l, m, n, o, p, q, r, s, t] = self.begin;
        let [a, b, c, d] = self.transactions.wrapping_add(number).to_be_bytes();
        [k, l, m, n, o, p, q, r, s, t, a, b, c, d]
    }

    /// The transaction of a number, with a branch at both resource managers.
    pub fn tx(&self, number: u32) -> Result<Tx> {
        let [first, second] = BQUALS;
        Ok(Tx::new(1, &self.gtrid(number), &[(0, first), (1, second)])?)
    }

    /// Its branch at a resource manager.
    pub fn branch(&self, rm: u8, number: u32) -> Result<Xid> {
        let Some(bqual) = BQUALS.get(usize::from(rm)) else {
            bail!("no such branch");
        };
        Ok(Xid::new(1, &self.gtrid(number), bqual)?)
    }

    /// The key of a row of a resource manager. Keys of greater numbers are greater.
    pub fn key(&self, alloc: Global, rm: u8, number: u32) -> Result<Bytes, AllocError> {
        let [first, second] = self.keys;
        let least = if rm == 0 { first } else { second };
        numbered(alloc, b"acct:", least.wrapping_add(number))
    }

    /// The value that the transaction of a number puts.
    pub fn value(&self, alloc: Global, number: u32) -> Result<Bytes, AllocError> {
        numbered(alloc, b"balance=", self.transactions.wrapping_add(number))
    }
}
