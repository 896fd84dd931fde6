//! Scripts of several kinds.
use crate::names::{Name, put_hex, put_number, put_numbered};
use crate::numbers::Numbers;
use std::alloc::{AllocError, Global};

/// What a script's cluster and its transactions are like.
#[derive(Clone, Copy)]
pub struct Shape {
    /// How many acceptors there are.
    pub acceptors: u8,
    /// How many leaders.
    pub leaders: u8,
    /// How many resource managers.
    pub managers: u8,
    /// Whether phases go in bundles.
    pub bundled: bool,
    /// How many branches a transaction has.
    pub branches: u8,
    /// How many transactions are open at a time.
    pub at_once: u32,
    /// How many calls a branch makes.
    pub calls: u32,
    /// How many keys there are.
    pub accounts: u32,
    /// Whether names are long.
    pub is_long: bool,
}

/// The number in the name of a script's first transaction is below this one, so that eight digits are enough for all.
const NAMES: u32 = 90_000_000;

/// A word and a number after it.
fn put_word(word: &[u8], number: u32, out: &mut Vec<u8>) -> Result<(), AllocError> {
    out.extend_from_slice(word)?;
    put_number(number, out)
}

/// The first line of a script.
pub fn put_cluster(shape: &Shape, out: &mut Vec<u8>) -> Result<(), AllocError> {
    put_word(b"cluster acceptors ", u32::from(shape.acceptors), out)?;
    put_word(b" leaders ", u32::from(shape.leaders), out)?;
    put_word(b" rms ", u32::from(shape.managers), out)?;
    if shape.bundled {
        out.extend_from_slice(b" bundled")?;
    }
    out.push(b'\n')?;
    Ok(())
}

/// The names of transactions, so many from the first.
fn names_of(alloc: Global, shape: &Shape, first: u32, count: u32) -> Result<Vec<Name>, AllocError> {
    let mut names = Vec::new(alloc);
    let places = u32::from(shape.managers.saturating_sub(shape.branches)).saturating_add(1);
    for place in 0..count {
        let number = first.saturating_add(place);
        let manager = u8::try_from(number % places).unwrap_or(0);
        let name = Name::new(alloc, number, manager, shape.branches, shape.is_long)?;
        names.push(name)?;
    }
    Ok(names)
}

/// A line of a call on a branch.
fn put_call(
    word: &[u8],
    branch: &(u8, Vec<u8>),
    more: &[u8],
    out: &mut Vec<u8>,
) -> Result<(), AllocError> {
    out.extend_from_slice(word)?;
    put_word(b" r", u32::from(branch.0), out)?;
    out.push(b' ')?;
    out.extend_from_slice(&branch.1)?;
    out.extend_from_slice(more)?;
    out.push(b'\n')?;
    Ok(())
}

/// A put, a get or a del of some key.
fn put_work(
    shape: &Shape,
    branch: &(u8, Vec<u8>),
    numbers: &mut Numbers,
    words: &mut Vec<u8>,
    out: &mut Vec<u8>,
) -> Result<(), AllocError> {
    words.clear();
    words.push(b' ')?;
    put_numbered(b"acct:", numbers.below(shape.accounts), words)?;
    let kind = numbers.below(100);
    if kind < 20 {
        return put_call(b"get", branch, words, out);
    }
    if kind < 27 {
        return put_call(b"del", branch, words, out);
    }
    words.push(b' ')?;
    put_hex(b"balance=", words)?;
    put_numbered(&[], numbers.below(1_000_000), words)?;
    put_call(b"put", branch, words, out)
}

/// A line of an event of a leader or a resource manager on a transaction.
fn put_event(word: &[u8], number: u32, name: &Name, out: &mut Vec<u8>) -> Result<(), AllocError> {
    put_word(word, number, out)?;
    out.push(b' ')?;
    out.extend_from_slice(&name.tx)?;
    out.push(b'\n')?;
    Ok(())
}

/// A line of a word and a number.
fn put_line(word: &[u8], number: u32, out: &mut Vec<u8>) -> Result<(), AllocError> {
    put_word(word, number, out)?;
    out.push(b'\n')?;
    Ok(())
}

/// The branches of transactions start, work and end, and their transactions are to be committed.
fn put_batch(
    alloc: Global,
    shape: &Shape,
    names: &[Name],
    numbers: &mut Numbers,
    out: &mut Vec<u8>,
) -> Result<(), AllocError> {
    let mut words = Vec::new(alloc);
    for name in names {
        for branch in &name.branches {
            put_call(b"start", branch, b"", out)?;
        }
    }
    for name in names {
        for branch in &name.branches {
            for _ in 0..shape.calls {
                put_work(shape, branch, numbers, &mut words, out)?;
            }
        }
    }
    for name in names {
        for branch in &name.branches {
            put_call(b"end", branch, b"", out)?;
        }
    }
    for name in names {
        put_event(b"commit l", 0, name, out)?;
    }
    Ok(())
}

/// A script of transactions that all go well, so many open at a time.
pub fn steady(
    alloc: Global,
    shape: &Shape,
    transactions: u32,
    numbers: &mut Numbers,
) -> Result<Vec<u8>, AllocError> {
    let mut out = Vec::new(alloc);
    put_cluster(shape, &mut out)?;
    put_steady(alloc, shape, transactions, numbers, &mut out)?;
    Ok(out)
}

/// The events of it. The names of its transactions go on from a number that is drawn.
pub fn put_steady(
    alloc: Global,
    shape: &Shape,
    transactions: u32,
    numbers: &mut Numbers,
    out: &mut Vec<u8>,
) -> Result<(), AllocError> {
    let at_once = shape.at_once.max(1);
    let base = numbers.below(NAMES);
    for batch in 0..transactions.div_ceil(at_once) {
        let first = base.saturating_add(batch.saturating_mul(at_once));
        let names = names_of(alloc, shape, first, at_once)?;
        put_batch(alloc, shape, &names, numbers, out)?;
        out.extend_from_slice(b"flow 1000000\n")?;
    }
    Ok(())
}

/// Some of the datagrams between the two numbers are lost.
fn put_losses(
    first: u32,
    end: u32,
    percent: u32,
    numbers: &mut Numbers,
    out: &mut Vec<u8>,
) -> Result<(), AllocError> {
    for number in first..end {
        if numbers.happens(percent) {
            put_line(b"lose ", number, out)?;
        }
    }
    Ok(())
}

/// Now and then a node's next write is torn, or it is restarted, or its record is made shorter, or noise comes to it.
fn put_faults(shape: &Shape, numbers: &mut Numbers, out: &mut Vec<u8>) -> Result<(), AllocError> {
    for acceptor in 0..shape.acceptors {
        let number = u32::from(acceptor);
        if numbers.happens(15) {
            put_word(b"tear a", number, out)?;
            put_line(b" ", numbers.below(40), out)?;
        }
        if numbers.happens(10) {
            put_line(b"compact a", number, out)?;
        }
    }
    for manager in 0..shape.managers {
        let number = u32::from(manager);
        if numbers.happens(10) {
            put_word(b"noise r", number, out)?;
            out.extend_from_slice(b" 02010000000101")?;
            let letter = u8::try_from(numbers.below(26)).unwrap_or(0);
            put_hex(&[b'a'.wrapping_add(letter)], out)?;
            out.push(b'\n')?;
        }
        if numbers.happens(20) {
            put_line(b"restart r", number, out)?;
        }
    }
    Ok(())
}

/// Each transaction is timed out at the second leader, and at its resource managers.
fn put_timeouts(
    shape: &Shape,
    names: &[Name],
    percent: u32,
    numbers: &mut Numbers,
    out: &mut Vec<u8>,
) -> Result<(), AllocError> {
    for name in names {
        if numbers.happens(percent) {
            put_event(b"timeout l", 1, name, out)?;
        }
        if numbers.happens(percent) {
            let manager = numbers.below(u32::from(shape.managers));
            put_event(b"timeout r", manager, name, out)?;
        }
    }
    Ok(())
}

/// A script of a few transactions, all open at a time, of whose datagrams many are lost, whose nodes fail, and which a second leader takes
/// over.
pub fn failing(alloc: Global, shape: &Shape, numbers: &mut Numbers) -> Result<Vec<u8>, AllocError> {
    let mut out = Vec::new(alloc);
    put_cluster(shape, &mut out)?;
    let first = numbers.below(NAMES);
    let names = names_of(alloc, shape, first, shape.at_once)?;
    put_batch(alloc, shape, &names, numbers, &mut out)?;
    let asked = shape.at_once.saturating_mul(u32::from(shape.branches));
    put_line(b"flow ", asked, &mut out)?;
    put_faults(shape, numbers, &mut out)?;
    put_line(b"flow ", asked.saturating_mul(2), &mut out)?;
    let sent = asked.saturating_mul(8);
    put_losses(asked, sent, 30, numbers, &mut out)?;
    put_timeouts(shape, &names, 75, numbers, &mut out)?;
    put_line(b"flow ", asked.saturating_mul(3), &mut out)?;
    put_losses(sent, sent.saturating_mul(2), 10, numbers, &mut out)?;
    for acceptor in 0..shape.acceptors {
        put_line(b"restart a", u32::from(acceptor), &mut out)?;
    }
    for _ in 0..2 {
        put_timeouts(shape, &names, 100, numbers, &mut out)?;
        out.extend_from_slice(b"flow 100000\n")?;
    }
    for name in &names {
        put_event(b"status l", 1, name, &mut out)?;
    }
    Ok(out)
}
