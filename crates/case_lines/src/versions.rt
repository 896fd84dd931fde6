//! A node's record in both versions. A node builds the entries of version 1, and sees those of version 2 over their frames.

use crate::page::{Page, frames_in};
use crate::places::Place;
use crate::stop::Stop;
use floored::Floored;
use stable_record::MemRecord;
use std::alloc::Global;
use wire::{SpelledTx, VERSION};
use xid::Refusal;

/// The byte that a small number is.
fn byte(number: usize) -> Result<u8, Stop> {
    match u8::try_from(number) {
        Ok(number) => Ok(number),
        Err(_) => Err(Stop::Unread),
    }
}

/// Puts a part of a name, behind its length.
fn put_part(part: &[u8], out: &mut Vec<u8>) -> Result<(), Stop> {
    out.push(byte(part.len())?)?;
    Ok(out.extend_from_slice(part)?)
}

/// Puts a transaction as version 1 spells it.
fn put_tx(tx: &SpelledTx<'_>, out: &mut Vec<u8>) -> Result<(), Stop> {
    for i in 0..tx.count() {
        let rm = tx.rm(i);
        let Some(xid) = tx.branch(rm) else {
            return Err(Stop::Unread);
        };
        if i == 0 {
            out.extend_from_slice(&xid.format().to_be_bytes())?;
            put_part(xid.gtrid(), out)?;
            out.push(byte(tx.count())?)?;
        }
        out.push(byte(usize::from(rm))?)?;
        put_part(xid.bqual(), out)?;
    }
    Ok(())
}

/// Puts what follows the transaction in an entry of this kind: the instance of a promise and an accept has one byte.
fn put_rest(kind: u8, rest: &[u8], out: &mut Vec<u8>) -> Result<(), Stop> {
    match rest {
        [_, instance, rest @ ..] if kind <= 2 => {
            out.push(*instance)?;
            Ok(out.extend_from_slice(rest)?)
        }
        rest => Ok(out.extend_from_slice(rest)?),
    }
}

/// Puts the body of an entry of this kind in version 1. False where it has none there.
fn put_body(kind: u8, rest: &[u8], out: &mut Vec<u8>) -> Result<bool, Stop> {
    out.extend_from_slice(&[1, kind])?;
    if kind == 9 || kind == 10 {
        out.extend_from_slice(rest)?;
        return Ok(true);
    }
    let Some((tx, rest)) = SpelledTx::take(rest) else {
        return Ok(false);
    };
    if tx.count() > 8 || !tx.are_below(8) {
        return Ok(false);
    }
    put_tx(&tx, out)?;
    put_rest(kind, rest, out)?;
    Ok(true)
}

/// Puts a frame of version 2 in version 1, and all else as it is.
fn put_frame(alloc: Global, frame: &[u8], out: &mut Vec<u8>) -> Result<(), Stop> {
    if let [_, _, _, _, VERSION, kind, rest @ ..] = frame {
        let mut body = Vec::new(alloc);
        if put_body(*kind, rest, &mut body)? {
            out.extend_from_slice(&[0, 0])?;
            out.push(byte(body.len() / 256)?)?;
            out.push(byte(body.len() % 256)?)?;
            return Ok(out.extend_from_slice(&body)?);
        }
    }
    Ok(out.extend_from_slice(frame)?)
}

/// The frames of bytes in version 1, where they have one there.
fn in_first_version(alloc: Global, bytes: &[u8]) -> Result<Vec<u8>, Stop> {
    let mut old = Vec::new(alloc);
    for frame in &frames_in(alloc, bytes)? {
        put_frame(alloc, frame, &mut old)?;
    }
    Ok(old)
}

/// The node that is opened over a record of these bytes; none where it is refused, which the page says.
fn open(
    place: &Place,
    alloc: Global,
    bytes: &[u8],
    page: &mut Page,
) -> Result<Option<Floored<MemRecord>>, Stop> {
    let record = MemRecord::new(alloc, Vec::from_slice(alloc, bytes)?);
    match Floored::open(alloc, &place.config, place.who, record) {
        Ok(node) => Ok(Some(node)),
        Err((_record, Refusal::NoMemory)) => Err(Stop::Ended),
        Err((_record, refusal)) => {
            page.refusal(refusal)?;
            Ok(None)
        }
    }
}

/// What is seen of a node: the rows of its table, and its open transactions.
fn look(node: &mut Floored<MemRecord>, page: &mut Page) -> Result<(), Stop> {
    match node.table() {
        Ok(rows) => page.rows(rows.as_slice())?,
        Err(Refusal::NoMemory) => return Err(Stop::Ended),
        Err(refusal) => page.refusal(refusal)?,
    }
    match node.open_transactions() {
        Ok(txs) => {
            for tx in txs.as_slice() {
                page.tx(tx)?;
            }
            page.end_line()
        }
        Err(Refusal::NoMemory) => Err(Stop::Ended),
        Err(refusal) => page.finished(Err(refusal)),
    }
}

/// What a node that is opened over these bytes is, and its record: made shorter, and as it was opened.
fn say(place: &Place, alloc: Global, bytes: &[u8], page: &mut Page) -> Result<(), Stop> {
    let Some(mut node) = open(place, alloc, bytes, page)? else {
        return page.end_line();
    };
    look(&mut node, page)?;
    node.compact()?;
    page.hex(node.into_record().as_slice())?;
    page.end_line()?;
    let Some(node) = open(place, alloc, bytes, page)? else {
        return page.end_line();
    };
    page.hex(node.into_record().as_slice())?;
    page.end_line()
}

/// Prints a line that is never right where a node over a record of these bytes comes to another state than one over them in version 1.
pub fn agree(place: &Place, alloc: Global, bytes: &[u8], page: &mut Page) -> Result<(), Stop> {
    let mut first = Page::new(alloc)?;
    say(place, alloc, &in_first_version(alloc, bytes)?, &mut first)?;
    let mut second = Page::new(alloc)?;
    say(place, alloc, bytes, &mut second)?;
    page.compare(&first, &second)
}
