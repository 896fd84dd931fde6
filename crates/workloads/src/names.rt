//! The names of transactions in scripts, and the words that scripts say them with.
use std::alloc::{AllocError, Global};

/// What the gtrid of each transaction begins with: `ord`, and a character that tells one copy of a trace from another.
const BEGIN: &[u8] = b"ord0-";

/// What stands in the middle of a long name.
const MIDDLE: &[u8] = b"europe-west/warehouse-0017/payments/2026-11/";

const HEX: &[u8; 16] = b"0123456789abcdef";

/// The text of a number.
pub fn put_number(number: u32, out: &mut Vec<u8>) -> Result<(), AllocError> {
    let text = digits(number);
    let zeros = text
        .iter()
        .take(7)
        .take_while(|digit| **digit == b'0')
        .count();
    out.extend_from_slice(&text[zeros..])
}

/// The last eight digits of a number.
fn digits(number: u32) -> [u8; 8] {
    let mut text = [b'0'; 8];
    let mut left = number;
    for place in 0..8 {
        text[7 - place] = b'0' + (left % 10) as u8;
        left /= 10;
    }
    text
}

/// Bytes in hex.
pub fn put_hex(bytes: &[u8], out: &mut Vec<u8>) -> Result<(), AllocError> {
    for byte in bytes {
        out.push(HEX[usize::from(*byte / 16)])?;
        out.push(HEX[usize::from(*byte % 16)])?;
    }
    Ok(())
}

/// Bytes and a number of eight digits behind them, in hex.
pub fn put_numbered(bytes: &[u8], number: u32, out: &mut Vec<u8>) -> Result<(), AllocError> {
    put_hex(bytes, out)?;
    for digit in digits(number) {
        out.push(b'3')?;
        out.push(digit)?;
    }
    Ok(())
}

/// The words of a transaction: its own, and those of its branches.
#[derive(Drop)]
pub struct Name {
    /// Its word.
    pub tx: Vec<u8>,
    /// The number of the resource manager of each branch, and the branch's word.
    pub branches: Vec<(u8, Vec<u8>)>,
}

/// The hex of a transaction's gtrid: of 13 bytes, or of 57.
fn gtrid_of(alloc: Global, number: u32, is_long: bool) -> Result<Vec<u8>, AllocError> {
    let mut text = Vec::new(alloc);
    put_hex(BEGIN, &mut text)?;
    put_numbered(if is_long { MIDDLE } else { &[] }, number, &mut text)?;
    Ok(text)
}

/// The hex of the bqual of a resource manager's branch: of two bytes, or of 46.
fn bqual_of(alloc: Global, rm: u8, is_long: bool) -> Result<Vec<u8>, AllocError> {
    let mut text = Vec::new(alloc);
    put_hex(if is_long { MIDDLE } else { &[] }, &mut text)?;
    put_hex(&[b'b', rm.wrapping_add(b'0')], &mut text)?;
    Ok(text)
}

impl Name {
    /// The words of the transaction of a number, with so many branches at resource managers one after another, from the first.
    pub fn new(
        alloc: Global,
        number: u32,
        first: u8,
        count: u8,
        is_long: bool,
    ) -> Result<Name, AllocError> {
        let gtrid = gtrid_of(alloc, number, is_long)?;
        let mut tx = Vec::from_slice(alloc, b"1:")?;
        tx.extend_from_slice(&gtrid)?;
        let mut branches = Vec::new(alloc);
        for place in 0..count {
            let rm = first.saturating_add(place);
            let bqual = bqual_of(alloc, rm, is_long)?;
            tx.push(if place == 0 { b'/' } else { b',' })?;
            put_number(u32::from(rm), &mut tx)?;
            tx.push(b'=')?;
            tx.extend_from_slice(&bqual)?;
            let mut word = Vec::from_slice(alloc, b"1:")?;
            word.extend_from_slice(&gtrid)?;
            word.push(b':')?;
            word.extend_from_slice(&bqual)?;
            branches.push((rm, word))?;
        }
        Ok(Name { tx, branches })
    }
}
