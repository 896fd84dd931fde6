//! Scripts whose first tables are large.
use crate::names::{put_hex, put_numbered};
use crate::numbers::Numbers;
use crate::scripts::{Shape, put_cluster, put_steady};
use std::alloc::{AllocError, Global};

/// In which order the keys of a first table stand.
#[derive(Clone, Copy)]
pub enum KeyOrder {
    /// The least first.
    Ascending,
    /// The greatest first.
    Descending,
    /// None.
    Shuffled,
}

/// A first table.
#[derive(Clone, Copy)]
pub struct Contents {
    /// How many rows it has.
    pub rows: u32,
    /// In which order their keys stand.
    pub order: KeyOrder,
    /// Whether keys begin with the same 50 bytes, or with the same 5.
    pub is_long: bool,
    /// Whether the last key is that of the first row, so that the script is refused.
    pub repeats: bool,
}

/// A cluster of two resource managers, whose transactions touch rows of the first tables.
pub const SHAPE: Shape = Shape {
    acceptors: 1,
    leaders: 1,
    managers: 2,
    bundled: false,
    branches: 2,
    at_once: 8,
    calls: 4,
    accounts: 1 << 20,
    is_long: false,
};

/// The number in the key of a row. All rows have other numbers, of which each is below 2^20.
fn key_number(contents: &Contents, row: u32, shift: u32) -> u32 {
    let place = if contents.repeats && row.wrapping_add(1) == contents.rows {
        0
    } else {
        row
    };
    match contents.order {
        KeyOrder::Ascending => shift.wrapping_add(place) & 0xf_ffff,
        KeyOrder::Descending => {
            let left = contents.rows.wrapping_sub(place);
            shift.wrapping_add(left) & 0xf_ffff
        }
        KeyOrder::Shuffled => place.wrapping_mul(0x9e37_79b1).wrapping_add(shift) & 0xf_ffff,
    }
}

/// A key and a value.
fn put_row(contents: &Contents, row: u32, shift: u32, out: &mut Vec<u8>) -> Result<(), AllocError> {
    out.push(b' ')?;
    if contents.is_long {
        put_hex(b"europe-west/warehouse-0017/accounts/private/", out)?;
    }
    put_numbered(b"acct:", key_number(contents, row, shift), out)?;
    out.push(b'=')?;
    put_numbered(b"balance=", shift.wrapping_add(row), out)
}

/// A script whose first resource manager has a large table, and whose transactions touch some of its rows.
pub fn with_contents(
    alloc: Global,
    contents: &Contents,
    numbers: &mut Numbers,
) -> Result<Vec<u8>, AllocError> {
    let mut out = Vec::new(alloc);
    put_cluster(&SHAPE, &mut out)?;
    out.extend_from_slice(b"table r0")?;
    // the greatest number is below 2^20, so that keys ascend and descend
    let shift = numbers.below((1u32 << 20).saturating_sub(contents.rows));
    for row in 0..contents.rows {
        put_row(contents, row, shift, &mut out)?;
    }
    out.push(b'\n')?;
    put_steady(alloc, &SHAPE, 16, numbers, &mut out)?;
    Ok(out)
}
