//! The frame of a floor, which a record begins with where its node has one.

ghost use Rattle.std.specs.Prelude.{◌≡◌, ◌++◌, ◌≤◌, length, OnOk};
ghost use Rattle.xid.specs.Places.{IsPlace};
ghost use Rattle.wire.specs.Reading.{taken};
ghost use Rattle.wire.specs.Names.{place_spelling};
ghost use Rattle.stable_record.specs.Floors.{body_at, floor_at, floor_frame, front_of};

use crate::writing::put_number;
use std::alloc::AllocError;
use wire::{VERSION, take_byte, take_name, take_number};
use xid::Floor;

/// The kind of the entry that a floor is.
const KIND: u8 = 13;

/// How many bytes a floor's frame has beside those of its gtrid: its length, version, kind, format, and the gtrid's length.
const BESIDE: usize = 11;

/// How many of these the length in front counts.
const COUNTED: usize = 7;

/// Takes the place behind version and kind, where these and the length are a floor's.
#[tactic(auto, unfolding(crate::specs::Floors::body_at))]
fn take_body(len: u32, version: u8, kind: u8, bytes: &[u8]) -> Option<(Floor, &[u8])>
    ensures { taken result ≡ body_at len version kind bytes.now }
{
    if version != VERSION {
        return None;
    }
    if kind != KIND {
        return None;
    }
    let (format, gtrid, rest) = take_name(bytes)?;
    if len as usize != COUNTED + gtrid.len() {
        return None;
    }
    Some((Floor::new(format, gtrid), rest))
}

/// The floor whose frame stands at the front of a record's bytes, and what follows it. None where no floor's does.
#[tactic(auto, unfolding(crate::specs::Floors::floor_at))]
pub fn take_floor(bytes: &[u8]) -> Option<(Floor, &[u8])>
    ensures { taken result ≡ floor_at bytes.now }
{
    let (len, rest) = take_number(bytes)?;
    let (version, rest) = take_byte(rest)?;
    let (kind, rest) = take_byte(rest)?;
    take_body(len, version, kind, rest)
}

/// Puts a floor's format and gtrid at the end, as a name begins.
fn put_place(out: &mut Vec<u8>, floor: &Floor) -> Result<(), AllocError>
    ensures put { OnOk result (out.new.items ≡ out.old.items ++ place_spelling floor.now) }
    ensures valid { OnOk result (IsPlace floor.now) }
{
    let gtrid = floor.gtrid();
    let format = floor.format();
    put_number(out, format)?;
    out.push(gtrid.len() as u8)?;
    out.extend_from_slice(gtrid)?;
    Ok(())
}

/// Puts a floor's frame at the end. Refused: memory ran out, and then there may be a beginning of it.
pub(crate) fn put_floor(out: &mut Vec<u8>, floor: &Floor) -> Result<(), AllocError>
    ensures put { OnOk result (out.new.items ≡ out.old.items ++ floor_frame floor.now) }
    ensures valid { OnOk result (IsPlace floor.now) }
{
    put_number(out, COUNTED as u32 + floor.gtrid().len() as u32)?;
    out.push(VERSION)?;
    out.push(KIND)?;
    put_place(out, floor)?;
    Ok(())
}

/// How many bytes stand in front of a record's own: those of the floor's frame, if there is one.
pub(crate) fn front_len(floor: &Option<Floor>) -> usize
    ensures value { result ≡ length (front_of floor.now) }
    ensures few { result ≤ 75 }
{
    match floor {
        Some(floor) => BESIDE + floor.gtrid().len(),
        None => 0,
    }
}
