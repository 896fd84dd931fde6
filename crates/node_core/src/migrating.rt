//! How frames of version 1 are written anew, in version 2.

ghost use Rattle.std.specs.Prelude.{◌≡◌, ◌<◌, ◌==◌, length, get_or};
ghost use Rattle.node_core.specs.Opening.{IsCurrent, IsReplaced, Rewrites};

use crate::frames::entry_frames;
use stable_record::{Record, entries};
use std::alloc::Global;
use wire::{VERSION, take_number};
use xid::Refusal;

/// Whether the body of a frame is of version 2.
fn is_second(body: &[u8]) -> bool
    requires { 0 < length body.now }
    ensures { result ≡ (get_or body.now 0 0 == 2) }
{
    body[0] == VERSION
}

/// Whether all frames of bytes, which hold nothing else, are of version 2.
fn is_current(bytes: &[u8]) -> bool
    ensures { IsCurrent bytes.now result }
{
    let mut rest = bytes;
    loop {
        let Some((len, body)) = take_number(rest) else {
            return true;
        };
        let len = len as usize;
        if len == 0 {
            return true;
        }
        if body.len() < len {
            return true;
        }
        if !is_second(body) {
            return false;
        }
        let (_, after) = body.split_at(len);
        rest = after;
    }
}

/// Puts bytes in the place of a record's. Refused: the record failed (`RecordFault`), and holds the one or the other; `NoMemory`, and it is
/// as it was.
pub(crate) fn replace<R: Record>(device: &mut R, bytes: &[u8]) -> Result<(), Refusal>
    ensures { IsReplaced bytes.now (R.held device.old) (R.held device.new) result }
{
    Ok(device.replace(bytes)?)
}

/// Where a frame of version 1 stands in a record, which holds these bytes and no tail, puts the frames of the same entries in version 2 in
/// their place. Refused: the record failed (`RecordFault`), and holds the one or the other; `NoMemory`, and it is as it was.
pub(crate) fn migrate<R: Record>(alloc: Global, device: &mut R, bytes: &[u8]) -> Result<(), Refusal>
    requires { (R.held device.old).bytes ≡ bytes.now }
    ensures { Rewrites (R.held device.old) (R.held device.new) result }
{
    if is_current(bytes) {
        return Ok(());
    }
    let (all, _) = match entries(alloc, bytes) {
        Ok(read) => read,
        Err(refusal) => return Err(refusal),
    };
    match entry_frames(alloc, &all) {
        Ok(frames) => replace(device, &frames),
        Err(refusal) => Err(refusal),
    }
}
