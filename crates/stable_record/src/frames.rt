ghost use Rattle.std.specs.Prelude.{◌≡◌, ◌⊎◌, ◌≤◌, length, drop, IfOk, IfErr, IfSome, MatchOption};
ghost use Rattle.xid.specs.declared.refusals.Refusal.TheVariants.{Damaged, NoMemory};
ghost use Rattle.stable_record.specs.Grammar.{IsTail, IsFramed, IsStored, IsDamaged, HasNoFrame};
ghost use Rattle.stable_record.specs.Views.{HasBody, entry_seen};

use crate::entry::Entry;
use crate::reading::{entry_of, view_of};
use crate::view::EntryView;
use std::alloc::Global;
use wire::take_number;
use xid::Refusal;

/// How many bytes the body of a frame has at most.
pub const MAX_BODY: u32 = 32768;

/// The body of the frame that stands at the front, and what follows the frame. None where the bytes are a tail. Refused (`Damaged`) where
/// they have no such length in front.
fn take_body(bytes: &[u8]) -> Result<Option<(&[u8], &[u8])>, Refusal>
    ensures ok { IfOk result (λ found. MatchOption found (IsTail bytes.now) (λ x. HasBody bytes.now x.0.now x.1.now)) }
    ensures err { IfErr result (λ e. (e ≡ Damaged) × HasNoFrame bytes.now) }
{
    let Some((len, rest)) = take_number(bytes) else {
        return Ok(None);
    };
    if len == 0 {
        return Err(Refusal::Damaged);
    }
    if len > MAX_BODY {
        return Err(Refusal::Damaged);
    }
    let len = len as usize;
    if rest.len() < len {
        return Ok(None);
    }
    Ok(Some(rest.split_at(len)))
}

/// The entry whose frame stands at the front, and what follows it: for a record that is read one entry after the other. None where the
/// bytes are a tail. Refused: `Damaged` where they are neither, and `NoMemory`.
pub fn take_frame(alloc: Global, bytes: &[u8]) -> Result<Option<(Entry, &[u8])>, Refusal>
    ensures ok { IfOk result (λ found. MatchOption found (IsTail bytes.now) (λ x. IsFramed x.0 bytes.now x.1.now)) }
    ensures err { IfErr result (λ e. ((e ≡ Damaged) × HasNoFrame bytes.now) ⊎ (e ≡ NoMemory)) }
{
    match take_body(bytes) {
        Ok(Some((body, after))) => match entry_of(alloc, body) {
            Ok(kind) => Ok(Some((Entry::new(kind), after))),
            Err(e) => Err(e),
        },
        Ok(None) => Ok(None),
        Err(e) => Err(e),
    }
}

/// The entry whose frame stands at the front, over the bytes, and what follows it: for a record that is played. None where this is for
/// `take_frame` to say: a tail, a body of another version than 2 (known or not), and one of a snapshot or a row (well formed or not).
/// Refused: `Damaged` where the bytes have no such length in front or any other body is no entry, and `NoMemory`.
pub fn view_frame(alloc: Global, bytes: &[u8]) -> Result<Option<(EntryView<'_>, &[u8])>, Refusal>
    ensures ok { IfOk result (λ found. IfSome found (λ x. IsFramed (entry_seen x.0) bytes.now x.1.now)) }
    ensures err { IfErr result (λ e. ((e ≡ Damaged) × HasNoFrame bytes.now) ⊎ (e ≡ NoMemory)) }
{
    match take_body(bytes) {
        Ok(Some((body, after))) => match view_of(alloc, body) {
            Ok(Some(entry)) => Ok(Some((entry, after))),
            Ok(None) => Ok(None),
            Err(e) => Err(e),
        },
        Ok(None) => Ok(None),
        Err(e) => Err(e),
    }
}

/// What a record holds: the entries of the whole frames, in their order, and how many bytes these frames fill. What follows is a
/// tail, which is no whole frame. Refused: `Damaged` where the bytes are no such list, and `NoMemory`.
pub fn entries(alloc: Global, bytes: &[u8]) -> Result<(Vec<Entry>, usize), Refusal>
    ensures ok { IfOk result (λ x. (x.1 ≤ length bytes.now) × IsStored bytes.now x.0.items (drop x.1 bytes.now)) }
    ensures err { IfErr result (λ e. ((e ≡ Damaged) × IsDamaged bytes.now) ⊎ (e ≡ NoMemory)) }
{
    let mut all = Vec::new(alloc);
    let mut rest = bytes;
    loop {
        match take_frame(alloc, rest) {
            Ok(Some((entry, after))) => {
                all.push(entry)?;
                rest = after;
            }
            Ok(None) => return Ok((all, bytes.len() - rest.len())),
            Err(e) => return Err(e),
        }
    }
}
