ghost use Rattle.std.specs.Prelude.{◌≡◌, []};
ghost use Rattle.xid.specs.Transactions.{TxParts};
ghost use Rattle.wire.specs.Versions.{version_of, version_2};
ghost use Rattle.wire.specs.Reading.{taken, list_at, instance_at};
ghost use Rattle.stable_record.specs.Reading.{IsRead, IsReadWhole, value_at, key_at, act_at, touched_at, are_ascending, keys_at};
ghost use Rattle.stable_record.specs.Reading.{leader_ballot_at, promise_at, accept_at, ballot_at, promise_all_at, vote_prepared_at};
ghost use Rattle.stable_record.specs.Reading.{fact_at, row_at, about_at, entry_at, version_at, body_at};
ghost use Rattle.stable_record.specs.Rests.{fact_of};
ghost use Rattle.stable_record.specs.Views.{IsReadAs, IsSeen, entry_seen};

use crate::entry::EntryKind;
use crate::fact::{Act, Touched};
use crate::view::{EntryView, FactRest, FactView};
use byteorder::{BigEndian, ByteOrder};
use std::alloc::Global;
use std::cmp::Ordering;
use wire::{
    SpelledTx, VERSION, VersionNumber, take_byte, take_component, take_number, take_rm, take_tx,
    take_vote,
};
use xid::{Bytes, MAX_TOUCHED, MAX_VALUE, Refusal, Sequence, Tx};

/// Takes a value from the front. Each of these functions answers what it took and what follows it, and `Damaged` where it doesn't
/// stand there.
#[tactic(auto, unfolding(crate::specs::Reading::value_at))]
fn take_value(alloc: Global, bytes: &[u8]) -> Result<(Bytes, &[u8]), Refusal>
    ensures { IsRead (value_at bytes.now) result }
{
    if bytes.len() < 2 {
        return Err(Refusal::Damaged);
    }
    let len = BigEndian::read_u16(bytes) as usize;
    let rest = &bytes[2..];
    if len > MAX_VALUE {
        return Err(Refusal::Damaged);
    }
    if rest.len() < len {
        return Err(Refusal::Damaged);
    }
    let value = Vec::from_slice(alloc, &rest[..len])?;
    Ok((Sequence::new(value), &rest[len..]))
}

#[tactic(auto, unfolding(crate::specs::Reading::key_at))]
fn take_key(alloc: Global, bytes: &[u8]) -> Result<(Bytes, &[u8]), Refusal>
    ensures { IsRead (key_at bytes.now) result }
{
    let Some((key, rest)) = take_component(bytes) else {
        return Err(Refusal::Damaged);
    };
    if key.is_empty() {
        return Err(Refusal::Damaged);
    }
    let key = Vec::from_slice(alloc, key)?;
    Ok((Sequence::new(key), rest))
}

#[tactic(auto, unfolding(crate::specs::Reading::act_at))]
fn take_act(alloc: Global, bytes: &[u8]) -> Result<(Act, &[u8]), Refusal>
    ensures { IsRead (act_at bytes.now) result }
{
    let Some((code, rest)) = take_byte(bytes) else {
        return Err(Refusal::Damaged);
    };
    match code {
        0 => Ok((Act::Read, rest)),
        1 => match take_value(alloc, rest) {
            Ok((value, rest)) => Ok((Act::Put(value), rest)),
            Err(e) => Err(e),
        },
        2 => Ok((Act::Del, rest)),
        _ => Err(Refusal::Damaged),
    }
}

#[tactic(auto, unfolding(crate::specs::Reading::touched_at))]
fn take_touched(alloc: Global, bytes: &[u8]) -> Result<(Touched, &[u8]), Refusal>
    ensures { IsRead (touched_at bytes.now) result }
{
    match take_key(alloc, bytes) {
        Ok((key, rest)) => match take_act(alloc, rest) {
            Ok((act, rest)) => Ok((Touched { key, act }, rest)),
            Err(e) => Err(e),
        },
        Err(e) => Err(e),
    }
}

/// Takes so many touched keys.
fn take_touched_keys(
    alloc: Global,
    count: u8,
    bytes: &[u8],
) -> Result<(Sequence<Touched>, &[u8]), Refusal>
    ensures { IsRead (list_at touched_at count bytes.now) result }
{
    let mut keys = Vec::new(alloc);
    let mut rest = bytes;
    for _ in 0..count {
        match take_touched(alloc, rest) {
            Ok((touched, after)) => {
                keys.push(touched)?;
                rest = after;
            }
            Err(e) => return Err(e),
        }
    }
    Ok((Sequence::new(keys), rest))
}

/// Whether keys ascend strictly by their bytes.
fn are_ascending(keys: &[Touched]) -> bool
    ensures { result ≡ are_ascending keys.now }
{
    let [first, rest @ ..] = keys else {
        return true;
    };
    let [second, ..] = rest else {
        return true;
    };
    match first.key.as_slice().cmp(second.key.as_slice()) {
        Ordering::Less => are_ascending(rest),
        _ => false,
    }
}

#[tactic(auto, unfolding(crate::specs::Reading::keys_at))]
fn take_keys(alloc: Global, bytes: &[u8]) -> Result<(Sequence<Touched>, &[u8]), Refusal>
    ensures { IsRead (keys_at bytes.now) result }
{
    let Some((count, rest)) = take_byte(bytes) else {
        return Err(Refusal::Damaged);
    };
    if count as usize > MAX_TOUCHED {
        return Err(Refusal::Damaged);
    }
    match take_touched_keys(alloc, count, rest) {
        Ok((keys, rest)) => {
            if are_ascending(keys.as_slice()) {
                Ok((keys, rest))
            } else {
                Err(Refusal::Damaged)
            }
        }
        Err(e) => Err(e),
    }
}

#[tactic(auto, unfolding(crate::specs::Reading::leader_ballot_at))]
fn take_leader_ballot(bytes: &[u8]) -> Option<(u32, &[u8])>
    ensures { taken result ≡ leader_ballot_at bytes.now }
{
    let Some((ballot, rest)) = take_number(bytes) else {
        return None;
    };
    if ballot == 0 {
        return None;
    }
    Some((ballot, rest))
}

#[tactic(auto, unfolding(crate::specs::Reading::promise_at, wire::specs::Reading::instance_at))]
fn take_promise(version: VersionNumber, bytes: &[u8]) -> Result<(FactRest, &[u8]), Refusal>
    ensures { (tx : TxParts) → IsReadAs (fact_of tx) (promise_at (version_of version) tx bytes.now) result }
{
    let Some((instance, rest)) = take_rm(version, bytes) else {
        return Err(Refusal::Damaged);
    };
    let Some((ballot, rest)) = take_number(rest) else {
        return Err(Refusal::Damaged);
    };
    Ok((FactRest::Promise { instance, ballot }, rest))
}

#[tactic(auto, unfolding(crate::specs::Reading::accept_at, wire::specs::Reading::instance_at))]
fn take_accept(version: VersionNumber, bytes: &[u8]) -> Result<(FactRest, &[u8]), Refusal>
    ensures { (tx : TxParts) → IsReadAs (fact_of tx) (accept_at (version_of version) tx bytes.now) result }
{
    let Some((instance, rest)) = take_rm(version, bytes) else {
        return Err(Refusal::Damaged);
    };
    let Some((ballot, rest)) = take_number(rest) else {
        return Err(Refusal::Damaged);
    };
    let Some((vote, rest)) = take_vote(rest) else {
        return Err(Refusal::Damaged);
    };
    Ok((
        FactRest::Accept {
            instance,
            ballot,
            vote,
        },
        rest,
    ))
}

#[tactic(auto, unfolding(crate::specs::Reading::ballot_at))]
fn take_ballot(bytes: &[u8]) -> Result<(FactRest, &[u8]), Refusal>
    ensures { (tx : TxParts) → IsReadAs (fact_of tx) (ballot_at tx bytes.now) result }
{
    let Some((ballot, rest)) = take_leader_ballot(bytes) else {
        return Err(Refusal::Damaged);
    };
    Ok((FactRest::Ballot { ballot }, rest))
}

#[tactic(auto, unfolding(crate::specs::Reading::promise_all_at))]
fn take_promise_all(bytes: &[u8]) -> Result<(FactRest, &[u8]), Refusal>
    ensures { (tx : TxParts) → IsReadAs (fact_of tx) (promise_all_at tx bytes.now) result }
{
    let Some((ballot, rest)) = take_leader_ballot(bytes) else {
        return Err(Refusal::Damaged);
    };
    Ok((FactRest::PromiseAll { ballot }, rest))
}

#[tactic(auto, unfolding(crate::specs::Reading::vote_prepared_at))]
fn take_vote_prepared(alloc: Global, bytes: &[u8]) -> Result<(FactRest, &[u8]), Refusal>
    ensures { (tx : TxParts) → IsReadAs (fact_of tx) (vote_prepared_at tx bytes.now) result }
{
    match take_keys(alloc, bytes) {
        Ok((keys, rest)) => Ok((FactRest::VotePrepared { keys }, rest)),
        Err(e) => Err(e),
    }
}

/// Takes what follows the transaction of a fact of a kind, by the kind's number.
#[tactic(auto, unfolding(crate::specs::Reading::fact_at))]
fn take_rest(
    alloc: Global,
    version: VersionNumber,
    code: u8,
    bytes: &[u8],
) -> Result<(FactRest, &[u8]), Refusal>
    ensures { (tx : TxParts) → IsReadAs (fact_of tx) (fact_at (version_of version) code tx bytes.now) result }
{
    match code {
        1 => take_promise(version, bytes),
        2 => take_accept(version, bytes),
        3 => take_ballot(bytes),
        4 => take_vote_prepared(alloc, bytes),
        5 => Ok((FactRest::VoteAborted, bytes)),
        6 => Ok((FactRest::Committed, bytes)),
        7 => Ok((FactRest::Aborted, bytes)),
        8 => take_promise_all(bytes),
        _ => Err(Refusal::Damaged),
    }
}

#[tactic(auto, unfolding(crate::specs::Reading::row_at))]
fn take_row(alloc: Global, bytes: &[u8]) -> Result<(EntryKind, &[u8]), Refusal>
    ensures { IsRead (row_at bytes.now) result }
{
    match take_key(alloc, bytes) {
        Ok((key, rest)) => match take_value(alloc, rest) {
            Ok((value, rest)) => Ok((EntryKind::Row { key, value }, rest)),
            Err(e) => Err(e),
        },
        Err(e) => Err(e),
    }
}

/// Takes the entry about a transaction, by the kind's number.
#[tactic(auto, unfolding(crate::specs::Reading::about_at))]
fn take_about(
    alloc: Global,
    version: VersionNumber,
    code: u8,
    tx: Tx,
    bytes: &[u8],
) -> Result<(EntryKind, &[u8]), Refusal>
    ensures { IsRead (about_at (version_of version) code tx bytes.now) result }
{
    match code {
        11 => Ok((EntryKind::PastCommitted(tx), bytes)),
        12 => Ok((EntryKind::PastAborted(tx), bytes)),
        _ => match take_rest(alloc, version, code, bytes) {
            Ok((said, rest)) => Ok((EntryKind::Fact(said.with(tx)), rest)),
            Err(e) => Err(e),
        },
    }
}

/// Takes the entry of a kind, by the kind's number.
#[tactic(auto, unfolding(crate::specs::Reading::entry_at))]
fn take_entry(
    alloc: Global,
    version: VersionNumber,
    code: u8,
    bytes: &[u8],
) -> Result<(EntryKind, &[u8]), Refusal>
    ensures { IsRead (entry_at (version_of version) code bytes.now) result }
{
    match code {
        9 => Ok((EntryKind::Snapshot, bytes)),
        10 => take_row(alloc, bytes),
        _ => match take_tx(version, bytes) {
            Some((tx, rest)) => take_about(alloc, version, code, tx, rest),
            None => Err(Refusal::Damaged),
        },
    }
}

fn version_of_number(number: u8) -> Option<VersionNumber>
    ensures { result ≡ version_at number }
{
    match number {
        1 => Some(VersionNumber::First),
        2 => Some(VersionNumber::Second),
        _ => None,
    }
}

/// The entry whose body this is.
#[tactic(auto, unfolding(crate::specs::Reading::body_at))]
pub(crate) fn entry_of(alloc: Global, body: &[u8]) -> Result<EntryKind, Refusal>
    ensures { IsReadWhole (body_at body.now) result }
{
    let Some((number, rest)) = take_byte(body) else {
        return Err(Refusal::Damaged);
    };
    let Some(version) = version_of_number(number) else {
        return Err(Refusal::Damaged);
    };
    let Some((code, rest)) = take_byte(rest) else {
        return Err(Refusal::Damaged);
    };
    match take_entry(alloc, version, code, rest) {
        Ok((entry, [])) => Ok(entry),
        Ok(_) => Err(Refusal::Damaged),
        Err(e) => Err(e),
    }
}

/// Takes the entry about a transaction over the bytes of that, by the kind's number, in version 2.
#[tactic(auto, unfolding(crate::specs::Reading::about_at))]
fn view_about<'a>(
    alloc: Global,
    code: u8,
    tx: SpelledTx<'a>,
    bytes: &'a [u8],
) -> Result<(EntryView<'a>, &'a [u8]), Refusal>
    ensures { IsReadAs entry_seen (about_at version_2 code tx.entry bytes.now) result }
{
    let _ = tx.count();
    match code {
        11 => Ok((EntryView::PastCommitted(tx), bytes)),
        12 => Ok((EntryView::PastAborted(tx), bytes)),
        _ => match take_rest(alloc, VersionNumber::Second, code, bytes) {
            Ok((said, rest)) => Ok((EntryView::Fact(FactView::new(tx, said)), rest)),
            Err(e) => Err(e),
        },
    }
}

/// The entry whose body this is, over the body, where it is one about a transaction, of version 2. None where it may be another.
#[tactic(auto, unfolding(crate::specs::Reading::body_at, crate::specs::Reading::entry_at))]
pub(crate) fn view_of(alloc: Global, body: &[u8]) -> Result<Option<EntryView<'_>>, Refusal>
    ensures { IsSeen (body_at body.now) result }
{
    let [VERSION, code, fields @ ..] = body else {
        return Ok(None);
    };
    if *code == 9 || *code == 10 {
        return Ok(None);
    }
    let Some((tx, rest)) = SpelledTx::take(fields) else {
        return Err(Refusal::Damaged);
    };
    match view_about(alloc, *code, tx, rest) {
        Ok((entry, [])) => Ok(Some(entry)),
        Ok(_) => Err(Refusal::Damaged),
        Err(e) => Err(e),
    }
}
