//! How the entries of a record are played, one after the other.

ghost use Rattle.std.specs.Prelude.{◌≤◌, [], ◌∷◌, length, IfOk};
ghost use Rattle.stable_record.specs.declared.fact.FactKind.TheVariants as facts;
ghost use Rattle.stable_record.specs.Facts.{IsFact};
ghost use Rattle.stable_record.specs.Rests.{fact_of};
ghost use Rattle.stable_record.specs.Views.{entry_seen};
ghost use Rattle.protocol.specs.Effects.{Config};
ghost use Rattle.protocol.specs.Nodes.{empty_memory};
ghost use Rattle.protocol.specs.declared.nodes.NodeId.{NodeId as Id};
ghost use Rattle.node_core.specs.Roles.{Replays, RoleStands};
ghost use Rattle.node_core.specs.Opening.{ReplaysAll, PlaysEntry, PlaysFirst, IsPlayedWhole};

use crate::role::Role;
use stable_record::{
    Entry, EntryKind, EntryView, Fact, FactRest, FactView, take_frame, view_frame,
};
use std::alloc::Global;
use wire::{MAX_TX_BYTES, SpelledTx};
use xid::{Refusal, Sequence, Tx};

/// Plays a vote prepared with no keys, and then the outcome of its transaction. Refused: one of them doesn't play (`Damaged`), or
/// `NoMemory`.
fn play_past(
    alloc: Global,
    role: &mut Role,
    tx: &SpelledTx<'_>,
    outcome: FactRest,
) -> Result<(), Refusal>
    requires { IsFact (fact_of tx.now outcome) }
    ensures { ReplaysAll role.old role.new (facts.VotePrepared tx.now [] ∷ fact_of tx.now outcome ∷ []) result }
{
    let keys = Sequence::new(Vec::new(alloc));
    role.replay(&FactView::new(tx.again(), FactRest::VotePrepared { keys }))?;
    role.replay(&FactView::new(tx.again(), outcome))
}

/// Does as `play_past`, of a transaction with its parts in place. It stands apart, since the room for its spelling is cleared.
#[inline(never)]
fn play_built(alloc: Global, role: &mut Role, tx: &Tx, outcome: FactRest) -> Result<(), Refusal>
    requires { IsFact (fact_of tx.now outcome) }
    ensures { ReplaysAll role.old role.new (facts.VotePrepared tx.now [] ∷ fact_of tx.now outcome ∷ []) result }
{
    let mut buffer = [0; MAX_TX_BYTES];
    play_past(alloc, role, &SpelledTx::of(tx, &mut buffer), outcome)
}

/// Plays an entry of a record, seen over its bytes. Refused: it may not stand there, or doesn't play (`Damaged`), or `NoMemory`.
fn play_view(
    alloc: Global,
    role: &mut Role,
    compacted: bool,
    entry: EntryView<'_>,
) -> Result<(), Refusal>
    ensures { PlaysEntry compacted role.old role.new (entry_seen entry.entry) result }
{
    match entry {
        EntryView::Fact(fact) => role.replay(&fact),
        EntryView::PastCommitted(tx) => {
            if !compacted {
                return Err(Refusal::Damaged);
            }
            play_past(alloc, role, &tx, FactRest::Committed)
        }
        EntryView::PastAborted(tx) => {
            if !compacted {
                return Err(Refusal::Damaged);
            }
            play_past(alloc, role, &tx, FactRest::Aborted)
        }
    }
}

/// Plays a fact that has its transaction in place, as `play_built` does.
#[inline(never)]
fn play_fact(role: &mut Role, fact: Fact) -> Result<(), Refusal>
    ensures { Replays role.old role.new fact result }
{
    let mut buffer = [0; MAX_TX_BYTES];
    role.replay(&FactView::of(fact, &mut buffer))
}

/// Plays an entry of a record, as `play_view` does.
fn play_entry(alloc: Global, role: &mut Role, compacted: bool, entry: Entry) -> Result<(), Refusal>
    ensures { PlaysEntry compacted role.old role.new entry result }
{
    match entry.into_kind() {
        EntryKind::Fact(kind) => play_fact(role, Fact::new(kind)),
        EntryKind::Snapshot => Err(Refusal::Damaged),
        EntryKind::Row { .. } => Err(Refusal::Damaged),
        EntryKind::PastCommitted(tx) => {
            if !compacted {
                return Err(Refusal::Damaged);
            }
            play_built(alloc, role, &tx, FactRest::Committed)
        }
        EntryKind::PastAborted(tx) => {
            if !compacted {
                return Err(Refusal::Damaged);
            }
            play_built(alloc, role, &tx, FactRest::Aborted)
        }
    }
}

/// Plays the entry whose frame stands at the front of bytes, and answers what follows it. None where the bytes are a tail. Refused: they
/// are neither, or the entry isn't played (`Damaged`), or `NoMemory`.
fn play_taken<'a>(
    alloc: Global,
    role: &mut Role,
    compacted: bool,
    bytes: &'a [u8],
) -> Result<Option<&'a [u8]>, Refusal>
    ensures { PlaysFirst compacted bytes.now role.old role.new result }
{
    match take_frame(alloc, bytes) {
        Ok(Some((entry, after))) => match play_entry(alloc, role, compacted, entry) {
            Ok(()) => Ok(Some(after)),
            Err(refusal) => Err(refusal),
        },
        Ok(None) => Ok(None),
        Err(refusal) => Err(refusal),
    }
}

/// Does as `play_taken`, over the entry's bytes where that can be.
fn play_first<'a>(
    alloc: Global,
    role: &mut Role,
    compacted: bool,
    bytes: &'a [u8],
) -> Result<Option<&'a [u8]>, Refusal>
    ensures { PlaysFirst compacted bytes.now role.old role.new result }
{
    if bytes.is_empty() {
        return Ok(None);
    }
    match view_frame(alloc, bytes) {
        Ok(Some((entry, after))) => match play_view(alloc, role, compacted, entry) {
            Ok(()) => Ok(Some(after)),
            Err(refusal) => Err(refusal),
        },
        Ok(None) => play_taken(alloc, role, compacted, bytes),
        Err(refusal) => Err(refusal),
    }
}

/// Plays the entries of bytes, and answers how many bytes their frames fill. Refused: the bytes are no frames of entries that may stand
/// there and play, and a tail (`Damaged`); `NoMemory`.
pub(crate) fn replay(
    alloc: Global,
    role: &mut Role,
    compacted: bool,
    bytes: &[u8],
) -> Result<usize, Refusal>
    ensures within { IfOk result (λ len. len ≤ length bytes.now) }
    ensures read { (config : Config) (who : Id) → RoleStands config who role.old [] empty_memory
        → IsPlayedWhole config who compacted bytes.now role.new result }
{
    let mut rest = bytes;
    loop {
        match play_first(alloc, role, compacted, rest) {
            Ok(Some(after)) => rest = after,
            Ok(None) => return Ok(bytes.len() - rest.len()),
            Err(refusal) => return Err(refusal),
        }
    }
}
