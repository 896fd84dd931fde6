//! Which ballots the facts of a compacted record name.

ghost use Rattle.std.specs.Prelude.{◌≡◌};
ghost use Rattle.std.specs.List.{list_any};
ghost use Rattle.xid.specs.Transactions.{participants};
ghost use Rattle.acceptor.specs.Slots.{slots_of};
ghost use Rattle.acceptor.specs.Compaction.{accepted_ballot, least_ballot as least_of, is_promised as is_promised_in};
ghost use Rattle.acceptor.specs.Compaction.{common_ballot as common_of};

use crate::slots::{KeptSlot, slot_at};
use ballot::{Report, Slot};
use wire::SpelledTx;
use xid::Ballot;

/// The ballot of what was accepted last, 0 where nothing was.
pub fn accepted_ballot(report: Report) -> Ballot
    ensures { result ≡ accepted_ballot report }
{
    match report {
        Some((ballot, _)) => ballot,
        None => 0,
    }
}

/// The least ballot that an instance of a transaction took part in, of which these are the slots.
fn least_ballot(tx: &SpelledTx<'_>, slots: &[KeptSlot]) -> Ballot
    ensures { result ≡ least_of (slots_of tx.now slots.now) tx.now }
{
    let first = slot_at(slots, 0);
    let mut least = first.mbal;
    for place in 1..tx.count() {
        let slot = slot_at(slots, place);
        least = least.min(slot.mbal);
    }
    least
}

/// Whether a slot took part in a ballot, and accepted only below it.
fn is_promised(slot: Slot, ballot: Ballot) -> bool
    ensures { result ≡ is_promised_in ballot slot }
{
    slot.mbal == ballot && accepted_ballot(slot.report) < ballot
}

/// Whether some instance of a transaction took part in a ballot, and accepted only below it.
fn is_some_promised(tx: &SpelledTx<'_>, slots: &[KeptSlot], ballot: Ballot) -> bool
    ensures { result ≡ list_any (λ i. is_promised_in ballot (slots_of tx.now slots.now tx.now i)) (participants tx.now) }
{
    for place in 0..tx.count() {
        if is_promised(slot_at(slots, place), ballot) {
            return true;
        }
    }
    false
}

/// The ballot of a promise for all instances of a transaction: the least that one took part in, if some instance that stands there
/// accepted only below it, else 0.
pub fn common_ballot(tx: &SpelledTx<'_>, slots: &[KeptSlot]) -> Ballot
    ensures { result ≡ common_of (slots_of tx.now slots.now) tx.now }
{
    let least = least_ballot(tx, slots);
    if is_some_promised(tx, slots, least) {
        least
    } else {
        0
    }
}
