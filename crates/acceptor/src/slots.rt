ghost use Rattle.std.specs.Prelude.{◌≡◌, ℕ, ◌<◌, map};
ghost use Rattle.wire.specs.Messages.{IsReportBelow};
ghost use Rattle.ballot.specs.Slots.{empty_slot, promised, accepted_in};
ghost use Rattle.stable_record.specs.declared.fact.FactKind.TheVariants.{Promise, Accept, PromiseAll};
ghost use Rattle.stable_record.specs.Facts.{fact_tx};
ghost use Rattle.stable_record.specs.Rests.{fact_of};
ghost use Rattle.protocol.specs.Acceptors.{is_accepted as is_accepted_in, plays_at_acceptor};
ghost use Rattle.acceptor.specs.Slots.{IsKept, slot_at as slot_at_place, slot_of as slot_of_instance, slots_of, slots_after};

use crate::bundles::reports_below;
use ballot::Slot;
use stable_record::{FactRest, FactView};
use std::marker::Model;
use wire::SpelledTx;
use xid::{Ballot, ManagerNumber, Vote};

/// A slot as it is kept: what it accepted last is no higher than the greatest ballot that it took part in.
#[derive(Clone, Copy, Debug)]
pub struct KeptSlot {
    slot: Slot,
}

impl Model for KeptSlot {
    ghost use Rattle.ballot.specs.declared.slot.Slot.{Slot};
    ghost use Rattle.acceptor.specs.Slots.{IsKept};

    ghost Value = { Slot };

    ghost view = { λ kept. kept.slot };

    ghost invariant = { λ kept. IsKept kept.slot };

    ghost inverse = { λ slot. record { slot = slot } };
}

impl KeptSlot {
    /// A slot at first.
    pub fn new() -> KeptSlot
        ensures { result ≡ empty_slot }
    {
        KeptSlot { slot: Slot::new() }
    }

    /// The slot.
    pub fn get(&self) -> Slot
        ensures value { result ≡ self.now }
        ensures kept { IsKept self.now }
    {
        self.slot
    }

    /// Takes part in a ballot that is greater than every one before. Else nothing changes.
    pub fn promise(&mut self, ballot: Ballot)
        ensures { self.new ≡ promised ballot self.old }
    {
        self.slot.promise(ballot);
    }

    /// Accepts a value in a ballot that is no less than every one before. Else nothing changes.
    pub fn accept(&mut self, ballot: Ballot, vote: Vote)
        ensures { self.new ≡ accepted_in ballot vote self.old }
    {
        self.slot.accept(ballot, vote);
    }
}

/// The slot at a place, one at first where none is kept.
pub fn slot_at(slots: &[KeptSlot], place: usize) -> Slot
    ensures value { result ≡ slot_at_place slots.now place }
    ensures kept { IsKept result }
{
    match slots.get(place) {
        Some(kept) => kept.get(),
        None => KeptSlot::new().get(),
    }
}

/// The slot of an instance of a transaction, of which these are the slots.
pub fn slot_of(tx: &SpelledTx<'_>, slots: &[KeptSlot], instance: ManagerNumber) -> Slot
    ensures value { result ≡ slot_of_instance tx.now slots.now instance }
    ensures below { (b : ℕ) → result.mbal < b → IsReportBelow b result.report }
{
    slot_at(slots, tx.place_of(instance))
}

/// Whether a slot already stands at a ballot with this value accepted in it.
pub fn is_accepted(slot: &Slot, ballot: Ballot, vote: Vote) -> bool
    ensures { result ≡ is_accepted_in slot.now ballot vote }
{
    slot.mbal == ballot && slot.report == Some((ballot, vote))
}

/// Whether a promise plays: the transaction has the instance, which stands below the ballot.
fn can_promise(
    tx: &SpelledTx<'_>,
    slots: &[KeptSlot],
    instance: ManagerNumber,
    ballot: Ballot,
) -> bool
    ensures { result ≡ plays_at_acceptor (slots_of tx.now slots.now) (Promise tx.now instance ballot) }
{
    if !tx.is_participant(instance) {
        return false;
    }
    slot_of(tx, slots, instance).mbal < ballot
}

/// Whether an accept plays: the transaction has the instance, which stands no higher than the ballot, and the accept is new.
fn can_accept(
    tx: &SpelledTx<'_>,
    slots: &[KeptSlot],
    instance: ManagerNumber,
    ballot: Ballot,
    vote: Vote,
) -> bool
    ensures { result ≡ plays_at_acceptor (slots_of tx.now slots.now) (Accept tx.now instance ballot vote) }
{
    if !tx.is_participant(instance) {
        return false;
    }
    let slot = slot_of(tx, slots, instance);
    if ballot < slot.mbal {
        return false;
    }
    !is_accepted(&slot, ballot, vote)
}

/// Whether a promise for all plays: some instance stands below the ballot.
#[inline(never)]
fn can_promise_all(tx: &SpelledTx<'_>, slots: &[KeptSlot], ballot: Ballot) -> bool
    ensures { result ≡ plays_at_acceptor (slots_of tx.now slots.now) (PromiseAll tx.now ballot) }
{
    reports_below(tx, slots, ballot).is_some()
}

/// Whether the condition of what a fact says of a transaction holds of the transaction's slots. One that is no acceptor's never does.
fn can_play(tx: &SpelledTx<'_>, slots: &[KeptSlot], rest: &FactRest) -> bool
    ensures { result ≡ plays_at_acceptor (slots_of tx.now slots.now) (fact_of tx.now rest.now) }
{
    match rest {
        FactRest::Promise { instance, ballot } => can_promise(tx, slots, *instance, *ballot),
        FactRest::Accept {
            instance,
            ballot,
            vote,
        } => can_accept(tx, slots, *instance, *ballot, *vote),
        FactRest::PromiseAll { ballot } => can_promise_all(tx, slots, *ballot),
        _ => false,
    }
}

/// Whether the condition of a fact holds of its transaction's slots: a promise is above every ballot before, an accept no lower
/// than any, and new, both of an instance of the transaction.
pub fn plays(slots: &[KeptSlot], fact: &FactView<'_>) -> bool
    ensures { result ≡ plays_at_acceptor (slots_of (fact_tx fact.now) slots.now) fact.now }
{
    can_play(fact.tx(), slots, fact.rest())
}

/// Takes part in a ballot in each slot that stands below it.
fn promise_all(slots: &mut [KeptSlot], ballot: Ballot)
    ensures { slots.new ≡ map (promised ballot) slots.old }
{
    for place in 0..slots.len() {
        slots[place].promise(ballot);
    }
}

/// Changes a transaction's slots by what a fact says of it.
fn change_by(slots: &mut [KeptSlot], tx: &SpelledTx<'_>, rest: &FactRest)
    ensures { slots.new ≡ slots_after tx.now slots.old (fact_of tx.now rest.now) }
{
    match rest {
        FactRest::Promise { instance, ballot } => {
            let place = tx.place_of(*instance);
            if place < slots.len() {
                slots[place].promise(*ballot);
            }
        }
        FactRest::Accept {
            instance,
            ballot,
            vote,
        } => {
            let place = tx.place_of(*instance);
            if place < slots.len() {
                slots[place].accept(*ballot, *vote);
            }
        }
        FactRest::PromiseAll { ballot } => promise_all(slots, *ballot),
        _ => {}
    }
}

/// Changes a transaction's slots by a fact of it.
pub fn change(slots: &mut [KeptSlot], fact: &FactView<'_>)
    ensures { slots.new ≡ slots_after (fact_tx fact.now) slots.old fact.now }
{
    change_by(slots, fact.tx(), fact.rest());
}
