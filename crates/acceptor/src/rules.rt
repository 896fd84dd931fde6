ghost use Rattle.std.specs.Prelude.{◌≡◌, ◌<◌, true, [], ◌∷◌, None, Some, if◌then◌else◌};
ghost use Rattle.xid.specs.Limits.{most_acceptors};
ghost use Rattle.wire.specs.Messages.{IsMessage};
ghost use Rattle.wire.specs.declared.message.Kind.TheVariants.{P1a, P2a, B1a};
ghost use Rattle.protocol.specs.Acceptors.{on_1a as on_1a_of, on_b1a as on_b1a_of, on_2a as on_2a_of};
ghost use Rattle.protocol.specs.Acceptors.{accept_messages as accept_messages_of, is_accepted as is_accepted_in};
ghost use Rattle.stable_record.specs.declared.fact.FactKind.TheVariants.{Accept};
ghost use Rattle.protocol.specs.declared.decisions.Address.TheVariants.{Leaders};
ghost use Rattle.protocol.specs.Decisions.{sent_reply, shown};
ghost use Rattle.protocol.specs.Effects.{Config, decision_of, to};
ghost use Rattle.wire.specs.Said.{replied};
ghost use Rattle.acceptor.specs.Slots.{slots_of};

use crate::bundles::{Accepted, accepts_after, have_all_values, reports_below};
use crate::slots::{KeptSlot, is_accepted, slot_of};
use ballot::{Slot, owner};
use protocol::{Address, MessageDecision, NodeId, SentReply};
use stable_record::{FactRest, FactView};
use wire::{Reply, ReplyRest, SpelledTx};
use xid::{Ballot, ManagerNumber, Vote};

/// Which acceptor it is, and what it has to know of its cluster.
#[derive(Clone, Copy, Debug)]
pub struct Seat {
    /// Its number.
    pub number: u8,
    /// How many leaders there are.
    pub leaders: u8,
    /// Whether phases 1a, 1b and 2b go in bundles.
    pub bundled: bool,
}

/// Phase 1a at the slots of its transaction.
pub fn on_1a<'a>(
    seat: Seat,
    tx: &SpelledTx<'a>,
    slots: &[KeptSlot],
    instance: ManagerNumber,
    ballot: Ballot,
) -> MessageDecision<'a>
    requires message { IsMessage (P1a tx.now instance ballot) }
    requires number { seat.number < most_acceptors }
    requires leaders { 0 < seat.leaders }
    ensures { (config : Config) → seat.leaders ≡ config.leaders
        → shown result ≡ decision_of (on_1a_of config seat.number (slots_of tx.now slots.now) tx.now instance ballot) }
{
    let slot = slot_of(tx, slots, instance);
    if ballot <= slot.mbal {
        return MessageDecision::nothing();
    }
    let promise = FactRest::Promise { instance, ballot };
    let report = ReplyRest::P1b {
        instance,
        ballot,
        report: slot.report,
        acceptor: seat.number,
    };
    MessageDecision {
        fact: Some(FactView::new(tx.again(), promise)),
        reply: Some(SentReply {
            to: Address::Node(NodeId::L(owner(ballot, seat.leaders))),
            message: Reply::new(tx, report),
        }),
    }
}

/// Phase 1a of all instances at the slots of their transaction.
pub fn on_b1a<'a>(
    seat: Seat,
    tx: &SpelledTx<'a>,
    slots: &[KeptSlot],
    ballot: Ballot,
) -> MessageDecision<'a>
    requires message { IsMessage (B1a tx.now ballot) }
    requires number { seat.number < most_acceptors }
    requires leaders { 0 < seat.leaders }
    ensures { (config : Config) → seat.leaders ≡ config.leaders
        → shown result ≡ decision_of (on_b1a_of config seat.number (slots_of tx.now slots.now) tx.now ballot) }
{
    let Some(reports) = reports_below(tx, slots, ballot) else {
        return MessageDecision::nothing();
    };
    let report = ReplyRest::B1b {
        ballot,
        acceptor: seat.number,
        reports,
    };
    MessageDecision {
        fact: Some(FactView::new(tx.again(), FactRest::PromiseAll { ballot })),
        reply: Some(SentReply {
            to: Address::Node(NodeId::L(owner(ballot, seat.leaders))),
            message: Reply::new(tx, report),
        }),
    }
}

/// A message to all leaders.
fn to_leaders<'a>(tx: &SpelledTx<'a>, rest: ReplyRest) -> Option<SentReply<'a>>
    requires { IsMessage (replied tx.now rest) }
    ensures { sent_reply result ≡ to Leaders (replied tx.now rest) ∷ [] }
{
    Some(SentReply {
        to: Address::Leaders,
        message: Reply::new(tx, rest),
    })
}

/// What is told of every instance that has a value, once one is accepted in a bundled cluster.
fn accept_bundle<'a>(
    seat: Seat,
    tx: &SpelledTx<'a>,
    slots: &[KeptSlot],
    accepted: Accepted,
) -> Option<SentReply<'a>>
    requires message { IsMessage (P2a tx.now accepted.instance accepted.ballot accepted.vote) }
    requires number { seat.number < most_acceptors }
    requires bundled { seat.bundled ≡ true }
    ensures { (config : Config) → seat.bundled ≡ config.bundled
        → sent_reply result ≡ accept_messages_of config seat.number
        (slots_of tx.now slots.now) tx.now accepted.instance accepted.ballot accepted.vote }
{
    if accepted.vote == Vote::Prepared && !have_all_values(tx, slots, accepted) {
        return None;
    }
    let Some(accepts) = accepts_after(tx, slots, accepted) else {
        return None;
    };
    to_leaders(
        tx,
        ReplyRest::B2b {
            acceptor: seat.number,
            accepts,
        },
    )
}

/// What is told of an accept.
fn accept_messages<'a>(
    seat: Seat,
    tx: &SpelledTx<'a>,
    slots: &[KeptSlot],
    accepted: Accepted,
) -> Option<SentReply<'a>>
    requires message { IsMessage (P2a tx.now accepted.instance accepted.ballot accepted.vote) }
    requires number { seat.number < most_acceptors }
    ensures { (config : Config) → seat.bundled ≡ config.bundled
        → sent_reply result ≡ accept_messages_of config seat.number
        (slots_of tx.now slots.now) tx.now accepted.instance accepted.ballot accepted.vote }
{
    if seat.bundled {
        return accept_bundle(seat, tx, slots, accepted);
    }
    to_leaders(
        tx,
        ReplyRest::P2b {
            instance: accepted.instance,
            ballot: accepted.ballot,
            vote: accepted.vote,
            acceptor: seat.number,
        },
    )
}

/// The accept to be stored, where it isn't what stands.
fn accept_fact<'a>(tx: &SpelledTx<'a>, slot: &Slot, accepted: Accepted) -> Option<FactView<'a>>
    requires { IsMessage (P2a tx.now accepted.instance accepted.ballot accepted.vote) }
    ensures { result ≡ if is_accepted_in slot.now accepted.ballot accepted.vote then None
        else Some (Accept tx.now accepted.instance accepted.ballot accepted.vote) }
{
    if is_accepted(slot, accepted.ballot, accepted.vote) {
        return None;
    }
    let accept = FactRest::Accept {
        instance: accepted.instance,
        ballot: accepted.ballot,
        vote: accepted.vote,
    };
    Some(FactView::new(tx.again(), accept))
}

/// Phase 2a at the slots of its transaction.
pub fn on_2a<'a>(
    seat: Seat,
    tx: &SpelledTx<'a>,
    slots: &[KeptSlot],
    accepted: Accepted,
) -> MessageDecision<'a>
    requires message { IsMessage (P2a tx.now accepted.instance accepted.ballot accepted.vote) }
    requires number { seat.number < most_acceptors }
    ensures { (config : Config) → seat.bundled ≡ config.bundled
        → shown result ≡ decision_of (on_2a_of config seat.number
        (slots_of tx.now slots.now) tx.now accepted.instance accepted.ballot accepted.vote) }
{
    let slot = slot_of(tx, slots, accepted.instance);
    if accepted.ballot < slot.mbal {
        return MessageDecision::nothing();
    }
    MessageDecision {
        fact: accept_fact(tx, &slot, accepted),
        reply: accept_messages(seat, tx, slots, accepted),
    }
}
