ghost use Rattle.std.specs.Prelude.{◌≡◌, ◌↔◌, ◌<◌, ◌≤◌, IsTrue, length, map};
ghost use Rattle.std.specs.List.{AllByRecursion};
ghost use Rattle.xid.specs.Transactions.{IsTx};
ghost use Rattle.wire.specs.Grammar.{kind_byte};
ghost use Rattle.wire.specs.Decoding.{is_report};
ghost use Rattle.wire.specs.declared.message.Kind.TheVariants.{P1a, P1b, P2a, P2b, Ask, B1a, B1b, B2b};
ghost use Rattle.wire.specs.Messages.{IsMessage, IsReportBelow, AreInstances};

use crate::item::Item;
use crate::items::{InstanceAccept, InstanceReport, Items};
use std::marker::Model;
use xid::{Ballot, MAX_ACCEPTORS, ManagerNumber, Tx, Vote};

/// What a message says, as plain data. An instance is the number of a resource manager, which is the instance of
/// consensus on its vote.
#[derive(Clone, Copy, Debug, PartialEq, Eq, Hash)]
pub enum Kind {
    /// From a leader to a resource manager: prepare the transaction.
    Prepare(Tx),
    /// Phase 1a, from a leader to an acceptor: take part in a ballot, at least 1.
    P1a {
        tx: Tx,
        instance: ManagerNumber,
        ballot: Ballot,
    },
    /// Phase 1b, from an acceptor to a leader: it takes part in the ballot. The report is the ballot and vote that it accepted
    /// last, if there are any.
    P1b {
        tx: Tx,
        instance: ManagerNumber,
        ballot: Ballot,
        report: Option<(Ballot, Vote)>,
        acceptor: u8,
    },
    /// Phase 2a, from a resource manager or a leader to an acceptor: accept the vote.
    P2a {
        tx: Tx,
        instance: ManagerNumber,
        ballot: Ballot,
        vote: Vote,
    },
    /// Phase 2b, from an acceptor to a leader: it accepted the vote.
    P2b {
        tx: Tx,
        instance: ManagerNumber,
        ballot: Ballot,
        vote: Vote,
        acceptor: u8,
    },
    /// From a leader to a resource manager: the transaction is committed.
    Commit(Tx),
    /// From a leader to a resource manager: the transaction is aborted.
    Abort(Tx),
    /// From a resource manager to a leader: what became of the transaction?
    Ask {
        tx: Tx,
        rm: ManagerNumber,
    },
    /// Phase 1a of all instances of the transaction, in one bundle: take part in a ballot, at least 1.
    B1a {
        tx: Tx,
        ballot: Ballot,
    },
    /// Phase 1b of some instances of the transaction, ascending, in one bundle: the acceptor takes part in the ballot in these.
    B1b {
        tx: Tx,
        ballot: Ballot,
        acceptor: u8,
        reports: Items<InstanceReport>,
    },
    /// Phase 2b of some instances of the transaction, ascending, in one bundle: the acceptor accepted these votes.
    B2b {
        tx: Tx,
        acceptor: u8,
        accepts: Items<InstanceAccept>,
    },
}

impl Kind {
    ghost use Rattle.wire.specs.Messages.{message_tx};

    /// The transaction that it is about.
    pub fn tx(&self) -> &Tx
        ensures value { result.now ≡ message_tx self.now }
        ensures valid { IsTx (message_tx self.now) }
    {
        let tx = match self {
            Kind::Prepare(tx) | Kind::Commit(tx) | Kind::Abort(tx) => tx,
            Kind::P1a { tx, .. } | Kind::P1b { tx, .. } => tx,
            Kind::P2a { tx, .. } | Kind::P2b { tx, .. } => tx,
            Kind::Ask { tx, .. } | Kind::B1a { tx, .. } => tx,
            Kind::B1b { tx, .. } | Kind::B2b { tx, .. } => tx,
        };
        let _ = tx.count();
        tx
    }
}

/// Whether a reported ballot, if there is one, is below this one.
pub(crate) fn is_report_below(report: Option<(Ballot, Vote)>, ballot: Ballot) -> bool
    ensures fact { IsTrue result ↔ IsReportBelow ballot report }
    ensures test { result ≡ is_report ballot report }
{
    match report {
        Some((reported, _)) => reported < ballot,
        None => true,
    }
}

/// Whether items are of instances of the transaction, ascending strictly, and what they report is below a ballot.
fn are_items<T: Item>(tx: &Tx, ballot: Ballot, items: &[T]) -> bool
    requires valid { IsTx tx.now }
    requires some { 1 ≤ length items.now }
    ensures { IsTrue result ↔ (AreInstances tx.now (map T.about items.now) × AllByRecursion (T.fits ballot) items.now) }
{
    for (i, item) in items.iter().enumerate() {
        let instance = item.instance();
        if !tx.is_participant(instance) {
            return false;
        }
        if !item.is_below(ballot) {
            return false;
        }
        if i > 0 && items[i - 1].instance() >= instance {
            return false;
        }
    }
    true
}

/// Whether phase 1a is a message.
pub fn is_p1a(tx: &Tx, instance: ManagerNumber, ballot: Ballot) -> bool
    ensures { IsTrue result ↔ IsMessage (P1a tx.now instance ballot) }
{
    tx.is_participant(instance) && ballot >= 1
}

/// Whether phase 1b is a message.
pub fn is_p1b(
    tx: &Tx,
    instance: ManagerNumber,
    ballot: Ballot,
    report: Option<(Ballot, Vote)>,
    acceptor: u8,
) -> bool
    ensures { IsTrue result ↔ IsMessage (P1b tx.now instance ballot report acceptor) }
{
    tx.is_participant(instance)
        && ballot >= 1
        && is_report_below(report, ballot)
        && acceptor < MAX_ACCEPTORS
}

/// Whether phase 2a is a message.
pub fn is_p2a(tx: &Tx, instance: ManagerNumber, ballot: Ballot, vote: Vote) -> bool
    ensures { IsTrue result ↔ IsMessage (P2a tx.now instance ballot vote) }
{
    let _ballot = ballot;
    tx.is_participant(instance)
}

/// Whether phase 2b is a message.
pub fn is_p2b(tx: &Tx, instance: ManagerNumber, ballot: Ballot, vote: Vote, acceptor: u8) -> bool
    ensures { IsTrue result ↔ IsMessage (P2b tx.now instance ballot vote acceptor) }
{
    tx.is_participant(instance) && acceptor < MAX_ACCEPTORS
}

/// Whether an ask is a message.
pub fn is_ask(tx: &Tx, rm: ManagerNumber) -> bool
    ensures { IsTrue result ↔ IsMessage (Ask tx.now rm) }
{
    tx.is_participant(rm)
}

/// Whether a bundle of phase 1a is a message.
pub fn is_b1a(tx: &Tx, ballot: Ballot) -> bool
    ensures { IsTrue result ↔ IsMessage (B1a tx.now ballot) }
{
    let _ = tx.count();
    ballot >= 1
}

/// Whether a bundle of phase 1b is a message.
pub fn is_b1b(tx: &Tx, ballot: Ballot, acceptor: u8, reports: &Items<InstanceReport>) -> bool
    ensures { IsTrue result ↔ IsMessage (B1b tx.now ballot acceptor reports.now) }
{
    let _ = tx.count();
    ballot >= 1 && acceptor < MAX_ACCEPTORS && are_items(tx, ballot, reports.as_slice())
}

/// Whether a bundle of phase 2b is a message.
pub fn is_b2b(tx: &Tx, acceptor: u8, accepts: &Items<InstanceAccept>) -> bool
    ensures { IsTrue result ↔ IsMessage (B2b tx.now acceptor accepts.now) }
{
    let _ = tx.count();
    acceptor < MAX_ACCEPTORS && are_items(tx, 0, accepts.as_slice())
}

/// Whether a bundle is a message.
fn is_bundle(kind: &Kind) -> bool
    requires { 9 < kind_byte kind.now }
    ensures { IsTrue result ↔ IsMessage kind.now }
{
    let tx = kind.tx();
    match kind {
        Kind::B1a { ballot, .. } => is_b1a(tx, *ballot),
        Kind::B1b {
            ballot,
            acceptor,
            reports,
            ..
        } => is_b1b(tx, *ballot, *acceptor, reports),
        Kind::B2b {
            acceptor,
            accepts,
            ..
        } => is_b2b(tx, *acceptor, accepts),
        _ => false,
    }
}

/// Whether a kind is a message: its instances or its resource manager are ones that the transaction names, those of a bundle
/// ascending, the ballot of phase 1 is at least 1, each reported ballot is below it, and the acceptor's number is one.
pub fn is_message(kind: &Kind) -> bool
    ensures { IsTrue result ↔ IsMessage kind.now }
{
    let tx = kind.tx();
    match kind {
        Kind::Prepare(_) | Kind::Commit(_) | Kind::Abort(_) => true,
        Kind::P1a {
            instance,
            ballot,
            ..
        } => is_p1a(tx, *instance, *ballot),
        Kind::P1b {
            instance,
            ballot,
            report,
            acceptor,
            ..
        } => is_p1b(tx, *instance, *ballot, *report, *acceptor),
        Kind::P2a {
            instance,
            ballot,
            vote,
            ..
        } => is_p2a(tx, *instance, *ballot, *vote),
        Kind::P2b {
            instance,
            ballot,
            vote,
            acceptor,
            ..
        } => is_p2b(tx, *instance, *ballot, *vote, *acceptor),
        Kind::Ask { rm, .. } => is_ask(tx, *rm),
        Kind::B1a { .. } | Kind::B1b { .. } | Kind::B2b { .. } => is_bundle(kind),
    }
}

/// A message: a kind of which all ranges and relations hold.
#[derive(Clone, Copy, Debug, PartialEq, Eq, Hash)]
pub struct Message {
    kind: Kind,
}

impl Model for Message {
    ghost use Rattle.wire.specs.declared.message.Kind.{Kind};

    ghost Value = { Kind };

    ghost use Rattle.wire.specs.Messages.{IsMessage};

    ghost view = { λ m. m.kind };

    ghost invariant = { λ m. IsMessage m.kind };

    ghost inverse = { λ k. record { kind = k } };
}

impl Message {
    /// The message of a kind.
    pub fn new(kind: Kind) -> Message
        requires { IsMessage kind }
        ensures { result ≡ kind }
    {
        Message { kind }
    }

    /// What it says.
    pub fn kind(&self) -> &Kind
        ensures value { result.now ≡ self.now }
        ensures valid { IsMessage self.now }
    {
        &self.kind
    }
}
