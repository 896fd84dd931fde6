//! A datagram of which a line tells, without its transaction: most lines of a trace are datagrams, and name the same transaction.

ghost use Rattle.std.specs.Prelude.{◌≡◌, ◌↔◌, IsTrue};
ghost use Rattle.net_script.specs.Basics.{IsMessage};
ghost use Rattle.net_script.specs.Lines.{words};
ghost use Rattle.net_script.specs.Messages.{kind_of};
ghost use Rattle.net_script.specs.Telling.{sent_of, TellsSent};

use crate::known::{KnownTx, know};
use crate::message_words::{Said, read_said};
use crate::stop::Stop;
use crate::words::{next_word, node, number};
use protocol::{NodeId, Sent};
use std::alloc::Global;
use wire::{Kind, Message, is_ask, is_b1a, is_b1b, is_b2b, is_p1a, is_p1b, is_p2a, is_p2b};
use xid::Tx;

/// A datagram, but for its transaction.
#[derive(Drop)]
pub struct ToldSent {
    number: u32,
    sender: NodeId,
    receiver: NodeId,
    said: Said,
}

/// Whether a message of this transaction says so.
fn is_about(tx: &Tx, said: &Said) -> bool
    ensures { IsTrue result ↔ IsMessage (kind_of tx.now said.now) }
{
    let _ = tx.count();
    match said {
        Said::Prepare | Said::Commit | Said::Abort => true,
        Said::P1a(rm, ballot) => is_p1a(tx, *rm, *ballot),
        Said::P1b(rm, ballot, report, acceptor) => is_p1b(tx, *rm, *ballot, *report, *acceptor),
        Said::P2a(rm, ballot, vote) => is_p2a(tx, *rm, *ballot, *vote),
        Said::P2b(rm, ballot, vote, acceptor) => is_p2b(tx, *rm, *ballot, *vote, *acceptor),
        Said::Ask(rm) => is_ask(tx, *rm),
        Said::B1a(ballot) => is_b1a(tx, *ballot),
        Said::B1b(ballot, acceptor, reports) => is_b1b(tx, *ballot, *acceptor, reports.get()),
        Said::B2b(acceptor, accepts) => is_b2b(tx, *acceptor, accepts.get()),
    }
}

/// The message of this transaction that says so.
fn kind_of(tx: Tx, said: Said) -> Kind
    ensures { result ≡ kind_of tx said }
{
    match said {
        Said::Prepare => Kind::Prepare(tx),
        Said::P1a(instance, ballot) => Kind::P1a {
            tx,
            instance,
            ballot,
        },
        Said::P1b(instance, ballot, report, acceptor) => Kind::P1b {
            tx,
            instance,
            ballot,
            report,
            acceptor,
        },
        Said::P2a(instance, ballot, vote) => Kind::P2a {
            tx,
            instance,
            ballot,
            vote,
        },
        Said::P2b(instance, ballot, vote, acceptor) => Kind::P2b {
            tx,
            instance,
            ballot,
            vote,
            acceptor,
        },
        Said::Commit => Kind::Commit(tx),
        Said::Abort => Kind::Abort(tx),
        Said::Ask(rm) => Kind::Ask { tx, rm },
        Said::B1a(ballot) => Kind::B1a { tx, ballot },
        Said::B1b(ballot, acceptor, reports) => Kind::B1b {
            tx,
            ballot,
            acceptor,
            reports: *reports.get(),
        },
        Said::B2b(acceptor, accepts) => Kind::B2b {
            tx,
            acceptor,
            accepts: *accepts.get(),
        },
    }
}

impl ToldSent {
    /// Who sent it.
    pub fn sender(&self) -> NodeId
        ensures { result ≡ self.now.sender }
    {
        self.sender
    }

    /// The datagram, about this transaction.
    pub(crate) fn with_tx(self, tx: &Tx) -> Sent
        requires { IsMessage (kind_of tx.now self.said) }
        ensures { result ≡ sent_of tx.now self }
    {
        Sent {
            number: self.number,
            sender: self.sender,
            receiver: self.receiver,
            message: Message::new(kind_of(*tx, self.said)),
        }
    }
}

/// The datagram of these words, but for its transaction, which is then the one that is known.
#[inline(never)]
pub(crate) fn read_told(
    alloc: Global,
    known: &mut Option<KnownTx>,
    args: &[u8],
) -> Result<ToldSent, Stop>
    ensures { TellsSent known.new (words args.now) result }
{
    let Some((number, rest)) = number(args) else {
        return Err(Stop::Wrong);
    };
    let Some((sender, rest)) = node(rest) else {
        return Err(Stop::Wrong);
    };
    let Some((receiver, rest)) = node(rest) else {
        return Err(Stop::Wrong);
    };
    let Some((name, rest)) = next_word(rest) else {
        return Err(Stop::Wrong);
    };
    let Some((text, rest)) = next_word(rest) else {
        return Err(Stop::Wrong);
    };
    let Ok(is_tx) = know(alloc, known, text) else {
        return Err(Stop::Memory);
    };
    if !is_tx {
        return Err(Stop::Wrong);
    }
    let Some(last) = &*known else { unreachable!() };
    let said = read_said(alloc, name, rest)?;
    if !is_about(last.tx(), &said) {
        return Err(Stop::Wrong);
    }
    Ok(ToldSent {
        number,
        sender,
        receiver,
        said,
    })
}
