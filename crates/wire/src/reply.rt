ghost use Rattle.std.specs.Prelude.{◌≡◌, ℕ, ◌+◌, ◌≤◌, ◌++◌, length, take, drop};
ghost use Rattle.wire.specs.Grammar.{spelling};
ghost use Rattle.wire.specs.Messages.{IsMessage};
ghost use Rattle.wire.specs.Said.{replied, reply_byte, reply_spelling};

use crate::grammar::{MAX_DATAGRAM, MAX_MESSAGE_BYTES, MAX_REST_BYTES, VERSION};
use crate::items::{InstanceAccept, InstanceReport, Items};
use crate::spelled_tx::SpelledTx;
use crate::writing::{
    byte_of_vote, put_byte, put_bytes, put_items, put_number, put_report, put_rm,
};
use std::marker::Model;
use xid::{Ballot, ManagerNumber, Vote};

/// What a message that goes out says beside its transaction. A resource manager's question isn't among these.
#[derive(Clone, Copy, Debug)]
pub enum ReplyRest {
    /// From a leader to a resource manager: prepare the transaction.
    Prepare,
    /// Phase 1a, of a leader: take part in a ballot.
    P1a {
        instance: ManagerNumber,
        ballot: Ballot,
    },
    /// Phase 1b, of an acceptor: it takes part in the ballot. The report is the ballot and vote that it accepted last, if there are any.
    P1b {
        instance: ManagerNumber,
        ballot: Ballot,
        report: Option<(Ballot, Vote)>,
        acceptor: u8,
    },
    /// Phase 2a: in ballot 0 a resource manager's vote, in others what a leader proposes.
    P2a {
        instance: ManagerNumber,
        ballot: Ballot,
        vote: Vote,
    },
    /// Phase 2b, of an acceptor: it accepted the vote.
    P2b {
        instance: ManagerNumber,
        ballot: Ballot,
        vote: Vote,
        acceptor: u8,
    },
    /// From a leader to a resource manager: the transaction is committed.
    Commit,
    /// From a leader to a resource manager: the transaction is aborted.
    Abort,
    /// Phase 1a of all instances.
    B1a {
        ballot: Ballot,
    },
    /// Phase 1b of some instances, ascending.
    B1b {
        ballot: Ballot,
        acceptor: u8,
        reports: Items<InstanceReport>,
    },
    /// Phase 2b of some instances, ascending.
    B2b {
        acceptor: u8,
        accepts: Items<InstanceAccept>,
    },
}

/// The number of a reply's kind.
fn code_of(rest: &ReplyRest) -> u8
    ensures { result ≡ reply_byte rest.now }
{
    match rest {
        ReplyRest::Prepare => 1,
        ReplyRest::P1a { .. } => 2,
        ReplyRest::P1b { .. } => 3,
        ReplyRest::P2a { .. } => 4,
        ReplyRest::P2b { .. } => 5,
        ReplyRest::Commit => 6,
        ReplyRest::Abort => 7,
        ReplyRest::B1a { .. } => 10,
        ReplyRest::B1b { .. } => 11,
        ReplyRest::B2b { .. } => 12,
    }
}

/// Puts what follows the transaction of a reply at a place, and answers the place after it.
fn put_reply(rest: &ReplyRest, out: &mut [u8], at: usize) -> usize
    requires room { at + MAX_REST_BYTES ≤ length out.old }
    ensures end { result ≡ at + length (reply_spelling rest.now) }
    ensures few { result ≤ at + MAX_REST_BYTES }
    ensures shown { take result out.new ≡ take at out.old ++ reply_spelling rest.now }
    ensures rest { (n : ℕ) → result ≤ n → drop n out.new ≡ drop n out.old }
{
    match rest {
        ReplyRest::Prepare | ReplyRest::Commit | ReplyRest::Abort => at,
        ReplyRest::P1a { instance, ballot } => {
            let at = put_rm(out, at, *instance);
            put_number(out, at, *ballot)
        }
        ReplyRest::B1a { ballot } => put_number(out, at, *ballot),
        ReplyRest::P1b {
            instance,
            ballot,
            report,
            acceptor,
        } => {
            let at = put_rm(out, at, *instance);
            let at = put_number(out, at, *ballot);
            let at = put_report(out, at, *report);
            put_byte(out, at, *acceptor)
        }
        ReplyRest::P2a {
            instance,
            ballot,
            vote,
        } => {
            let at = put_rm(out, at, *instance);
            let at = put_number(out, at, *ballot);
            put_byte(out, at, byte_of_vote(*vote))
        }
        ReplyRest::P2b {
            instance,
            ballot,
            vote,
            acceptor,
        } => {
            let at = put_rm(out, at, *instance);
            let at = put_number(out, at, *ballot);
            let at = put_byte(out, at, byte_of_vote(*vote));
            put_byte(out, at, *acceptor)
        }
        ReplyRest::B1b {
            ballot,
            acceptor,
            reports,
        } => {
            let at = put_number(out, at, *ballot);
            let at = put_byte(out, at, *acceptor);
            put_items(reports.as_slice(), out, at)
        }
        ReplyRest::B2b { acceptor, accepts } => {
            let at = put_byte(out, at, *acceptor);
            put_items(accepts.as_slice(), out, at)
        }
    }
}

/// A message that goes out, over the bytes of its transaction, which stand elsewhere.
#[derive(Debug, Drop)]
pub struct Reply<'a> {
    tx: SpelledTx<'a>,
    rest: ReplyRest,
}

impl<'a> Model for Reply<'a> {
    ghost use Rattle.wire.specs.declared.message.Kind.{Kind};
    ghost use Rattle.wire.specs.Messages.{IsMessage};
    ghost use Rattle.wire.specs.Said.{replied};

    ghost Value = { Kind };

    ghost view = { λ r. replied r.tx r.rest };

    ghost invariant = { λ r. IsMessage (replied r.tx r.rest) };
}

impl<'a> Reply<'a> {
    /// The message of a transaction.
    pub fn new(tx: &SpelledTx<'a>, rest: ReplyRest) -> Reply<'a>
        requires { IsMessage (replied tx.now rest) }
        ensures { result ≡ replied tx.now rest }
    {
        Reply {
            tx: tx.again(),
            rest,
        }
    }

    /// Spells it at the front of `out`, as `encode` does a message.
    #[tactic(auto, using(crate::proofs::Replies::reply_spelled))]
    pub fn encode(&self, out: &mut [u8; MAX_DATAGRAM]) -> usize
        ensures few { result ≤ MAX_MESSAGE_BYTES }
        ensures len { result ≡ length (spelling self.now) }
        ensures spells { take result out.new ≡ spelling self.now }
        ensures rest { drop result out.new ≡ drop result out.old }
        ensures valid { IsMessage self.now }
    {
        let at = put_byte(out, 0, VERSION);
        let at = put_byte(out, at, code_of(&self.rest));
        let at = put_bytes(out, at, self.tx.as_bytes());
        put_reply(&self.rest, out, at)
    }
}
