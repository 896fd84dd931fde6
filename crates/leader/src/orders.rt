ghost use Rattle.std.specs.Prelude.{◌≡◌, ◌<◌, [], length, slice_index_or};
ghost use Rattle.wire.specs.Messages.{IsMessage, IsBallot, IsLeaderBallot};
ghost use Rattle.wire.specs.Said.{replied};
ghost use Rattle.protocol.specs.Effects.{to as to_of};
ghost use Rattle.protocol.specs.Leaders.{outcome_messages};
ghost use Rattle.leader.specs.Orders.{prepare_messages, phase_1a_by, proposal_messages, AreOf, word_messages, IsSound};

use crate::course::is_final;
use crate::proposals::Proposals;
use protocol::{Address, SentReply, Status};
use std::marker::Model;
use wire::{PlacedTx, Reply, ReplyRest, SpelledTx};
use xid::Ballot;

/// What is to be sent of a transaction, in few words.
#[derive(Debug, Drop)]
pub enum Words {
    /// Nothing.
    Nothing,
    /// Prepare, to each of its resource managers.
    Prepares,
    /// The outcome, if this is one.
    Tells {
        outcome: Status,
        to: Address,
    },
    /// Phase 1a of a ballot: of each instance, or in a bundled cluster once for all.
    Begins {
        ballot: Ballot,
        bundled: bool,
    },
    /// Phase 2a of each proposal.
    Proposes {
        ballot: Ballot,
        proposals: Proposals,
    },
}

/// The messages that a leader sends, in order, at most `MAX_BRANCHES`. Contracts see the list; the bytes of the transaction are kept once,
/// and each message is made over them when it is asked for. To make them takes no memory.
#[derive(Debug, Drop)]
pub struct LeaderSends {
    /// The transaction of the words; there is one where these send something.
    tx: PlacedTx,
    words: Words,
}

impl Model for LeaderSends {
    ghost use Rattle.std.specs.Prelude.{List};
    ghost use Rattle.protocol.specs.declared.decisions.Outgoing.{Outgoing};
    ghost use Rattle.leader.specs.Orders.{messages_of, AreSound};

    ghost Value = { List Outgoing };

    ghost view = { λ sends. messages_of sends.tx sends.words };

    ghost invariant = { λ sends. AreSound sends.tx sends.words };
}

impl LeaderSends {
    /// Nothing.
    pub(crate) fn nothing() -> LeaderSends
        ensures { result ≡ [] }
    {
        LeaderSends {
            tx: PlacedTx::none(),
            words: Words::Nothing,
        }
    }

    /// Nothing, in place of what was to be sent before.
    pub fn clear(&mut self)
        ensures { self.new ≡ [] }
    {
        self.words = Words::Nothing;
    }

    /// These words of a transaction, in place of what was to be sent before.
    fn put(&mut self, tx: &SpelledTx<'_>, words: Words)
        requires { IsSound tx.now words }
        ensures { self.new ≡ word_messages tx.now words }
    {
        let _ = tx.count();
        self.words = words;
        self.tx.put(tx);
    }

    /// Prepare, to each resource manager of a transaction, in place of what was to be sent before.
    pub(crate) fn prepare(&mut self, tx: &SpelledTx<'_>)
        ensures { self.new ≡ prepare_messages tx.now }
    {
        self.put(tx, Words::Prepares);
    }

    /// The outcome of a transaction, where there is one, in place of what was to be sent before.
    pub(crate) fn tell(&mut self, tx: &SpelledTx<'_>, outcome: Status, to: Address)
        ensures { self.new ≡ outcome_messages outcome tx.now to }
    {
        self.put(tx, Words::Tells { outcome, to });
    }

    /// Phase 1a of a ballot, in place of what was to be sent before: of each instance, or in a bundled cluster once for all.
    pub(crate) fn begin(&mut self, tx: &SpelledTx<'_>, ballot: Ballot, bundled: bool)
        requires { IsLeaderBallot ballot }
        ensures { self.new ≡ phase_1a_by bundled tx.now ballot }
    {
        self.put(tx, Words::Begins { ballot, bundled });
    }

    /// Phase 2a of each proposal, in place of what was to be sent before.
    pub(crate) fn propose(&mut self, tx: &SpelledTx<'_>, ballot: Ballot, proposals: Proposals)
        requires ballot { IsBallot ballot }
        requires named { AreOf tx.now proposals }
        ensures { self.new ≡ proposal_messages tx.now ballot proposals }
    {
        self.put(tx, Words::Proposes { ballot, proposals });
    }

    /// How many there are.
    pub fn count(&self) -> usize
        ensures { result ≡ length self.now }
    {
        let Some(tx) = &self.tx.get() else {
            return 0;
        };
        match &self.words {
            Words::Nothing => 0,
            Words::Prepares => 1,
            Words::Tells { outcome, .. } => { if is_final(*outcome) { 1 } else { 0 } }
            Words::Begins { bundled, .. } => { if *bundled { 1 } else { tx.count() } }
            Words::Proposes { proposals, .. } => proposals.as_slice().len(),
        }
    }

    /// The message of a place, over the bytes of its transaction, and whom it is for.
    pub fn at(&self, i: usize) -> SentReply<'_>
        requires { i < length self.now }
        ensures { to_of result.to result.message ≡ slice_index_or self.now i (to_of result.to result.message) }
    {
        let Some(tx) = &self.tx.get() else {
            unreachable!();
        };
        match &self.words {
            Words::Nothing => unreachable!(),
            Words::Prepares => sent(Address::Managers, tx, ReplyRest::Prepare),
            Words::Tells { outcome, to } => match outcome {
                Status::Committed => sent(*to, tx, ReplyRest::Commit),
                Status::Aborted => sent(*to, tx, ReplyRest::Abort),
                Status::Unknown | Status::Undecided => unreachable!(),
            },
            Words::Begins { ballot, bundled } => first_phase(tx, *ballot, *bundled, i),
            Words::Proposes { ballot, proposals } => {
                let proposal = proposals.as_slice()[i];
                let rest = ReplyRest::P2a {
                    instance: proposal.instance,
                    ballot: *ballot,
                    vote: proposal.vote,
                };
                sent(Address::Acceptors, tx, rest)
            }
        }
    }
}

fn sent<'a>(to: Address, tx: &SpelledTx<'a>, rest: ReplyRest) -> SentReply<'a>
    requires { IsMessage (replied tx.now rest) }
    ensures { to_of result.to result.message ≡ to_of to (replied tx.now rest) }
{
    SentReply {
        to,
        message: Reply::new(tx, rest),
    }
}

/// Phase 1a of a place.
fn first_phase<'a>(tx: &SpelledTx<'a>, ballot: Ballot, bundled: bool, i: usize) -> SentReply<'a>
    requires ballot { IsLeaderBallot ballot }
    requires within { i < length (phase_1a_by bundled tx.now ballot) }
    ensures { to_of result.to result.message
        ≡ slice_index_or (phase_1a_by bundled tx.now ballot) i (to_of result.to result.message) }
{
    let _ = tx.count();
    if bundled {
        return sent(Address::Acceptors, tx, ReplyRest::B1a { ballot });
    }
    let instance = tx.rm(i);
    sent(Address::Acceptors, tx, ReplyRest::P1a { instance, ballot })
}
