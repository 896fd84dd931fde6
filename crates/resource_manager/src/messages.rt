//! What a resource manager decides on each message, over the bytes of its transaction.

ghost use Rattle.std.specs.Prelude.{◌≡◌, IsTrue, IfOk, IfErr, List, [], Some, None, false};
ghost use Rattle.xid.specs.Transactions.{is_participant, xid_at};
ghost use Rattle.xid.specs.declared.refusals.Refusal.TheVariants.{NoMemory};
ghost use Rattle.xid.specs.declared.transaction.Vote.TheVariants.{Aborted, Prepared};
ghost use Rattle.stable_record.specs.declared.fact.FactKind.TheVariants.{VoteAborted, VotePrepared};
ghost use Rattle.stable_record.specs.Facts.{AreKeys};
ghost use Rattle.wire.specs.Messages.{message_tx};
ghost use Rattle.wire.specs.declared.message.Kind.TheVariants as kinds;
ghost use Rattle.protocol.specs.declared.answers.Answer.TheVariants.{Done};
ghost use Rattle.protocol.specs.Decisions.{sent_reply, shown};
ghost use Rattle.protocol.specs.Effects.{decision_of};
ghost use Rattle.protocol.specs.Managers.{Branch, first_vote as first_vote_of, idle_keys, on_manager_message, vote_sent};
ghost use Rattle.branch_table.specs.TableStates.{AreTableBranches};
ghost use Rattle.resource_manager.specs.Managers.{Decides};
ghost use Rattle.resource_manager.specs.SpentNames.{is_spent_in};

use crate::manager::ResourceManager;
use protocol::{Address, MessageDecision, SentReply};
use stable_record::{FactRest, FactView, Touched};
use wire::{MessageView, Reply, ReplyRest, Rest, SpelledTx};
use xid::{ManagerNumber, Refusal, Sequence, Vote, Xid};

/// A fact to store, and nothing to send.
fn stores(fact: FactView<'_>) -> MessageDecision<'_>
    ensures { shown result ≡ record { answer = Done; fact = Some fact.entry; sends = [] } }
{
    MessageDecision {
        fact: Some(fact),
        reply: None,
    }
}

/// A stored vote to send again.
fn tells<'a>(number: ManagerNumber, tx: &SpelledTx<'a>, vote: Vote) -> MessageDecision<'a>
    requires { IsTrue (is_participant tx.now number) }
    ensures { shown result ≡ record { answer = Done; fact = None; sends = vote_sent number tx.now (Some vote) } }
{
    MessageDecision {
        fact: None,
        reply: Some(vote_message(number, tx, vote)),
    }
}

/// A first vote that is aborted, to store and to send.
fn votes_aborted<'a>(number: ManagerNumber, tx: &SpelledTx<'a>) -> MessageDecision<'a>
    requires { IsTrue (is_participant tx.now number) }
    ensures { shown result ≡ record {
      answer = Done;
      fact = Some (VoteAborted tx.now);
      sends = vote_sent number tx.now (Some Aborted);
    } }
{
    let _ = tx.count();
    MessageDecision {
        fact: Some(FactView::new(tx.again(), FactRest::VoteAborted)),
        reply: Some(vote_message(number, tx, Vote::Aborted)),
    }
}

/// A first vote that is prepared, with the keys that its branch has touched, to store and to send.
fn votes_prepared<'a>(
    number: ManagerNumber,
    tx: &SpelledTx<'a>,
    keys: Sequence<Touched>,
) -> MessageDecision<'a>
    requires participant { IsTrue (is_participant tx.now number) }
    requires keys { AreKeys keys }
    ensures { shown result ≡ record {
      answer = Done;
      fact = Some (VotePrepared tx.now keys);
      sends = vote_sent number tx.now (Some Prepared);
    } }
{
    let _ = tx.count();
    MessageDecision {
        fact: Some(FactView::new(tx.again(), FactRest::VotePrepared { keys })),
        reply: Some(vote_message(number, tx, Vote::Prepared)),
    }
}

/// A vote in ballot 0 for all acceptors.
fn vote_message<'a>(number: ManagerNumber, tx: &SpelledTx<'a>, vote: Vote) -> SentReply<'a>
    requires { IsTrue (is_participant tx.now number) }
    ensures { sent_reply (Some result) ≡ vote_sent number tx.now (Some vote) }
{
    let _ = tx.count();
    let vote = ReplyRest::P2a {
        instance: number,
        ballot: 0,
        vote,
    };
    SentReply {
        to: Address::Acceptors,
        message: Reply::new(tx, vote),
    }
}

impl ResourceManager {
    /// What it does on a message: what `on_prepare`, `on_commit` and `on_abort` say, and on every other nothing. That the message names
    /// none but nodes of the cluster is asked before, by the node. Refused: `NoMemory`, at a Prepare alone.
    pub fn on_message<'a>(&self, message: &MessageView<'a>) -> Result<MessageDecision<'a>, Refusal>
        ensures ok { IfOk result (λ decision. Decides self.now (shown decision)
            (λ config number stored branches. on_manager_message number stored branches
            (xid_at (message_tx message.now) number) message.now)) }
        ensures err { IfErr result (λ e. e ≡ NoMemory) }
    {
        let tx = message.tx();
        match message.rest() {
            Rest::Prepare => self.on_prepare(tx),
            Rest::Commit => Ok(self.on_commit(tx)),
            Rest::Abort => Ok(self.on_abort(tx)),
            _ => Ok(MessageDecision::nothing()),
        }
    }

    /// Prepare: a vote that is stored is sent again; where an outcome is stored, nothing. Else the first vote is to be stored, and sent to
    /// all acceptors in ballot 0: prepared with the touched keys of an idle branch whose name isn't spent, else aborted. Nothing where
    /// the transaction has no name here. It takes memory for the keys of a vote alone; refused: `NoMemory`.
    pub fn on_prepare<'a>(&self, tx: &SpelledTx<'a>) -> Result<MessageDecision<'a>, Refusal>
        ensures ok { IfOk result (λ decision. Decides self.now (shown decision)
            (λ config number stored branches. on_manager_message number stored branches (xid_at tx.now number) (kinds.Prepare tx.now))) }
        ensures err { IfErr result (λ e. e ≡ NoMemory) }
    {
        let Some(xid) = self.name_here(tx) else {
            return Ok(MessageDecision::nothing());
        };
        let course = self.courses.of(tx);
        if course.is_working() {
            return self.first_vote(tx, &xid);
        }
        match course.vote() {
            Some(vote) => Ok(tells(self.number(), tx, vote)),
            None => Ok(MessageDecision::nothing()),
        }
    }

    /// Commit: where the resource manager is prepared, it is to be stored. Else nothing. It takes no memory.
    pub fn on_commit<'a>(&self, tx: &SpelledTx<'a>) -> MessageDecision<'a>
        ensures { Decides self.now (shown result)
            (λ config number stored branches. on_manager_message number stored branches (xid_at tx.now number) (kinds.Commit tx.now)) }
    {
        let Some(_xid) = self.name_here(tx) else {
            return MessageDecision::nothing();
        };
        if !self.courses.of(tx).is_prepared() {
            return MessageDecision::nothing();
        }
        stores(FactView::new(tx.again(), FactRest::Committed))
    }

    /// Abort: where the resource manager is working or prepared, it is to be stored. Else nothing. It takes no memory.
    pub fn on_abort<'a>(&self, tx: &SpelledTx<'a>) -> MessageDecision<'a>
        ensures { Decides self.now (shown result)
            (λ config number stored branches. on_manager_message number stored branches (xid_at tx.now number) (kinds.Abort tx.now)) }
    {
        let Some(_xid) = self.name_here(tx) else {
            return MessageDecision::nothing();
        };
        if !self.courses.of(tx).is_open() {
            return MessageDecision::nothing();
        }
        stores(FactView::new(tx.again(), FactRest::Aborted))
    }

    /// Decides on the first vote on a transaction that has this name here.
    fn first_vote<'a>(&self, tx: &SpelledTx<'a>, xid: &Xid) -> Result<MessageDecision<'a>, Refusal>
        requires { IsTrue (is_participant tx.now self.now.number) }
        ensures ok { IfOk result (λ decision. (branches : List Branch) → shown decision
            ≡ decision_of (first_vote_of self.now.number branches tx.now xid.now (is_spent_in self.now.spent xid.now)
            (idle_keys self.now.table.branches xid.now))) }
        ensures err { IfErr result (λ e. e ≡ NoMemory) }
        ensures table { is_spent_in self.now.spent xid.now ≡ false → AreTableBranches self.now.table.branches }
    {
        if self.spent.contains(xid) {
            return Ok(votes_aborted(self.number(), tx));
        }
        match self.table.prepare(xid) {
            Ok(Some(keys)) => Ok(votes_prepared(self.number(), tx, keys)),
            Ok(None) => Ok(votes_aborted(self.number(), tx)),
            Err(refusal) => Err(refusal),
        }
    }
}
