ghost use Rattle.std.specs.Prelude.{◌≡◌, [], Some, None};
ghost use Rattle.stable_record.specs.declared.fact.FactKind.TheVariants.{Ballot as BallotFact};
ghost use Rattle.wire.specs.Messages.{IsBallot, IsLeaderBallot};
ghost use Rattle.protocol.specs.declared.answers.Answer.TheVariants.{Done, Refused, Stands};
ghost use Rattle.protocol.specs.Effects.{status_standing};
ghost use Rattle.protocol.specs.Leaders.{outcome_messages};
ghost use Rattle.leader.specs.Decisions.{shown};
ghost use Rattle.leader.specs.Leaders.{commit_messages};
ghost use Rattle.leader.specs.Orders.{AreOf, phase_1a_by, proposal_messages};

use crate::course::is_final;
use crate::orders::LeaderSends;
use crate::proposals::Proposals;
use protocol::{Address, Answer, Standing, Status};
use stable_record::{Fact, FactKind};
use wire::SpelledTx;
use xid::{Ballot, Refusal};

/// What a leader decides on an input.
#[derive(Debug, Drop)]
pub struct LeaderDecision {
    /// What the input is answered.
    pub answer: Answer,
    /// The fact to store, if there is one. Nothing is sent before it is stored.
    pub fact: Option<Fact>,
    /// What to send then, in order.
    pub sends: LeaderSends,
}

impl LeaderDecision {
    /// Ok, nothing to store, and nothing to send.
    pub fn nothing() -> LeaderDecision
        ensures { shown result ≡ record { answer = Done; fact = None; sends = [] } }
    {
        LeaderDecision {
            answer: Answer::Done,
            fact: None,
            sends: LeaderSends::nothing(),
        }
    }

    /// Ok, and nothing to store, in place of what was decided before; what is sent stays.
    fn store_nothing(&mut self)
        ensures { shown self.new ≡ record { answer = Done; fact = None; sends = self.old.sends } }
    {
        self.answer = Answer::Done;
        if self.fact.is_some() {
            forget(&mut self.fact);
        }
    }

    /// Ok, nothing to store, and nothing to send, in place of what was decided before.
    pub(crate) fn clear(&mut self)
        ensures { shown self.new ≡ record { answer = Done; fact = None; sends = [] } }
    {
        self.store_nothing();
        self.sends.clear();
    }

    /// An answer, nothing to store, and nothing to send, in place of what was decided before.
    fn answer(&mut self, answer: Answer)
        ensures { shown self.new ≡ record { answer = answer; fact = None; sends = [] } }
    {
        self.clear();
        self.answer = answer;
    }

    /// A refusal, nothing to store, and nothing to send, in place of what was decided before.
    pub fn refuse(&mut self, refusal: Refusal)
        ensures { shown self.new ≡ record { answer = Refused refusal; fact = None; sends = [] } }
    {
        self.answer(Answer::Refused(refusal));
    }

    /// How a status is answered, nothing to store, and nothing to send, in place of what was decided before.
    pub(crate) fn stand(&mut self, status: Status)
        ensures { shown self.new ≡ record { answer = Stands (status_standing status); fact = None; sends = [] } }
    {
        self.answer(Answer::Stands(standing_of(status)));
    }

    /// How a status is answered, nothing to store, and what a commit call sends then, in place of what was decided before.
    pub(crate) fn commit(&mut self, tx: &SpelledTx<'_>, status: Status)
        ensures { shown self.new
            ≡ record { answer = Stands (status_standing status); fact = None; sends = commit_messages status tx.now } }
    {
        self.store_nothing();
        self.answer = Answer::Stands(standing_of(status));
        if is_final(status) {
            self.sends.tell(tx, status, Address::Managers);
        } else {
            self.sends.prepare(tx);
        }
    }

    /// Ok, a ballot to store, and its phase 1a to send, in place of what was decided before.
    pub(crate) fn begin(&mut self, tx: &SpelledTx<'_>, ballot: Ballot, bundled: bool)
        requires { IsLeaderBallot ballot }
        ensures { shown self.new
            ≡ record { answer = Done; fact = Some (BallotFact tx.now ballot); sends = phase_1a_by bundled tx.now ballot } }
    {
        self.answer = Answer::Done;
        self.fact = Some(Fact::new(FactKind::Ballot {
            tx: tx.to_tx(),
            ballot,
        }));
        self.sends.begin(tx, ballot, bundled);
    }

    /// Ok, nothing to store, and the outcome to send, where there is one, in place of what was decided before.
    pub(crate) fn tell(&mut self, tx: &SpelledTx<'_>, outcome: Status, to: Address)
        ensures { shown self.new ≡ record { answer = Done; fact = None; sends = outcome_messages outcome tx.now to } }
    {
        self.store_nothing();
        if !is_final(outcome) {
            self.sends.clear();
            return;
        }
        self.sends.tell(tx, outcome, to);
    }

    /// Ok, nothing to store, and phase 2a of each proposal to send, in place of what was decided before.
    pub(crate) fn propose(&mut self, tx: &SpelledTx<'_>, ballot: Ballot, proposals: Proposals)
        requires ballot { IsBallot ballot }
        requires named { AreOf tx.now proposals }
        ensures { shown self.new ≡ record { answer = Done; fact = None; sends = proposal_messages tx.now ballot proposals } }
    {
        self.store_nothing();
        if proposals.as_slice().is_empty() {
            self.sends.clear();
            return;
        }
        self.sends.propose(tx, ballot, proposals);
    }
}

/// No fact any more.
fn forget(fact: &mut Option<Fact>)
    ensures { fact.new ≡ None }
{
    *fact = None;
}

/// How a status is answered.
fn standing_of(status: Status) -> Standing
    ensures { result ≡ status_standing status }
{
    match status {
        Status::Unknown => Standing::Unknown,
        Status::Undecided => Standing::Undecided,
        Status::Committed => Standing::Committed,
        Status::Aborted => Standing::Aborted,
    }
}
