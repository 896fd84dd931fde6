//! What a resource manager sends again at a timeout.

ghost use Rattle.std.specs.Prelude.{◌≡◌, ℕ, IsTrue, List, [], Some};
ghost use Rattle.xid.specs.Transactions.{is_participant, participants};
ghost use Rattle.stable_record.specs.declared.fact.FactKind.{FactKind as Fact};
ghost use Rattle.protocol.specs.Effects.{Config};
ghost use Rattle.protocol.specs.Managers.{Branch, on_manager_timeout, stored_votes, vote_sent};
ghost use Rattle.resource_manager.specs.Managers.{StandsFor};
ghost use Rattle.resource_manager.specs.Messages.{are_below, asked_by, IsReminder};

use crate::course::Course;
use crate::manager::ResourceManager;
use protocol::{Address, Answer, Outgoing, Sends};
use wire::{Kind, Message, SpelledTx};
use xid::{ManagerNumber, Refusal, Vote};

/// What a resource manager sends when nothing was heard of a transaction for too long.
#[derive(Debug, Drop)]
pub struct Reminder {
    /// What the timeout is answered.
    pub answer: Answer,
    /// The stored vote, if there is one.
    pub vote: Sends,
    /// The question for the outcome, where the resource manager is prepared.
    pub question: Sends,
}

impl Reminder {
    /// An answer, and nothing to send.
    fn answers(answer: Answer) -> Reminder
        ensures { result ≡ record { answer = answer; vote = []; question = [] } }
    {
        Reminder {
            answer,
            vote: Sends::none(),
            question: Sends::none(),
        }
    }
}

impl ResourceManager {
    /// A timeout: a stored vote is sent again to all acceptors, and where the resource manager is prepared, all leaders are asked. The
    /// answer is ok, or `BadTx` where the transaction names a resource manager outside the cluster. It takes no memory.
    pub fn timeout(&self, tx: &SpelledTx<'_>) -> Reminder
        ensures { (config : Config) (number : ℕ) (facts : List Fact) (branches : List Branch)
            → StandsFor config number self.now facts branches
            → IsReminder result branches (on_manager_timeout config number (stored_votes number facts) branches tx.now) }
    {
        if !is_inside(self.managers, tx) {
            return Reminder::answers(Answer::Refused(Refusal::BadTx));
        }
        let own = self.number();
        if !tx.is_participant(own) {
            return Reminder::answers(Answer::Done);
        }
        let course = self.courses.of(tx);
        Reminder {
            answer: Answer::Done,
            vote: votes_sent(own, tx, course.vote()),
            question: asks(own, tx, course),
        }
    }
}

/// Whether a transaction names only resource managers of the cluster.
pub(crate) fn is_inside(managers: u8, tx: &SpelledTx<'_>) -> bool
    ensures { result ≡ are_below managers (participants tx.now) }
{
    tx.are_below(u16::from(managers))
}

/// A vote in ballot 0 for all acceptors.
fn vote_message(number: ManagerNumber, tx: &SpelledTx<'_>, vote: Vote) -> Sends
    requires { IsTrue (is_participant tx.now number) }
    ensures { result ≡ vote_sent number tx.now (Some vote) }
{
    let _ = tx.count();
    Sends::one(Outgoing {
        to: Address::Acceptors,
        message: Message::new(Kind::P2a {
            tx: tx.to_tx(),
            instance: number,
            ballot: 0,
            vote,
        }),
    })
}

/// A vote, if there is one, in ballot 0 for all acceptors.
fn votes_sent(number: ManagerNumber, tx: &SpelledTx<'_>, vote: Option<Vote>) -> Sends
    requires { IsTrue (is_participant tx.now number) }
    ensures { result ≡ vote_sent number tx.now vote }
{
    match vote {
        Some(vote) => vote_message(number, tx, vote),
        None => Sends::none(),
    }
}

/// The question for the outcome to all leaders, where the resource manager is prepared.
fn asks(number: ManagerNumber, tx: &SpelledTx<'_>, course: Course) -> Sends
    requires { IsTrue (is_participant tx.now number) }
    ensures { result ≡ asked_by number tx.now course }
{
    let _ = tx.count();
    if !course.is_prepared() {
        return Sends::none();
    }
    Sends::one(Outgoing {
        to: Address::Leaders,
        message: Message::new(Kind::Ask {
            tx: tx.to_tx(),
            rm: number,
        }),
    })
}
