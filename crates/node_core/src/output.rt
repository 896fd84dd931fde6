ghost use Rattle.std.specs.Prelude.{◌≡◌, None, Some};
ghost use Rattle.protocol.specs.declared.answers.Answer.TheVariants.{Done, Refused};
ghost use Rattle.protocol.specs.Decisions.{sent_reply};
ghost use Rattle.node_core.specs.Roles.{decided, from_reminder, answering};
ghost use Rattle.node_core.specs.Storing.{output_of, stopped_output, change_made};

use crate::sends::{NodeSends, forget_fact};
use crate::storing::Stopped;
use protocol::{Answer, Change, NodeId, Request, SentReply, View};
use resource_manager::Reminder;
use stable_record::{Fact, FactRest, FactView};
use xid::Refusal;

/// What a node is handed.
#[derive(Clone, Copy, Debug)]
pub enum Input<'a> {
    /// A request, of a client or of the clock.
    Asked(&'a Request),
    /// The bytes of a datagram.
    Received(&'a [u8]),
}

/// What came of an input.
#[derive(Debug, Drop)]
pub struct Output {
    /// What it is answered.
    pub reply: Answer,
    /// The view that it changed at a resource manager, if it changed one.
    pub now: Option<Change>,
    /// What to send, in order.
    pub sends: NodeSends,
}

impl Output {
    /// Nothing that came of anything yet.
    pub fn nothing() -> Output
        ensures { result ≡ output_of Done None }
    {
        Output {
            reply: Answer::Done,
            now: None,
            sends: NodeSends::none(),
        }
    }

    /// An answer alone, in place of what came of another input.
    pub fn answer(&mut self, reply: Answer)
        ensures { self.new ≡ output_of reply None }
    {
        self.reply = reply;
        self.keep_view();
        self.sends.clear();
    }

    /// A refusal alone.
    pub(crate) fn refuse(&mut self, refusal: Refusal)
        ensures { self.new ≡ output_of (Refused refusal) None }
    {
        self.answer(Answer::Refused(refusal));
    }

    /// No view changed.
    pub(crate) fn keep_view(&mut self)
        ensures { self.new ≡ record { reply = self.old.reply; now = None; sends = self.old.sends } }
    {
        let Some(_) = &self.now else {
            return;
        };
        self.now = None;
    }

    /// The change of a view that a fact makes, once it is stored.
    #[inline(never)]
    pub(crate) fn put_change_by(&mut self, who: NodeId, fact: &FactView<'_>)
        ensures { self.new ≡ record { reply = self.old.reply; now = change_made who fact.now; sends = self.old.sends } }
    {
        let NodeId::R(rm) = who else {
            self.keep_view();
            return;
        };
        let view = match fact.rest() {
            FactRest::VotePrepared { .. } => View::Prepared,
            FactRest::VoteAborted => View::Aborted,
            FactRest::Committed => View::Committed,
            FactRest::Aborted => View::Aborted,
            FactRest::Promise { .. }
            | FactRest::PromiseAll { .. }
            | FactRest::Accept { .. }
            | FactRest::Ballot { .. } => {
                self.keep_view();
                return;
            }
        };
        let tx = fact.tx().to_tx();
        self.now = Some(Change { rm, tx, view });
    }

    /// What an acceptor or a resource manager answers and sends on a message.
    pub(crate) fn put_reply(&mut self, reply: &Option<SentReply<'_>>)
        ensures { self.new ≡ record { reply = Done; now = self.old.now; sends = sent_reply reply.now } }
    {
        self.reply = Answer::Done;
        self.sends.reply(reply);
    }

    /// The refusal of an append that was stopped, with the change that the fact makes where its whole frame was kept.
    pub(crate) fn stop(&mut self, stopped: Stopped, who: NodeId, fact: &FactView<'_>)
        ensures { self.new ≡ stopped_output stopped (change_made who fact.now) }
    {
        match stopped {
            Stopped::Memory => self.refuse(Refusal::NoMemory),
            Stopped::Fault { whole: false } => self.refuse(Refusal::RecordFault),
            Stopped::Fault { whole: true } => {
                self.answer(Answer::Refused(Refusal::RecordFault));
                self.put_change_by(who, fact);
            }
        }
    }

    /// What a resource manager is reminded of at a timeout. There is no fact to store.
    pub(crate) fn take_reminder(&mut self, reminder: Reminder, fact: &mut Option<Fact>)
        ensures { decided fact.new self.new ≡ from_reminder reminder }
    {
        forget_fact(fact);
        self.reply = reminder.answer;
        self.sends.remind(reminder.vote, reminder.question);
    }

    /// What is answered where there is nothing to store or to send.
    pub(crate) fn take_answer(&mut self, reply: Answer, fact: &mut Option<Fact>)
        ensures { decided fact.new self.new ≡ answering reply }
    {
        forget_fact(fact);
        self.reply = reply;
        self.sends.clear();
    }
}
