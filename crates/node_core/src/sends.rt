ghost use Rattle.std.specs.Prelude.{◌≡◌, ℕ, ◌<◌, [], ◌++◌, ◌≤◌, ◌∷◌, length, slice_index_or, take, true};
ghost use Rattle.std.specs.Prelude.{IfErr, IfSome, IsOk, OnOk, Option, None};
ghost use Rattle.xid.specs.declared.refusals.Refusal.TheVariants.{NoMemory};
ghost use Rattle.wire.specs.declared.message.Kind.{Kind};
ghost use Rattle.wire.specs.Grammar.{Spells};
ghost use Rattle.stable_record.specs.declared.fact.FactKind.{FactKind};
ghost use Rattle.protocol.specs.Decisions.{sent_reply};
ghost use Rattle.protocol.specs.Effects.{Config};
ghost use Rattle.protocol.specs.Leaders.{on_leader_message};
ghost use Rattle.protocol.specs.Nodes.{on_request};
ghost use Rattle.leader.specs.Leaders.{FollowsOrRefuses};
ghost use Rattle.node_core.specs.declared.role.Role.TheVariants as roles;
ghost use Rattle.node_core.specs.Roles.{Decides};
ghost use Rattle.node_core.specs.Sends.{led, IsSpelledAt};
ghost use Rattle.node_core.specs.Sparing.{leads_freely};

use crate::replied::Replied;
use crate::requests::lead;
use leader::{Leader, LeaderDecision};
use protocol::{Address, Answer, Outgoing, Request, Sends, SentReply};
use stable_record::Fact;
use std::marker::Model;
use std::mem;
use wire::{MAX_DATAGRAM, MAX_MESSAGE_BYTES, MessageView, encode};
use xid::Refusal;

/// The messages that a node sends, in order, which a contract sees as the list of them. To make them takes no memory. There is a place
/// for those of each kind of node, so that what is sent at one input can take the place of what was sent at another.
#[derive(Debug)]
pub struct NodeSends {
    // what an acceptor replies or a resource manager sends on a message, as it is spelled
    replied: Replied,
    // the vote that a resource manager sends again when nothing was heard for too long
    reminded: Sends,
    // what it asks then
    question: Sends,
    // what a leader decided, of which the messages alone are sent
    led: LeaderDecision,
}

// written once: a derived one would stand in each function that lets messages go
impl Drop for NodeSends {
    fn drop(self) {
        let NodeSends {
            replied: _,
            reminded: _,
            question: _,
            led: _,
        } = self;
    }
}

impl Model for NodeSends {
    ghost use Rattle.std.specs.Prelude.{List, ◌++◌};
    ghost use Rattle.protocol.specs.declared.decisions.Outgoing.{Outgoing};
    ghost use Rattle.node_core.specs.Sends.{AreSends};

    ghost Value = { List Outgoing };

    ghost view = { λ s. s.replied ++ (s.reminded ++ s.question ++ s.led.sends) };

    ghost invariant = { λ s. AreSends s.replied s.reminded s.question s.led.sends };
}

/// No fact any more.
pub(crate) fn forget_fact(fact: &mut Option<Fact>)
    ensures { fact.new ≡ None }
{
    let Some(_) = &*fact else {
        return;
    };
    *fact = None;
}

/// A fact, or none, in place of another.
fn take_fact(from: &mut Option<Fact>, to: &mut Option<Fact>)
    ensures { to.new ≡ from.old }
{
    if from.is_some() {
        *to = from.take();
    } else {
        forget_fact(to);
    }
}

/// The message that is sent, by itself.
fn outgoing_of(reply: &SentReply<'_>) -> Outgoing
    ensures { result ≡ record { to = reply.now.to; message = reply.now.message } }
{
    let mut one = Replied::none();
    one.put(reply);
    one.get()
}

impl NodeSends {
    /// Nothing.
    pub fn none() -> NodeSends
        ensures { result ≡ [] }
    {
        NodeSends {
            replied: Replied::none(),
            reminded: Sends::none(),
            question: Sends::none(),
            led: LeaderDecision::nothing(),
        }
    }

    /// Nothing, in place of what was sent before.
    pub(crate) fn clear(&mut self)
        ensures { self.new ≡ [] }
    {
        self.replied.clear();
        self.reminded.clear();
        self.question.clear();
        self.led.sends.clear();
    }

    /// What an acceptor or a resource manager sends on a message, in place of what was sent before.
    pub(crate) fn reply(&mut self, reply: &Option<SentReply<'_>>)
        ensures { self.new ≡ sent_reply reply.now }
    {
        self.clear();
        match reply {
            Some(reply) => self.replied.put(reply),
            None => {}
        }
    }

    /// What a leader sends on a message, in place of what was sent before; beside it the answer is left. What it decided to store is
    /// nothing, whatever it stands for. Refused as the leader refuses.
    pub(crate) fn lead(
        &mut self,
        leader: &mut Leader,
        message: &MessageView<'_>,
        reply: &mut Answer,
    ) -> Result<(), Refusal>
        ensures { (fact : Option FactKind) × ((config : Config) (number : ℕ) → FollowsOrRefuses config number leader.old leader.new
            (led reply.new fact self.new result)
            (λ stored memory. on_leader_message config stored memory message.now)) }
    {
        self.replied.clear();
        self.reminded.clear();
        self.question.clear();
        leader.on_message(message, &mut self.led)?;
        *reply = mem::replace(&mut self.led.answer, Answer::Done);
        Ok(())
    }

    /// What a leader sends on a request, in place of what was sent before; beside it the answer is left, and the fact that is to be stored
    /// before. Refused as the leader refuses.
    pub(crate) fn ask(
        &mut self,
        leader: &mut Leader,
        request: &Request,
        reply: &mut Answer,
        fact: &mut Option<Fact>,
    ) -> Result<(), Refusal>
        ensures ok { OnOk result (Decides (roles.Leader leader.old) (roles.Leader leader.new)
            (record { answer = reply.new; fact = fact.new; sends = self.new })
            (λ config who facts memory. on_request config who facts memory request.now)) }
        ensures err { IfErr result (λ e. e ≡ NoMemory) }
        ensures free { leads_freely request.now ≡ true → IsOk result }
    {
        self.replied.clear();
        self.reminded.clear();
        self.question.clear();
        lead(leader, request, &mut self.led)?;
        *reply = mem::replace(&mut self.led.answer, Answer::Done);
        take_fact(&mut self.led.fact, fact);
        Ok(())
    }

    /// What a resource manager sends when nothing was heard for too long, in place of what was sent before.
    pub(crate) fn remind(&mut self, vote: Sends, question: Sends)
        ensures { self.new ≡ vote ++ question }
    {
        self.replied.clear();
        self.reminded = vote;
        self.question = question;
        self.led.sends.clear();
    }

    /// How many there are.
    pub fn count(&self) -> usize
        ensures { result ≡ length self.now }
    {
        let replied = self.replied.count();
        if replied > 0 {
            return replied;
        }
        let led = self.led.sends.count();
        if led > 0 {
            return led;
        }
        self.reminded.as_slice().len() + self.question.as_slice().len()
    }

    /// Whom an acceptor's or a resource manager's reply to a message is for, and the bytes that spell it, where that is what is sent;
    /// nothing else is then.
    pub fn spelled(&self) -> Option<(Address, &[u8])>
        ensures few { IfSome result (λ sent. length sent.1.now ≤ MAX_MESSAGE_BYTES) }
        ensures spells { IfSome result (λ sent. (message : Kind) × Spells message sent.1.now
            × (self.now ≡ record { to = sent.0; message = message } ∷ [])) }
    {
        if self.replied.count() == 0 {
            return None;
        }
        Some(self.replied.spelled())
    }

    /// The message of a place.
    pub fn at(&self, i: usize) -> Outgoing
        requires { i < length self.now }
        ensures { result ≡ slice_index_or self.now i result }
    {
        if self.replied.count() > 0 {
            return self.replied.get();
        }
        let first = self.reminded.as_slice();
        if i < first.len() {
            return first[i];
        }
        let question = self.question.as_slice();
        if i - first.len() < question.len() {
            return question[i - first.len()];
        }
        outgoing_of(&self.led.sends.at(i - first.len() - question.len()))
    }

    /// Spells the message of a place at the front of `out`, and answers whom it is for, and how many bytes it has.
    pub fn spell(&self, i: usize, out: &mut [u8; MAX_DATAGRAM]) -> (Address, usize)
        requires { i < length self.now }
        ensures few { result.1 ≤ MAX_MESSAGE_BYTES }
        ensures spells { IsSpelledAt self.now i result.0 (take result.1 out.new) }
    {
        if self.led.sends.count() > 0 {
            let sent = &self.led.sends.at(i);
            return (sent.to, sent.message.encode(out));
        }
        let outgoing = &self.at(i);
        let _ = outgoing.message.kind();
        (outgoing.to, encode(&outgoing.message, out))
    }
}
