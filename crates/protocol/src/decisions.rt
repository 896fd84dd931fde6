ghost use Rattle.std.specs.Prelude.{◌≡◌, [], ◌∷◌, None};

use crate::answers::Answer;
use crate::nodes::NodeId;
use stable_record::{Fact, FactView};
use std::marker::Model;
use std::slice;
use wire::{Message, Reply};

/// Whom a message is for.
#[derive(Clone, Copy, Debug, PartialEq, Eq)]
pub enum Address {
    /// One node.
    Node(NodeId),
    /// Each acceptor.
    Acceptors,
    /// Each leader.
    Leaders,
    /// Each resource manager of the message's transaction.
    Managers,
}

/// A message to send, and whom it is for.
#[derive(Clone, Copy, Debug, PartialEq, Eq)]
pub struct Outgoing {
    /// Whom it is for.
    pub to: Address,
    /// The message.
    pub message: Message,
}

/// Messages to send, in order, which a contract sees as the list of them. To make them takes no memory.
#[derive(Clone, Copy, Debug)]
pub struct Sends {
    only: Option<Outgoing>,
}

impl Model for Sends {
    ghost use Rattle.std.specs.Prelude.{List};
    ghost use Rattle.protocol.specs.declared.decisions.Outgoing.{Outgoing};
    ghost use Rattle.protocol.specs.Sending.{listed, first_listed};

    ghost Value = { List Outgoing };

    ghost view = { λ sends. listed sends.only };

    ghost inverse = { λ outgoing. record { only = first_listed outgoing } };
}

impl Sends {
    /// Nothing to send.
    pub fn none() -> Sends
        ensures { result ≡ [] }
    {
        Sends { only: None }
    }

    /// One message.
    pub fn one(outgoing: Outgoing) -> Sends
        ensures { result ≡ outgoing ∷ [] }
    {
        Sends {
            only: Some(outgoing),
        }
    }

    /// No message any more.
    pub fn clear(&mut self)
        ensures { self.new ≡ [] }
    {
        let Some(_) = &self.only else {
            return;
        };
        self.only = None;
    }

    /// The messages.
    pub fn as_slice(&self) -> &[Outgoing]
        ensures { result.now ≡ self.now }
    {
        match &self.only {
            None => &[],
            Some(outgoing) => slice::from_ref(outgoing),
        }
    }
}

/// What a part of a node decides on an input.
#[derive(Debug, Drop)]
pub struct Decision {
    /// What the input is answered.
    pub answer: Answer,
    /// The fact to store, if there is one. Nothing is sent before it is stored.
    pub fact: Option<Fact>,
    /// What to send then, in order.
    pub sends: Sends,
}

/// What is sent on a message, and whom it is for.
#[derive(Debug, Drop)]
pub struct SentReply<'a> {
    /// Whom it is for.
    pub to: Address,
    /// The message.
    pub message: Reply<'a>,
}

/// What an acceptor or a resource manager decides on a message, over the bytes of its transaction. The answer is ok.
#[derive(Debug, Drop)]
pub struct MessageDecision<'a> {
    /// The fact to store, if there is one. Nothing is sent before it is stored.
    pub fact: Option<FactView<'a>>,
    /// What to send then, if there is anything.
    pub reply: Option<SentReply<'a>>,
}

impl<'a> MessageDecision<'a> {
    /// Nothing to store, and nothing to send. It takes no memory.
    pub fn nothing() -> MessageDecision<'a>
        ensures fact { result.fact ≡ None }
        ensures reply { result.reply ≡ None }
    {
        MessageDecision {
            fact: None,
            reply: None,
        }
    }
}
