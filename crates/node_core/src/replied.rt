//! What an acceptor or a resource manager sends on a message, kept as it is spelled.

ghost use Rattle.std.specs.Prelude.{◌≡◌, ◌<◌, ◌≤◌, [], ◌∷◌, length};
ghost use Rattle.wire.specs.declared.message.Kind.{Kind};
ghost use Rattle.wire.specs.Grammar.{Spells};

use protocol::{Address, Outgoing, SentReply};
use std::marker::Model;
use wire::{MAX_DATAGRAM, MAX_MESSAGE_BYTES, decode};

/// A message of an acceptor or a resource manager by its spelled bytes, and whom it is for; or none.
#[derive(Debug, Drop)]
pub(crate) struct Replied {
    to: Address,
    len: usize,
    bytes: [u8; MAX_DATAGRAM],
}

impl Model for Replied {
    ghost use Rattle.std.specs.Prelude.{List, take};
    ghost use Rattle.wire.specs.Decoding.{message_at};
    ghost use Rattle.protocol.specs.declared.decisions.Outgoing.{Outgoing};
    ghost use Rattle.node_core.specs.Sends.{addressed, IsReplied};

    ghost Value = { List Outgoing };

    ghost view = { λ r. addressed r.to (message_at (take r.len r.bytes)) };

    ghost invariant = { λ r. IsReplied r.len r.bytes };
}

impl Replied {
    /// None.
    pub(crate) fn none() -> Replied
        ensures { result ≡ [] }
    {
        Replied {
            to: Address::Leaders,
            len: 0,
            bytes: [0; MAX_DATAGRAM],
        }
    }

    /// None any more.
    pub(crate) fn clear(&mut self)
        ensures { self.new ≡ [] }
    {
        self.len = 0;
    }

    /// A message, in place of another.
    pub(crate) fn put(&mut self, reply: &SentReply<'_>)
        ensures { self.new ≡ record { to = reply.now.to; message = reply.now.message } ∷ [] }
    {
        self.to = reply.to;
        self.len = reply.message.encode(&mut self.bytes);
    }

    /// How many there are: one, or none.
    pub(crate) fn count(&self) -> usize
        ensures { result ≡ length self.now }
    {
        if self.len == 0 { 0 } else { 1 }
    }

    /// Whom it is for, and the bytes that spell it.
    pub(crate) fn spelled(&self) -> (Address, &[u8])
        requires { 0 < length self.now }
        ensures few { length result.1.now ≤ MAX_MESSAGE_BYTES }
        ensures spells { (message : Kind) × Spells message result.1.now
            × (self.now ≡ record { to = result.0; message = message } ∷ []) }
    {
        (self.to, &self.bytes[..self.len])
    }

    /// The message.
    pub(crate) fn get(&self) -> Outgoing
        requires { 0 < length self.now }
        ensures { self.now ≡ result ∷ [] }
    {
        match decode(&self.bytes[..self.len]) {
            Ok(message) => Outgoing {
                to: self.to,
                message,
            },
            Err(_) => unreachable!(),
        }
    }
}
