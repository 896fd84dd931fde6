use crate::arrived::Arrived;
use crate::outbox::Outbox;
use letters::is_letter;
use node_core::{Input, Output, Sizes};
use port::{MAX_TAKEN, Member, Port};
use stable_record::{Record, RecordError};
use std::alloc::{AllocError, Global};
use std::marker::Model;
use xid::{Floor, Refusal};

/// A port of a node over another port, whose datagrams are letters.
#[derive(Drop)]
pub struct LetterPort<P> {
    outbox: Outbox<P>,
    arrived: Arrived,
    dropped: u64,
}

impl<P> Model for LetterPort<P> {
    ghost use Rattle.std.specs.Prelude.{◌≡◌, replicate, []};
    ghost use Rattle.node_core.specs.Places.{node_count};
    ghost use Rattle.letters.specs.Letters.{letter_spelling};
    ghost use Rattle.letter_port.specs.LetterPorts.{LetterParts};

    ghost Value = { LetterParts P };

    ghost view = { λ p. record { port = p.outbox.port; sizes = p.outbox.sizes; left = p.arrived; dropped = p.dropped } };

    ghost invariant = { λ p. p.outbox.letters.items ≡ replicate (node_count p.outbox.sizes) (letter_spelling []) };
}

impl<P: Drop> LetterPort<P> {
    ghost use Rattle.std.specs.Prelude.{◌≡◌, [], IfOk};

    /// A port over another, of a node of a cluster of these sizes.
    pub fn new(alloc: Global, port: P, sizes: Sizes) -> Result<LetterPort<P>, AllocError>
        ensures { IfOk result (λ made. made ≡ record { port = port; sizes = sizes; left = []; dropped = 0 }) }
    {
        Ok(LetterPort {
            outbox: Outbox::new(alloc, port, sizes)?,
            arrived: Arrived::nothing(),
            dropped: 0,
        })
    }
}

impl<P: Port> LetterPort<P> {
    ghost use Rattle.std.specs.Prelude.{◌≡◌, ◌≤◌, ◌+◌, min, length, map, [], IfOk, IfErr, IfSome, OnOk};
    ghost use Rattle.std.specs.List.{flat_map};
    ghost use Rattle.xid.specs.declared.refusals.Refusal.TheVariants.{PortFault};
    ghost use Rattle.stable_record.specs.Held.{most_faults};
    ghost use Rattle.protocol.specs.Effects.{Config};
    ghost use Rattle.protocol.specs.Nodes.{NodeState};
    ghost use Rattle.floored.specs.Nodes.{FlooredStands};
    ghost use Rattle.port.specs.Calls.{datagrams_from};
    ghost use Rattle.port.specs.Members.{TakesAll, item_of};
    ghost use Rattle.port.specs.Ports.{taken_from};
    ghost use Rattle.letter_port.specs.LetterPorts.{LetterReceived, RaisesInLetters, SendsOut};
    ghost use Rattle.letter_port.specs.Mails.{mail_of};
    ghost use Rattle.letter_port.specs.Runs.{TakesLettersWhole};

    /// The port beneath.
    pub fn port(&self) -> &P
        ensures { result.now ≡ self.now.port }
    {
        &self.outbox.port
    }

    /// How many datagrams it dropped since they were no letters. The count stays at its greatest value.
    pub fn dropped(&self) -> u64
        ensures { result ≡ self.now.dropped }
    {
        self.dropped
    }

    /// Counts a datagram that is no letter, and answers the fault.
    fn count_dropped(&mut self) -> Refusal
        ensures fault { result ≡ PortFault }
        ensures same { self.new ≡ record self.old { dropped = min (self.old.dropped + 1) most_faults } }
    {
        self.dropped = self.dropped.saturating_add(1);
        Refusal::PortFault
    }

    /// Takes the next message, if one is there, to the front of a buffer, and answers how many bytes it has: one that is left of the letter
    /// that came last, else the first of a letter that has come. Refused: the port failed, or what came is no letter, of which nothing is
    /// taken (`PortFault`).
    pub fn recv(&mut self, buffer: &mut [u8; MAX_TAKEN]) -> Result<Option<usize>, Refusal>
        ensures step { LetterReceived P.received self.old self.new (taken_from buffer.new result) }
        ensures within { IfOk result (λ taken. IfSome taken (λ len. len ≤ MAX_TAKEN)) }
    {
        if let Some(len) = self.arrived.take(buffer) {
            return Ok(Some(len));
        }
        let len = match self.outbox.port.recv(buffer) {
            Ok(Some(len)) => len,
            Ok(None) => return Ok(None),
            Err(_) => return Err(Refusal::PortFault),
        };
        let bytes = &buffer[..len];
        if !is_letter(bytes) {
            return Err(self.count_dropped());
        }
        self.arrived.keep(&bytes[1..]);
        Ok(self.arrived.take(buffer))
    }

    /// The law of receives, which the check proves: however often a port is asked between two groups, it gives the messages of the letters
    /// that came, in order and once each, and nothing of what is no letter. A group leaves what is left as it is. Calling it does nothing.
    pub fn letters_are_taken_whole(&self)
        ensures { TakesLettersWhole P.received }
    {}

    /// Hands inputs to a node at once, as `port::call_all` does, and then sends what came of them in letters: to each node exactly what is
    /// for it, once each and in the order of the inputs. Refused: as `port::call_all` is; then nothing is sent.
    pub fn call_all<R: Record>(
        &mut self,
        member: &mut Member<R>,
        inputs: &[Input],
        outs: &mut [Output],
    ) -> Result<(), RecordError>
        requires { length outs.old ≡ length inputs.now }
        ensures takes { TakesAll (map (item_of member.old.floored.node.who) inputs.now) member.old member.new outs.old outs.new result }
        ensures sends { OnOk result ((config : Config) (m : NodeState) → FlooredStands config member.old.floored m
            → SendsOut P.sent self.old self.new (map mail_of (flat_map (datagrams_from config member.old.floored.node.who) outs.new))) }
        ensures left { self.new.left ≡ self.old.left }
        ensures dropped { self.new.dropped ≡ self.old.dropped }
        ensures quiet { IfErr result (λ error. self.new ≡ self.old) }
    {
        match port::call_all(member, &mut self.outbox, inputs, outs) {
            Ok(()) => {}
            Err(error) => return Err(error),
        }
        self.outbox.flush();
        Ok(())
    }

    /// Asks a node to raise its floor, as `port::raise` does, and sends the notices of its floor then in letters. Refused: as `port::raise`
    /// is; then nothing is sent.
    pub fn raise<R: Record>(&mut self, member: &mut Member<R>, floor: &Floor) -> Result<(), Refusal>
        ensures raises { RaisesInLetters P.sent floor.now member.old.floored.node.who member.old member.new self.old self.new result }
        ensures left { self.new.left ≡ self.old.left }
        ensures dropped { self.new.dropped ≡ self.old.dropped }
    {
        let result = port::raise(member, &mut self.outbox, floor);
        self.outbox.flush();
        result
    }

    /// How often it has failed: sends and receives of the port beneath, what could go into no letter, and what was no letter. The count
    /// stays at its greatest value.
    pub fn faults(&self) -> u64 {
        let beneath = self.outbox.port.faults();
        beneath
            .saturating_add(self.outbox.faults)
            .saturating_add(self.dropped)
    }
}
