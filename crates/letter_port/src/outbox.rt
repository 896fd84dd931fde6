ghost use Rattle.std.specs.Prelude.{◌≡◌, ◌+◌, ◌<◌, [], length, replicate, IfOk};
ghost use Rattle.node_core.specs.Places.{node_count};
ghost use Rattle.letters.specs.Letters.{letter_spelling};

use letters::{Letter, MAX_ENCLOSED};
use node_core::{Sizes, node_count, node_in, place_of};
use port::{MAX_TAKEN, Port};
use protocol::NodeId;
use std::alloc::{AllocError, Global};
use xid::Refusal;

/// A port, and a letter to each node of a cluster, by its place: what is sent waits in these until there is no room, or until all go.
#[derive(Drop)]
pub(crate) struct Outbox<P> {
    pub(crate) port: P,
    pub(crate) sizes: Sizes,
    pub(crate) letters: Vec<Letter>,
    pub(crate) faults: u64,
    ghost complete: { length letters.items ≡ sizes.acceptors + sizes.leaders + sizes.managers },
}

/// A letter with nothing in it to each of so many nodes.
fn empty_letters(alloc: Global, count: usize) -> Result<Vec<Letter>, AllocError>
    ensures { IfOk result (λ letters. letters.items ≡ replicate count (letter_spelling [])) }
{
    let mut letters = Vec::new(alloc);
    for _ in 0..count {
        letters.push(Letter::new())?;
    }
    Ok(letters)
}

impl<P: Drop> Outbox<P> {
    ghost use Rattle.std.specs.Prelude.{◌≡◌, replicate, [], IfOk};
    ghost use Rattle.letters.specs.Letters.{letter_spelling};
    ghost use Rattle.node_core.specs.Places.{node_count};

    /// One over a port, of a node of a cluster of these sizes, with no message in any letter.
    pub(crate) fn new(alloc: Global, port: P, sizes: Sizes) -> Result<Outbox<P>, AllocError>
        ensures port { IfOk result (λ outbox. outbox.port ≡ port) }
        ensures sizes { IfOk result (λ outbox. outbox.sizes ≡ sizes) }
        ensures letters { IfOk result (λ outbox. outbox.letters.items ≡ replicate (node_count sizes) (letter_spelling [])) }
    {
        let letters = empty_letters(alloc, node_count(sizes))?;
        Ok(Outbox {
            port,
            sizes,
            letters,
            faults: 0,
        })
    }
}

impl<P: Port> Outbox<P> {
    ghost use Rattle.std.specs.Prelude.{◌≡◌, ◌≤◌, ◌<◌, ◌+◌, min, length, replicate, [], IfOk};
    ghost use Rattle.xid.specs.declared.refusals.Refusal.TheVariants.{PortFault};
    ghost use Rattle.stable_record.specs.Held.{IsCounted, most_faults};
    ghost use Rattle.letters.specs.Letters.{letter_spelling};
    ghost use Rattle.letters.specs.declared.letter.TheConstants.{MAX_ENCLOSED, MAX_LETTER};
    ghost use Rattle.node_core.specs.Places.{node_count};
    ghost use Rattle.letter_port.specs.Outboxes.{AllGo, Dispatched, MakesRoom, letter_in, outbox_count};

    /// Counts a fault, and answers it.
    fn count(&mut self) -> Refusal
        ensures fault { result ≡ PortFault }
        ensures counted { IsCounted (outbox_count self.old) (outbox_count self.new) }
        ensures same { self.new ≡ record self.old { faults = min (self.old.faults + 1) most_faults } }
    {
        self.faults = self.faults.saturating_add(1);
        Refusal::PortFault
    }

    /// The letter in a place goes, unless it has no message. If it is lost, so is what it has, as a datagram may be.
    fn dispatch(&mut self, at: usize)
        requires { at < length self.old.letters.items }
        ensures { Dispatched P.sent at self.old self.new }
    {
        if !self.letters[at].is_empty() {
            let _ = self
                .port
                .send(node_in(self.sizes, at), self.letters[at].as_slice());
        }
        self.letters[at].clear();
    }

    /// The letter in a place goes if there is no room in it for a message.
    fn make_room(&mut self, at: usize, message: &[u8])
        requires at { at < length self.old.letters.items }
        requires short { length message.now ≤ MAX_ENCLOSED }
        ensures room { MakesRoom P.sent at self.old self.new }
        ensures fits { length (letter_in self.new.letters.items at) + (2 + length message.now) ≤ MAX_LETTER }
        ensures at { at < length self.new.letters.items }
    {
        if !self.letters[at].has_room(message) {
            self.dispatch(at);
        }
    }

    /// All letters that have a message go, in the order of their places.
    pub(crate) fn flush(&mut self)
        ensures { AllGo P.sent (length self.old.letters.items) self.old self.new }
    {
        for at in 0..self.letters.len() {
            self.dispatch(at);
        }
    }
}

impl<P: Port> Port for Outbox<P> {
    ghost use Rattle.letter_port.specs.Outboxes.{outbox_count, OutboxReceived, OutboxSent};

    ghost fault_count = { outbox_count };

    ghost received = { OutboxReceived P.received };

    ghost sent = { OutboxSent P.sent };

    // a port has to have one; what is received comes by `LetterPort::recv`, from the port beneath
    fn recv(&mut self, buffer: &mut [u8; MAX_TAKEN]) -> Result<Option<usize>, Refusal> {
        match self.port.recv(buffer) {
            Ok(taken) => Ok(taken),
            Err(_) => Err(self.count()),
        }
    }

    fn send(&mut self, receiver: NodeId, bytes: &[u8]) -> Result<(), Refusal> {
        let Some(at) = place_of(self.sizes, receiver) else {
            return Err(self.count());
        };
        if bytes.len() > MAX_ENCLOSED {
            return Err(self.count());
        }
        self.make_room(at, bytes);
        self.letters[at].push(bytes);
        Ok(())
    }

    fn faults(&self) -> u64 {
        self.faults
    }
}
