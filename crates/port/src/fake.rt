ghost use Rattle.std.specs.Prelude.{◌≡◌, ◌+◌, ◌-◌, ◌≤◌, ◌==◌, min, [], ◌++◌, ◌∷◌, take, IfErr, OnOk};
ghost use Rattle.xid.specs.declared.refusals.Refusal.TheVariants.{PortFault, NoMemory};
ghost use Rattle.stable_record.specs.Held.{IsCounted, most_faults};
ghost use Rattle.port.specs.Ports.{gone_after, FakeDrawn};

use crate::port::{MAX_TAKEN, Port};
use protocol::NodeId;
use std::alloc::Global;
use xid::{Bytes, Refusal};

/// Bytes that were sent, and to whom.
#[derive(Debug, Drop)]
pub struct Letter {
    /// To whom.
    pub receiver: NodeId,
    /// The bytes.
    pub bytes: Bytes,
}

/// A port in memory: what is sent stays there, and what is received was put there before. One of its calls fails on purpose.
#[derive(Debug, Drop)]
pub struct FakePort {
    alloc: Global,
    waiting: Vec<Bytes>,
    gone: Vec<Letter>,
    left: u64,
    faults: u64,
}

impl FakePort {
    /// A port at which nothing is waiting, and from which nothing has gone. Its receive or send of this number fails, counted from 1; none
    /// does where the number is 0.
    pub fn new(alloc: Global, call: u64) -> FakePort
        ensures waiting { result.waiting.items ≡ [] }
        ensures gone { result.gone.items ≡ [] }
        ensures left { result.left ≡ call }
        ensures faults { result.faults ≡ 0 }
    {
        FakePort {
            alloc,
            waiting: Vec::new(alloc),
            gone: Vec::new(alloc),
            left: call,
            faults: 0,
        }
    }

    /// Bytes are waiting to be received, after those that are. Refused: `NoMemory`, and nothing has changed.
    pub fn put(&mut self, bytes: &[u8]) -> Result<(), Refusal>
        ensures ok { OnOk result (self.new.waiting.items ≡ self.old.waiting.items ++ bytes.now ∷ []) }
        ensures err { IfErr result (λ e. (e ≡ NoMemory) × (self.new.waiting.items ≡ self.old.waiting.items)) }
        ensures gone { self.new.gone.items ≡ self.old.gone.items }
        ensures left { self.new.left ≡ self.old.left }
        ensures faults { self.new.faults ≡ self.old.faults }
    {
        let bytes = Bytes::copy_of(self.alloc, bytes)?;
        self.waiting.push(bytes)?;
        Ok(())
    }

    /// What was sent, in order.
    pub fn gone(&self) -> &[Letter]
        ensures { result.now ≡ self.now.gone.items }
    {
        &self.gone
    }

    /// The first of what is waiting, which then waits no more. None where nothing is. Refused: this call is the one that fails
    /// (`PortFault`).
    pub fn take_first(&mut self) -> Result<Option<Bytes>, Refusal>
        ensures step { FakeDrawn self.old self.new result }
        ensures well { OnOk result (self.new.faults ≡ self.old.faults) }
        ensures fault { IfErr result (λ e. (e ≡ PortFault) × IsCounted self.old.faults self.new.faults) }
    {
        if self.is_due() {
            return Err(self.count());
        }
        if self.waiting.is_empty() {
            return Ok(None);
        }
        let first = self.waiting.remove(0);
        Ok(Some(first))
    }

    /// Whether this call is the one that fails. It counts the call.
    fn is_due(&mut self) -> bool
        ensures same { self.new ≡ record self.old { left = self.old.left - 1 } }
        ensures due { result ≡ (self.old.left == 1) }
    {
        let due = self.left == 1;
        self.left = self.left.saturating_sub(1);
        due
    }

    /// Counts a fault, and answers it.
    fn count(&mut self) -> Refusal
        ensures fault { result ≡ PortFault }
        ensures counted { IsCounted self.old.faults self.new.faults }
        ensures same { self.new ≡ record self.old { faults = min (self.old.faults + 1) most_faults } }
    {
        self.faults = self.faults.saturating_add(1);
        Refusal::PortFault
    }

    /// Keeps what is sent, where memory allows.
    fn keep(&mut self, receiver: NodeId, bytes: &[u8]) -> Result<(), Refusal>
        ensures gone { self.new.gone.items ≡ gone_after self.old.gone.items (record { receiver = receiver; bytes = bytes.now }) result }
        ensures waiting { self.new.waiting.items ≡ self.old.waiting.items }
        ensures left { self.new.left ≡ self.old.left }
        ensures faults { self.new.faults ≡ self.old.faults }
    {
        let bytes = Bytes::copy_of(self.alloc, bytes)?;
        self.gone.push(Letter { receiver, bytes })?;
        Ok(())
    }
}

impl Port for FakePort {
    ghost use Rattle.port.specs.Ports.{fake_count, FakeReceived, FakeSent};

    ghost fault_count = { fake_count };

    ghost received = { FakeReceived };

    ghost sent = { FakeSent };

    fn recv(&mut self, buffer: &mut [u8; MAX_TAKEN]) -> Result<Option<usize>, Refusal> {
        match self.take_first() {
            Ok(Some(first)) => Ok(Some(copy(first.as_slice(), buffer))),
            Ok(None) => Ok(None),
            Err(refusal) => Err(refusal),
        }
    }

    fn send(&mut self, receiver: NodeId, bytes: &[u8]) -> Result<(), Refusal> {
        if self.is_due() {
            return Err(self.count());
        }
        match self.keep(receiver, bytes) {
            Ok(()) => Ok(()),
            Err(_) => Err(self.count()),
        }
    }

    fn faults(&self) -> u64 {
        self.faults
    }
}

/// Copies bytes to the front of a buffer, as far as it reaches, and answers how many.
fn copy(bytes: &[u8], buffer: &mut [u8; MAX_TAKEN]) -> usize
    ensures within { result ≤ MAX_TAKEN }
    ensures front { take result buffer.new ≡ take MAX_TAKEN bytes.now }
{
    let len = MAX_TAKEN.min(bytes.len());
    buffer[..len].copy_from_slice(&bytes[..len]);
    len
}
