ghost use Rattle.std.specs.Prelude.{◌≡◌, ◌+◌, min};
ghost use Rattle.xid.specs.declared.refusals.Refusal.TheVariants.{PortFault};
ghost use Rattle.stable_record.specs.Held.{IsCounted, most_faults};
ghost use Rattle.signed_port.specs.SignedPorts.{plain_count};

use crate::carrier::{Carrier, MAX_CARRIED, copy};
use port::{MAX_TAKEN, Port};
use protocol::NodeId;
use xid::Refusal;

/// A port over a carrier, whose datagrams aren't signed.
#[derive(Drop)]
pub struct PlainPort<C> {
    carrier: C,
    faults: u64,
}

impl<C: Carrier> PlainPort<C> {
    /// A port over a carrier.
    pub fn new(carrier: C) -> PlainPort<C>
        ensures { result ≡ record { carrier = carrier; faults = 0 } }
    {
        PlainPort { carrier, faults: 0 }
    }

    /// What carries its datagrams.
    pub fn carrier(&self) -> &C
        ensures { result.now ≡ self.now.carrier }
    {
        &self.carrier
    }

    /// Counts a fault, and answers it.
    fn count(&mut self) -> Refusal
        ensures fault { result ≡ PortFault }
        ensures counted { IsCounted (plain_count self.old) (plain_count self.new) }
        ensures same { self.new ≡ record self.old { faults = min (self.old.faults + 1) most_faults } }
    {
        self.faults = self.faults.saturating_add(1);
        Refusal::PortFault
    }
}

impl<C: Carrier> Port for PlainPort<C> {
    ghost use Rattle.signed_port.specs.SignedPorts.{plain_count, PlainReceived, PlainSent};

    ghost fault_count = { plain_count };

    ghost received = { PlainReceived C.received };

    ghost sent = { PlainSent C.sent };

    fn recv(&mut self, buffer: &mut [u8; MAX_TAKEN]) -> Result<Option<usize>, Refusal> {
        let mut carried = [0; MAX_CARRIED];
        match self.carrier.recv(&mut carried) {
            Ok(Some(len)) => Ok(Some(copy(&carried[..len], buffer))),
            Ok(None) => Ok(None),
            Err(_) => Err(self.count()),
        }
    }

    fn send(&mut self, receiver: NodeId, bytes: &[u8]) -> Result<(), Refusal> {
        match self.carrier.send(receiver, bytes) {
            Ok(()) => Ok(()),
            Err(_) => Err(self.count()),
        }
    }

    fn faults(&self) -> u64 {
        self.faults
    }
}
