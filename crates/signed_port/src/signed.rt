ghost use Rattle.std.specs.Prelude.{◌≡◌, ◌+◌, min};
ghost use Rattle.xid.specs.declared.refusals.Refusal.TheVariants.{PortFault};
ghost use Rattle.stable_record.specs.Held.{IsCounted, most_faults};
ghost use Rattle.signed_port.specs.SignedPorts.{signed_count};

use crate::carrier::{Carrier, MAX_CARRIED, copy};
use crate::signing::{DIGEST, Signer};
use hmac::Key;
use port::{MAX_TAKEN, Port};
use protocol::NodeId;
use wire::MAX_DATAGRAM;
use xid::Refusal;

/// A port over a carrier, whose datagrams are signed: each that it sends carries its node and a tag, and each that it gives carried the
/// right one, by another node, for this one, of this cluster. What carries another is dropped, and counted as a fault.
#[derive(Drop)]
pub struct SignedPort<C> {
    carrier: C,
    signer: Signer,
    faults: u64,
    dropped: u64,
}

impl<C: Carrier> SignedPort<C> {
    /// A port of a node over a carrier. Its datagrams are signed with the key, for the cluster of this digest.
    pub fn new(carrier: C, key: Key, digest: [u8; DIGEST], who: NodeId) -> SignedPort<C>
        ensures { result ≡ record {
          carrier = carrier;
          signer = record { key = key; digest = digest; who = who };
          faults = 0;
          dropped = 0;
        } }
    {
        SignedPort {
            carrier,
            signer: Signer { key, digest, who },
            faults: 0,
            dropped: 0,
        }
    }

    /// What carries its datagrams.
    pub fn carrier(&self) -> &C
        ensures { result.now ≡ self.now.carrier }
    {
        &self.carrier
    }

    /// How many datagrams it dropped since they weren't signed for it. The count stays at its greatest value. Each is a fault too.
    pub fn dropped(&self) -> u64
        ensures { result ≡ self.now.dropped }
    {
        self.dropped
    }

    /// Counts a fault, and answers it.
    fn count(&mut self) -> Refusal
        ensures fault { result ≡ PortFault }
        ensures counted { IsCounted (signed_count self.old) (signed_count self.new) }
        ensures same { self.new ≡ record self.old { faults = min (self.old.faults + 1) most_faults } }
    {
        self.faults = self.faults.saturating_add(1);
        Refusal::PortFault
    }

    /// Counts a datagram that isn't signed, and answers the fault.
    fn count_dropped(&mut self) -> Refusal
        ensures fault { result ≡ PortFault }
        ensures counted { IsCounted (signed_count self.old) (signed_count self.new) }
        ensures same { self.new ≡ record self.old {
          faults = min (self.old.faults + 1) most_faults;
          dropped = min (self.old.dropped + 1) most_faults;
        } }
    {
        self.dropped = self.dropped.saturating_add(1);
        self.count()
    }
}

impl<C: Carrier> Port for SignedPort<C> {
    ghost use Rattle.signed_port.specs.SignedPorts.{signed_count, SignedReceived, SignedSent};

    ghost fault_count = { signed_count };

    ghost received = { SignedReceived C.received };

    ghost sent = { SignedSent C.sent };

    fn recv(&mut self, buffer: &mut [u8; MAX_TAKEN]) -> Result<Option<usize>, Refusal> {
        let mut carried = [0; MAX_CARRIED];
        let len = match self.carrier.recv(&mut carried) {
            Ok(Some(len)) => len,
            Ok(None) => return Ok(None),
            Err(_) => return Err(self.count()),
        };
        match self.signer.body_of(&carried[..len]) {
            Some(body) => Ok(Some(copy(body, buffer))),
            None => Err(self.count_dropped()),
        }
    }

    fn send(&mut self, receiver: NodeId, bytes: &[u8]) -> Result<(), Refusal> {
        if bytes.len() > MAX_DATAGRAM {
            return Err(self.count());
        }
        let datagram = self.signer.sign(receiver, bytes);
        match self.carrier.send(receiver, datagram.as_slice()) {
            Ok(()) => Ok(()),
            Err(_) => Err(self.count()),
        }
    }

    fn faults(&self) -> u64 {
        self.faults
    }
}
