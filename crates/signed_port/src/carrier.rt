ghost use Rattle.std.specs.Prelude.{◌≡◌, ◌≤◌, ℕ, List, Option, Result, IfOk, IfErr, IfSome, OnOk, take};
ghost use Rattle.xid.specs.declared.refusals.Refusal.{Refusal as CarrierRefusal};
ghost use Rattle.xid.specs.declared.refusals.Refusal.TheVariants.{PortFault};
ghost use Rattle.stable_record.specs.Held.{IsCounted};
ghost use Rattle.protocol.specs.declared.nodes.NodeId.{NodeId as Receiver};
ghost use Rattle.port.specs.Ports.{taken_from};

use crate::signing::TRAILER;
use port::MAX_TAKEN;
use protocol::NodeId;
use xid::Refusal;

/// How many bytes of a datagram a carrier takes at most: those that a port gives at most, and what follows them.
pub const MAX_CARRIED: usize = MAX_TAKEN + TRAILER;

/// What carries a port's datagrams, as a socket does. It doesn't wait. Each failure is counted.
pub trait Carrier {
    /// How often it has failed.
    ghost fault_count: { Self → ℕ };

    /// A receive that gave this, a datagram's bytes or none, made the one carrier of the other.
    ghost received: { Self → Self → Result (Option (List ℕ)) CarrierRefusal → Type 0 };

    /// A send of these bytes to this node, done or failed, made the one carrier of the other.
    ghost sent: { Self → Self → Receiver → List ℕ → Result (Unit {0}) CarrierRefusal → Type 0 };

    /// Takes a datagram, if one is there, and answers how many bytes of it now stand at the front of the buffer. Of a longer one the
    /// first bytes are taken, and the rest is lost. Refused: it failed (`PortFault`).
    fn recv(&mut self, buffer: &mut [u8; MAX_CARRIED]) -> Result<Option<usize>, Refusal>
        ensures step { received self.old self.new (taken_from buffer.new result) }
        ensures within { IfOk result (λ taken. IfSome taken (λ len. len ≤ MAX_CARRIED)) }
        ensures well { OnOk result (fault_count self.new ≡ fault_count self.old) }
        ensures fault { IfErr result (λ e. (e ≡ PortFault) × IsCounted (fault_count self.old) (fault_count self.new)) };

    /// Sends bytes to a node, once. Whether they arrive isn't known. Refused: it failed (`PortFault`), and they are lost.
    fn send(&mut self, receiver: NodeId, bytes: &[u8]) -> Result<(), Refusal>
        ensures step { sent self.old self.new receiver bytes.now result }
        ensures well { OnOk result (fault_count self.new ≡ fault_count self.old) }
        ensures fault { IfErr result (λ e. (e ≡ PortFault) × IsCounted (fault_count self.old) (fault_count self.new)) };

    /// How often it has failed. The count stays at its greatest value.
    fn faults(&self) -> u64
        ensures { result ≡ fault_count self.now };
}

/// Copies bytes to the front of a buffer, as far as it reaches, and answers how many.
pub(crate) fn copy<const N: usize>(bytes: &[u8], buffer: &mut [u8; N]) -> usize
    ensures within { result ≤ N }
    ensures front { take result buffer.new ≡ take N bytes.now }
{
    let len = N.min(bytes.len());
    buffer[..len].copy_from_slice(&bytes[..len]);
    len
}
