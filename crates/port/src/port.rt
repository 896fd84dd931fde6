ghost use Rattle.std.specs.Prelude.{◌≡◌, ◌≤◌, ℕ, List, Option, Result, IfOk, IfErr, IfSome, OnOk};
ghost use Rattle.xid.specs.declared.refusals.Refusal.{Refusal as PortRefusal};
ghost use Rattle.xid.specs.declared.refusals.Refusal.TheVariants.{PortFault};
ghost use Rattle.stable_record.specs.Held.{IsCounted};
ghost use Rattle.protocol.specs.declared.nodes.NodeId.{NodeId as Receiver};
ghost use Rattle.port.specs.Ports.{taken_from};

use protocol::NodeId;
use wire::MAX_DATAGRAM;
use xid::Refusal;

/// How many bytes of a datagram are taken at most: one more than a message may have, so that longer ones spell none.
pub const MAX_TAKEN: usize = MAX_DATAGRAM + 1;

/// Where a node takes datagrams from and puts them. It doesn't wait. Each failure is counted.
pub trait Port {
    /// How often it has failed.
    ghost fault_count: { Self → ℕ };

    /// A receive that gave this, a datagram's bytes or none, made the one port of the other.
    ghost received: { Self → Self → Result (Option (List ℕ)) PortRefusal → Type 0 };

    /// A send of these bytes to this node, done or failed, made the one port of the other.
    ghost sent: { Self → Self → Receiver → List ℕ → Result (Unit {0}) PortRefusal → Type 0 };

    /// Takes a datagram, if one is there, and answers how many bytes of it now stand at the front of the buffer. Of a longer one the
    /// first bytes are taken, and the rest is lost. Refused: it failed (`PortFault`).
    fn recv(&mut self, buffer: &mut [u8; MAX_TAKEN]) -> Result<Option<usize>, Refusal>
        ensures step { received self.old self.new (taken_from buffer.new result) }
        ensures within { IfOk result (λ taken. IfSome taken (λ len. len ≤ MAX_TAKEN)) }
        ensures well { OnOk result (fault_count self.new ≡ fault_count self.old) }
        ensures fault { IfErr result (λ e. (e ≡ PortFault) × IsCounted (fault_count self.old) (fault_count self.new)) };

    /// Sends bytes to a node, once. Whether they arrive isn't known. Refused: it failed (`PortFault`), and they are lost.
    fn send(&mut self, receiver: NodeId, bytes: &[u8]) -> Result<(), Refusal>
        ensures step { sent self.old self.new receiver bytes.now result }
        ensures well { OnOk result (fault_count self.new ≡ fault_count self.old) }
        ensures fault { IfErr result (λ e. (e ≡ PortFault) × IsCounted (fault_count self.old) (fault_count self.new)) };

    /// How often it has failed. The count stays at its greatest value.
    fn faults(&self) -> u64
        ensures { result ≡ fault_count self.now };
}
