use crate::carrier::{Carrier, MAX_CARRIED, copy};
use port::{FakePort, Port};
use protocol::NodeId;
use xid::Refusal;

impl Carrier for FakePort {
    ghost use Rattle.port.specs.Ports.{fake_count, FakeSent};
    ghost use Rattle.signed_port.specs.Carriers.{FakeCarried};

    ghost fault_count = { fake_count };

    ghost received = { FakeCarried };

    ghost sent = { FakeSent };

    fn recv(&mut self, buffer: &mut [u8; MAX_CARRIED]) -> Result<Option<usize>, Refusal> {
        match self.take_first() {
            Ok(Some(first)) => Ok(Some(copy(first.as_slice(), buffer))),
            Ok(None) => Ok(None),
            Err(refusal) => Err(refusal),
        }
    }

    fn send(&mut self, receiver: NodeId, bytes: &[u8]) -> Result<(), Refusal> {
        Port::send(self, receiver, bytes)
    }

    fn faults(&self) -> u64 {
        Port::faults(self)
    }
}
