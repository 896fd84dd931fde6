ghost use Rattle.std.specs.Prelude.{◌≡◌, ◌+◌, min, IfOk, IfErr};
ghost use Rattle.xid.specs.declared.refusals.Refusal.TheVariants.{PortFault};
ghost use Rattle.stable_record.specs.Held.{IsCounted, most_faults};
ghost use Rattle.port.specs.Addresses.{no_addresses};
ghost use Rattle.port.specs.Asks.{loopback};
ghost use Rattle.port.specs.Ports.{udp_count};

use crate::addresses::Addresses;
use crate::counted::{CountedSocket, SendReply};
use crate::port::{MAX_TAKEN, Port};
use protocol::NodeId;
use std::io;
use std::net::{Ipv4Addr, Net, SocketAddr, SocketAddrV4, UdpSocket};
use xid::Refusal;

/// A socket of a node on 127.0.0.1. It finds the other nodes by their addresses. A call that was interrupted is tried again.
#[derive(Drop)]
pub struct UdpPort {
    socket: CountedSocket,
    number: u16,
    addresses: Addresses,
    faults: u64,
}

impl UdpPort {
    /// A socket with a number that the system picks, which finds no node yet. Refused: it can't be made (`PortFault`).
    pub fn bind<R: Net>(rt: &R) -> Result<UdpPort, Refusal>
        ensures ok { IfOk result (λ port. udp_count port ≡ 0) }
        ensures nowhere { IfOk result (λ port. port.addresses ≡ no_addresses) }
        ensures err { IfErr result (λ e. e ≡ PortFault) }
    {
        match bound(rt) {
            Ok((socket, number)) => Ok(UdpPort {
                socket: CountedSocket::new(socket),
                number,
                addresses: Addresses::none(),
                faults: 0,
            }),
            Err(_) => Err(Refusal::PortFault),
        }
    }

    /// Its number on 127.0.0.1.
    pub fn number(&self) -> u16
        ensures { result ≡ self.now.number }
    {
        self.number
    }

    /// From now on it finds nodes there, and no others.
    pub fn find_at(&mut self, addresses: Addresses)
        ensures { self.new ≡ record self.old { addresses = addresses } }
    {
        self.addresses = addresses;
    }

    /// Counts a fault, and answers it.
    fn count(&mut self) -> Refusal
        ensures fault { result ≡ PortFault }
        ensures counted { IsCounted (udp_count self.old) (udp_count self.new) }
        ensures same { self.new ≡ record self.old { faults = min (self.old.faults + 1) most_faults } }
    {
        self.faults = self.faults.saturating_add(1);
        Refusal::PortFault
    }
}

/// A socket that doesn't wait, and its number.
fn bound<R: Net>(rt: &R) -> io::Result<(UdpSocket, u16)> {
    let socket = UdpSocket::bind(rt, (Ipv4Addr::LOCALHOST, 0))?;
    socket.set_nonblocking(true)?;
    let number = socket.local_addr()?.port();
    Ok((socket, number))
}

/// A port of 127.0.0.1.
fn loopback(number: u16) -> SocketAddr
    ensures { result ≡ loopback number }
{
    SocketAddr::V4(SocketAddrV4::new(Ipv4Addr::LOCALHOST, number))
}

impl Port for UdpPort {
    ghost use Rattle.port.specs.Ports.{udp_count, UdpReceived, UdpSent};

    ghost fault_count = { udp_count };

    ghost received = { UdpReceived };

    ghost sent = { UdpSent };

    fn recv(&mut self, buffer: &mut [u8; MAX_TAKEN]) -> Result<Option<usize>, Refusal> {
        match self.socket.take(buffer) {
            Ok(taken) => Ok(taken),
            Err(_) => Err(self.count()),
        }
    }

    fn send(&mut self, receiver: NodeId, bytes: &[u8]) -> Result<(), Refusal> {
        let Some(number) = self.addresses.get(receiver) else {
            return Err(self.count());
        };
        match self.socket.send(loopback(number), bytes) {
            SendReply::Sent => Ok(()),
            SendReply::Interrupted | SendReply::Failed => Err(self.count()),
        }
    }

    fn faults(&self) -> u64 {
        self.faults
    }
}
