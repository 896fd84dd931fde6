ghost use Rattle.std.specs.Prelude.{◌≡◌, ◌+◌, min, IfOk};
ghost use Rattle.xid.specs.declared.refusals.Refusal.TheVariants.{PortFault};
ghost use Rattle.stable_record.specs.Held.{IsCounted, most_faults};
ghost use Rattle.node_socket.specs.Sockets.{place_for, socket_count, BoundTo};

use mio::net::UdpSocket;
use mio::{Interest, Registry, Token};
use node_core::{Config, Sizes, place_of};
use node_process::PortCounts;
use port::{CountedSocket, SendReply};
use protocol::NodeId;
use signed_port::{Carrier, MAX_CARRIED};
use std::io;
use std::net::{Net, SocketAddr};
use xid::Refusal;

/// A node's socket for datagrams, which finds the other nodes by their places.
#[derive(Drop)]
pub struct NodeSocket {
    socket: CountedSocket,
    sizes: Sizes,
    places: Vec<SocketAddr>,
    taken: u64,
    sent: u64,
    faults: u64,
}

impl NodeSocket {
    /// A socket at an address, of which a registry tells when something has come, for a node of a cluster whose nodes are found at these
    /// places: acceptors first, then leaders, then resource managers. Refused where the system gives no such socket, or the registry
    /// doesn't take it; nothing is left open then.
    pub fn bind<R: Net>(
        rt: &R,
        registry: &Registry,
        token: Token,
        at: SocketAddr,
        config: &Config,
        places: Vec<SocketAddr>,
    ) -> io::Result<NodeSocket>
        ensures { IfOk result (BoundTo config.now places.items) }
    {
        let mut socket = UdpSocket::bind(rt, at)?;
        registry.register(&mut socket, token, Interest::READABLE)?;
        Ok(NodeSocket {
            socket: CountedSocket::new(socket.into()),
            sizes: config.sizes(),
            places,
            taken: 0,
            sent: 0,
            faults: 0,
        })
    }

    /// What it has counted, where so many of the datagrams that came were dropped for their signature.
    pub fn counts(&self, dropped: u64) -> PortCounts
        ensures { result ≡ record { taken = self.now.taken; sent = self.now.sent; dropped = dropped } }
    {
        PortCounts {
            taken: self.taken,
            sent: self.sent,
            dropped,
        }
    }

    /// Counts a fault, and answers it.
    fn count(&mut self) -> Refusal
        ensures fault { result ≡ PortFault }
        ensures counted { IsCounted (socket_count self.old) (socket_count self.new) }
        ensures same { self.new ≡ record self.old { faults = min (self.old.faults + 1) most_faults } }
    {
        self.faults = self.faults.saturating_add(1);
        Refusal::PortFault
    }
}

/// The place to which a datagram to a node goes: the node's own among those of acceptors, then leaders, then resource managers. None where
/// there is no such node.
fn place_for(sizes: Sizes, places: &[SocketAddr], receiver: NodeId) -> Option<SocketAddr>
    ensures { result ≡ place_for sizes places.now receiver }
{
    match place_of(sizes, receiver) {
        Some(at) => places.get(at).copied(),
        None => None,
    }
}

impl Carrier for NodeSocket {
    ghost use Rattle.node_socket.specs.Sockets.{socket_count, SocketReceived, SocketSent};

    ghost fault_count = { socket_count };

    ghost received = { SocketReceived };

    ghost sent = { SocketSent };

    fn recv(&mut self, buffer: &mut [u8; MAX_CARRIED]) -> Result<Option<usize>, Refusal> {
        match self.socket.take(buffer) {
            Ok(Some(len)) => {
                self.taken = self.taken.saturating_add(1);
                Ok(Some(len))
            }
            Ok(None) => Ok(None),
            Err(_) => Err(self.count()),
        }
    }

    fn send(&mut self, receiver: NodeId, bytes: &[u8]) -> Result<(), Refusal> {
        let Some(place) = place_for(self.sizes, &self.places, receiver) else {
            return Err(self.count());
        };
        match self.socket.send(place, bytes) {
            SendReply::Sent => {
                self.sent = self.sent.saturating_add(1);
                Ok(())
            }
            SendReply::Interrupted | SendReply::Failed => Err(self.count()),
        }
    }

    fn faults(&self) -> u64 {
        self.faults
    }
}
