//! A node at a socket: what it is handed is what a port receives, and what it sends goes out by the port, each datagram once and in
//! order. What a node does stands in the crate beneath.
#![tactic(auto)]

mod addresses;
mod calling;
mod counted;
mod fake;
mod member;
mod port;
mod udp;

pub use addresses::Addresses;
pub use calling::{Served, call, call_all, raise, serve_once};
pub use counted::{CountedSocket, LastSend, SendReply};
pub use fake::{FakePort, Letter};
pub use member::Member;
pub use port::{MAX_TAKEN, Port};
pub use udp::UdpPort;

#[cfg(test)]
mod udp_tests;
