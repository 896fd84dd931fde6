//! The socket of a node in a process of its own: it finds the other nodes by their places, and counts what it took, sent and failed at.
#![tactic(auto)]

mod socket;

pub use socket::NodeSocket;
