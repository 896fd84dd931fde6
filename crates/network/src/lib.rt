//! The datagrams of a cluster: every one that was ever sent, for good, kept as bytes and numbered from 1.
#![tactic(auto)]

mod entry;
mod network;

pub use entry::KeptDatagram;
pub use network::Network;
