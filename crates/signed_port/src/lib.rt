//! A port whose datagrams are signed: each carries a tag that only holders of a key can make, over the cluster, the sender, the receiver
//! and the bytes; what carries another tag is refused. Beside it a port that signs nothing, over the same carriers.
#![tactic(auto)]

mod carrier;
mod fake;
mod plain;
mod signed;
mod signing;

pub use carrier::{Carrier, MAX_CARRIED};
pub use plain::PlainPort;
pub use signed::SignedPort;
pub use signing::{DIGEST, TRAILER};
