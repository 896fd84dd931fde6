//! Ballots, slots and quorums of Paxos Commit: who owns a ballot, what an acceptor keeps of one instance, which value
//! a take-over proposes, and when acceptors are a majority. Nothing here takes memory.
#![tactic(auto)]

mod ballots;
mod choice;
pub mod laws;
mod quorum;
mod slot;

pub use ballots::{next_owned, owner};
pub use choice::choose;
pub use quorum::{MAX_ACCEPTORS, Quorum};
pub use slot::{Report, Slot};
