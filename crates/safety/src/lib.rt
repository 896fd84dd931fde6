//! Paxos Commit is safe (Gray and Lamport, "Consensus on Transaction Commit"): on the definitions of `protocol`, for all
//! configurations and all lists of events. The functions have empty bodies; their clauses are the theorems.
#![tactic(auto)]

/// The claim: what the README promises of the protocol.
pub mod headline;

/// What slots, views and reachable worlds are.
pub mod laws;

/// The invariant, part by part.
pub mod parts;

/// What is sent and stored has the form of messages and facts.
pub mod forms;
