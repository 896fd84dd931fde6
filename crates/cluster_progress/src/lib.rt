//! A cluster isn't stuck: from every world that events come to, the nodes of a leader, of a majority of the acceptors and of the
//! participants can be handed events that end a transaction, whoever else is down for good. The functions have empty bodies; their
//! clauses are the theorems.
#![tactic(auto)]

/// The claim.
pub mod headline;
