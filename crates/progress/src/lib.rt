//! Paxos Commit isn't stuck: from every world that events come to, one leader and a majority of the acceptors can end a transaction.
//! What is promised is that it is possible; that it happens needs time and fairness, of which nothing is said. The functions have empty
//! bodies; their clauses are the theorems.
#![tactic(auto)]

/// The claim.
pub mod headline;
