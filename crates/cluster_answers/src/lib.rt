//! What a leader of a cluster tells a client is true, and lasts: over the steps that a cluster makes one after another, and in a cluster
//! whose nodes work in groups. The functions have empty bodies; their clauses are the theorems.
#![tactic(auto)]

/// In a cluster whose nodes work in groups.
pub mod grouped;
/// Over the steps of a cluster.
pub mod headline;
