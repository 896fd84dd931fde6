//! One serial order in a cluster that forgets: what stands in its tables, and what its branches read, is explained by the steps of its
//! runs as in a cluster without floors. The functions have empty bodies; their clauses are the theorems.
#![tactic(auto)]

/// The claim.
pub mod headline;
