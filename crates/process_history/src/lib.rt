//! One serial order among the processes of a cluster: whatever befell them, it explains every table that they answer. The functions have
//! empty bodies; their clauses are the theorems.
#![tactic(auto)]

/// The claim.
pub mod headline;
