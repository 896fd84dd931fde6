//! A cluster whose nodes have floors and work in groups, as its processes do, comes to nothing that one whose nodes work in groups without
//! floors couldn't come to: what is below a floor is as an input that never came. And what the code's contracts say of processes is
//! what such a cluster does. The functions have empty bodies; their clauses are the theorems.
#![tactic(auto)]

/// All processes together.
pub mod cluster;
/// The claim.
pub mod headline;
/// What the contracts of processes come to.
pub mod members;
