//! A cluster that forgets: each node has a floor, a place in the order of names, and takes no part any more in a transaction whose name is
//! below it. Its runs are runs of the machine in which some datagrams were lost and some requests weren't made, so what holds of every
//! world of the machine holds of it; no floor passes a branch that is there; nothing is stuck; and what is below a floor needn't be kept.
//! The functions have empty bodies; their clauses are the theorems.
#![tactic(auto)]

/// Nothing is stuck.
pub mod ending;
/// What floors pass, and what they don't.
pub mod headline;
/// What a node has to keep.
pub mod keeping;
/// The parts of the invariant, one by one.
pub mod parts;
/// Runs with floors are runs of the machine.
pub mod runs;
