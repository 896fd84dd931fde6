//! The branches of one resource manager, the keys that they hold, and its table.
#![tactic(auto)]

mod branch;
mod branches;
mod hold;
mod keys;
mod looks;
mod outcomes;
mod places;
mod sorting;
mod table;

pub use table::{BranchTable, Ending};
