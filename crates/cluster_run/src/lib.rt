//! A whole cluster, run from a script.
#![tactic(auto)]

mod clusters;
mod happenings;
pub mod laws;
mod runs;

pub use clusters::{config_of, config_of_with_hash_key};
pub use runs::{run, run_to, run_to_with_hash_key};
