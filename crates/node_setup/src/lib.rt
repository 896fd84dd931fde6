//! What a node is started with: its options, its cluster's file and keys, its record, and the failures that end it.
#![tactic(auto)]

mod command;
mod desk;
mod failure;
mod owners;
mod records;
mod replacing;
mod setup;
mod timing;

pub use command::{Options, Replacement, read_options};
pub use desk::make_desk;
pub use failure::{Failure, address_fault};
pub use records::{open_node, record_path};
pub use replacing::{place_text, replace};
pub use setup::{Setup, node_places, set_up};
pub use timing::clock;
