//! One node over a record: what it decides on an input, what it stores before it sends, and what it is after a restart. The rules of
//! each role stand in the crates beneath; this one hands inputs on to them, and keeps the record.
#![tactic(auto)]

mod accepting;
mod acting;
mod compacting;
mod config;
mod frames;
mod grouping;
mod managing;
mod migrating;
mod node;
mod opening;
mod output;
mod raising;
mod receivers;
mod records;
mod replied;
mod requests;
mod role;
mod sends;
mod snapshots;
mod storing;
mod taking;
mod viewing;

pub use config::{Config, Sizes};
pub use node::Node;
pub use output::{Input, Output};
pub use receivers::{Receivers, node_count, node_in, place_of};
pub use requests::accepts_request;
pub use role::Role;
pub use sends::NodeSends;
