//! A cluster as a file says it: where its nodes are found, their sizes and first tables, the names of its keys, and its timers. And what
//! stands beside a record, so that none is run under another cluster.
#![tactic(auto)]

mod addresses;
mod cluster;
mod digesting;
mod error;
mod keys;
mod nodes;
mod owner;
mod section;
mod tables;

pub use cluster::{Cluster, Naming, Place, Timing, read_cluster};
pub use digesting::digest;
pub use error::{ClusterError, Fault, KeyError, Kind, Spot};
pub use keys::{KEY, key_of};
pub use owner::Owner;
