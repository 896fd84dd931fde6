//! A whole cluster: its nodes, each with a floor over its record, every datagram that they sent, and every notice of a floor that they
//! told. The nodes change by their own public calls alone.
#![tactic(auto)]

mod asking;
mod cluster;
mod handing;
pub mod laws;
mod notices;
mod opening;
mod room;
mod sending;

pub use cluster::Cluster;
pub use handing::Answered;
