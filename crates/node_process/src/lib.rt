//! The process of a node, without sockets, files and a clock: its node and its port, its clients, what it is to ask after, and the branches
//! that its clients have started. Each thing that can happen to it is one call: who has the sockets says what came and when.
#![tactic(auto)]

mod awaiting;
mod desk;
mod gathering;
mod gauges;
mod handing;
mod notes;
mod process;
mod rising;
mod saying;
mod standing;

pub use desk::{Desk, MAX_CLIENTS};
pub use gauges::{Gauges, PortCounts};
pub use notes::Notes;
pub use process::Process;
pub use rising::Rising;
