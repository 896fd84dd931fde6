//! A script's cluster over sockets: its nodes in one process, each over a record in a file and at a port of its own.
#![tactic(auto)]

mod happenings;
mod opening;
mod rounds;
mod runs;
mod site;
mod tables;

pub use runs::udp;
