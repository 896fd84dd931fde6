//! The edge of the system: its command line, the files that it reads and what it prints; and a node at a port, passed on.
#![tactic(auto)]

mod command;
mod printing;

pub use command::{Rejected, Subcommand, action};
pub use port::{Member, Port, Served, UdpPort, call, raise, serve_once};
pub use printing::{DONE, INCONSISTENT, MISUSED, REFUSED, answer, program, reject};

#[cfg(test)]
mod tests;
