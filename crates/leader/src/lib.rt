//! The leader of one node: what it decides on each call and message, and what it has in memory. Everything is kept by transaction:
//! the greatest stored ballot, the current one, and for each instance who reported and told what.
#![tactic(auto)]

mod course;
mod courses;
mod decision;
mod instance;
mod leader;
mod orders;
mod proposals;
mod shorter;

pub use decision::LeaderDecision;
pub use leader::Leader;
pub use orders::LeaderSends;
