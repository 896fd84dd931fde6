//! The acceptor of one node: which fact to store and what to send on each message of phases 1a and 2a, in a plain and in a bundled
//! cluster, and the slots that its facts lead to.
#![tactic(auto)]

mod acceptor;
mod bundles;
mod compaction;
mod rules;
mod shorter;
mod slots;
mod table;

pub use acceptor::Acceptor;
