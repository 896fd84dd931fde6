//! Paxos Commit by looking back: what the trace of a run says of votes, outcomes, branches, answers and tables, for all configurations
//! and all lists of events. The functions have empty bodies; their clauses are the theorems.
#![tactic(auto)]

/// What the lines of a trace say of facts.
pub mod lines;

/// What they say of writes and of tables.
pub mod tables;

/// What they say of branches, and of the answers of calls.
pub mod branches;

/// What they say of what leaders heard.
pub mod leaders;

/// What the order of first commits explains.
pub mod serial;
