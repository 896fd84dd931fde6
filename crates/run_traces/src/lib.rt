//! What `run` prints is a trace that its readers take. The functions have empty bodies; their clauses are the theorems.
#![tactic(auto)]

/// What is printed of a run, as a reader of traces, an auditor and `picture` take it.
pub mod headline;
/// What the machine does, as the lines of a trace.
pub mod machine;
