//! Whether a trace keeps what was promised, by looking at the trace alone.
#![tactic(auto)]

mod auditing;
mod auditor;
mod branches;
mod faults;
mod floors;
mod judge;
/// What the questions say in the words of the paper.
pub mod laws;
mod ledger;
mod rows;
mod serial;
mod stretch;
mod tables;
mod told_floors;
mod views;

pub use auditing::{audit, audit_text, audit_text_with_hash_key, audit_with_hash_key};
pub use faults::{Fault, Question};
