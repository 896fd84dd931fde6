//! The transactions that a part of a node has seen, each with a number.
#![tactic(auto)]

mod hashed;
mod numbers;
mod order;
mod spellings;

pub use numbers::Transactions;
pub use order::Order;
