//! A cluster whose nodes work in groups comes to nothing that it couldn't come to one event after another: what a group does at a node is
//! what events of the machine do, of which some sends are lost. So what holds of every world of the machine holds of it; nor is it stuck.
//! The functions have empty bodies; their clauses are the theorems.
#![tactic(auto)]

/// A transaction can be ended, whoever else is down for good.
pub mod ending;
/// The claim.
pub mod headline;
