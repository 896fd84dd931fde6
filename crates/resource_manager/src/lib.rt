//! The resource manager of one node: the client calls on its branches, which fact to store and what to send on each message of a
//! transaction, and the votes, outcomes, spent names and table that its facts lead to.
#![tactic(auto)]

mod course;
mod courses;
mod forgetting;
mod manager;
mod messages;
mod playing;
mod reminding;
mod shorter;
mod spent;

pub use manager::ResourceManager;
pub use reminding::Reminder;
