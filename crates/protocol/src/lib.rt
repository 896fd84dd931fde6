//! The words of the specification, and its definitions: what clients see of branches, what each role does on each input,
//! one event at one node, and the world of all nodes and all datagrams. The words are the plain types below, which code and
//! definitions share; the definitions are in `specs/`. There is no code but comparisons and constructors.
#![tactic(auto)]

mod answers;
mod boxed;
mod decisions;
mod events;
mod nodes;
mod requests;
mod rows;
mod states;

pub use answers::Answer;
pub use boxed::Boxed;
pub use decisions::{Address, Decision, MessageDecision, Outgoing, Sends, SentReply};
pub use events::{Change, Event, Sent, Step, Told};
pub use nodes::NodeId;
pub use requests::{Action, Request};
pub use rows::Row;
pub use states::{BranchState, Standing, Status, View};
