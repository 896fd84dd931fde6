//! The names of X/Open XA: transaction branches and transactions, with one text for each; and what the whole system
//! shares: its limits, and the refusals that it answers with. A call of this crate that is refused leaves all as it was.
#![tactic(auto)]

mod branch_id;
mod branches;
mod codes;
mod component;
mod floor;
mod hex_digits;
mod limits;
mod refusals;
mod sequence;
pub mod text;
mod transaction;
mod transaction_text;

pub use branch_id::Xid;
pub use branches::Branches;
pub use codes::XaCode;
pub use component::Component;
pub use floor::Floor;
pub use limits::{
    Ballot, FORMATS, MAX_ACCEPTORS, MAX_BRANCHES, MAX_COMPONENT, MAX_KEY, MAX_LEADERS,
    MAX_MANAGERS, MAX_TOUCHED, MAX_VALUE, ManagerNumber,
};
pub use refusals::Refusal;
pub use sequence::{Bytes, Sequence};
pub use transaction::{Tx, Vote};
