//! What the process of a node keeps in mind beside the node: the lines of its clients and the words in them, the branches that they
//! started, the transactions that are to be asked after and when, when the record is to be made shorter, and where a floor may rise to by
//! itself. There is no socket and no clock here: whoever calls says what came and when.
#![tactic(auto)]

mod branches;
mod by_number;
mod client;
mod clients;
mod group;
pub mod laws;
mod lines;
mod noting;
mod proving;
mod queue;
mod replies;
mod schedule;
mod shortening;
mod stage;
mod taking;
mod terms;
mod times;
mod waiting;
mod watched;
mod watches;
mod words;

pub use branches::Branches;
pub use client::Client;
pub use clients::{Clients, UNTIMELY, after_one};
pub use group::{Item, Origin, Work};
pub use lines::{Front, MAX_LINE, MOST_BEGUN, MOST_OUTPUT, front_of};
pub use proving::{Lock, put_challenge};
pub use replies::{Counts, put_info, put_open, put_reply, put_table};
pub use schedule::{MOST_DELAY, Schedule, Turn};
pub use shortening::{LEAST_RECORD, Shortening};
pub use stage::{Challenge, Stage};
pub use taking::MOST_ITEMS;
pub use terms::Terms;
pub use times::{Times, held_back, time_of};
pub use watches::{Due, Watches};
pub use words::{Wish, read_wish};
