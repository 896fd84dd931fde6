//! Messages between the nodes, and the one spelling of each.
#![tactic(auto)]

mod grammar;
mod item;
mod items;
mod laws;
mod message;
mod notice;
mod reading;
mod reply;
mod rest;
mod spelled_tx;
mod view;
mod view_items;
mod view_reading;
mod writing;

pub use grammar::{MAX_DATAGRAM, MAX_MESSAGE_BYTES, MAX_TX_BYTES, VERSION, VersionNumber};
pub use items::{InstanceAccept, InstanceReport, Items};
pub use laws::{message_at_is_exact, notice_at_is_exact, notices_are_no_messages, spelling_laws};
pub use message::{
    Kind, Message, is_ask, is_b1a, is_b1b, is_b2b, is_message, is_p1a, is_p1b, is_p2a, is_p2b,
};
pub use notice::{MAX_NOTICE_BYTES, Notice};
pub use reading::{take_byte, take_component, take_name, take_number, take_rm, take_tx, take_vote};
pub use reply::{Reply, ReplyRest};
pub use rest::Rest;
pub use spelled_tx::{OwnedTx, PlacedTx, SpelledTx};
pub use view::{MessageView, decode, view_of};
pub use view_items::{accepts_of, reports_of};
pub use writing::{encode, put_tx};
