//! Letters: many messages in one datagram, and the one spelling of each letter.
#![tactic(auto)]

mod letter;
mod reading;

pub use letter::{LETTER_VERSION, Letter, MAX_ENCLOSED, MAX_LETTER};
pub use reading::{is_letter, take_message};
