//! A port over a port, whose datagrams are letters: what a group of inputs has for a node goes to it together, and a letter that comes is
//! taken whole or not at all.
#![tactic(auto)]

mod arrived;
mod letter_port;
mod outbox;

pub use letter_port::LetterPort;
