//! How bytes are hashed, keys of maps that are numbers or vectors of bytes, and the key that keeps others from choosing names that
//! collide.
#![tactic(auto)]

mod bytes;
mod keys;
mod mixing;
mod words;

pub use bytes::hash_of;
pub use keys::{HashKey, SipKey, WordKey};
pub use words::WordHasher;
