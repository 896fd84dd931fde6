//! Inputs that a node is handed at once, and for whom each is.

ghost use Rattle.std.specs.Prelude.{◌≡◌};
ghost use Rattle.serving.specs.Groups.{is_handed, is_said};

use crate::words::Wish;
use protocol::Request;
use xid::Bytes;

/// Who is answered.
#[derive(Clone, Copy, Debug)]
pub enum Origin {
    /// A client, by its key and its number.
    Client {
        /// Its key.
        key: usize,
        /// Its number.
        number: u64,
    },
    /// Nobody.
    Node,
}

/// What is to be done.
#[derive(Debug, Drop)]
pub enum Work {
    /// A message's bytes are handed to the node.
    Take(Bytes),
    /// A request is.
    Ask(Request),
    /// A wish that is no input of the node is answered.
    Say(Wish),
    /// A start is refused, of a name that isn't of its time.
    Untimely,
    /// A start is answered as below the floor, which may rise above its name.
    Late,
}

/// A piece of work, and for whom.
#[derive(Debug, Drop)]
pub struct Item {
    /// Who is answered.
    pub origin: Origin,
    /// What is to be done.
    pub work: Work,
}

impl Work {
    /// Whether the node is handed it.
    pub fn is_handed(&self) -> bool
        ensures { result ≡ is_handed self.now }
    {
        matches!(self, Work::Take(_) | Work::Ask(_))
    }

    /// Whether it is a wish, which is answered beside what the node is handed.
    pub fn is_said(&self) -> bool
        ensures { result ≡ is_said self.now }
    {
        matches!(self, Work::Say(_))
    }
}
