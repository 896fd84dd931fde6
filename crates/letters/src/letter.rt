ghost use Rattle.std.specs.Prelude.{◌≡◌, ◌≤◌, ◌+◌, ◌==◌, ◌++◌, ◌↔◌, IsTrue, [], length};
ghost use Rattle.letters.specs.Letters.{enclosed, letter_spelling};

use arrayvec::ArrayVec;
use byteorder::{BigEndian, ByteOrder};
use std::marker::Model;
use wire::MAX_DATAGRAM;

/// The version of the grammar of letters, the first byte of each. Messages and notices begin with another (`wire::VERSION`).
pub const LETTER_VERSION: u8 = 3;

/// How many bytes the length of a message has.
pub(crate) const LENGTH_BYTES: usize = 2;

/// How many bytes a letter has at most.
pub const MAX_LETTER: usize = MAX_DATAGRAM;

/// How many bytes a message in a letter has at most: what the version and its length leave. Each message is shorter.
pub const MAX_ENCLOSED: usize = MAX_LETTER - 1 - LENGTH_BYTES;

/// A letter that is being written: its version, and messages, each behind its length. In contracts it is its bytes.
#[derive(Drop)]
pub struct Letter {
    bytes: ArrayVec<u8, MAX_LETTER>,
}

impl Model for Letter {
    ghost use Rattle.std.specs.Prelude.{◌≤◌, ℕ, List, length};
    ghost use Rattle.letters.specs.declared.letter.TheConstants.{MAX_LETTER};

    ghost Value = { List ℕ };

    ghost view = { λ letter. letter.bytes.items };

    ghost invariant = { λ letter. length letter.bytes.items ≤ MAX_LETTER };
}

impl Letter {
    /// One with no message yet.
    pub fn new() -> Letter
        ensures { result ≡ letter_spelling [] }
    {
        let mut bytes = ArrayVec::new();
        bytes.push(LETTER_VERSION);
        Letter { bytes }
    }

    /// Whether it has no message.
    pub fn is_empty(&self) -> bool
        ensures { result ≡ (length self.now == 1) }
    {
        self.bytes.len() == 1
    }

    /// Whether a message more would leave it as short as a letter has to be.
    pub fn has_room(&self, message: &[u8]) -> bool
        ensures { IsTrue result ↔ (length self.now + (LENGTH_BYTES + length message.now) ≤ MAX_LETTER) }
    {
        let left = MAX_LETTER - self.bytes.len();
        left >= LENGTH_BYTES && left - LENGTH_BYTES >= message.len()
    }

    /// Puts a message behind those that it has.
    pub fn push(&mut self, message: &[u8])
        requires { length self.old + (LENGTH_BYTES + length message.now) ≤ MAX_LETTER }
        ensures { self.new ≡ self.old ++ enclosed message.now }
    {
        let mut len = [0; LENGTH_BYTES];
        BigEndian::write_u16(&mut len, message.len() as u16);
        self.bytes.try_extend_from_slice(&len).unwrap();
        self.bytes.try_extend_from_slice(message).unwrap();
    }

    /// Its bytes.
    pub fn as_slice(&self) -> &[u8]
        ensures bytes { result.now ≡ self.now }
        ensures short { length result.now ≤ MAX_LETTER }
    {
        self.bytes.as_slice()
    }

    /// It has no message any more.
    pub fn clear(&mut self)
        ensures { self.new ≡ letter_spelling [] }
    {
        self.bytes.clear();
        self.bytes.push(LETTER_VERSION);
    }
}
