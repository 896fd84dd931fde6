ghost use Rattle.std.specs.Prelude.{◌≡◌};
ghost use Rattle.hashing.specs.Hashing.{nothing_taken, with_byte, with_bytes, with_slice};

use crate::bytes::all_taken;
use crate::keys::WordKey;
use crate::mixing::mixed;
use std::hash::Hasher;

/// A word with seven bytes in it, or more.
const FULL: u64 = 0x0100_0000_0000_0000;

/// Hashes single bytes by words of seven, and eight bytes or more that come at once, as those of a number, a length or a name, by words of
/// eight: vectors hand their bytes on one by one, and to mix each in by itself takes longer. The default's key is fixed, so whoever picks
/// the keys of a map can make them collide; a `WordKey` that was drawn builds one whose key they don't know.
#[derive(Clone, Copy)]
pub struct WordHasher {
    state: u64,
    multiplier: u64,
    /// The bytes that wait, after a 1.
    word: u64,
}

impl WordHasher {
    /// Nothing is taken.
    pub(crate) fn new(key: WordKey) -> WordHasher
        ensures { result ≡ nothing_taken key }
    {
        WordHasher {
            state: key.first,
            multiplier: key.multiplier,
            word: 1,
        }
    }

    /// One byte more.
    #[inline(always)]
    fn take(&mut self, byte: u8)
        ensures { self.new ≡ with_byte self.old byte }
    {
        self.word = self.word.wrapping_mul(256).wrapping_add(byte as u64);
        if self.word >= FULL {
            self.state = mixed(self.multiplier, self.state, self.word);
            self.word = 1;
        }
    }

    /// Bytes more, one by one.
    fn take_all(&mut self, bytes: &[u8])
        ensures { self.new ≡ with_bytes self.old bytes.now }
    {
        for byte in bytes {
            self.take(*byte);
        }
    }
}

impl WordHasher {
    /// Bytes more, that aren't eight: few one by one, more by words of eight.
    fn take_slice(&mut self, bytes: &[u8])
        ensures { self.new ≡ with_slice self.old bytes.now }
    {
        if bytes.len() < 8 {
            self.take_all(bytes);
        } else {
            self.state = all_taken(self.multiplier, self.state, bytes);
        }
    }
}

impl Default for WordHasher {
    ghost use Rattle.hashing.specs.Hashing.{fixed_words, nothing_taken};

    ghost is_default = { λ h. h ≡ nothing_taken fixed_words };

    fn default() -> WordHasher {
        WordHasher::new(WordKey::fixed())
    }
}

impl Hasher for WordHasher {
    ghost use Rattle.hashing.specs.Hashing.{mixed, written};

    ghost write = { written };

    ghost finish = { λ h. mixed h.multiplier h.state h.word };

    fn finish(&self) -> u64 {
        mixed(self.multiplier, self.state, self.word)
    }

    fn write(&mut self, bytes: &[u8]) {
        match <[u8; 8]>::try_from(bytes) {
            Ok(word) => self.state = mixed(self.multiplier, self.state, u64::from_le_bytes(word)),
            Err(_) => self.take_slice(bytes),
        }
    }

    // vectors hand on their bytes by this
    #[inline(always)]
    fn write_u8(&mut self, byte: u8) {
        self.take(byte);
    }
}
