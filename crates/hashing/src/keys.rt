//! What hashes are keyed by.

use crate::words::WordHasher;
use std::fmt;
use std::fmt::{Debug, Formatter};
use std::hash::{BuildHasher, DefaultHasher, Hasher, RandomState};
use std::random::RandomSource;

/// What all hashes of a process are keyed by. Whoever knows it can choose names that collide, so a program draws one at its start. No
/// contract depends on it, and nothing that is printed, sent or stored does.
#[derive(Clone, Copy, Debug)]
pub struct HashKey {
    words: WordKey,
    sip: SipKey,
}

/// What hashes by words are keyed by: the first state, and what each word is multiplied by.
#[derive(Clone, Copy)]
pub struct WordKey {
    pub(crate) first: u64,
    pub(crate) multiplier: u64,
}

/// The key of SipHash, or none.
#[derive(Clone, Copy, Debug)]
pub struct SipKey {
    drawn: Option<RandomState>,
}

impl HashKey {
    /// The key of those that draw none: the same in each process.
    pub fn fixed() -> HashKey {
        HashKey {
            words: WordKey::fixed(),
            sip: SipKey { drawn: None },
        }
    }

    /// A key that was drawn, as by `RandomState::new`.
    pub fn drawn(state: RandomState) -> HashKey {
        HashKey {
            words: WordKey {
                first: derived(&state, 0),
                multiplier: derived(&state, 1) | 1,
            },
            sip: SipKey { drawn: Some(state) },
        }
    }

    /// A key from a source of random bytes; where that fails, the one that anybody knows.
    pub fn draw(rt: &impl RandomSource) -> HashKey {
        match RandomState::new(rt) {
            Ok(state) => HashKey::drawn(state),
            Err(_) => HashKey::fixed(),
        }
    }

    /// What hashes by words are keyed by.
    pub fn words(&self) -> WordKey {
        self.words
    }

    /// The key of SipHash, for the maps where names of one hash by words go.
    pub fn sip(&self) -> SipKey {
        self.sip
    }
}

/// A word that only the key tells.
fn derived(state: &RandomState, use_of_it: u8) -> u64 {
    let mut hasher = state.build_hasher();
    hasher.write_u8(use_of_it);
    hasher.finish()
}

impl WordKey {
    ghost use Rattle.std.specs.Prelude.{◌≡◌};
    ghost use Rattle.hashing.specs.Hashing.{fixed_words};

    /// Of those that draw none.
    pub(crate) fn fixed() -> WordKey
        ensures { result ≡ fixed_words }
    {
        WordKey {
            first: 0x243f_6a88_85a3_08d3,
            multiplier: 0x9e37_79b9_7f4a_7c15,
        }
    }
}

impl BuildHasher for WordKey {
    type Hasher = WordHasher;

    ghost use Rattle.hashing.specs.Hashing.{nothing_taken};

    ghost build_hasher = { nothing_taken };

    fn build_hasher(&self) -> WordHasher {
        WordHasher::new(*self)
    }
}

impl BuildHasher for SipKey {
    type Hasher = DefaultHasher;

    ghost use Rattle.hashing.specs.Hashing.{sip_of};

    ghost build_hasher = { sip_of };

    fn build_hasher(&self) -> DefaultHasher {
        match &self.drawn {
            Some(state) => state.build_hasher(),
            None => DefaultHasher::new(),
        }
    }
}

// the key isn't shown
impl Debug for WordKey {
    fn fmt<W: fmt::Write>(&self, f: &mut Formatter<W>) -> fmt::Result {
        f.debug_struct("WordKey").finish_non_exhaustive()
    }
}
