ghost use Rattle.std.specs.Prelude.{◌≡◌};
ghost use Rattle.hashing.specs.Hashing.{all_taken, hash_of, last_word, taken};

use crate::keys::WordKey;
use crate::mixing::mixed;

/// Bytes taken into a word one by one.
fn taken(first: u64, bytes: &[u8]) -> u64
    ensures { result ≡ taken first bytes.now }
{
    let mut word = first;
    for byte in bytes {
        word = word.wrapping_mul(256).wrapping_add(*byte as u64);
    }
    word
}

/// The last eight bytes as a number, or all where there are fewer.
fn last_word(bytes: &[u8]) -> u64
    ensures { result ≡ last_word bytes.now }
{
    match bytes.last_chunk::<8>() {
        Some(word) => u64::from_le_bytes(*word),
        None => taken(0, bytes),
    }
}

/// A state into which bytes are taken by words of eight. The last eight are a word once more, so that none is left.
pub(crate) fn all_taken(multiplier: u64, first: u64, bytes: &[u8]) -> u64
    ensures { result ≡ all_taken multiplier first bytes.now }
{
    let mut state = first;
    let mut rest = bytes;
    while let Some((word, after)) = rest.split_first_chunk::<8>() {
        state = mixed(multiplier, state, u64::from_le_bytes(*word));
        rest = after;
    }
    mixed(multiplier, state, last_word(bytes))
}

/// The hash of bytes under a key.
pub fn hash_of(key: WordKey, bytes: &[u8]) -> u64
    ensures { result ≡ hash_of key bytes.now }
{
    all_taken(key.multiplier, key.first ^ bytes.len() as u64, bytes)
}
