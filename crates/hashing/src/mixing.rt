//! How a word is taken into a state.

ghost use Rattle.std.specs.Prelude.{◌≡◌};
ghost use Rattle.hashing.specs.Hashing.{folded_multiply, mixed};

/// The two halves of a product of 128 bits, one into the other.
#[inline(always)]
fn folded_multiply(a: u64, b: u64) -> u64
    ensures { result ≡ folded_multiply a b }
{
    let product = a as u128 * b as u128;
    (product & 0xFFFF_FFFF_FFFF_FFFF) as u64 ^ (product >> 64) as u64
}

/// Takes a word into a state. What was the state before shows in it too, so that no word makes all states the same.
#[inline(always)]
pub(crate) fn mixed(multiplier: u64, state: u64, word: u64) -> u64
    ensures { result ≡ mixed multiplier state word }
{
    folded_multiply(state ^ word, multiplier) ^ state.rotate_left(23)
}
