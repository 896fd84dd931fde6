ghost use Rattle.std.specs.Prelude.{◌≡◌, ◌↔◌, IsTrue, MatchResult};
ghost use Rattle.hex.specs.Hex.{encode_lower};
ghost use Rattle.cluster_file.specs.Keys.{IsKey, IsNoKey, without_newline};

use crate::error::KeyError;

/// How many bytes a key has.
pub const KEY: usize = 32;

/// A text without the LF at its end, if it has one there.
fn without_newline(text: &[u8]) -> &[u8]
    ensures { result.now ≡ without_newline text.now }
{
    text.strip_suffix(b"\n").unwrap_or(text)
}

/// Whether digits are those of a key, without capitals.
fn are_digits_of(key: [u8; KEY], digits: &[u8]) -> bool
    ensures { IsTrue result ↔ (digits.now ≡ encode_lower key) }
{
    let mut again = [0; 2 * KEY];
    let _ = hex::encode_to_slice(key, &mut again);
    again.as_slice() == digits
}

/// The key of a text: 64 hex digits, without capitals, and then an LF or nothing. Refused: it has fewer digits (`Short`) or more (`Long`),
/// or others (`NoDigit`).
pub fn key_of(text: &[u8]) -> Result<[u8; KEY], KeyError>
    ensures { MatchResult result (λ key. IsKey key (without_newline text.now)) (λ e. IsNoKey e (without_newline text.now)) }
{
    let digits = without_newline(text);
    if digits.len() < 2 * KEY {
        return Err(KeyError::Short);
    }
    if digits.len() > 2 * KEY {
        return Err(KeyError::Long);
    }
    let mut key = [0; KEY];
    let decoded = hex::decode_to_slice(digits, &mut key);
    if decoded.is_err() {
        return Err(KeyError::NoDigit);
    }
    if !are_digits_of(key, digits) {
        return Err(KeyError::NoDigit);
    }
    Ok(key)
}
