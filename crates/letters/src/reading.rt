ghost use Rattle.std.specs.Prelude.{◌↔◌, IsTrue, IfNone, IfSome, ℕ, List};
ghost use Rattle.letters.specs.Letters.{AreEnclosed, HasFirstMessage, IsLetterOf, IsMessageOrNotice};

use crate::letter::{LENGTH_BYTES, LETTER_VERSION, MAX_LETTER};
use byteorder::{BigEndian, ByteOrder};
use wire::{Notice, take_byte, view_of};

/// The first message of what is left of a letter, and what is left behind it. None where no message begins, or one that isn't whole.
pub fn take_message(rest: &[u8]) -> Option<(&[u8], &[u8])>
    ensures none { IfNone result ((message more : List ℕ) → HasFirstMessage message more rest.now → ⊥) }
    ensures some { IfSome result (λ taken. HasFirstMessage taken.0.now taken.1.now rest.now) }
{
    if rest.len() < LENGTH_BYTES {
        return None;
    }
    let len = usize::from(BigEndian::read_u16(rest));
    let behind = &rest[LENGTH_BYTES..];
    if behind.len() < len {
        return None;
    }
    Some(behind.split_at(len))
}

/// Whether bytes are a message or a notice.
fn is_message_or_notice(bytes: &[u8]) -> bool
    ensures { IsTrue result ↔ IsMessageOrNotice bytes.now }
{
    view_of(bytes).is_ok() || Notice::take(bytes).is_some()
}

/// Whether bytes are messages and notices, each behind its length, and nothing else.
fn are_enclosed(bytes: &[u8]) -> bool
    ensures { IsTrue result ↔ ((messages : List (List ℕ)) × AreEnclosed messages bytes.now) }
{
    let mut rest = bytes;
    while !rest.is_empty() {
        let Some((message, more)) = take_message(rest) else {
            return false;
        };
        if !is_message_or_notice(message) {
            return false;
        }
        rest = more;
    }
    true
}

/// Whether bytes are a letter: its version, and then one message or more, each of them whole and one, in at most 1,400 bytes
/// (`MAX_LETTER`).
pub fn is_letter(bytes: &[u8]) -> bool
    ensures { IsTrue result ↔ ((messages : List (List ℕ)) × IsLetterOf messages bytes.now) }
{
    if bytes.len() > MAX_LETTER {
        return false;
    }
    let Some((version, rest)) = take_byte(bytes) else {
        return false;
    };
    if version != LETTER_VERSION {
        return false;
    }
    if rest.is_empty() {
        return false;
    }
    are_enclosed(rest)
}
