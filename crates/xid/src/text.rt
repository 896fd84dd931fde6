//! Numbers and bytes as text. Each value has one text.

ghost use Rattle.std.specs.Prelude.{◌≡◌, ◌≢◌, ℕ, ◌<◌, ◌^◌, List, ◌∷◌, ◌++◌, ◌≤◌, length, true, decimal, MatchOption};
ghost use Rattle.std.specs.Prelude.{IfSome, IfErr, OnOk};
ghost use Rattle.std.specs.List.{list_all};
ghost use Rattle.xid.specs.Limits.{most_component};
ghost use Rattle.xid.specs.Names.{IsComponent};
ghost use Rattle.xid.specs.Text.{hex_text, is_no_capital, lacks, Extends};
ghost use Rattle.xid.specs.declared.refusals.Refusal.TheVariants.{NoMemory};

use crate::component::Component;
use crate::hex_digits::{read_hex, write_hex};
use crate::limits::MAX_COMPONENT;
use crate::refusals::Refusal;
use itoa::Buffer;

/// No number below 2^32 has more digits.
const MOST_DIGITS: usize = 10;

/// How many bytes are looked at before an answer is given on them.
const PIECE: usize = 64;

/// The number of a text that is its digits, with no zero in front.
fn short_number(text: &[u8]) -> Option<u32>
    ensures { IfSome result (λ n. text.now ≡ decimal n) }
{
    let [first, ..] = text else {
        return None;
    };
    if text.len() == 1 && *first >= b'0' && *first <= b'9' {
        return Some(u32::from(*first - b'0'));
    }
    if *first == b'0' {
        return None;
    }
    if text.len() > MOST_DIGITS {
        return None;
    }
    let mut number = 0;
    for byte in text {
        if *byte < b'0' || *byte > b'9' {
            return None;
        }
        number = number * 10 + u64::from(*byte - b'0');
    }
    if number >= 1 << 32 {
        return None;
    }
    Some(number as u32)
}

/// The same of any text, which is read leniently and then compared with the one text of what was read.
fn any_number(text: &[u8]) -> Option<u32>
    ensures { MatchOption result ((n : ℕ) → n < 2 ^ 32 → text.now ≢ decimal n) (λ n. text.now ≡ decimal n) }
{
    let Ok(digits) = str::from_utf8(text) else {
        return None;
    };
    let Ok(number) = digits.parse::<u32>() else {
        return None;
    };
    let mut again = Buffer::new();
    if again.format(number).as_bytes() == text {
        Some(number)
    } else {
        None
    }
}

/// The number below 2^32 whose text this is: decimal digits, with no leading zero. None where the text is no such one.
pub fn number(text: &[u8]) -> Option<u32>
    ensures { MatchOption result ((n : ℕ) → n < 2 ^ 32 → text.now ≢ decimal n) (λ n. text.now ≡ decimal n) }
{
    if let Some(number) = short_number(text) {
        return Some(number);
    }
    any_number(text)
}

/// Writes a number's text at the end. At `NoMemory`, the only refusal, there may be a beginning of it.
pub fn put_number(number: u32, out: &mut Vec<u8>) -> Result<(), Refusal>
    ensures ok { OnOk result (out.new.items ≡ out.old.items ++ decimal number) }
    ensures err { IfErr result (λ e. e ≡ NoMemory) }
    ensures kept { Extends out.old.items out.new.items }
{
    if number < 10 {
        out.push(b'0' + number as u8)?;
        return Ok(());
    }
    let mut digits = Buffer::new();
    out.extend_from_slice(digits.format(number).as_bytes())?;
    Ok(())
}

/// The text before the first mark, and the text after it. None where the mark isn't there.
pub fn split_once(text: &[u8], mark: u8) -> Option<(&[u8], &[u8])>
    ensures { MatchOption result (lacks mark text.now ≡ true)
        (λ parts. (text.now ≡ parts.0.now ++ mark ∷ parts.1.now) × (lacks mark parts.0.now ≡ true)) }
{
    for (at, byte) in text.iter().enumerate() {
        if *byte == mark {
            return Some((&text[..at], &text[at + 1..]));
        }
    }
    None
}

/// The same of a piece of a text: all of it is looked at, so that vectors serve.
fn piece_lacks_capitals(piece: &[u8]) -> bool
    ensures { result ≡ list_all is_no_capital piece.now }
{
    let mut lacks = true;
    for byte in piece {
        lacks &= (*byte < b'A') | (*byte > b'Z');
    }
    lacks
}

/// Whether a text has no capital letter. What stands behind the piece of the first one isn't looked at.
pub fn lacks_capitals(text: &[u8]) -> bool
    ensures { result ≡ list_all is_no_capital text.now }
{
    let mut rest = text;
    while rest.len() > PIECE {
        let (piece, after) = rest.split_at(PIECE);
        if !piece_lacks_capitals(piece) {
            return false;
        }
        rest = after;
    }
    piece_lacks_capitals(rest)
}

/// Writes the hex text of a few bytes at the end. At `NoMemory`, the only refusal, there may be a beginning of it.
fn put_short_hex(bytes: &[u8], out: &mut Vec<u8>) -> Result<(), Refusal>
    requires { length bytes.now ≤ most_component }
    ensures ok { OnOk result (out.new.items ≡ out.old.items ++ hex_text bytes.now) }
    ensures err { IfErr result (λ e. e ≡ NoMemory) }
    ensures kept { Extends out.old.items out.new.items }
{
    let mut text = [0; 2 * MAX_COMPONENT];
    let written = &mut text[..2 * bytes.len()];
    write_hex(bytes, &mut *written);
    out.extend_from_slice(written)?;
    Ok(())
}

/// Writes the hex text of bytes at the end. At `NoMemory`, the only refusal, there may be a beginning of it.
pub fn put_hex(bytes: &[u8], out: &mut Vec<u8>) -> Result<(), Refusal>
    ensures ok { OnOk result (out.new.items ≡ out.old.items ++ hex_text bytes.now) }
    ensures err { IfErr result (λ e. e ≡ NoMemory) }
    ensures kept { Extends out.old.items out.new.items }
{
    let mut rest = bytes;
    while rest.len() > MAX_COMPONENT {
        let (first, after) = rest.split_at(MAX_COMPONENT);
        put_short_hex(first, out)?;
        rest = after;
    }
    put_short_hex(rest, out)?;
    Ok(())
}

/// The component whose hex text this is: 1 to 64 bytes, in lower case.
pub(crate) fn component(text: &[u8]) -> Option<Component>
    ensures { MatchOption result ((xs : List ℕ) → IsComponent xs → text.now ≢ hex_text xs)
        (λ c. IsComponent c × (text.now ≡ hex_text c)) }
{
    let len = text.len() / 2;
    if len == 0 || len > MAX_COMPONENT {
        return None;
    }
    if text.len() % 2 != 0 {
        return None;
    }
    let mut bytes = [0; MAX_COMPONENT];
    if !read_hex(text, &mut bytes[..len]) {
        return None;
    }
    Some(Component::of_padded(len, bytes))
}
