ghost use Rattle.serving.specs.Fronts.{IsFront};

use xid::text;

/// The longest line that a client may write, in bytes without its end.
pub const MAX_LINE: usize = 65_536;
/// How many bytes of answers may wait to be read before no more lines of a client are taken.
pub const MOST_OUTPUT: usize = 65_536;
/// How many seconds a line may be begun and not ended.
pub const MOST_BEGUN: u64 = 10;

/// What stands at the front of the bytes that a client has written.
#[derive(Clone, Copy, Debug)]
pub enum Front<'a> {
    /// A whole line, without the LF at its end, and what follows it.
    Line(&'a [u8], &'a [u8]),
    /// A line that has begun, or nothing.
    Begun,
    /// A line of more bytes than a line may have, whole or not.
    TooLong,
}

/// What stands at the front of these bytes.
pub fn front_of(bytes: &[u8]) -> Front<'_>
    ensures { IsFront bytes.now result }
{
    match text::split_once(bytes, b'\n') {
        Some((line, rest)) if line.len() <= MAX_LINE => Front::Line(line, rest),
        Some(_) => Front::TooLong,
        None if bytes.len() <= MAX_LINE => Front::Begun,
        None => Front::TooLong,
    }
}
