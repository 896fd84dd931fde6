//! Texts that are written to a file or to standard output.

ghost use Rattle.std.specs.Prelude.{◌++◌, ◌∷◌, [], decimal};
ghost use Rattle.net_script.specs.Writing.{IsFileRefusal, WritesText};

use itoa::Buffer;
use std::io;
use std::io::Write;
use xid::Refusal;

/// Writes a text, one `write` after another: `write_all` doesn't say what stands after it failed. Refused: `FileFault`, or want of memory,
/// where the writer fails, which then has a beginning of the text and nothing else.
pub fn write_text<W: Write>(text: &[u8], out: &mut W) -> Result<(), Refusal>
    ensures { WritesText (W.contents out.old) (W.contents out.new) result text.now }
{
    let mut rest = text;
    for _ in 0..u64::MAX {
        if rest.is_empty() {
            return Ok(());
        }
        match out.write(rest) {
            Ok(0) => return Err(Refusal::FileFault),
            Ok(count) => rest = &rest[count..],
            Err(error) => {
                if error.kind() != io::ErrorKind::Interrupted {
                    return Err(file_refusal(error));
                }
            }
        }
    }
    if rest.is_empty() {
        return Ok(());
    }
    Err(Refusal::FileFault)
}

/// Writes a line that ends in a number. Refused as `write_text` is.
pub fn write_number<W: Write>(head: &str, number: usize, out: &mut W) -> Result<(), Refusal>
    ensures { WritesText (W.contents out.old) (W.contents out.new) result (head.now ++ decimal number ++ 10 ∷ []) }
{
    let mut digits = Buffer::new();
    write_text(head.as_bytes(), out)?;
    write_text(digits.format(number).as_bytes(), out)?;
    write_text(b"\n", out)
}

/// The refusal for a file that couldn't be read or written: `NoMemory` where that wanted memory, else `FileFault`.
pub fn file_refusal(error: io::Error) -> Refusal
    ensures { IsFileRefusal result }
{
    match error.kind() {
        io::ErrorKind::OutOfMemory => Refusal::NoMemory,
        _ => Refusal::FileFault,
    }
}
