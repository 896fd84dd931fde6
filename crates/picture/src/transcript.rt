//! The lines of the trace, beside the lanes.

ghost use Rattle.std.specs.Prelude.{◌≡◌, ◌++◌, ◌==◌, IfOk, IfErr, OnOk};
ghost use Rattle.xid.specs.declared.refusals.Refusal.TheVariants.{NoMemory};
ghost use Rattle.net_script.specs.Lines.{lines};
ghost use Rattle.picture.specs.Pictures.{line_count};
ghost use Rattle.picture.specs.Drawing.{line_elements, lines_elements, shortened};

use crate::elements::{Element, Lettering, Point};
use crate::places::row_y;
use itoa::Buffer;
use std::alloc::Global;
use xid::{Bytes, Refusal, Sequence, text};

/// How many bytes of a line stand in the picture.
const SHOWN: usize = 47;
/// How many of a longer one do.
const KEPT: usize = 44;

/// A line, or its beginning and three dots.
fn shortened(alloc: Global, line: &[u8]) -> Result<Bytes, Refusal>
    ensures ok { IfOk result (λ words. words ≡ shortened line.now) }
    ensures err { IfErr result (λ e. e ≡ NoMemory) }
{
    if line.len() <= SHOWN {
        return Bytes::copy_of(alloc, line);
    }
    let (front, _) = line.split_at(KEPT);
    let mut words = Vec::from_slice(alloc, front)?;
    words.extend_from_slice(b"...")?;
    Ok(Sequence::new(words))
}

/// A line and its number.
fn draw_line(alloc: Global, out: &mut Vec<Element>, number: u32, line: &[u8]) -> Result<(), Refusal>
    ensures ok { OnOk result (out.new.items ≡ out.old.items ++ line_elements number line.now) }
    ensures err { IfErr result (λ e. e ≡ NoMemory) }
{
    let y = row_y(number) + 3;
    let mut digits = Buffer::new();
    let written = Bytes::copy_of(alloc, digits.format(number).as_bytes())?;
    let words = shortened(alloc, line)?;
    out.push(Element::Link { line: number })?;
    out.push(Element::Words {
        lettering: Lettering::Number,
        at: Point { x: 34, y },
        words: written,
    })?;
    out.push(Element::Words {
        lettering: Lettering::Line,
        at: Point { x: 42, y },
        words,
    })?;
    out.push(Element::EndLink)?;
    Ok(())
}

/// All lines that have an end. The only refusal is `NoMemory`.
pub(crate) fn draw_lines(alloc: Global, out: &mut Vec<Element>, bytes: &[u8]) -> Result<(), Refusal>
    ensures ok { OnOk result (out.new.items ≡ out.old.items ++ lines_elements 1 (lines bytes.now)) }
    ensures err { IfErr result (λ e. e ≡ NoMemory) }
{
    let mut number: u32 = 1;
    let mut rest = bytes;
    while let Some((line, after)) = text::split_once(rest, b'\n') {
        draw_line(alloc, out, number, line)?;
        number = number.saturating_add(1);
        rest = after;
    }
    if !rest.is_empty() {
        draw_line(alloc, out, number, rest)?;
    }
    Ok(())
}

/// How many lines a text has, but at most 2^32-1.
pub(crate) fn count_lines(bytes: &[u8]) -> u32
    ensures { result ≡ line_count bytes.now }
{
    let count = bytes.iter().filter(|byte| **byte == b'\n').count();
    u32::try_from(count).unwrap_or(u32::MAX)
}
