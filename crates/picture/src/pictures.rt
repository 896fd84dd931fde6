//! Whole pictures.

ghost use Rattle.std.specs.Prelude.{◌≡◌, ◌++◌, ℕ, List, IfOk, IfErr, OnOk};
ghost use Rattle.std.specs.List.{All};
ghost use Rattle.net_script.specs.declared.values.Trace.{Trace};
ghost use Rattle.xid.specs.declared.refusals.Refusal.TheVariants.{NoMemory};
ghost use Rattle.net_script.specs.TraceReading.{RefusesTrace};
ghost use Rattle.picture.specs.Pictures.{IsPictureOf, backdrop_elements, elements_of, front_elements, is_served, served_note};
ghost use Rattle.picture.specs.Pictures.{tells_of_sockets, trace_rows};
ghost use Rattle.picture.specs.Ways.{IsTrueOf};

use crate::backdrop::{draw_changes, draw_pages};
use crate::datagrams::IndexedRows;
use crate::elements::{Element, Lettering, Point};
use crate::happenings::{draw_all_signs, draw_all_strokes};
use crate::names::address_of;
use crate::places::{picture_width, row_y};
use crate::rows::{Row, are_several, line_at, rows_of};
use crate::transcript::{count_lines, draw_lines};
use crate::writing::text_of;
use net_script::{Entry, Trace, read_trace};
use std::alloc::Global;
use xid::{Bytes, Refusal};

/// What a picture says that has no arrows.
const SERVED: &[u8] =
    b"A trace of a run over sockets has no sent lines: what each node took is shown, and no arrows.";

/// Whether something was taken from a socket.
fn is_served(entry: &Entry) -> bool
    ensures { result ≡ is_served entry.now }
{
    match entry {
        Entry::Serve { .. } => true,
        Entry::Step(_) => false,
    }
}

/// Whether a trace is of a run over sockets in which something was taken.
fn tells_of_sockets(entries: &[Entry]) -> bool
    ensures { result ≡ tells_of_sockets entries.now }
{
    entries.iter().any(|entry| is_served(entry))
}

/// What the picture of a run over sockets says.
fn draw_served(alloc: Global, out: &mut Vec<Element>, entries: &[Entry]) -> Result<(), Refusal>
    ensures ok { OnOk result (out.new.items ≡ out.old.items ++ served_note entries.now) }
    ensures err { IfErr result (λ e. e ≡ NoMemory) }
{
    if tells_of_sockets(entries) {
        out.push(Element::Words {
            lettering: Lettering::Note,
            at: Point { x: 42, y: 106 },
            words: Bytes::copy_of(alloc, SERVED)?,
        })?;
    }
    Ok(())
}

/// What stands behind the events, in a picture of so many lines.
fn draw_backdrop(
    alloc: Global,
    out: &mut Vec<Element>,
    lines: u32,
    trace: &Trace,
    rows: &[Row],
) -> Result<(), Refusal>
    requires { rows.now ≡ trace_rows trace.now }
    ensures ok { OnOk result (out.new.items ≡ out.old.items ++ backdrop_elements lines trace.now) }
    ensures err { IfErr result (λ e. e ≡ NoMemory) }
{
    draw_served(alloc, out, trace.entries.as_slice())?;
    draw_pages(alloc, out, trace.sizes, lines, rows)?;
    draw_changes(out, lines, rows)
}

/// The lines of the trace, whose text this is, and the events.
fn draw_front(
    alloc: Global,
    out: &mut Vec<Element>,
    bytes: &[u8],
    trace: &Trace,
    rows: &[Row],
) -> Result<(), Refusal>
    requires { rows.now ≡ trace_rows trace.now }
    ensures ok { OnOk result (out.new.items ≡ out.old.items ++ front_elements bytes.now trace.now) }
    ensures err { IfErr result (λ e. e ≡ NoMemory) }
{
    let indexed = IndexedRows::new(alloc, rows)?;
    draw_lines(alloc, out, bytes)?;
    draw_all_strokes(out, trace.sizes, &indexed)?;
    draw_all_signs(alloc, out, trace.sizes, &indexed)
}

/// The parts of the picture of a trace, whose text this is. The only refusal is `NoMemory`.
fn draw(alloc: Global, bytes: &[u8], trace: &Trace) -> Result<Vec<Element>, Refusal>
    ensures ok { IfOk result (λ elements. elements.items ≡ elements_of bytes.now trace.now) }
    ensures err { IfErr result (λ e. e ≡ NoMemory) }
{
    let lines = count_lines(bytes);
    let first = line_at(2, trace.tables.as_slice().len());
    let rows = rows_of(alloc, first, trace.entries.as_slice())?;
    let mut out = Vec::new(alloc);
    out.push(Element::Head {
        width: picture_width(trace.sizes, are_several(trace.entries.as_slice())),
        height: row_y(lines) + 30,
    })?;
    draw_backdrop(alloc, &mut out, lines, trace, &rows)?;
    draw_front(alloc, &mut out, bytes, trace, &rows)?;
    out.push(Element::End)?;
    Ok(out)
}

/// The picture of the trace of which this is the text, as an SVG whose links lead to the lines of the file of this path. Refused:
/// `BadScript` and `BadConfig` as `read_trace` refuses what is no trace; and `NoMemory`.
pub fn picture(alloc: Global, path: &[u8], bytes: &[u8]) -> Result<Vec<u8>, Refusal>
    ensures ok { IfOk result (λ text. IsPictureOf path.now bytes.now text.items) }
    ensures err { IfErr result (RefusesTrace bytes.now) }
{
    let trace = match read_trace(alloc, bytes) {
        Ok(trace) => trace,
        Err(refusal) => return Err(refusal),
    };
    let address = address_of(alloc, path)?;
    let elements = draw(alloc, bytes, &trace)?;
    let text = text_of(alloc, address.as_slice(), &elements)?;
    Ok(text)
}

/// An arrow, thick or thin, begins on the lane of the node that sent a datagram or told a notice, in the row of that, or at the head of the
/// lane where that is on an earlier page; and it ends on the lane of the node that it is for, in the row of an event that handed it over,
/// or its first bytes. Of a thick one that is the first event that took it. The stroke of one that is lost ends half way.
pub fn true_arrows()
    ensures { (bytes : List ℕ) (t : Trace) → All (IsTrueOf t.sizes (trace_rows t)) (elements_of bytes t) }
{}
