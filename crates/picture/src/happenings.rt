//! What each line of a trace adds to its picture.

ghost use Rattle.std.specs.Prelude.{◌≡◌, ◌++◌, ◌∷◌, [], IfErr, OnOk};
ghost use Rattle.std.specs.List.{flat_map};
ghost use Rattle.xid.specs.declared.refusals.Refusal.TheVariants.{NoMemory};
ghost use Rattle.picture.specs.Drawing.{alone_elements, arrow_elements, arrow_pen, coming_from, short_way, half_way};
ghost use Rattle.picture.specs.Drawing.{label_element, linked_elements};
ghost use Rattle.picture.specs.Drawing.{loss_elements, lost_elements, mark_elements, sent_elements, sign_elements};
ghost use Rattle.picture.specs.Drawing.{delivered_elements, stroke_elements, view_element, whole_way, work_element};

use crate::datagrams::IndexedRows;
use crate::elements::{Element, Lettering, Mark, Pen, Point};
use crate::places::{BESIDE, ROW_HEIGHT, node_x, page_of, page_top, row_y};
use crate::rows::{Row, What};
use net_script::Sizes;
use protocol::NodeId;
use std::alloc::Global;
use xid::{Bytes, Refusal};

/// How far words are from their point.
const GAP: u64 = 11;
/// How far the line on which words stand is below their point.
const BASELINE: u64 = 3;
/// How far the stroke of a datagram reaches that was neither taken nor lost.
const REACH: u64 = 26;

/// Words beside a point, on the side that is away from where the datagram comes from.
fn draw_label(
    alloc: Global,
    out: &mut Vec<Element>,
    from: Point,
    to: Point,
    words: &[u8],
) -> Result<(), Refusal>
    ensures ok { OnOk result (out.new.items ≡ out.old.items ++ label_element from to words.now ∷ []) }
    ensures err { IfErr result (λ e. e ≡ NoMemory) }
{
    let words = Bytes::copy_of(alloc, words)?;
    let y = to.y.saturating_add(BASELINE);
    if from.x <= to.x {
        out.push(Element::Words {
            lettering: Lettering::Right,
            at: Point {
                x: to.x.saturating_add(GAP),
                y,
            },
            words,
        })?;
    } else {
        out.push(Element::Words {
            lettering: Lettering::Left,
            at: Point {
                x: to.x.saturating_sub(GAP),
                y,
            },
            words,
        })?;
    }
    Ok(())
}

/// The ends of a datagram's stroke.
#[derive(Clone, Copy, Debug)]
pub struct Ends {
    /// Where it begins.
    pub from: Point,
    /// Where it ends.
    pub to: Point,
}

/// Where a datagram that was sent on a line comes from, in the row of a later one: on another page it is the head of the lane.
fn coming_from(sizes: Sizes, sender: NodeId, sent: u32, line: u32) -> Point
    ensures { result ≡ coming_from sizes sender sent line }
{
    let x = node_x(sizes, sender);
    let page = page_of(line);
    if page_of(sent) == page {
        return Point { x, y: row_y(sent) };
    }
    Point {
        x,
        y: page_top(page) + 22,
    }
}

/// The ends of the stroke of a datagram, by the row where it is sent and the line where it is delivered.
fn whole_way(sizes: Sizes, row: &Row, line: u32) -> Ends
    ensures { result ≡ whole_way sizes row.now line }
{
    let y = row_y(line);
    match row.what {
        What::Sends {
            sender,
            receiver,
            ..
        } => Ends {
            from: coming_from(sizes, sender, row.line, line),
            to: Point {
                x: node_x(sizes, receiver),
                y,
            },
        },
        What::At { .. }
        | What::Delivers { .. }
        | What::Loses { .. }
        | What::Misses
        | What::Changes { .. } => Ends {
            from: Point { x: BESIDE, y },
            to: Point { x: BESIDE, y },
        },
    }
}

/// The ends of the stroke of a datagram that is lost half way.
fn half_way(sizes: Sizes, row: &Row, line: u32) -> Ends
    ensures { result ≡ half_way sizes row.now line }
{
    let ends = whole_way(sizes, row, line);
    Ends {
        from: ends.from,
        to: Point {
            x: ends.from.x.midpoint(ends.to.x),
            y: ends.to.y,
        },
    }
}

/// How a datagram is drawn that is delivered: thick, where it is taken, and wasn't before.
fn arrow_pen(rows: &IndexedRows<'_>, line: u32, number: u64, is_taken: bool) -> Pen
    ensures { result ≡ arrow_pen rows.now line number is_taken }
{
    if is_taken && !rows.is_taken_before(number, line) {
        Pen::Arrow
    } else {
        Pen::Again
    }
}

/// The arrow of a datagram that is delivered.
fn draw_arrow(
    out: &mut Vec<Element>,
    sizes: Sizes,
    rows: &IndexedRows<'_>,
    line: u32,
    number: u64,
    is_taken: bool,
) -> Result<(), Refusal>
    ensures ok { OnOk result (out.new.items ≡ out.old.items ++ arrow_elements sizes rows.now line number is_taken) }
    ensures err { IfErr result (λ e. e ≡ NoMemory) }
{
    let Some(row) = rows.find_sent(number, line) else {
        return Ok(());
    };
    let Ends { from, to } = whole_way(sizes, row, line);
    let pen = arrow_pen(rows, line, number, is_taken);
    out.push(Element::Stroke { pen, from, to })?;
    Ok(())
}

/// The stroke of a datagram that is lost.
fn draw_loss(
    out: &mut Vec<Element>,
    sizes: Sizes,
    rows: &IndexedRows<'_>,
    line: u32,
    number: u64,
) -> Result<(), Refusal>
    ensures ok { OnOk result (out.new.items ≡ out.old.items ++ loss_elements sizes rows.now line number) }
    ensures err { IfErr result (λ e. e ≡ NoMemory) }
{
    let Some(row) = rows.find_sent(number, line) else {
        return Ok(());
    };
    let Ends { from, to } = half_way(sizes, row, line);
    out.push(Element::Stroke {
        pen: Pen::Lost,
        from,
        to,
    })?;
    Ok(())
}

/// What an event does, down to this row.
fn draw_work(out: &mut Vec<Element>, at: Point) -> Result<(), Refusal>
    ensures ok { OnOk result (out.new.items ≡ out.old.items ++ work_element at ∷ []) }
    ensures err { IfErr result (λ e. e ≡ NoMemory) }
{
    out.push(Element::Stroke {
        pen: Pen::Work,
        from: Point {
            x: at.x,
            y: at.y.saturating_sub(ROW_HEIGHT),
        },
        to: at,
    })?;
    Ok(())
}

/// Where the stroke of a datagram ends that was sent to a node over there and is neither taken nor lost.
fn short_way(at: Point, receiver: u64) -> Point
    ensures { result ≡ short_way at receiver }
{
    let y = at.y.saturating_add(4);
    if at.x <= receiver {
        Point {
            x: at.x.saturating_add(REACH),
            y,
        }
    } else {
        Point {
            x: at.x.saturating_sub(REACH),
            y,
        }
    }
}

/// A datagram that is sent, and its beginning where it is neither taken nor lost.
fn draw_sent(
    out: &mut Vec<Element>,
    rows: &IndexedRows<'_>,
    number: u64,
    at: Point,
    receiver: u64,
) -> Result<(), Refusal>
    ensures ok { OnOk result (out.new.items ≡ out.old.items ++ sent_elements rows.now number at receiver) }
    ensures err { IfErr result (λ e. e ≡ NoMemory) }
{
    draw_work(out, at)?;
    if rows.is_settled(number) {
        return Ok(());
    }
    out.push(Element::Stroke {
        pen: Pen::Waiting,
        from: at,
        to: short_way(at, receiver),
    })?;
    Ok(())
}

/// The strokes of a row.
fn draw_strokes(
    out: &mut Vec<Element>,
    sizes: Sizes,
    rows: &IndexedRows<'_>,
    row: &Row,
) -> Result<(), Refusal>
    ensures ok { OnOk result (out.new.items ≡ out.old.items ++ stroke_elements sizes rows.now row.now) }
    ensures err { IfErr result (λ e. e ≡ NoMemory) }
{
    let line = row.line;
    match row.what {
        What::At { .. } | What::Misses => Ok(()),
        What::Delivers {
            number,
            is_taken,
            ..
        } => draw_arrow(out, sizes, rows, line, number, is_taken),
        What::Loses { number } => draw_loss(out, sizes, rows, line, number),
        What::Changes { rm, .. } => draw_work(
            out,
            Point {
                x: node_x(sizes, NodeId::R(rm)),
                y: row_y(line),
            },
        ),
        What::Sends {
            number,
            sender,
            receiver,
        } => draw_sent(
            out,
            rows,
            number,
            Point {
                x: node_x(sizes, sender),
                y: row_y(line),
            },
            node_x(sizes, receiver),
        ),
    }
}

/// A mark, and words beside it.
fn draw_mark(
    alloc: Global,
    out: &mut Vec<Element>,
    mark: Mark,
    ends: Ends,
    words: &[u8],
) -> Result<(), Refusal>
    ensures ok { OnOk result (out.new.items ≡ out.old.items ++ mark_elements mark ends words.now) }
    ensures err { IfErr result (λ e. e ≡ NoMemory) }
{
    out.push(Element::Stamp { mark, at: ends.to })?;
    draw_label(alloc, out, ends.from, ends.to, words)
}

/// The mark of a row at a node, or of what is said of no datagram, beside the lanes.
fn draw_alone(
    alloc: Global,
    out: &mut Vec<Element>,
    mark: Mark,
    x: u64,
    line: u32,
    words: &[u8],
) -> Result<(), Refusal>
    ensures ok { OnOk result (out.new.items ≡ out.old.items ++ alone_elements mark x line words.now) }
    ensures err { IfErr result (λ e. e ≡ NoMemory) }
{
    let at = Point { x, y: row_y(line) };
    draw_mark(alloc, out, mark, Ends { from: at, to: at }, words)
}

/// The mark where a datagram is delivered.
fn draw_delivered(
    alloc: Global,
    out: &mut Vec<Element>,
    sizes: Sizes,
    rows: &IndexedRows<'_>,
    row: &Row,
    number: u64,
    mark: Mark,
) -> Result<(), Refusal>
    ensures ok { OnOk result (out.new.items ≡ out.old.items ++ delivered_elements sizes rows.now row.now number mark) }
    ensures err { IfErr result (λ e. e ≡ NoMemory) }
{
    let Some(sent) = rows.find_sent(number, row.line) else {
        return draw_alone(alloc, out, mark, BESIDE, row.line, row.label.as_slice());
    };
    let ends = whole_way(sizes, sent, row.line);
    draw_mark(alloc, out, mark, ends, sent.label.as_slice())
}

/// The mark where a datagram is lost.
fn draw_lost(
    alloc: Global,
    out: &mut Vec<Element>,
    sizes: Sizes,
    rows: &IndexedRows<'_>,
    row: &Row,
    number: u64,
) -> Result<(), Refusal>
    ensures ok { OnOk result (out.new.items ≡ out.old.items ++ lost_elements sizes rows.now row.now number) }
    ensures err { IfErr result (λ e. e ≡ NoMemory) }
{
    let Some(sent) = rows.find_sent(number, row.line) else {
        let label = row.label.as_slice();
        return draw_alone(alloc, out, Mark::Refusal, BESIDE, row.line, label);
    };
    let ends = half_way(sizes, sent, row.line);
    draw_mark(alloc, out, Mark::Cross, ends, sent.label.as_slice())
}

/// The word of a view that is changed, left of its lane.
fn draw_view(
    alloc: Global,
    out: &mut Vec<Element>,
    x: u64,
    line: u32,
    words: &[u8],
) -> Result<(), Refusal>
    ensures ok { OnOk result (out.new.items ≡ out.old.items ++ view_element x line words.now ∷ []) }
    ensures err { IfErr result (λ e. e ≡ NoMemory) }
{
    let words = Bytes::copy_of(alloc, words)?;
    out.push(Element::Words {
        lettering: Lettering::View,
        at: Point {
            x: x.saturating_sub(GAP),
            y: row_y(line) + BASELINE,
        },
        words,
    })?;
    Ok(())
}

/// The mark and the words of a row.
fn draw_signs(
    alloc: Global,
    out: &mut Vec<Element>,
    sizes: Sizes,
    rows: &IndexedRows<'_>,
    row: &Row,
) -> Result<(), Refusal>
    ensures ok { OnOk result (out.new.items ≡ out.old.items ++ sign_elements sizes rows.now row.now) }
    ensures err { IfErr result (λ e. e ≡ NoMemory) }
{
    let label = row.label.as_slice();
    match row.what {
        What::At { node, mark } => {
            draw_alone(alloc, out, mark, node_x(sizes, node), row.line, label)
        }
        What::Delivers { number, mark, .. } => {
            draw_delivered(alloc, out, sizes, rows, row, number, mark)
        }
        What::Loses { number } => draw_lost(alloc, out, sizes, rows, row, number),
        What::Misses => draw_alone(alloc, out, Mark::Refusal, BESIDE, row.line, label),
        What::Changes { rm, .. } => {
            draw_view(alloc, out, node_x(sizes, NodeId::R(rm)), row.line, label)
        }
        What::Sends { .. } => Ok(()),
    }
}

/// The mark and the words of a row, as a link to its line; a datagram that is sent has none.
fn draw_linked(
    alloc: Global,
    out: &mut Vec<Element>,
    sizes: Sizes,
    rows: &IndexedRows<'_>,
    row: &Row,
) -> Result<(), Refusal>
    ensures ok { OnOk result (out.new.items ≡ out.old.items ++ linked_elements sizes rows.now row.now) }
    ensures err { IfErr result (λ e. e ≡ NoMemory) }
{
    match row.what {
        What::Sends { .. } => {}
        What::At { .. }
        | What::Delivers { .. }
        | What::Loses { .. }
        | What::Misses
        | What::Changes { .. } => {
            out.push(Element::Link { line: row.line })?;
            draw_signs(alloc, out, sizes, rows, row)?;
            out.push(Element::EndLink)?;
        }
    }
    Ok(())
}

/// The strokes of all rows. The only refusal is `NoMemory`.
pub(crate) fn draw_all_strokes(
    out: &mut Vec<Element>,
    sizes: Sizes,
    rows: &IndexedRows<'_>,
) -> Result<(), Refusal>
    ensures ok { OnOk result (out.new.items ≡ out.old.items ++ flat_map (stroke_elements sizes rows.now) rows.now) }
    ensures err { IfErr result (λ e. e ≡ NoMemory) }
{
    let all = rows.as_slice();
    for row in all {
        draw_strokes(out, sizes, rows, row)?;
    }
    Ok(())
}

/// The marks and the words of all rows. The only refusal is `NoMemory`.
pub(crate) fn draw_all_signs(
    alloc: Global,
    out: &mut Vec<Element>,
    sizes: Sizes,
    rows: &IndexedRows<'_>,
) -> Result<(), Refusal>
    ensures ok { OnOk result (out.new.items ≡ out.old.items ++ flat_map (linked_elements sizes rows.now) rows.now) }
    ensures err { IfErr result (λ e. e ≡ NoMemory) }
{
    let all = rows.as_slice();
    for row in all {
        draw_linked(alloc, out, sizes, rows, row)?;
    }
    Ok(())
}
