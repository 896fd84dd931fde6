//! What stands behind the events: the lanes of each page, and the views along them.

ghost use Rattle.std.specs.Prelude.{◌≡◌, ◌++◌, IfErr, OnOk};
ghost use Rattle.std.specs.List.{flat_map};
ghost use Rattle.xid.specs.declared.refusals.Refusal.TheVariants.{NoMemory};
ghost use Rattle.picture.specs.Drawing.{band_elements, carried_elements, carried_view, change_elements, lane_elements, lane_on};
ghost use Rattle.picture.specs.Drawing.{lanes_elements, page_elements};
ghost use Rattle.picture.specs.Drawing.{page_note, pages_elements};
ghost use Rattle.picture.specs.Order.{Ascend};
ghost use Rattle.picture.specs.Passing.{AreBefore, page_line};

use crate::elements::{Element, Lettering, Pen, Point};
use crate::places::{PAGE_LINES, lane_x, page_end, page_of, page_top, row_y};
use crate::rows::{Row, What};
use crate::views::Views;
use itoa::Buffer;
use net_script::Sizes;
use protocol::View;
use std::alloc::Global;
use xid::{Bytes, Refusal, Sequence};

/// The lane of a node, down to where it ends, and the node's name.
fn draw_lane(
    alloc: Global,
    out: &mut Vec<Element>,
    letter: u8,
    number: u32,
    head: Point,
    end: u64,
) -> Result<(), Refusal>
    ensures ok { OnOk result (out.new.items ≡ out.old.items ++ lane_elements letter number head end) }
    ensures err { IfErr result (λ e. e ≡ NoMemory) }
{
    let mut digits = Buffer::new();
    let mut name = Vec::new(alloc);
    name.push(letter)?;
    name.extend_from_slice(digits.format(number).as_bytes())?;
    out.push(Element::Stroke {
        pen: Pen::Lane,
        from: Point {
            x: head.x,
            y: head.y.saturating_add(6),
        },
        to: Point { x: head.x, y: end },
    })?;
    out.push(Element::Words {
        lettering: Lettering::Name,
        at: head,
        words: Sequence::new(name),
    })?;
    Ok(())
}

/// The lane of a node on a page, behind the lanes of two kinds.
fn draw_lane_on(
    alloc: Global,
    out: &mut Vec<Element>,
    page: u32,
    lines: u32,
    letter: u8,
    first: u32,
    second: u32,
    number: u32,
) -> Result<(), Refusal>
    ensures ok { OnOk result (out.new.items ≡ out.old.items ++ lane_on page lines letter first second number) }
    ensures err { IfErr result (λ e. e ≡ NoMemory) }
{
    let head = Point {
        x: lane_x(first, second, number),
        y: page_top(page) + 16,
    };
    draw_lane(alloc, out, letter, number, head, page_end(page, lines))
}

/// The lanes of the nodes of a kind on a page, behind those of two kinds.
fn draw_lanes(
    alloc: Global,
    out: &mut Vec<Element>,
    page: u32,
    lines: u32,
    letter: u8,
    first: u32,
    second: u32,
    count: u32,
) -> Result<(), Refusal>
    ensures ok { OnOk result (out.new.items ≡ out.old.items ++ lanes_elements page lines letter first second count) }
    ensures err { IfErr result (λ e. e ≡ NoMemory) }
{
    for number in 0..count {
        draw_lane_on(alloc, out, page, lines, letter, first, second, number)?;
    }
    Ok(())
}

/// The band of a view from here to the end of the page, if the resource manager isn't working.
fn draw_band(
    out: &mut Vec<Element>,
    lines: u32,
    page: u32,
    rm: u32,
    y: u64,
    view: View,
) -> Result<(), Refusal>
    ensures ok { OnOk result (out.new.items ≡ out.old.items ++ band_elements lines page rm y view) }
    ensures err { IfErr result (λ e. e ≡ NoMemory) }
{
    match view {
        View::Working => {}
        View::Prepared | View::Committed | View::Aborted => {
            out.push(Element::Band {
                view,
                at: Point {
                    x: lane_x(0, 0, rm).saturating_sub(5),
                    y,
                },
                height: page_end(page, lines).saturating_sub(y),
            })?;
        }
    }
    Ok(())
}

/// The first line of a page.
fn page_line(page: u32) -> u32
    ensures { result ≡ page_line page }
{
    page.saturating_mul(PAGE_LINES).saturating_add(1)
}

/// The view of a resource manager with which a page begins.
fn draw_carried_view(
    out: &mut Vec<Element>,
    lines: u32,
    views: &Views<'_>,
    page: u32,
    rm: u32,
) -> Result<(), Refusal>
    requires { AreBefore views.now (page_line page) }
    ensures ok { OnOk result (out.new.items ≡ out.old.items ++ carried_view lines views.now.rows.now page rm) }
    ensures err { IfErr result (λ e. e ≡ NoMemory) }
{
    let view = views.view_of(rm);
    draw_band(out, lines, page, rm, page_top(page) + 22, view)
}

/// The views with which a page begins.
fn draw_carried(
    out: &mut Vec<Element>,
    lines: u32,
    views: &Views<'_>,
    page: u32,
    rms: u32,
) -> Result<(), Refusal>
    requires { AreBefore views.now (page_line page) }
    ensures ok { OnOk result (out.new.items ≡ out.old.items ++ carried_elements lines views.now.rows.now page rms) }
    ensures err { IfErr result (λ e. e ≡ NoMemory) }
{
    for rm in 0..rms {
        draw_carried_view(out, lines, views, page, rm)?;
    }
    Ok(())
}

/// Which page this is, where there are several.
fn draw_page_note(
    alloc: Global,
    out: &mut Vec<Element>,
    lines: u32,
    page: u32,
) -> Result<(), Refusal>
    ensures ok { OnOk result (out.new.items ≡ out.old.items ++ page_note lines page) }
    ensures err { IfErr result (λ e. e ≡ NoMemory) }
{
    let last = page_of(lines);
    if last == 0 {
        return Ok(());
    }
    let mut words = Vec::from_slice(alloc, b"page ")?;
    let mut digits = Buffer::new();
    words.extend_from_slice(digits.format(page.saturating_add(1)).as_bytes())?;
    words.extend_from_slice(b" of ")?;
    words.extend_from_slice(digits.format(last.saturating_add(1)).as_bytes())?;
    out.push(Element::Words {
        lettering: Lettering::Note,
        at: Point {
            x: 42,
            y: page_top(page) + 16,
        },
        words: Sequence::new(words),
    })?;
    Ok(())
}

/// What stands behind the events of a page, but the views that change on it.
fn draw_page(
    alloc: Global,
    out: &mut Vec<Element>,
    sizes: Sizes,
    lines: u32,
    views: &Views<'_>,
    page: u32,
) -> Result<(), Refusal>
    requires { AreBefore views.now (page_line page) }
    ensures ok { OnOk result (out.new.items ≡ out.old.items ++ page_elements sizes lines views.now.rows.now page) }
    ensures err { IfErr result (λ e. e ≡ NoMemory) }
{
    draw_page_note(alloc, out, lines, page)?;
    draw_lanes(alloc, out, page, lines, b'r', 0, 0, sizes.rms)?;
    draw_lanes(alloc, out, page, lines, b'l', sizes.rms, 0, sizes.leaders)?;
    draw_lanes(
        alloc,
        out,
        page,
        lines,
        b'a',
        sizes.rms,
        sizes.leaders,
        sizes.acceptors,
    )?;
    draw_carried(out, lines, views, page, sizes.rms)
}

/// What stands behind the events of all pages, but the views that change on them. The only refusal is `NoMemory`.
pub(crate) fn draw_pages(
    alloc: Global,
    out: &mut Vec<Element>,
    sizes: Sizes,
    lines: u32,
    rows: &[Row],
) -> Result<(), Refusal>
    requires { Ascend 0 rows.now }
    ensures ok { OnOk result (out.new.items ≡ out.old.items ++ pages_elements sizes lines rows.now) }
    ensures err { IfErr result (λ e. e ≡ NoMemory) }
{
    let mut views = Views::new(rows);
    for page in 0..page_of(lines) + 1 {
        views.pass(page_line(page));
        draw_page(alloc, out, sizes, lines, &views, page)?;
    }
    Ok(())
}

/// The view that a row changes, if it changes one.
fn draw_change(out: &mut Vec<Element>, lines: u32, row: &Row) -> Result<(), Refusal>
    ensures ok { OnOk result (out.new.items ≡ out.old.items ++ change_elements lines row.now) }
    ensures err { IfErr result (λ e. e ≡ NoMemory) }
{
    match row.what {
        What::Changes { rm, view } => {
            let page = page_of(row.line);
            draw_band(out, lines, page, u32::from(rm), row_y(row.line), view)
        }
        What::At { .. }
        | What::Delivers { .. }
        | What::Loses { .. }
        | What::Misses
        | What::Sends { .. } => Ok(()),
    }
}

/// The views that change. The only refusal is `NoMemory`.
pub(crate) fn draw_changes(out: &mut Vec<Element>, lines: u32, rows: &[Row]) -> Result<(), Refusal>
    ensures ok { OnOk result (out.new.items ≡ out.old.items ++ flat_map (change_elements lines) rows.now) }
    ensures err { IfErr result (λ e. e ≡ NoMemory) }
{
    for row in rows {
        draw_change(out, lines, row)?;
    }
    Ok(())
}
