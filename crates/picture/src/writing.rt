//! The text of a picture.

ghost use Rattle.std.specs.Prelude.{◌≡◌, ◌++◌, ◌≤◌, ℕ, List, true, decimal, length, take, IfOk, IfErr, OnOk};
ghost use Rattle.std.specs.List.{flat_map, list_all};
ghost use Rattle.xid.specs.declared.refusals.Refusal.TheVariants.{NoMemory};
ghost use Rattle.picture.specs.Elements.{attribute, element_text, escaped, escaped_byte, head_text, is_harmless, is_plain, lettering_name};
ghost use Rattle.picture.specs.Elements.{link_text, mark_name, opened, pen_name, view_name, band_text, stamp_text, stroke_text, words_text};
ghost use Rattle.picture.specs.Elements.{place, refers, size_text, title_text, two_numbers, view_box};

use crate::elements::{Element, Lettering, Mark, Pen, Point};
use crate::style::{FURNITURE, OPENING, ROLE, TITLE, VIEW_BOX};
use itoa::Buffer;
use protocol::View;
use std::alloc::Global;
use xid::Refusal;

/// What the style calls a lettering.
fn lettering_name(lettering: Lettering) -> &'static [u8]
    ensures { result.now ≡ lettering_name lettering }
{
    match lettering {
        Lettering::Name => b"name",
        Lettering::Number => b"number",
        Lettering::Line => b"line",
        Lettering::Right => b"right",
        Lettering::Left => b"left",
        Lettering::View => b"view",
        Lettering::Note => b"note",
    }
}

/// What the style calls a pen.
fn pen_name(pen: Pen) -> &'static [u8]
    ensures { result.now ≡ pen_name pen }
{
    match pen {
        Pen::Lane => b"lane",
        Pen::Work => b"work",
        Pen::Arrow => b"arrow",
        Pen::Again => b"again",
        Pen::Lost => b"lost",
        Pen::Waiting => b"waiting",
    }
}

/// What the style calls a mark.
fn mark_name(mark: Mark) -> &'static [u8]
    ensures { result.now ≡ mark_name mark }
{
    match mark {
        Mark::Done => b"done",
        Mark::Tear => b"tear",
        Mark::Restart => b"restart",
        Mark::Compaction => b"compaction",
        Mark::Refusal => b"refusal",
        Mark::Cross => b"cross",
    }
}

/// What the style calls a view.
fn view_name(view: View) -> &'static [u8]
    ensures { result.now ≡ view_name view }
{
    match view {
        View::Working => b"working",
        View::Prepared => b"prepared",
        View::Committed => b"committed",
        View::Aborted => b"aborted",
    }
}

/// A byte of words, as markup can't misread it.
fn put_escaped_byte(out: &mut Vec<u8>, byte: u8) -> Result<(), Refusal>
    ensures ok { OnOk result (out.new.items ≡ out.old.items ++ escaped_byte byte) }
    ensures err { IfErr result (λ e. e ≡ NoMemory) }
{
    if byte == b'&' {
        out.extend_from_slice(b"&amp;")?;
    } else if byte == b'<' {
        out.extend_from_slice(b"&lt;")?;
    } else if byte == b'>' {
        out.extend_from_slice(b"&gt;")?;
    } else if byte == b'\'' {
        out.extend_from_slice(b"&#39;")?;
    } else if byte < 32 || byte > 126 {
        out.push(b'?')?;
    } else {
        out.push(byte)?;
    }
    Ok(())
}

/// Whether a byte stands in words as it is.
fn is_plain(byte: u8) -> bool
    ensures { result ≡ is_plain byte }
{
    byte >= 32 && byte <= 126 && byte != b'<' && byte != b'>' && byte != b'\'' && byte != b'&'
}

/// How many bytes at the front of words stand there as they are.
fn plain_len(words: &[u8]) -> usize
    ensures within { result ≤ length words.now }
    ensures plain { list_all is_plain (take result words.now) ≡ true }
{
    let mut count = 0usize;
    for byte in words {
        if !is_plain(*byte) {
            return count;
        }
        count += 1;
    }
    count
}

/// Words, as markup can't misread them.
fn put_escaped(out: &mut Vec<u8>, words: &[u8]) -> Result<(), Refusal>
    ensures ok { OnOk result (out.new.items ≡ out.old.items ++ escaped words.now) }
    ensures err { IfErr result (λ e. e ≡ NoMemory) }
{
    let mut rest = words;
    while !rest.is_empty() {
        let (plain, behind) = rest.split_at(plain_len(rest));
        out.extend_from_slice(plain)?;
        let Some((byte, after)) = behind.split_first() else {
            return Ok(());
        };
        put_escaped_byte(out, *byte)?;
        rest = after;
    }
    Ok(())
}

/// A number.
fn put_number(out: &mut Vec<u8>, number: u64) -> Result<(), Refusal>
    ensures ok { OnOk result (out.new.items ≡ out.old.items ++ decimal number) }
    ensures err { IfErr result (λ e. e ≡ NoMemory) }
{
    let mut digits = Buffer::new();
    out.extend_from_slice(digits.format(number).as_bytes())?;
    Ok(())
}

/// An attribute that is a number.
fn put_attribute(out: &mut Vec<u8>, name: &[u8], number: u64) -> Result<(), Refusal>
    ensures ok { OnOk result (out.new.items ≡ out.old.items ++ attribute name.now number) }
    ensures err { IfErr result (λ e. e ≡ NoMemory) }
{
    out.push(b' ')?;
    out.extend_from_slice(name)?;
    out.extend_from_slice(b"='")?;
    put_number(out, number)?;
    out.push(b'\'')?;
    Ok(())
}

/// The beginning of a tag, of this class.
fn open(out: &mut Vec<u8>, tag: &[u8], class: &[u8]) -> Result<(), Refusal>
    ensures ok { OnOk result (out.new.items ≡ out.old.items ++ opened tag.now class.now) }
    ensures err { IfErr result (λ e. e ≡ NoMemory) }
{
    out.push(b'<')?;
    out.extend_from_slice(tag)?;
    out.extend_from_slice(b"='")?;
    out.extend_from_slice(class)?;
    out.push(b'\'')?;
    Ok(())
}

/// A point, by two attributes of these names.
fn put_place(out: &mut Vec<u8>, across: &[u8], down: &[u8], at: Point) -> Result<(), Refusal>
    ensures ok { OnOk result (out.new.items ≡ out.old.items ++ place across.now down.now at) }
    ensures err { IfErr result (λ e. e ≡ NoMemory) }
{
    put_attribute(out, across, at.x)?;
    put_attribute(out, down, at.y)?;
    Ok(())
}

/// Two numbers, a space between them.
fn put_two_numbers(out: &mut Vec<u8>, first: u64, second: u64) -> Result<(), Refusal>
    ensures ok { OnOk result (out.new.items ≡ out.old.items ++ two_numbers first second) }
    ensures err { IfErr result (λ e. e ≡ NoMemory) }
{
    put_number(out, first)?;
    out.push(b' ')?;
    put_number(out, second)?;
    Ok(())
}

/// The size of the picture.
fn put_size(out: &mut Vec<u8>, width: u64, height: u64) -> Result<(), Refusal>
    ensures ok { OnOk result (out.new.items ≡ out.old.items ++ size_text width height) }
    ensures err { IfErr result (λ e. e ≡ NoMemory) }
{
    out.extend_from_slice(OPENING.as_bytes())?;
    put_attribute(out, b"width", width)?;
    put_attribute(out, b"height", height)?;
    Ok(())
}

/// How much of the plane the picture shows: all of it, so that it may be scaled.
fn put_view_box(out: &mut Vec<u8>, width: u64, height: u64) -> Result<(), Refusal>
    ensures ok { OnOk result (out.new.items ≡ out.old.items ++ view_box width height) }
    ensures err { IfErr result (λ e. e ≡ NoMemory) }
{
    out.extend_from_slice(VIEW_BOX.as_bytes())?;
    put_two_numbers(out, width, height)?;
    out.extend_from_slice(ROLE.as_bytes())?;
    Ok(())
}

/// The title of the picture of the trace at this address.
fn put_title(out: &mut Vec<u8>, address: &[u8]) -> Result<(), Refusal>
    ensures ok { OnOk result (out.new.items ≡ out.old.items ++ title_text address.now) }
    ensures err { IfErr result (λ e. e ≡ NoMemory) }
{
    out.extend_from_slice(TITLE.as_bytes())?;
    put_escaped(out, address)?;
    out.extend_from_slice(b"</title>\n")?;
    Ok(())
}

/// The beginning of the picture of the trace at this address.
fn put_head(out: &mut Vec<u8>, address: &[u8], width: u64, height: u64) -> Result<(), Refusal>
    ensures ok { OnOk result (out.new.items ≡ out.old.items ++ head_text address.now width height) }
    ensures err { IfErr result (λ e. e ≡ NoMemory) }
{
    put_size(out, width, height)?;
    put_view_box(out, width, height)?;
    put_title(out, address)?;
    out.extend_from_slice(FURNITURE.as_bytes())?;
    Ok(())
}

/// The beginning of a link to a line of the trace at this address.
fn put_link(out: &mut Vec<u8>, address: &[u8], line: u32) -> Result<(), Refusal>
    ensures ok { OnOk result (out.new.items ≡ out.old.items ++ link_text address.now line) }
    ensures err { IfErr result (λ e. e ≡ NoMemory) }
{
    out.extend_from_slice(b"<a href='")?;
    put_escaped(out, address)?;
    out.extend_from_slice(b"#L")?;
    put_number(out, u64::from(line))?;
    out.extend_from_slice(b"'><title>line ")?;
    put_number(out, u64::from(line))?;
    out.extend_from_slice(b"</title>\n")?;
    Ok(())
}

/// Words at a point.
fn put_words(
    out: &mut Vec<u8>,
    lettering: Lettering,
    at: Point,
    words: &[u8],
) -> Result<(), Refusal>
    ensures ok { OnOk result (out.new.items ≡ out.old.items ++ words_text lettering at words.now) }
    ensures err { IfErr result (λ e. e ≡ NoMemory) }
{
    open(out, b"text class", lettering_name(lettering))?;
    put_place(out, b"x", b"y", at)?;
    out.push(b'>')?;
    put_escaped(out, words)?;
    out.extend_from_slice(b"</text>\n")?;
    Ok(())
}

/// A stroke.
fn put_stroke(out: &mut Vec<u8>, pen: Pen, from: Point, to: Point) -> Result<(), Refusal>
    ensures ok { OnOk result (out.new.items ≡ out.old.items ++ stroke_text pen from to) }
    ensures err { IfErr result (λ e. e ≡ NoMemory) }
{
    open(out, b"line class", pen_name(pen))?;
    put_place(out, b"x1", b"y1", from)?;
    put_place(out, b"x2", b"y2", to)?;
    out.extend_from_slice(b"/>\n")?;
    Ok(())
}

/// A band.
fn put_band(out: &mut Vec<u8>, view: View, at: Point, height: u64) -> Result<(), Refusal>
    ensures ok { OnOk result (out.new.items ≡ out.old.items ++ band_text view at height) }
    ensures err { IfErr result (λ e. e ≡ NoMemory) }
{
    open(out, b"rect class", view_name(view))?;
    put_place(out, b"x", b"y", at)?;
    let size = Point { x: 10, y: height };
    put_place(out, b"width", b"height", size)?;
    out.extend_from_slice(b"/>\n")?;
    Ok(())
}

/// A mark, which the style draws.
fn put_stamp(out: &mut Vec<u8>, mark: Mark, at: Point) -> Result<(), Refusal>
    ensures ok { OnOk result (out.new.items ≡ out.old.items ++ stamp_text mark at) }
    ensures err { IfErr result (λ e. e ≡ NoMemory) }
{
    out.extend_from_slice(b"<use href='#")?;
    out.extend_from_slice(mark_name(mark))?;
    out.push(b'\'')?;
    put_place(out, b"x", b"y", at)?;
    out.extend_from_slice(b"/>\n")?;
    Ok(())
}

/// A part of the picture of the trace at this address.
fn put_element(out: &mut Vec<u8>, address: &[u8], element: &Element) -> Result<(), Refusal>
    ensures ok { OnOk result (out.new.items ≡ out.old.items ++ element_text address.now element.now) }
    ensures err { IfErr result (λ e. e ≡ NoMemory) }
{
    match element {
        Element::Head { width, height } => put_head(out, address, *width, *height)?,
        Element::Link { line } => put_link(out, address, *line)?,
        Element::Words {
            lettering,
            at,
            words,
        } => put_words(out, *lettering, *at, words.as_slice())?,
        Element::Stroke { pen, from, to } => put_stroke(out, *pen, *from, *to)?,
        Element::Band { view, at, height } => put_band(out, *view, *at, *height)?,
        Element::Stamp { mark, at } => put_stamp(out, *mark, *at)?,
        Element::EndLink => out.extend_from_slice(b"</a>\n")?,
        Element::End => out.extend_from_slice(b"</svg>\n")?,
    }
    Ok(())
}

/// The text of these parts of the picture of the trace at this address. The only refusal is `NoMemory`.
pub(crate) fn text_of(
    alloc: Global,
    address: &[u8],
    elements: &[Element],
) -> Result<Vec<u8>, Refusal>
    ensures ok { IfOk result (λ text. text.items ≡ flat_map (element_text address.now) elements.now) }
    ensures err { IfErr result (λ e. e ≡ NoMemory) }
{
    let mut out = Vec::new(alloc);
    for element in elements {
        put_element(&mut out, address, element)?;
    }
    Ok(out)
}

/// Words in a picture are printed ASCII, none of them begins or ends a tag or a value of an attribute, and an ampersand stands there only
/// where it begins a reference to a character.
pub fn no_markup()
    ensures harmless { (words : List ℕ) → list_all is_harmless (escaped words) ≡ true }
    ensures references { (words : List ℕ) → refers (escaped words) ≡ true }
{}
