//! What one line of a trace says.

ghost use Rattle.std.specs.Prelude.{◌≡◌, true, ◌≢◌, ◌∷◌, codes};
ghost use Rattle.net_script.specs.Lines.{words};
ghost use Rattle.net_script.specs.Spelling.{Finds};
ghost use Rattle.net_script.specs.Items.{rows_words};
ghost use Rattle.net_script.specs.Traces.{change_words};
ghost use Rattle.net_script.specs.TraceLines.{IsChange, AreFinalRows, are_ascending, IsTraceLine, IsOutcome, is_tidy, trace_line_words};
ghost use Rattle.net_script.specs.Laws.{final_rows};
ghost use Rattle.net_script.specs.Telling.{HearsText};

use crate::answers::{read_answer, view_named};
use crate::events::event_by;
use crate::known::{KnownTx, know};
use crate::nodes::Manager;
use crate::stop::Stop;
use crate::told::{ToldSent, read_told};
use crate::trace_lines::{TraceLine, is_tidy, split_arrow};
use crate::word::{Words, is_word};
use crate::words::{is_over, last_node, manager_word, next_word};
use protocol::{Boxed, Change, Row, Told};
use std::alloc::Global;
use std::cmp::Ordering;
use xid::Sequence;

/// The changed view of these words.
#[inline(never)]
pub(crate) fn read_change(
    alloc: Global,
    known: &mut Option<KnownTx>,
    args: &[u8],
) -> Result<Boxed<Change>, Stop>
    ensures { Finds true IsChange change_words (words args.now) result }
{
    let (word, rest) = next_word(args).ok_or(Stop::Wrong)?;
    let rm = manager_word(word).ok_or(Stop::Wrong)?;
    let (text, rest) = next_word(rest).ok_or(Stop::Wrong)?;
    let is_tx = know(alloc, known, text).ok().ok_or(Stop::Memory)?;
    if !is_tx {
        return Err(Stop::Wrong);
    }
    let Some(last) = &*known else { unreachable!() };
    let (word, rest) = next_word(rest).ok_or(Stop::Wrong)?;
    let view = view_named(word).ok_or(Stop::Wrong)?;
    if !is_over(rest) {
        return Err(Stop::Wrong);
    }
    let tx = *last.tx();
    let change = Boxed::new(alloc, Change { rm, tx, view });
    change.ok().ok_or(Stop::Memory)
}

/// Whether keys ascend strictly by their bytes.
fn are_ascending(rows: &[Row]) -> bool
    ensures { result ≡ are_ascending rows.now }
{
    let [first, rest @ ..] = rows else {
        return true;
    };
    let [second, ..] = rest else {
        return true;
    };
    match first.key.as_slice().cmp(second.key.as_slice()) {
        Ordering::Less => are_ascending(rest),
        _ => false,
    }
}

/// The last rows of a resource manager.
#[derive(Drop)]
pub struct FinalRows(pub Sequence<Row>);

impl Words for FinalRows {
    ghost fit = { λ rows. AreFinalRows rows.0 };

    ghost texts = { λ rows. rows_words rows.0 };

    ghost allocate = { true };

    ghost spellings = { final_rows };

    #[inline(never)]
    fn read(alloc: Global, args: &[u8]) -> Result<FinalRows, Stop> {
        let rows: Sequence<Row> = Words::read(alloc, args)?;
        if !are_ascending(rows.as_slice()) {
            return Err(Stop::Wrong);
        }
        Ok(FinalRows(rows))
    }
}

/// What happened, and its answer behind an arrow.
#[inline(never)]
fn said_outcome(alloc: Global, line: &[u8]) -> Result<TraceLine, Stop>
    requires { is_tidy line.now ≡ true }
    ensures { Finds true IsOutcome trace_line_words (words line.now) result }
{
    let Some((front, back)) = split_arrow(line) else {
        return Err(Stop::Wrong);
    };
    let answer = read_answer(alloc, back)?;
    let Some((name, args)) = next_word(front) else {
        return Err(Stop::Wrong);
    };
    if is_word(name, b"serve") {
        let Some(node) = last_node(args) else {
            return Err(Stop::Wrong);
        };
        return Ok(TraceLine::Served(node, answer));
    }
    let event = event_by(alloc, name, args)?;
    Ok(TraceLine::Happened(event, answer))
}

/// What a line of words with one space between them says, by its first word and those after it; it is no datagram.
#[inline(never)]
fn said_words(
    alloc: Global,
    known: &mut Option<KnownTx>,
    line: &[u8],
    word: &[u8],
    args: &[u8],
) -> Result<TraceLine, Stop>
    requires tidy { is_tidy line.now ≡ true }
    requires words { words line.now ≡ word.now ∷ words args.now }
    requires other { word.now ≢ codes "sent" }
    ensures { Finds true IsTraceLine trace_line_words (word.now ∷ words args.now) result }
{
    if is_word(word, b"now") {
        let change = read_change(alloc, known, args)?;
        return Ok(TraceLine::Changed(change));
    }
    if is_word(word, b"final") {
        let (Manager(rm), FinalRows(rows)) = Words::read(alloc, args)?;
        return Ok(TraceLine::Final(rm, rows));
    }
    if is_word(word, b"told") {
        let (number, (Manager(manager), (receiver, (floor, ())))) = Words::read(alloc, args)?;
        let told = Told {
            number,
            manager,
            receiver,
            floor,
        };
        return Ok(TraceLine::Notice(told));
    }
    if is_word(word, b"table") {
        let table = Words::read(alloc, args)?;
        return Ok(TraceLine::Contents(table));
    }
    if is_word(word, b"cluster") {
        let sizes = Words::read(alloc, args)?;
        return Ok(TraceLine::Cluster(sizes));
    }
    said_outcome(alloc, line)
}

/// What is heard of a line.
#[derive(Drop)]
pub enum Heard {
    /// It says this.
    Line(TraceLine),
    /// It tells of a datagram.
    Datagram(ToldSent),
}

/// What is heard of a line, if a line of a trace may be so.
pub(crate) fn hear_line(
    alloc: Global,
    known: &mut Option<KnownTx>,
    line: &[u8],
) -> Result<Heard, Stop>
    ensures { HearsText known.new line.now result }
{
    if !is_tidy(line) {
        return Err(Stop::Wrong);
    }
    let Some((word, args)) = next_word(line) else {
        return Err(Stop::Wrong);
    };
    if is_word(word, b"sent") {
        let told = read_told(alloc, known, args)?;
        return Ok(Heard::Datagram(told));
    }
    let said = said_words(alloc, known, line, word, args)?;
    Ok(Heard::Line(said))
}
