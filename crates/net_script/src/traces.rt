//! Traces as text.

ghost use Rattle.std.specs.Prelude.{◌≡◌, ◌++◌, [], ◌∷◌, codes, decimal, IfErr, IfOk, OnOk, OnErr};
ghost use Rattle.std.specs.List.{flat_map};
ghost use Rattle.xid.specs.Text.{Extends};
ghost use Rattle.net_script.specs.Basics.{NoMemory};
ghost use Rattle.net_script.specs.Items.{bundled_words, sizes_words};
ghost use Rattle.net_script.specs.Answers.{answer_words};
ghost use Rattle.net_script.specs.Events.{event_words};
ghost use Rattle.net_script.specs.Traces.{spaced_words, line_text, change_text, sent_line, notice_line, step_text, final_line, table_line};
ghost use Rattle.net_script.specs.Traces.{entry_text, final_lines, head_text, outcome_text, trace_text};
ghost use Rattle.net_script.specs.Writing.{Puts};

use crate::answers::{put_answer, put_change, put_sent, write_notice};
use crate::events::{event_word, put_event_args};
use crate::pieces::{put_manager, put_node, put_number, put_rows, put_word};
use crate::values::{Entry, Sizes, Table, Trace};
use crate::written::WrittenTx;
use itoa::Buffer;
use protocol::{Answer, Change, Event, Row, Sent, Step, Told};
use std::alloc::Global;
use xid::{Refusal, Sequence};

/// A number under a name.
fn put_field(out: &mut Vec<u8>, name: &[u8], number: u32) -> Result<(), Refusal>
    ensures puts { Puts out.old.items out.new.items result (spaced_words (name.now ∷ decimal number ∷ [])) }
    ensures kept { OnErr result (Extends out.old.items out.new.items) }
{
    put_word(out, name)?;
    put_number(out, number)
}

/// The last word of a bundled cluster.
fn put_bundled(out: &mut Vec<u8>, bundled: bool) -> Result<(), Refusal>
    ensures puts { Puts out.old.items out.new.items result (spaced_words (bundled_words bundled)) }
    ensures kept { OnErr result (Extends out.old.items out.new.items) }
{
    if bundled {
        return put_word(out, b"bundled");
    }
    Ok(())
}

/// The line of the cluster.
fn put_sizes(out: &mut Vec<u8>, sizes: Sizes) -> Result<(), Refusal>
    ensures puts { Puts out.old.items out.new.items result (line_text (codes "cluster" ∷ sizes_words sizes)) }
    ensures kept { OnErr result (Extends out.old.items out.new.items) }
{
    out.extend_from_slice(b"cluster")?;
    put_field(out, b"acceptors", sizes.acceptors)?;
    put_field(out, b"leaders", sizes.leaders)?;
    put_field(out, b"rms", sizes.rms)?;
    put_bundled(out, sizes.bundled)?;
    out.push(b'\n')?;
    Ok(())
}

/// What an event was answered, after its words: the answer behind an arrow, and the view that it changed.
fn put_outcome(
    out: &mut Vec<u8>,
    written: &mut WrittenTx,
    answer: &Answer,
    now: &Option<Change>,
) -> Result<(), Refusal>
    ensures puts { Puts out.old.items out.new.items result
        (spaced_words (codes "->" ∷ answer_words answer.now) ++ 10 ∷ change_text now.now) }
    ensures kept { OnErr result (Extends out.old.items out.new.items) }
{
    put_word(out, b"->")?;
    put_answer(out, answer)?;
    out.push(b'\n')?;
    put_change(out, written, now)
}

/// The datagrams that an event sent.
fn put_all_sent(out: &mut Vec<u8>, written: &mut WrittenTx, sent: &[Sent]) -> Result<(), Refusal>
    ensures puts { Puts out.old.items out.new.items result (flat_map sent_line sent.now) }
    ensures kept { OnErr result (Extends out.old.items out.new.items) }
{
    for datagram in sent {
        put_sent(out, written, datagram)?;
    }
    Ok(())
}

/// The notices that an event told.
fn put_all_told(out: &mut Vec<u8>, told: &[Told]) -> Result<(), Refusal>
    ensures puts { Puts out.old.items out.new.items result (flat_map notice_line told.now) }
    ensures kept { OnErr result (Extends out.old.items out.new.items) }
{
    for notice in told {
        write_notice(out, notice)?;
    }
    Ok(())
}

/// Writes the first lines of an event after what stands in `out`: its answer, and the view that it changed; what it sent and told is to
/// follow them. The text of the transaction that was written last isn't made again. The only refusal is `NoMemory`, and then what stood in
/// `out` still begins it, and what is new there is no whole text.
pub fn write_answered(
    out: &mut Vec<u8>,
    written: &mut WrittenTx,
    event: &Event,
    answer: &Answer,
    now: &Option<Change>,
) -> Result<(), Refusal>
    ensures ok { OnOk result (out.new.items ≡ out.old.items ++ outcome_text (event_words event.now) answer.now now.now []) }
    ensures err { IfErr result (λ e. e ≡ NoMemory) }
    ensures kept { OnErr result (Extends out.old.items out.new.items) }
{
    out.extend_from_slice(event_word(event))?;
    put_event_args(out, event)?;
    put_outcome(out, written, answer, now)
}

/// Writes the lines of an event after what stands in `out`: its answer, the view that it changed, what it sent, and what it told. The only
/// refusal is `NoMemory`, and then what stood in `out` still begins it, and what is new there is no whole text.
pub fn write_step(out: &mut Vec<u8>, written: &mut WrittenTx, step: &Step) -> Result<(), Refusal>
    ensures ok { OnOk result (out.new.items ≡ out.old.items ++ step_text step.entry.now) }
    ensures err { IfErr result (λ e. e ≡ NoMemory) }
    ensures kept { OnErr result (Extends out.old.items out.new.items) }
{
    put_step_outcome(out, written, step)?;
    put_all_told(out, step.told.as_slice())
}

/// The lines of an event but for those of what it told.
fn put_step_outcome(out: &mut Vec<u8>, written: &mut WrittenTx, step: &Step) -> Result<(), Refusal>
    ensures puts { Puts out.old.items out.new.items result
        (outcome_text (event_words step.entry.now.event) step.entry.now.answer step.entry.now.now step.entry.now.sent) }
    ensures kept { OnErr result (Extends out.old.items out.new.items) }
{
    write_answered(out, written, &step.event, &step.answer, &step.now)?;
    put_all_sent(out, written, step.sent.as_slice())
}

/// The lines of what happened and of what came of it.
fn put_entry(out: &mut Vec<u8>, written: &mut WrittenTx, entry: &Entry) -> Result<(), Refusal>
    ensures puts { Puts out.old.items out.new.items result (entry_text entry.now) }
    ensures kept { OnErr result (Extends out.old.items out.new.items) }
{
    match entry {
        Entry::Step(step) => write_step(out, written, step),
        Entry::Serve {
            node,
            answer,
            now,
            sent,
        } => {
            out.extend_from_slice(b"serve")?;
            put_node(out, *node)?;
            put_outcome(out, written, answer, now)?;
            put_all_sent(out, written, sent.as_slice())
        }
    }
}

/// The line of the last rows of a resource manager.
fn put_final(out: &mut Vec<u8>, rm: usize, rows: &[Row]) -> Result<(), Refusal>
    ensures puts { Puts out.old.items out.new.items result (final_line rm rows.now) }
    ensures kept { OnErr result (Extends out.old.items out.new.items) }
{
    let mut digits = Buffer::new();
    out.extend_from_slice(b"final r")?;
    out.extend_from_slice(digits.format(rm).as_bytes())?;
    put_rows(out, rows)?;
    out.push(b'\n')?;
    Ok(())
}

/// Writes the end of a trace after what stands in `out`: the lines of the last rows, from resource manager 0 on. The only refusal is
/// `NoMemory`, and then what stood in `out` still begins it, and what is new there is no whole text.
pub fn write_finals(out: &mut Vec<u8>, finals: &[Sequence<Row>]) -> Result<(), Refusal>
    ensures ok { OnOk result (out.new.items ≡ out.old.items ++ final_lines 0 finals.now) }
    ensures err { IfErr result (λ e. e ≡ NoMemory) }
    ensures kept { OnErr result (Extends out.old.items out.new.items) }
{
    for (rm, rows) in finals.iter().enumerate() {
        put_final(out, rm, rows.as_slice())?;
    }
    Ok(())
}

/// The line of a first table.
fn put_table(out: &mut Vec<u8>, table: &Table) -> Result<(), Refusal>
    ensures puts { Puts out.old.items out.new.items result (table_line table.now) }
    ensures kept { OnErr result (Extends out.old.items out.new.items) }
{
    out.extend_from_slice(b"table")?;
    put_manager(out, u32::from(table.rm))?;
    put_rows(out, table.rows.as_slice())?;
    out.push(b'\n')?;
    Ok(())
}

/// Writes the beginning of a trace after what stands in `out`: the lines of the cluster and of the first tables. The only refusal is
/// `NoMemory`, and then what stood in `out` still begins it, and what is new there is no whole text.
pub fn write_head(out: &mut Vec<u8>, sizes: Sizes, tables: &[Table]) -> Result<(), Refusal>
    ensures ok { OnOk result (out.new.items ≡ out.old.items ++ head_text sizes tables.now) }
    ensures err { IfErr result (λ e. e ≡ NoMemory) }
    ensures kept { OnErr result (Extends out.old.items out.new.items) }
{
    put_sizes(out, sizes)?;
    for table in tables {
        put_table(out, table)?;
    }
    Ok(())
}

/// The one text of a trace. The only refusal is `NoMemory`.
pub fn write_trace(alloc: Global, trace: &Trace) -> Result<Vec<u8>, Refusal>
    ensures ok { IfOk result (λ text. text.items ≡ trace_text trace.now) }
    ensures err { IfErr result (λ e. e ≡ NoMemory) }
{
    let mut out = Vec::new(alloc);
    let mut written = WrittenTx::none(alloc);
    write_head(&mut out, trace.sizes, trace.tables.as_slice())?;
    for entry in trace.entries.as_slice() {
        put_entry(&mut out, &mut written, entry)?;
    }
    write_finals(&mut out, trace.finals.as_slice())?;
    Ok(out)
}
