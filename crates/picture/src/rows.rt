//! The lines of a trace that tell of events, each with its label and with what it adds to the picture.

ghost use Rattle.std.specs.Prelude.{◌≡◌, fold, IfOk, IfErr, OnOk};
ghost use Rattle.std.specs.List.{list_any};
ghost use Rattle.std.specs.Option.{option_copied};
ghost use Rattle.xid.specs.declared.refusals.Refusal.TheVariants.{NoMemory};
ghost use Rattle.picture.specs.Rows.{are_several, is_error, is_missing, is_of_other, is_taken, line_at, lost, mark_of, rows_of};
ghost use Rattle.picture.specs.Rows.{delivered, notice_number, told_tx, tx_of, what_of};
ghost use Rattle.picture.specs.Rows.{with_change, with_entry, with_notice, with_outcome, with_row, with_sent};

use crate::elements::Mark;
use crate::labels::{change_label, event_word, notice_label, sent_label};
use net_script::Entry;
use protocol::{Answer, Change, Event, NodeId, Sent, Told, View};
use std::alloc::Global;
use xid::{Bytes, Refusal, Tx, XaCode};

/// What a line of a trace adds to its picture.
#[derive(Clone, Copy, Debug)]
pub enum What {
    /// Something happened at a node.
    At {
        /// The node.
        node: NodeId,
        /// What happened.
        mark: Mark,
    },
    /// A datagram or a notice was handed over, or the first bytes of a datagram.
    Delivers {
        /// Its number.
        number: u64,
        /// Whether its receiver took it.
        is_taken: bool,
        /// What came of it.
        mark: Mark,
    },
    /// A datagram was lost.
    Loses {
        /// Its number.
        number: u64,
    },
    /// There is no such datagram, no such part of it, or no such notice.
    Misses,
    /// A resource manager changed its view.
    Changes {
        /// Its number.
        rm: u8,
        /// The view.
        view: View,
    },
    /// A datagram was sent, or a notice was told.
    Sends {
        /// Its number.
        number: u64,
        /// Who sent it.
        sender: NodeId,
        /// Whom it is for.
        receiver: NodeId,
    },
}

/// A line of a trace.
#[derive(Debug, Drop)]
pub struct Row {
    /// Its number, from 1.
    pub line: u32,
    /// What stands beside its mark, or beside the mark where its datagram ends.
    pub label: Bytes,
    /// What it adds.
    pub what: What,
}

/// Whether an event wasn't done.
fn is_error(answer: &Answer) -> bool
    ensures { result ≡ is_error answer.now }
{
    match answer {
        Answer::Refused(_) => true,
        Answer::Code(code) => match code {
            XaCode::Ok | XaCode::RbRollback => false,
            XaCode::Nota | XaCode::Inval | XaCode::Proto | XaCode::RmFail | XaCode::DupId => true,
        },
        Answer::Done | Answer::Value(_) | Answer::NoValue | Answer::Xids(_) | Answer::Stands(_) =>
            false,
    }
}

/// The mark of an event.
fn mark_of(done: Mark, answer: &Answer) -> Mark
    ensures { result ≡ mark_of done answer.now }
{
    if is_error(answer) {
        return Mark::Refusal;
    }
    done
}

/// Whether there was no such datagram, or no such part of it.
fn is_missing(answer: &Answer) -> bool
    ensures { result ≡ is_missing answer.now }
{
    match answer {
        Answer::Refused(refusal) => matches!(refusal, Refusal::NoSuch),
        Answer::Done
        | Answer::Code(_)
        | Answer::Value(_)
        | Answer::NoValue
        | Answer::Xids(_)
        | Answer::Stands(_) => false,
    }
}

/// Whether an answer, or a view that changed, shows that a node took a datagram that it was handed whole. Where its record failed, a view
/// has changed only if the whole fact is there.
fn is_taken(answer: &Answer, now: &Option<Change>) -> bool
    ensures { result ≡ is_taken answer.now now.now }
{
    !is_error(answer) || now.is_some()
}

/// What the delivery of a datagram adds, or that of its first bytes.
fn delivered(number: u64, is_taken: bool, answer: &Answer) -> What
    ensures { result ≡ delivered number is_taken answer.now }
{
    if is_missing(answer) {
        return What::Misses;
    }
    What::Delivers {
        number,
        is_taken,
        mark: mark_of(Mark::Done, answer),
    }
}

/// What the loss of a datagram adds.
fn lost(number: u64, answer: &Answer) -> What
    ensures { result ≡ lost number answer.now }
{
    if is_error(answer) {
        return What::Misses;
    }
    What::Loses { number }
}

/// The number by which a picture has a notice, which is drawn as a datagram is: it is behind those of all datagrams.
fn notice_number(number: u32) -> u64
    ensures { result ≡ notice_number number }
{
    (1 << 32) + u64::from(number)
}

/// What an event adds, by its answer and the view that it changed. The first bytes of a datagram nobody takes.
fn what_of(event: &Event, answer: &Answer, now: &Option<Change>) -> What
    ensures { result ≡ what_of event.now answer.now now.now }
{
    match event {
        Event::Ask { node, .. } | Event::Noise { node, .. } => What::At {
            node: *node,
            mark: mark_of(Mark::Done, answer),
        },
        Event::Deliver { number } => {
            delivered(u64::from(*number), is_taken(answer, now), answer)
        }
        Event::Cut { number, .. } => delivered(u64::from(*number), false, answer),
        Event::Lose { number } => lost(u64::from(*number), answer),
        Event::Tear { node, .. } => What::At {
            node: *node,
            mark: mark_of(Mark::Tear, answer),
        },
        Event::Restart { node } | Event::Replace { node, .. } => What::At {
            node: *node,
            mark: mark_of(Mark::Restart, answer),
        },
        Event::Compact { node } => What::At {
            node: *node,
            mark: mark_of(Mark::Compaction, answer),
        },
        Event::Raise { rm, .. } => What::At {
            node: NodeId::R(*rm),
            mark: mark_of(Mark::Compaction, answer),
        },
        Event::Hear { number } => {
            delivered(notice_number(*number), is_taken(answer, now), answer)
        }
    }
}

/// The number of the line so many lines after the first; beyond 2^32-1 all have that number.
pub(crate) fn line_at(first: u32, place: usize) -> u32
    ensures { result ≡ line_at first place }
{
    let Ok(place) = u32::try_from(place) else {
        return u32::MAX;
    };
    first.saturating_add(place)
}

/// Puts a row after others.
fn push_row(rows: &mut Vec<Row>, first: u32, label: Bytes, what: What) -> Result<(), Refusal>
    ensures ok { OnOk result (rows.new.items ≡ with_row first rows.old.items label what) }
    ensures err { IfErr result (λ e. e ≡ NoMemory) }
{
    let line = line_at(first, rows.len());
    rows.push(Row { line, label, what })?;
    Ok(())
}

/// Puts the row of a changed view, if there is one, after others.
fn push_change(
    alloc: Global,
    rows: &mut Vec<Row>,
    first: u32,
    several: bool,
    now: &Option<Change>,
) -> Result<(), Refusal>
    ensures ok { OnOk result (rows.new.items ≡ with_change first several rows.old.items now.now) }
    ensures err { IfErr result (λ e. e ≡ NoMemory) }
{
    let Some(change) = now else {
        return Ok(());
    };
    let label = change_label(alloc, several, change)?;
    let what = What::Changes {
        rm: change.rm,
        view: change.view,
    };
    push_row(rows, first, label, what)
}

/// Puts the row of a datagram after others.
fn push_sent(
    alloc: Global,
    rows: &mut Vec<Row>,
    first: u32,
    several: bool,
    sent: &Sent,
) -> Result<(), Refusal>
    ensures ok { OnOk result (rows.new.items ≡ with_sent first several rows.old.items sent.now) }
    ensures err { IfErr result (λ e. e ≡ NoMemory) }
{
    let label = sent_label(alloc, several, sent)?;
    let what = What::Sends {
        number: u64::from(sent.number),
        sender: sent.sender,
        receiver: sent.receiver,
    };
    push_row(rows, first, label, what)
}

/// Puts the rows of notices after others.
fn push_told(alloc: Global, rows: &mut Vec<Row>, first: u32, told: &[Told]) -> Result<(), Refusal>
    ensures ok { OnOk result (rows.new.items ≡ fold (with_notice first) rows.old.items told.now) }
    ensures err { IfErr result (λ e. e ≡ NoMemory) }
{
    for notice in told {
        push_notice(alloc, rows, first, notice)?;
    }
    Ok(())
}

/// Puts the row of a notice after others.
fn push_notice(alloc: Global, rows: &mut Vec<Row>, first: u32, told: &Told) -> Result<(), Refusal>
    ensures ok { OnOk result (rows.new.items ≡ with_notice first rows.old.items told.now) }
    ensures err { IfErr result (λ e. e ≡ NoMemory) }
{
    let label = notice_label(alloc, told)?;
    let what = What::Sends {
        number: notice_number(told.number),
        sender: NodeId::R(told.manager),
        receiver: told.receiver,
    };
    push_row(rows, first, label, what)
}

/// Puts the rows of what came of an event after others.
fn push_outcome(
    alloc: Global,
    rows: &mut Vec<Row>,
    first: u32,
    several: bool,
    now: &Option<Change>,
    sent: &[Sent],
) -> Result<(), Refusal>
    ensures ok { OnOk result (rows.new.items ≡ with_outcome first several rows.old.items now.now sent.now) }
    ensures err { IfErr result (λ e. e ≡ NoMemory) }
{
    push_change(alloc, rows, first, several, now)?;
    for datagram in sent {
        push_sent(alloc, rows, first, several, datagram)?;
    }
    Ok(())
}

/// Puts the rows of what happened, and of what came of it, after others.
fn push_entry(
    alloc: Global,
    rows: &mut Vec<Row>,
    first: u32,
    several: bool,
    entry: &Entry,
) -> Result<(), Refusal>
    ensures ok { OnOk result (rows.new.items ≡ with_entry first several rows.old.items entry.now) }
    ensures err { IfErr result (λ e. e ≡ NoMemory) }
{
    match entry {
        Entry::Step(step) => {
            let label = Bytes::copy_of(alloc, event_word(&step.event))?;
            let what = what_of(&step.event, &step.answer, &step.now);
            push_row(rows, first, label, what)?;
            push_outcome(alloc, rows, first, several, &step.now, step.sent.as_slice())?;
            push_told(alloc, rows, first, step.told.as_slice())
        }
        Entry::Serve {
            node,
            answer,
            now,
            sent,
        } => {
            let label = Bytes::copy_of(alloc, b"serve")?;
            let what = What::At {
                node: *node,
                mark: mark_of(Mark::Done, answer),
            };
            push_row(rows, first, label, what)?;
            push_outcome(alloc, rows, first, several, now, sent.as_slice())
        }
    }
}

/// The rows of what happened, of which the first is this line. Transactions are named where there are several. The only refusal is
/// `NoMemory`.
pub(crate) fn rows_of(alloc: Global, first: u32, entries: &[Entry]) -> Result<Vec<Row>, Refusal>
    ensures ok { IfOk result (λ rows. rows.items ≡ rows_of first entries.now) }
    ensures err { IfErr result (λ e. e ≡ NoMemory) }
{
    let several = are_several(entries);
    let mut rows = Vec::new(alloc);
    for entry in entries {
        push_entry(alloc, &mut rows, first, several, entry)?;
    }
    Ok(rows)
}

/// The transaction of which a view or a datagram tells.
fn told_tx<'a>(now: &'a Option<Change>, sent: &'a [Sent]) -> Option<&'a Tx>
    ensures { option_copied result ≡ told_tx now.now sent.now }
{
    if let Some(change) = now {
        return Some(&change.tx);
    }
    let [first, ..] = sent else {
        return None;
    };
    Some(first.message.kind().tx())
}

/// The transaction of which what came of an event tells.
fn tx_of(entry: &Entry) -> Option<&Tx>
    ensures { option_copied result ≡ tx_of entry.now }
{
    match entry {
        Entry::Step(step) => told_tx(&step.now, step.sent.as_slice()),
        Entry::Serve { now, sent, .. } => told_tx(now, sent.as_slice()),
    }
}

/// Whether what came of an event tells of another transaction.
fn is_of_other(tx: &Tx, entry: &Entry) -> bool
    ensures { result ≡ is_of_other tx.now entry.now }
{
    match tx_of(entry) {
        Some(other) => *other != *tx,
        None => false,
    }
}

/// Whether any of these tells of another transaction.
fn tell_of_other(tx: &Tx, entries: &[Entry]) -> bool
    ensures { result ≡ list_any (is_of_other tx.now) entries.now }
{
    entries.iter().any(|entry| is_of_other(tx, entry))
}

/// Whether a trace tells of several transactions.
pub(crate) fn are_several(entries: &[Entry]) -> bool
    ensures { result ≡ are_several entries.now }
{
    for (place, entry) in entries.iter().enumerate() {
        if let Some(tx) = tx_of(entry) {
            let (_, later) = entries.split_at(place + 1);
            return tell_of_other(tx, later);
        }
    }
    false
}
