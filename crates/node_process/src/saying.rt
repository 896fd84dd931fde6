//! What a wish is answered that is no input of the node.

ghost use Rattle.std.specs.Prelude.{◌≡◌, ◌++◌, IfOk, OnOk};
ghost use Rattle.protocol.specs.declared.answers.Answer.TheVariants.{Refused as RefusedAnswer};
ghost use Rattle.serving.specs.Groups.{reply_line};
ghost use Rattle.node_process.specs.Asking.{Asks};
ghost use Rattle.node_process.specs.Saying.{SaysAll, SaysFor, SaysOne, SaysRaised, SaysTable, listed, table_line};

use crate::desk::Desk;
use crate::gauges::Gauges;
use crate::rising::{let_by_branches, raise};
use crate::standing::standing;
use letter_port::LetterPort;
use port::{Member, Port};
use protocol::{Answer, NodeId, Row, Standing};
use serving::{Counts, Item, UNTIMELY, Wish, Work, put_info, put_open, put_reply, put_table};
use stable_record::Record;
use std::alloc::Global;
use std::time::Instant;
use xid::{Floor, Refusal, Tx};

/// The counts as they are now.
fn counts_now<R: Record, P: Port, G: Gauges<P>>(
    node: &Member<R>,
    port: &LetterPort<P>,
    desk: &Desk,
    gauges: &G,
) -> Counts {
    let port_counts = gauges.port_counts(port.port());
    Counts {
        memory: gauges.memory(),
        kept: node.transaction_count() as u64,
        taken: port_counts.taken,
        sent: port_counts.sent,
        dropped: port_counts.dropped,
        port_faults: port.faults(),
        clients: desk.clients.seats.len() as u64,
        ..desk.counts
    }
}

/// The transactions that a resource manager has prepared and not ended, each with its age.
fn open_at_manager<R: Record>(
    node: &Member<R>,
    desk: &Desk,
    now: Instant,
) -> Result<Vec<(Tx, u64)>, Refusal> {
    let mut open = Vec::new(desk.alloc);
    for tx in node.open_transactions()?.as_slice() {
        open.push((*tx, desk.notes.watches.age(tx, now)))?;
    }
    Ok(open)
}

/// The transaction at a place of those that are asked after comes among these with its age, if it isn't final.
fn push_open<R: Record>(
    node: &mut Member<R>,
    desk: &Desk,
    place: usize,
    open: &mut Vec<(Tx, u64)>,
    now: Instant,
) -> Result<(), Refusal>
    ensures { Asks desk.now.terms.who node.old node.new }
{
    let Some(tx) = desk.notes.watches.get(place) else {
        return Ok(());
    };
    match standing(desk.alloc, desk.terms.who, node, &tx) {
        Ok(Standing::Undecided) => Ok(open.push((tx, desk.notes.watches.age(&tx, now)))?),
        Ok(_) | Err(Refusal::Forgotten) => Ok(()),
        Err(refusal) => Err(refusal),
    }
}

/// The transactions that are asked after and aren't final, each with its age.
fn open_at_leader<R: Record>(
    node: &mut Member<R>,
    desk: &Desk,
    now: Instant,
) -> Result<Vec<(Tx, u64)>, Refusal>
    ensures { Asks desk.now.terms.who node.old node.new }
{
    let mut open = Vec::new(desk.alloc);
    for place in 0..desk.notes.watches.len() {
        push_open(node, desk, place, &mut open, now)?;
    }
    Ok(open)
}

/// The transactions that aren't final here, each with its age.
fn open_here<R: Record>(
    node: &mut Member<R>,
    desk: &Desk,
    now: Instant,
) -> Result<Vec<(Tx, u64)>, Refusal>
    ensures { Asks desk.now.terms.who node.old node.new }
{
    match desk.terms.who {
        NodeId::R(_) => open_at_manager(node, desk, now),
        _ => open_at_leader(node, desk, now),
    }
}

/// To where the floor may rise of a resource manager that speaks for a database: that is said to who knows what the database has prepared.
/// It isn't above the place below which no branch is begun any more, nor above the branches that are there.
fn say_rise<R: Record>(node: &Member<R>, desk: &Desk) -> Result<Option<Floor>, Refusal> {
    match desk.promised {
        Some(promised) => Ok(Some(let_by_branches(node, desk, promised)?)),
        None => Ok(None),
    }
}

/// The line of an answer.
fn line_of(alloc: Global, answer: &Answer) -> Result<Vec<u8>, Refusal>
    ensures { IfOk result (λ text. text.items ≡ reply_line answer.now) }
{
    let mut text = Vec::new(alloc);
    put_reply(alloc, &mut text, answer)?;
    Ok(text)
}

/// The line of a refusal; but where memory ran out, that is refused.
fn refused_line(alloc: Global, refusal: Refusal) -> Result<Vec<u8>, Refusal>
    ensures { IfOk result (λ text. text.items ≡ reply_line (RefusedAnswer refusal)) }
{
    if let Refusal::NoMemory = refusal {
        return Err(Refusal::NoMemory);
    }
    line_of(alloc, &Answer::Refused(refusal))
}

/// The line of a table's rows.
fn rows_line(alloc: Global, rows: &[Row]) -> Result<Vec<u8>, Refusal>
    ensures { IfOk result (λ text. text.items ≡ table_line (Ok rows.now)) }
{
    let mut text = Vec::new(alloc);
    put_table(alloc, &mut text, rows)?;
    Ok(text)
}

/// The line of the node's table, or of why there is none.
fn say_table<R: Record>(alloc: Global, node: &mut Member<R>) -> Result<Vec<u8>, Refusal>
    ensures { IfOk result (λ text. SaysTable node.old node.new text.items) }
{
    match node.table() {
        Ok(rows) => rows_line(alloc, rows.as_slice()),
        Err(refusal) => refused_line(alloc, refusal),
    }
}

/// A node's floor is to rise to a place: the line of what came of that.
fn say_raised<R: Record, P: Port>(
    alloc: Global,
    node: &mut Member<R>,
    port: &mut LetterPort<P>,
    floor: &Floor,
) -> Result<Vec<u8>, Refusal>
    ensures { IfOk result (λ text. SaysRaised P.sent floor.now node.old node.new port.old port.new text.items) }
{
    let answer = raise(node, port, floor)?;
    line_of(alloc, &answer)
}

/// A client has a node's floor rise: the line of what came of that. Where names stand in time, it doesn't rise above the clock's.
fn say_rising<R: Record, P: Port>(
    node: &mut Member<R>,
    port: &mut LetterPort<P>,
    desk: &Desk,
    floor: &Floor,
) -> Result<Vec<u8>, Refusal>
    ensures { IfOk result (λ text. SaysOne P.sent desk.now.terms (Wish.Raise floor.now) node.old node.new port.old port.new text.items) }
{
    if desk.terms.is_ahead(floor) {
        return Ok(Vec::from_slice(desk.alloc, UNTIMELY)?);
    }
    say_raised(desk.alloc, node, port, floor)
}

/// The line of the transactions that aren't final here, or of why they aren't known.
fn say_open<R: Record>(node: &mut Member<R>, desk: &Desk, now: Instant) -> Result<Vec<u8>, Refusal>
    ensures { Asks desk.now.terms.who node.old node.new }
{
    match open_here(node, desk, now) {
        Ok(open) => {
            let mut text = Vec::new(desk.alloc);
            put_open(desk.alloc, &mut text, &open)?;
            Ok(text)
        }
        Err(refusal) => refused_line(desk.alloc, refusal),
    }
}

/// The line that says how the node is.
fn say_info<R: Record, P: Port, G: Gauges<P>>(
    node: &Member<R>,
    port: &LetterPort<P>,
    desk: &Desk,
    gauges: &G,
) -> Result<Vec<u8>, Refusal> {
    let mut text = Vec::new(desk.alloc);
    let counts = counts_now(node, port, desk, gauges);
    let rise = say_rise(node, desk)?;
    put_info(
        desk.alloc,
        &mut text,
        desk.terms.who,
        &counts,
        &node.floor(),
        &rise,
    )?;
    Ok(text)
}

/// What a wish is answered that is no input of the node. An await is answered later.
fn say<R: Record, P: Port, G: Gauges<P>>(
    node: &mut Member<R>,
    port: &mut LetterPort<P>,
    desk: &Desk,
    gauges: &G,
    wish: &Wish,
    now: Instant,
) -> Result<Vec<u8>, Refusal>
    ensures { IfOk result (λ text. SaysOne P.sent desk.now.terms wish.now node.old node.new port.old port.new text.items) }
{
    match wish {
        Wish::Table => say_table(desk.alloc, node),
        Wish::Open => say_open(node, desk, now),
        Wish::Info => say_info(node, port, desk, gauges),
        Wish::Raise(floor) => say_rising(node, port, desk, floor),
        Wish::Await(_) => Ok(Vec::new(desk.alloc)),
        Wish::Elsewhere => refused_line(desk.alloc, Refusal::NoSuch),
        Wish::Ask(_) | Wish::Unknown => { refused_line(desk.alloc, Refusal::BadScript { line: 1 }) }
    }
}

/// What is said for an item, if it is a wish.
fn say_for<R: Record, P: Port, G: Gauges<P>>(
    node: &mut Member<R>,
    port: &mut LetterPort<P>,
    desk: &Desk,
    gauges: &G,
    item: &Item,
    now: Instant,
) -> Result<Option<Vec<u8>>, Refusal>
    ensures { IfOk result (SaysFor P.sent desk.now.terms item.now.work node.old node.new port.old port.new) }
{
    match &item.work {
        Work::Say(wish) => Ok(Some(say(node, port, desk, gauges, wish, now)?)),
        Work::Take(_) | Work::Ask(_) | Work::Untimely | Work::Late => Ok(None),
    }
}

/// A text comes behind others, if there is one.
fn push_text(said: &mut Vec<Vec<u8>>, text: Option<Vec<u8>>) -> Result<(), Refusal>
    ensures { OnOk result (said.new.items ≡ said.old.items ++ listed text) }
{
    if let Some(text) = text {
        said.push(text)?;
    }
    Ok(())
}

/// What the wishes of a group are answered, in order.
pub(crate) fn say_all<R: Record, P: Port, G: Gauges<P>>(
    node: &mut Member<R>,
    port: &mut LetterPort<P>,
    desk: &Desk,
    gauges: &G,
    items: &[Item],
    now: Instant,
) -> Result<Vec<Vec<u8>>, Refusal>
    ensures { IfOk result (λ said. SaysAll P.sent desk.now.terms items.now node.old node.new port.old port.new said.items) }
{
    let mut said = Vec::new(desk.alloc);
    for item in items {
        let text = say_for(node, port, desk, gauges, item, now)?;
        push_text(&mut said, text)?;
    }
    Ok(said)
}
