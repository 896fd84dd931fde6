//! What waits comes into a group: requests that nobody is answered for, what is due, messages, and then the lines of clients.

ghost use Rattle.std.specs.Prelude.{◌≡◌, ◌++◌, ◌∷◌, [], true, false, OnOk, IfOk};
ghost use Rattle.serving.specs.Clients.{AreUntold};
ghost use Rattle.node_process.specs.Asking.{Asks};
ghost use Rattle.node_process.specs.Due.{question_due};
ghost use Rattle.node_process.specs.Gathering.{AreAllTaken, AreGathered, GathersAhead, Receives, TakesDue, TakesMessages};
ghost use Rattle.node_process.specs.Gathering.{GaveNothing, IsEmptied};
ghost use Rattle.node_process.specs.Gathering.{TakesNext, TakesNone, TakesPending, asked_item, taken_item};

use crate::desk::Desk;
use crate::standing::is_open_at;
use letter_port::LetterPort;
use port::{MAX_TAKEN, Member, Port};
use protocol::{NodeId, Request};
use serving::{Due, Item, MOST_ITEMS, Origin, Schedule, Turn, Watches, Work};
use stable_record::Record;
use std::alloc::{AllocError, Global};
use std::collections::VecDeque;
use std::time::Instant;
use wire::OwnedTx;
use xid::{Bytes, Refusal};

/// How many inputs of a group are messages at most, so that clients have their turn. What is left of a letter then comes into the next
/// group.
const MOST_MESSAGES: usize = 192;

/// A request that nobody is answered for comes into a group.
fn push_asked(items: &mut Vec<Item>, request: Request) -> Result<(), AllocError>
    ensures { OnOk result (items.new.items ≡ items.old.items ++ asked_item request ∷ []) }
{
    items.push(Item {
        origin: Origin::Node,
        work: Work::Ask(request),
    })?;
    Ok(())
}

/// The requests that nobody is answered for come into a group, as many as there is room for.
fn take_pending(pending: &mut VecDeque<Request>, items: &mut Vec<Item>) -> Result<(), AllocError>
    ensures takes { OnOk result (TakesPending pending.old.items pending.new.items items.old.items items.new.items) }
    ensures all { OnOk result (AreAllTaken pending.new.items items.new.items) }
{
    for _ in items.len()..MOST_ITEMS {
        let Some(request) = pending.pop_front() else {
            return Ok(());
        };
        push_asked(items, request)?;
    }
    Ok(())
}

/// What is asked after a transaction that is due.
fn question_due(
    alloc: Global,
    who: NodeId,
    schedule: Schedule,
    due: &Due,
) -> Result<Request, Refusal>
    ensures { IfOk result (λ request. request ≡ question_due who due.now.turn due.now.tx) }
{
    let tx = OwnedTx::new(alloc, &due.tx)?;
    match who {
        NodeId::L(_) if schedule.turn(due.turn) == Turn::Again => Ok(Request::Commit { tx }),
        _ => Ok(Request::Timeout { tx }),
    }
}

/// The next transaction that is due is asked after, if it is open at the node. Whether one was due.
fn take_next<R: Record>(
    alloc: Global,
    who: NodeId,
    schedule: Schedule,
    node: &mut Member<R>,
    watches: &mut Watches,
    items: &mut Vec<Item>,
    now: Instant,
) -> Result<bool, Refusal>
    ensures asks { Asks who node.old node.new }
    ensures next { IfOk result (λ was_due. was_due ≡ true
        → TakesNext who now node.old node.new watches.old watches.new items.old.items items.new.items) }
    ensures none { IfOk result (λ was_due. was_due ≡ false
        → TakesNone now node.old node.new watches.old watches.new items.old.items items.new.items) }
{
    let Some(due) = watches.next_due(now) else {
        return Ok(false);
    };
    let is_open = is_open_at(alloc, who, node, &due.tx)?;
    if is_open {
        let request = question_due(alloc, who, schedule, &due)?;
        push_asked(items, request)?;
        watches.again(&due, now)?;
        return Ok(true);
    }
    watches.settle(&due.tx);
    Ok(true)
}

/// What is due is asked after, as much as there is room for.
fn take_due<R: Record>(
    alloc: Global,
    who: NodeId,
    schedule: Schedule,
    node: &mut Member<R>,
    watches: &mut Watches,
    items: &mut Vec<Item>,
    now: Instant,
) -> Result<(), Refusal>
    ensures asks { Asks who node.old node.new }
    ensures due { OnOk result (TakesDue who now node.old node.new watches.old watches.new items.old.items items.new.items) }
{
    for _ in items.len()..MOST_ITEMS {
        if !take_next(alloc, who, schedule, node, watches, items, now)? {
            return Ok(());
        }
    }
    Ok(())
}

/// A message comes into a group.
fn take_message(alloc: Global, bytes: &[u8], items: &mut Vec<Item>) -> Result<(), Refusal>
    ensures { OnOk result (items.new.items ≡ items.old.items ++ taken_item bytes.now ∷ []) }
{
    let bytes = Bytes::copy_of(alloc, bytes)?;
    items.push(Item {
        origin: Origin::Node,
        work: Work::Take(bytes),
    })?;
    Ok(())
}

/// The next message that waits comes into a group, if one does. What the port refuses comes to nothing. Whether it may be asked again.
fn take_from<P: Port>(
    alloc: Global,
    port: &mut LetterPort<P>,
    items: &mut Vec<Item>,
) -> Result<bool, Refusal>
    ensures ok { IfOk result (λ may. (takes : TakesMessages P.received port.old port.new items.old.items items.new.items)
        × (may ≡ false → GaveNothing takes.given)) }
    ensures receives { Receives P.received port.old port.new }
{
    let mut buffer = [0; MAX_TAKEN];
    match port.recv(&mut buffer) {
        Ok(Some(len)) => take_message(alloc, &buffer[..len], items)?,
        Ok(None) => return Ok(false),
        Err(_) => {}
    }
    Ok(true)
}

/// Messages of letters come into a group, as many as there is room for, if some may wait. Whether there may be more.
fn take_messages<P: Port>(
    alloc: Global,
    may_wait: bool,
    port: &mut LetterPort<P>,
    items: &mut Vec<Item>,
) -> Result<bool, Refusal>
    ensures ok { IfOk result (λ may. (takes : TakesMessages P.received port.old port.new items.old.items items.new.items)
        × IsEmptied may_wait may takes.given) }
    ensures receives { Receives P.received port.old port.new }
{
    if !may_wait {
        return Ok(false);
    }
    for _ in 0..MOST_MESSAGES {
        if items.len() >= MOST_ITEMS {
            return Ok(true);
        }
        if !take_from(alloc, port, items)? {
            return Ok(false);
        }
    }
    Ok(true)
}

/// What waits and is nobody's comes into a group: requests that nobody is answered for, what is due, and messages.
fn gather_ahead<R: Record, P: Port>(
    node: &mut Member<R>,
    port: &mut LetterPort<P>,
    desk: &mut Desk,
    now: Instant,
) -> Result<Vec<Item>, Refusal>
    ensures asks { Asks desk.old.terms.who node.old node.new }
    ensures ahead { IfOk result (λ items. GathersAhead P.received now desk.old desk.new node.old node.new port.old port.new items.items) }
    ensures same { OnOk result (desk.new ≡ record desk.old {
      notes = record desk.old.notes { watches = desk.new.notes.watches };
      pending = desk.new.pending;
      has_datagrams = desk.new.has_datagrams;
    }) }
    ensures receives { Receives P.received port.old port.new }
    ensures clients { desk.new.clients ≡ desk.old.clients }
{
    let (alloc, who, schedule) = (desk.alloc, desk.terms.who, desk.schedule);
    let mut items = Vec::new(alloc);
    take_pending(&mut desk.pending, &mut items)?;
    take_due(
        alloc,
        who,
        schedule,
        node,
        &mut desk.notes.watches,
        &mut items,
        now,
    )?;
    desk.has_datagrams = take_messages(alloc, desk.has_datagrams, port, &mut items)?;
    Ok(items)
}

/// What waits comes into a group: what is nobody's, and behind it the lines of clients. Nobody is told anything. Refused: memory ran out,
/// and what waited may be lost.
pub(crate) fn gather<R: Record, P: Port>(
    node: &mut Member<R>,
    port: &mut LetterPort<P>,
    desk: &mut Desk,
    now: Instant,
) -> Result<Vec<Item>, Refusal>
    ensures asks { Asks desk.old.terms.who node.old node.new }
    ensures gathered { IfOk result (λ items. AreGathered P.received now desk.old desk.new node.old node.new port.old port.new items.items) }
    ensures terms { OnOk result (desk.new.terms ≡ desk.old.terms) }
    ensures count { desk.new.clients.count ≡ desk.old.clients.count }
    ensures branches { OnOk result (desk.new.notes.branches ≡ desk.old.notes.branches) }
    ensures receives { Receives P.received port.old port.new }
    ensures untold { AreUntold desk.old.clients.seats desk.new.clients.seats }
{
    let mut items = gather_ahead(node, port, desk, now)?;
    desk.clients
        .take_lines(&desk.terms, &mut desk.promised, &mut items, now)?;
    Ok(items)
}
