//! Clients that wait for the end of a transaction.

ghost use Rattle.std.specs.Prelude.{◌≡◌, ℕ, ◌∷◌, [], List, false, OnOk, MatchOption};
ghost use Rattle.std.specs.Prelude.{◌==◌};
ghost use Rattle.std.specs.Option.{option_map, option_map_or};
ghost use Rattle.slab.specs.Slab.{get};
ghost use Rattle.serving.specs.Clients.{AreUntold};
ghost use Rattle.serving.specs.Happenings.{AwaitsBegin, Changes, is_await};
ghost use Rattle.serving.specs.declared.stage.Stage.TheVariants as stages;
ghost use Rattle.serving.specs.declared.group.Work.TheVariants as works;
ghost use Rattle.serving.specs.declared.words.Wish.TheVariants as wishes;
ghost use Rattle.node_process.specs.Awaiting.{AsksStanding, HearStandings, HearsAt, IsAwaitedUntil, Waiting, once_waiting};

use crate::standing::question_of;
use hashing::WordKey;
use indexmap::IndexMap;
use node_core::Input;
use port::Member;
use protocol::{NodeId, Request};
use serving::{Client, Clients, Item, Origin, Stage, Wish, Work};
use stable_record::Record;
use std::alloc::Global;
use std::time::{Duration, Instant};
use wire::SpelledTx;
use xid::Refusal;

/// How many seconds the end of a transaction is awaited at most.
const MOST_AWAITED: u64 = 60;

/// Until when an end is awaited at most, from now on.
pub(crate) fn awaited_until(now: Instant) -> Instant
    ensures { IsAwaitedUntil now result }
{
    now.checked_add(Duration::from_secs(MOST_AWAITED))
        .unwrap_or(now)
}

/// The transaction whose end a piece of work awaits, if it is an await.
fn awaited_by(work: &Work) -> Option<SpelledTx<'_>>
    ensures { MatchOption result (is_await work.now ≡ false) (λ tx. work.now ≡ works.Say (wishes.Await tx)) }
{
    match work {
        Work::Say(Wish::Await(tx)) => Some(tx.get()),
        _ => None,
    }
}

/// Whether the client at a key has this number.
fn is_there(clients: &Clients, key: usize, number: u64) -> bool
    ensures { result ≡ option_map_or (λ client. client.number == number) (get clients.now.seats key) false }
{
    match clients.seats.get(key) {
        Some(client) => client.number() == number,
        None => false,
    }
}

/// The lines of the client at a key wait until then for the end of a transaction.
fn wait_at(clients: &mut Clients, key: usize, request: Request, until: Instant)
    ensures waits { Changes key (λ client. record client { stage = stages.Awaiting request until false }) clients.old.seats
        clients.new.seats }
    ensures count { clients.new.count ≡ clients.old.count }
{
    if let Some(client) = clients.seats.get_mut(key) {
        client.begin_await(request, until);
    }
}

/// The lines of who is answered wait until then for the end of a transaction.
fn begin_await(clients: &mut Clients, origin: Origin, request: Request, until: Instant)
    ensures waits { (key : ℕ) → get clients.new.seats key ≡ option_map (once_waiting origin request until key) (get clients.old.seats key) }
    ensures count { clients.new.count ≡ clients.old.count }
{
    if let Origin::Client { key, number } = origin {
        if is_there(clients, key, number) {
            wait_at(clients, key, request, until);
        }
    }
}

/// A client whose item of a group awaits an end waits for it from now on, until then at most.
fn begin_one(
    alloc: Global,
    who: NodeId,
    clients: &mut Clients,
    item: &Item,
    until: Instant,
) -> Result<(), Refusal>
    ensures ok { OnOk result (AwaitsBegin who until (item.now ∷ []) clients.old.seats clients.new.seats) }
    ensures untold { AreUntold clients.old.seats clients.new.seats }
    ensures count { clients.new.count ≡ clients.old.count }
{
    let Some(tx) = awaited_by(&item.work) else {
        return Ok(());
    };
    let request = question_of(alloc, who, &tx)?;
    begin_await(clients, item.origin, request, until);
    Ok(())
}

/// The clients of a group's items that await an end wait for it from now on, until then at most. Nobody is told anything. Refused: memory
/// ran out; some may wait then.
pub(crate) fn begin_awaits(
    alloc: Global,
    who: NodeId,
    clients: &mut Clients,
    items: &[Item],
    until: Instant,
) -> Result<(), Refusal>
    ensures ok { OnOk result (AwaitsBegin who until items.now clients.old.seats clients.new.seats) }
    ensures untold { AreUntold clients.old.seats clients.new.seats }
    ensures count { clients.new.count ≡ clients.old.count }
{
    for item in items {
        begin_one(alloc, who, clients, item, until)?;
    }
    Ok(())
}

/// The transaction whose end is awaited.
fn awaited_tx(request: &Request) -> Option<SpelledTx<'_>> {
    match request {
        Request::Status { tx } | Request::View { tx } => Some(tx.get()),
        _ => None,
    }
}

/// Whether what is awaited is to be asked now: for the first time, when its time has come, or when the outcome came to be known.
fn is_to_ask(stage: &Stage, ended: &IndexMap<Vec<u8>, (), WordKey>, now: Instant) -> bool {
    let Stage::Awaiting {
        request,
        until,
        is_asked,
    } = stage
    else {
        return false;
    };
    if !*is_asked || now >= *until {
        return true;
    }
    match awaited_tx(request) {
        Some(tx) => ended.contains_key(tx.as_bytes()),
        None => false,
    }
}

/// A client that waits hears how its transaction stands now.
fn answer_await<R: Record>(
    node: &mut Member<R>,
    client: &mut Client,
    now: Instant,
) -> Result<(), Refusal>
    ensures { OnOk result (AsksStanding now node.old node.new client.old client.new) }
{
    let Stage::Awaiting { request, .. } = client.stage() else {
        return Ok(());
    };
    let answer = node.take(Input::Asked(request)).reply;
    client.hear_standing(&answer, now)
}

/// Whether the client at a key is to hear how its transaction stands, if it waits.
fn is_to_hear(
    clients: &Clients,
    ended: &IndexMap<Vec<u8>, (), WordKey>,
    are_all: bool,
    key: usize,
    now: Instant,
) -> bool {
    match clients.seats.get(key) {
        Some(client) => are_all || is_to_ask(client.stage(), ended, now),
        None => false,
    }
}

/// The client at a key hears how its transaction stands now, if it waits.
fn answer_at<R: Record>(
    node: &mut Member<R>,
    clients: &mut Clients,
    key: usize,
    now: Instant,
) -> Result<(), Refusal>
    ensures hears { OnOk result (HearsAt now node.old node.new clients.old.seats clients.new.seats) }
    ensures count { clients.new.count ≡ clients.old.count }
{
    match clients.seats.get_mut(key) {
        Some(client) => answer_await(node, client, now),
        None => Ok(()),
    }
}

/// The client at a key hears how its transaction stands now, if it waits and that is to be asked.
fn answer_due<R: Record>(
    node: &mut Member<R>,
    clients: &mut Clients,
    ended: &IndexMap<Vec<u8>, (), WordKey>,
    are_all: bool,
    key: usize,
    now: Instant,
) -> Result<(), Refusal>
    ensures hears { OnOk result (HearsAt now node.old node.new clients.old.seats clients.new.seats) }
    ensures count { clients.new.count ≡ clients.old.count }
{
    if is_to_hear(clients, ended, are_all, key, now) {
        return answer_at(node, clients, key, now);
    }
    Ok(())
}

/// The awaits whose time has come are answered, or all that there are, and the lines behind them are looked at again.
pub(crate) fn answer_awaited<R: Record>(
    node: &mut Member<R>,
    clients: &mut Clients,
    ended: &IndexMap<Vec<u8>, (), WordKey>,
    are_all: bool,
    now: Instant,
) -> Result<(), Refusal>
    ensures hear { OnOk result ((heard : List Waiting) × HearStandings now heard node.old node.new clients.old.seats clients.new.seats) }
    ensures count { clients.new.count ≡ clients.old.count }
{
    for key in 0..clients.seats.capacity() {
        answer_due(node, clients, ended, are_all, key, now)?;
    }
    Ok(())
}
