//! What an event makes of nodes at their ports.

ghost use Rattle.std.specs.Prelude.{◌≡◌, length, is_some};
ghost use Rattle.protocol.specs.declared.answers.Answer.TheVariants.{Refused};
ghost use Rattle.wire.specs.Decoding.{spells_message};
ghost use Rattle.wire.specs.Notices.{notice_at};
ghost use Rattle.node_core.specs.Opening.{restart_answer};
ghost use Rattle.protocol.specs.declared.nodes.NodeId.TheVariants.{R as Manager};
ghost use Rattle.node_core.specs.Places.{node_count};
ghost use Rattle.udp_run.specs.Sites.{AsksAt, HandlesIn, IsRestarted, IsShortened, IsSite, RaisesAt, ReachesAt, SendsNoise};
ghost use Rattle.udp_run.specs.Sites.{answer_served, is_forged as is_sent_by_nodes, place_in, site_of};

use node_core::{Input, Sizes, place_of};
use port::{Member, Port, Served, call};
use protocol::{Answer, NodeId, Request};
use stable_record::Record;
use wire::{Notice, decode};
use xid::{Floor, Refusal};

/// An answer, and no view changed.
fn answers(reply: Answer) -> Served
    ensures { result ≡ answer_served reply }
{
    Served { reply, now: None }
}

/// A refusal.
fn refuses(refusal: Refusal) -> Served
    ensures { result ≡ answer_served (Refused refusal) }
{
    answers(Answer::Refused(refusal))
}

/// What is answered by a result: ok, or its refusal.
fn answered(done: Result<(), Refusal>) -> Served
    ensures { result ≡ answer_served (restart_answer done) }
{
    match done {
        Ok(()) => answers(Answer::Done),
        Err(refusal) => refuses(refusal),
    }
}

/// A node is asked something at its port.
pub(crate) fn ask<R: Record, P: Port>(
    sizes: Sizes,
    nodes: &mut Vec<Member<R>>,
    ports: &mut Vec<P>,
    who: NodeId,
    request: &Request,
) -> Served
    requires { IsSite sizes nodes.old.items ports.old.items }
    ensures asks { (noise : P) → ReachesAt (AsksAt P.sent request.now) (place_in sizes who)
        (site_of sizes nodes.old.items ports.old.items noise) (site_of sizes nodes.new.items ports.new.items noise) result }
    ensures site { IsSite sizes nodes.new.items ports.new.items }
{
    let Some(at) = place_of(sizes, who) else {
        return refuses(Refusal::NoSuch);
    };
    let node = &mut nodes[at];
    let port = &mut ports[at];
    call(node, port, Input::Asked(request))
}

/// A resource manager is asked to raise its floor, which it tells then at its port.
pub(crate) fn raise<R: Record, P: Port>(
    sizes: Sizes,
    nodes: &mut Vec<Member<R>>,
    ports: &mut Vec<P>,
    rm: u8,
    floor: &Floor,
) -> Served
    requires { IsSite sizes nodes.old.items ports.old.items }
    ensures raises { (noise : P) → ReachesAt (RaisesAt P.sent floor.now) (place_in sizes (Manager rm))
        (site_of sizes nodes.old.items ports.old.items noise) (site_of sizes nodes.new.items ports.new.items noise) result }
    ensures site { IsSite sizes nodes.new.items ports.new.items }
{
    let Some(at) = place_of(sizes, NodeId::R(rm)) else {
        return refuses(Refusal::NoSuch);
    };
    let node = &mut nodes[at];
    let port = &mut ports[at];
    answered(port::raise(node, port, floor))
}

/// A node reads its record again.
pub(crate) fn restart<R: Record>(sizes: Sizes, nodes: &mut Vec<Member<R>>, who: NodeId) -> Served
    requires { length nodes.old.items ≡ node_count sizes }
    ensures restarts { HandlesIn IsRestarted (place_in sizes who) nodes.old.items nodes.new.items result }
    ensures count { length nodes.new.items ≡ length nodes.old.items }
{
    let Some(at) = place_of(sizes, who) else {
        return refuses(Refusal::NoSuch);
    };
    let node = &mut nodes[at];
    answered(node.restart())
}

/// A node's record is made shorter.
pub(crate) fn compact<R: Record>(sizes: Sizes, nodes: &mut Vec<Member<R>>, who: NodeId) -> Served
    requires { length nodes.old.items ≡ node_count sizes }
    ensures compacts { HandlesIn IsShortened (place_in sizes who) nodes.old.items nodes.new.items result }
    ensures count { length nodes.new.items ≡ length nodes.old.items }
{
    let Some(at) = place_of(sizes, who) else {
        return refuses(Refusal::NoSuch);
    };
    let node = &mut nodes[at];
    answered(node.compact())
}

/// Whether bytes spell a message.
fn is_message(bytes: &[u8]) -> bool
    ensures { result ≡ spells_message bytes.now }
{
    match decode(bytes) {
        Ok(_) => true,
        Err(_) => false,
    }
}

/// Whether bytes spell a notice.
fn is_notice(bytes: &[u8]) -> bool
    ensures { result ≡ is_some (notice_at bytes.now) }
{
    Notice::take(bytes).is_some()
}

/// Whether bytes spell what nodes send: a message or a notice.
fn is_forged(bytes: &[u8]) -> bool
    ensures { result ≡ is_sent_by_nodes bytes.now }
{
    if is_message(bytes) {
        return true;
    }
    is_notice(bytes)
}

/// Bytes that spell neither a message nor a notice are sent to a node by a port for noise.
pub(crate) fn noise<P: Port>(sizes: Sizes, port: &mut P, who: NodeId, bytes: &[u8]) -> Served
    ensures { SendsNoise P.sent (place_in sizes who) who bytes.now port.old port.new result }
{
    let Some(_at) = place_of(sizes, who) else {
        return refuses(Refusal::NoSuch);
    };
    if is_forged(bytes) {
        return refuses(Refusal::Forged);
    }
    answered(port.send(who, bytes))
}
