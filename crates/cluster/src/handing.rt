//! The events of a cluster: which node one reaches, what that node is handed, and what is sent or told then.

ghost use Rattle.std.specs.Prelude.{◌≡◌, ◌<◌, ◌≤◌, List, None, length, OnOk, OnErr, []};
ghost use Rattle.std.specs.List.{flat_map};
ghost use Rattle.wire.specs.Decoding.{message_at};
ghost use Rattle.protocol.specs.declared.events.Event.TheVariants.{Ask, Deliver, Lose, Cut, Noise, Restart, Compact, Hear};
ghost use Rattle.protocol.specs.declared.events.Event.TheVariants.{Raise as Raises, Replace as Replaces, Tear as Tears};
ghost use Rattle.protocol.specs.Nodes.{ReceivedNoise};
ghost use Rattle.protocol.specs.Worlds.{datagrams_of};
ghost use Rattle.node_core.specs.declared.config.Sizes.{Sizes as ClusterSizes};
ghost use Rattle.node_core.specs.Opening.{restart_answer};
ghost use Rattle.floors.specs.Worlds.{is_manager as is_named_manager};
ghost use Rattle.node_core.specs.Places.{node_count};
ghost use Rattle.node_core.specs.Configs.{config_by};
ghost use Rattle.floored.specs.Nodes.{FlooredParts};
ghost use Rattle.network.specs.Networks.{NetworkParts};
ghost use Rattle.cluster.specs.Clusters.{NoticesParts, cluster_of, Happens, IsSound, Reaches};
ghost use Rattle.cluster.specs.Notices.{HasToldOwn, RaisesTo, RaisesToLeast, is_in_use, replaced_at, told_count};
ghost use Rattle.cluster.specs.Sending.{HasRoom, HaveSent};

use crate::notices::{Notices, count_told};
use crate::room::{make_room, most_asked, most_heard};
use crate::sending::send_all;
use floored::Floored;
use network::Network;
use node_core::{Input, Output, Sizes, place_of};
use protocol::{Answer, Change, Event, NodeId, Request};
use stable_record::{Record, Tear};
use std::mem;
use wire::decode;
use xid::{Floor, Refusal};

/// What an event is answered, and the view that it changed. The datagrams that it sent, and the notices that it told, are the last ones of
/// its cluster.
#[derive(Debug, Drop)]
pub struct Answered {
    /// What it was answered.
    pub answer: Answer,
    /// The view that it changed, if it changed one.
    pub now: Option<Change>,
}

impl Answered {
    /// Nothing that was answered yet: a place for what is.
    pub fn nothing() -> Answered {
        Answered {
            answer: Answer::Done,
            now: None,
        }
    }

    /// An answer alone, in place of what came of the event before.
    fn answers(&mut self, answer: Answer)
        ensures answer { self.new.answer ≡ answer }
        ensures now { self.new.now ≡ None }
    {
        self.answer = answer;
        copy_change(&None, &mut self.now);
    }

    /// What a node put out, whose answer is taken.
    fn take(&mut self, out: &mut Output)
        ensures answer { self.new.answer ≡ out.old.reply }
        ensures now { self.new.now ≡ out.old.now }
    {
        self.answer = mem::replace(&mut out.reply, Answer::Done);
        copy_change(&out.now, &mut self.now);
    }
}

/// A change of a view, in place of one before. Where there is none, no place of one is written.
fn copy_change(from: &Option<Change>, to: &mut Option<Change>)
    ensures { to.new ≡ from.now }
{
    match from {
        Some(change) => *to = Some(*change),
        None => forget_change(to),
    }
}

/// No change of a view any more.
fn forget_change(now: &mut Option<Change>)
    ensures { now.new ≡ None }
{
    let Some(_) = &*now else {
        return;
    };
    *now = None;
}

/// Sends what a node puts out. There is room for that. Its answer is taken.
fn put_out(
    network: &mut Network,
    sizes: Sizes,
    who: NodeId,
    out: &mut Output,
    answered: &mut Answered,
)
    requires { HasRoom (length (flat_map (datagrams_of (config_by sizes []) who) out.old.sends)) network.old }
    ensures sent { HaveSent network.old network.new (flat_map (datagrams_of (config_by sizes []) who) out.old.sends) }
    ensures answer { answered.new.answer ≡ out.old.reply }
    ensures now { answered.new.now ≡ out.old.now }
{
    send_all(network, sizes, who, &out.sends);
    answered.take(out);
}

/// Asks a node something.
fn ask<R: Record>(
    sizes: Sizes,
    nodes: &mut Vec<Floored<R>>,
    network: &mut Network,
    who: NodeId,
    request: &Request,
    out: &mut Output,
    answered: &mut Answered,
)
    requires { (notices : NoticesParts) × IsSound (cluster_of sizes nodes.old.items network.old notices) }
    ensures { (notices : NoticesParts) → Happens (Ask who request.now) (cluster_of sizes nodes.old.items network.old notices)
        (cluster_of sizes nodes.new.items network.new notices) answered.new }
{
    let Some(at) = place_of(sizes, who) else {
        answered.answers(Answer::Refused(Refusal::NoSuch));
        return;
    };
    match make_room(network, most_asked(sizes, who, request)) {
        Ok(()) => {}
        Err(_) => {
            answered.answers(Answer::Refused(Refusal::NoMemory));
            return;
        }
    }
    let node = &mut nodes[at];
    node.step_into(Input::Asked(request), out);
    put_out(network, sizes, who, out, answered);
}

/// Hands a datagram to its receiver, and marks it.
fn deliver<R: Record>(
    sizes: Sizes,
    nodes: &mut Vec<Floored<R>>,
    network: &mut Network,
    number: u32,
    out: &mut Output,
    answered: &mut Answered,
)
    requires { (notices : NoticesParts) × IsSound (cluster_of sizes nodes.old.items network.old notices) }
    ensures { (notices : NoticesParts) → Happens (Deliver number) (cluster_of sizes nodes.old.items network.old notices)
        (cluster_of sizes nodes.new.items network.new notices) answered.new }
{
    let who = match network.get(number) {
        Some(kept) => kept.receiver,
        None => {
            answered.answers(Answer::Refused(Refusal::NoSuch));
            return;
        }
    };
    match make_room(network, most_heard(sizes, who)) {
        Ok(()) => {}
        Err(_) => {
            answered.answers(Answer::Refused(Refusal::NoMemory));
            return;
        }
    }
    let Some(at) = place_of(sizes, who) else {
        network.mark(number);
        answered.answers(Answer::Refused(Refusal::NoSuch));
        return;
    };
    let Some(kept) = network.get(number) else {
        unreachable!();
    };
    let node = &mut nodes[at];
    node.step_into(Input::Received(kept.bytes), out);
    network.mark(number);
    put_out(network, sizes, who, out, answered);
}

/// Marks a datagram.
fn lose(network: &mut Network, number: u32, answered: &mut Answered)
    ensures { (sizes : ClusterSizes) (nodes : List FlooredParts) (notices : NoticesParts)
        → Happens (Lose number) (cluster_of sizes nodes network.old notices) (cluster_of sizes nodes network.new notices) answered.new }
{
    if !network.mark(number) {
        answered.answers(Answer::Refused(Refusal::NoSuch));
        return;
    }
    answered.answers(Answer::Done);
}

/// Hands bytes that spell no message to a node. Nothing is sent.
fn hand_noise<R: Record>(
    sizes: Sizes,
    nodes: &mut Vec<Floored<R>>,
    who: NodeId,
    bytes: &[u8],
    out: &mut Output,
    answered: &mut Answered,
)
    requires count { length nodes.old.items ≡ node_count sizes }
    requires noise { message_at bytes.now ≡ None }
    ensures { (network : NetworkParts) (notices : NoticesParts) → Reaches who ReceivedNoise
        (cluster_of sizes nodes.old.items network notices) (cluster_of sizes nodes.new.items network notices) answered.new }
{
    let Some(at) = place_of(sizes, who) else {
        answered.answers(Answer::Refused(Refusal::NoSuch));
        return;
    };
    let node = &mut nodes[at];
    node.step_into(Input::Received(bytes), out);
    answered.take(out);
}

/// Hands the first bytes of a datagram to its receiver, fewer than all.
fn cut<R: Record>(
    sizes: Sizes,
    nodes: &mut Vec<Floored<R>>,
    network: &Network,
    number: u32,
    bytes: u32,
    out: &mut Output,
    answered: &mut Answered,
)
    requires sound { (notices : NoticesParts) × IsSound (cluster_of sizes nodes.old.items network.now notices) }
    ensures { (notices : NoticesParts) → Happens (Cut number bytes) (cluster_of sizes nodes.old.items network.now notices)
        (cluster_of sizes nodes.new.items network.now notices) answered.new }
{
    let Some(kept) = network.get(number) else {
        answered.answers(Answer::Refused(Refusal::NoSuch));
        return;
    };
    let len = bytes as usize;
    if len >= kept.bytes.len() {
        answered.answers(Answer::Refused(Refusal::NoSuch));
        return;
    }
    hand_noise(
        sizes,
        nodes,
        kept.receiver,
        &kept.bytes[..len],
        out,
        answered,
    );
}

/// Hands bytes to a node that nobody sent, unless they spell a message.
fn noise<R: Record>(
    sizes: Sizes,
    nodes: &mut Vec<Floored<R>>,
    who: NodeId,
    bytes: &[u8],
    out: &mut Output,
    answered: &mut Answered,
)
    requires count { length nodes.old.items ≡ node_count sizes }
    ensures { (network : NetworkParts) (notices : NoticesParts) → Happens (Noise who bytes.now)
        (cluster_of sizes nodes.old.items network notices) (cluster_of sizes nodes.new.items network notices) answered.new }
{
    match decode(bytes) {
        Err(_) => hand_noise(sizes, nodes, who, bytes, out, answered),
        Ok(_) => match place_of(sizes, who) {
            Some(_) => answered.answers(Answer::Refused(Refusal::Forged)),
            None => answered.answers(Answer::Refused(Refusal::NoSuch)),
        },
    }
}

/// Arms a tear on a node's record.
fn tear<R: Tear>(
    sizes: Sizes,
    nodes: &mut Vec<Floored<R>>,
    who: NodeId,
    bytes: u32,
    answered: &mut Answered,
)
    requires count { length nodes.old.items ≡ node_count sizes }
    ensures { (network : NetworkParts) (notices : NoticesParts) → Happens (Tears who bytes)
        (cluster_of sizes nodes.old.items network notices) (cluster_of sizes nodes.new.items network notices) answered.new }
{
    let Some(at) = place_of(sizes, who) else {
        answered.answers(Answer::Refused(Refusal::NoSuch));
        return;
    };
    let node = &mut nodes[at];
    node.arm(bytes as usize);
    answered.answers(Answer::Done);
}

/// How a restart or a compaction is answered.
fn answer_of(restarted: Result<(), Refusal>) -> Answer
    ensures { result ≡ restart_answer restarted }
{
    match restarted {
        Ok(()) => Answer::Done,
        Err(refusal) => Answer::Refused(refusal),
    }
}

/// Restarts a node, which has forgotten then what it was told of floors.
fn restart<R: Record>(
    sizes: Sizes,
    nodes: &mut Vec<Floored<R>>,
    notices: &mut Notices,
    who: NodeId,
    answered: &mut Answered,
)
    requires count { length nodes.old.items ≡ node_count sizes }
    requires told { length notices.old.told ≡ node_count sizes }
    ensures { (network : NetworkParts) → Happens (Restart who) (cluster_of sizes nodes.old.items network notices.old)
        (cluster_of sizes nodes.new.items network notices.new) answered.new }
{
    let Some(at) = place_of(sizes, who) else {
        answered.answers(Answer::Refused(Refusal::NoSuch));
        return;
    };
    notices.forget(at);
    let node = &mut nodes[at];
    let restarted = node.restart();
    answered.answers(answer_of(restarted));
}

/// Compacts a node.
fn compact<R: Record>(
    sizes: Sizes,
    nodes: &mut Vec<Floored<R>>,
    who: NodeId,
    answered: &mut Answered,
)
    requires count { length nodes.old.items ≡ node_count sizes }
    ensures { (network : NetworkParts) (notices : NoticesParts) → Happens (Compact who)
        (cluster_of sizes nodes.old.items network notices) (cluster_of sizes nodes.new.items network notices) answered.new }
{
    let Some(at) = place_of(sizes, who) else {
        answered.answers(Answer::Refused(Refusal::NoSuch));
        return;
    };
    let node = &mut nodes[at];
    let compacted = node.compact();
    answered.answers(answer_of(compacted));
}

/// Raises a resource manager's floor. Where that is done, its floor is told, also where it was no lower before; there is room for that.
fn raise_told<R: Record>(
    sizes: Sizes,
    node: &mut Floored<R>,
    notices: &mut Notices,
    rm: u8,
    floor: &Floor,
) -> Result<(), Refusal>
    requires { told_count sizes ≤ notices.old.spare }
    ensures raises { RaisesTo floor.now node.old node.new result }
    ensures told { OnOk result (HasToldOwn sizes rm node.new notices.old notices.new) }
    ensures err { OnErr result (notices.new ≡ notices.old) }
{
    match node.raise(floor) {
        Ok(()) => {
            notices.tell(sizes, rm, &node.floor());
            Ok(())
        }
        Err(refusal) => Err(refusal),
    }
}

/// Asks a resource manager to raise its floor. No node is reached where there is no room for the notices.
fn raise<R: Record>(
    sizes: Sizes,
    nodes: &mut Vec<Floored<R>>,
    notices: &mut Notices,
    rm: u8,
    floor: &Floor,
    answered: &mut Answered,
)
    requires count { length nodes.old.items ≡ node_count sizes }
    ensures { (network : NetworkParts) → Happens (Raises rm floor.now) (cluster_of sizes nodes.old.items network notices.old)
        (cluster_of sizes nodes.new.items network notices.new) answered.new }
{
    let Some(at) = place_of(sizes, NodeId::R(rm)) else {
        answered.answers(Answer::Refused(Refusal::NoSuch));
        return;
    };
    match notices.reserve(count_told(sizes)) {
        Ok(()) => {}
        Err(_) => {
            answered.answers(Answer::Refused(Refusal::NoMemory));
            return;
        }
    }
    let node = &mut nodes[at];
    let raised = raise_told(sizes, node, notices, rm, floor);
    answered.answers(answer_of(raised));
}

/// Whether a node is a resource manager.
fn is_manager(who: NodeId) -> bool
    ensures { result ≡ is_named_manager who }
{
    match who {
        NodeId::A(_) => false,
        NodeId::L(_) => false,
        NodeId::R(_) => true,
    }
}

/// Raises a node's floor to the least that it was told, if there is one.
fn raise_least<R: Record>(node: &mut Floored<R>, least: &Option<Floor>) -> Result<(), Refusal>
    ensures { RaisesToLeast least.now node.old node.new result }
{
    match least {
        Some(floor) => node.raise(floor),
        None => Ok(()),
    }
}

/// Hands a notice to its receiver, which keeps it; its own floor is then the least that it was told, where that is higher.
fn hear<R: Record>(
    sizes: Sizes,
    nodes: &mut Vec<Floored<R>>,
    notices: &mut Notices,
    number: u32,
    answered: &mut Answered,
)
    requires count { length nodes.old.items ≡ node_count sizes }
    requires told { length notices.old.told ≡ node_count sizes }
    ensures { (network : NetworkParts) → Happens (Hear number) (cluster_of sizes nodes.old.items network notices.old)
        (cluster_of sizes nodes.new.items network notices.new) answered.new }
{
    let Some(notice) = notices.at(number) else {
        answered.answers(Answer::Refused(Refusal::NoSuch));
        return;
    };
    if is_manager(notice.receiver) {
        answered.answers(Answer::Done);
        return;
    }
    let Some(at) = place_of(sizes, notice.receiver) else {
        answered.answers(Answer::Refused(Refusal::NoSuch));
        return;
    };
    if nodes[at].is_down() {
        answered.answers(Answer::Refused(Refusal::Down));
        return;
    }
    let least = notices.hear(at, &notice);
    let node = &mut nodes[at];
    let raised = raise_least(node, &least);
    answered.answers(answer_of(raised));
}

/// Whether none stands in for a node since that has stored something, or has a higher floor.
fn is_in_use(replaced: &Result<(), Refusal>) -> bool
    ensures { result ≡ is_in_use replaced.now }
{
    match replaced {
        Ok(()) => false,
        Err(refusal) => matches!(refusal, Refusal::InUse),
    }
}

/// Once a blank node was to stand in for the one of a place, what that was told is forgotten, but where it is in use.
fn forget_replaced(notices: &mut Notices, at: usize, replaced: &Result<(), Refusal>)
    requires { at < length notices.old.told }
    ensures { notices.new ≡ replaced_at at replaced.now notices.old }
{
    if !is_in_use(replaced) {
        notices.forget(at);
    }
}

/// Puts a blank node with a floor in the place of a lost one, an acceptor or a leader, unless that is in use.
fn replace<R: Record>(
    sizes: Sizes,
    nodes: &mut Vec<Floored<R>>,
    notices: &mut Notices,
    who: NodeId,
    floor: &Floor,
    answered: &mut Answered,
)
    requires count { length nodes.old.items ≡ node_count sizes }
    requires told { length notices.old.told ≡ node_count sizes }
    ensures { (network : NetworkParts) → Happens (Replaces who floor.now) (cluster_of sizes nodes.old.items network notices.old)
        (cluster_of sizes nodes.new.items network notices.new) answered.new }
{
    if is_manager(who) {
        answered.answers(Answer::Refused(Refusal::NoSuch));
        return;
    }
    let Some(at) = place_of(sizes, who) else {
        answered.answers(Answer::Refused(Refusal::NoSuch));
        return;
    };
    let node = &mut nodes[at];
    let replaced = node.stand_in(floor);
    forget_replaced(notices, at, &replaced);
    answered.answers(answer_of(replaced));
}

/// What comes of an event.
pub(crate) fn happen<R: Tear>(
    sizes: Sizes,
    nodes: &mut Vec<Floored<R>>,
    network: &mut Network,
    notices: &mut Notices,
    event: &Event,
    out: &mut Output,
    answered: &mut Answered,
)
    requires { IsSound (cluster_of sizes nodes.old.items network.old notices.old) }
    ensures occurs { Happens event.now (cluster_of sizes nodes.old.items network.old notices.old)
        (cluster_of sizes nodes.new.items network.new notices.new) answered.new }
    ensures sound { IsSound (cluster_of sizes nodes.new.items network.new notices.new) }
{
    match event {
        Event::Ask { node, request } => ask(sizes, nodes, network, *node, request, out, answered),
        Event::Deliver { number } => deliver(sizes, nodes, network, *number, out, answered),
        Event::Lose { number } => lose(network, *number, answered),
        Event::Cut { number, bytes } => cut(sizes, nodes, network, *number, *bytes, out, answered),
        Event::Noise { node, bytes } => noise(sizes, nodes, *node, bytes.as_slice(), out, answered),
        Event::Tear { node, bytes } => tear(sizes, nodes, *node, *bytes, answered),
        Event::Restart { node } => restart(sizes, nodes, notices, *node, answered),
        Event::Compact { node } => compact(sizes, nodes, *node, answered),
        Event::Raise { rm, floor } => raise(sizes, nodes, notices, *rm, floor, answered),
        Event::Hear { number } => hear(sizes, nodes, notices, *number, answered),
        Event::Replace { node, floor } => replace(sizes, nodes, notices, *node, floor, answered),
    }
}
