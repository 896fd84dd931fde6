ghost use Rattle.std.specs.Prelude.{◌≡◌, [], length, map, IfErr, OnOk};
ghost use Rattle.std.specs.List.{flat_map};
ghost use Rattle.xid.specs.declared.refusals.Refusal.TheVariants.{PortFault};
ghost use Rattle.wire.specs.declared.message.Kind.{Kind};
ghost use Rattle.wire.specs.Grammar.{Spells};
ghost use Rattle.stable_record.specs.Held.{IsCounted};
ghost use Rattle.protocol.specs.declared.nodes.NodeId.{NodeId as Sender};
ghost use Rattle.protocol.specs.Effects.{Config};
ghost use Rattle.protocol.specs.Nodes.{NodeState};
ghost use Rattle.protocol.specs.Worlds.{datagrams_of};
ghost use Rattle.node_core.specs.Configs.{config_by};
ghost use Rattle.floors.specs.Worlds.{notices_of};
ghost use Rattle.floored.specs.Nodes.{FlooredStands};
ghost use Rattle.port.specs.Members.{TakesAll, item_of};
ghost use Rattle.port.specs.Calls.{Calls, Raises, SendsAll, SendsTo, Serves, TellsAll, acceptors_below, datagrams_from, leaders_below};

use crate::member::Member;
use crate::port::{MAX_TAKEN, Port};
use node_core::{Input, NodeSends, Output, Receivers, Sizes};
use protocol::{Address, Answer, Change, NodeId};
use stable_record::{Record, RecordError};
use wire::{MAX_DATAGRAM, Notice};
use xid::{Floor, ManagerNumber, Refusal};

/// What came of an input: its sends are out.
#[derive(Debug, Drop)]
pub struct Served {
    /// What it was answered.
    pub reply: Answer,
    /// The view that it changed at a resource manager, if it changed one.
    pub now: Option<Change>,
}

/// Sends a message to each of its receivers, by the bytes that spell it.
fn send<P: Port>(port: &mut P, sizes: Sizes, to: Address, bytes: &[u8])
    requires { (message : Kind) × Spells message bytes.now }
    ensures { (sender : Sender) (message : Kind) → Spells message bytes.now → SendsAll P.sent port.old port.new
        (datagrams_of (config_by sizes []) sender (record { to = to; message = message })) }
{
    let receivers = Receivers::of(sizes, to, bytes);
    for i in 0..receivers.count() {
        // what isn't sent is lost, as a datagram may be
        let _ = port.send(receivers.at(i), bytes);
    }
}

/// Sends bytes to each leader.
fn send_to_leaders<P: Port>(port: &mut P, leaders: u8, bytes: &[u8])
    ensures { SendsTo P.sent port.old port.new bytes.now (leaders_below leaders) }
{
    for number in 0..leaders {
        // what isn't sent is lost, as a datagram may be
        let _ = port.send(NodeId::L(number), bytes);
    }
}

/// Sends bytes to each acceptor.
fn send_to_acceptors<P: Port>(port: &mut P, acceptors: u8, bytes: &[u8])
    ensures { SendsTo P.sent port.old port.new bytes.now (acceptors_below acceptors) }
{
    for number in 0..acceptors {
        // what isn't sent is lost, as a datagram may be
        let _ = port.send(NodeId::A(number), bytes);
    }
}

/// Sends the messages of a node that aren't spelled yet, in their order, as `send_all` does.
fn spell_and_send_all<P: Port>(port: &mut P, sizes: Sizes, sends: &NodeSends)
    ensures { (sender : Sender) → SendsAll P.sent port.old port.new
        (flat_map (datagrams_of (config_by sizes []) sender) sends.now) }
{
    let mut buffer = [0; MAX_DATAGRAM];
    for k in 0..sends.count() {
        let (to, len) = sends.spell(k, &mut buffer);
        send(port, sizes, to, &buffer[..len]);
    }
}

/// Sends all messages that a node puts out, in their order.
fn send_all<P: Port>(port: &mut P, sizes: Sizes, sends: &NodeSends)
    ensures { (sender : Sender) → SendsAll P.sent port.old port.new
        (flat_map (datagrams_of (config_by sizes []) sender) sends.now) }
{
    match sends.spelled() {
        Some((to, bytes)) => send(port, sizes, to, bytes),
        None => spell_and_send_all(port, sizes, sends),
    }
}

/// Hands an input to a node, as `Member::take` takes it, and sends what it puts out, once to each receiver and in order. A send that fails
/// is a loss, which the port counts, and the next is tried.
pub fn call<R: Record, P: Port>(member: &mut Member<R>, port: &mut P, input: Input) -> Served
    ensures { Calls P.sent (item_of member.old.floored.node.who input.entry) member.old member.new port.old port.new result }
{
    let sizes = member.sizes();
    let Output { reply, now, sends } = member.take(input);
    send_all(port, sizes, &sends);
    Served { reply, now }
}

/// Sends what came of each input, in order.
fn send_each<P: Port>(port: &mut P, sizes: Sizes, outs: &[Output])
    ensures { (sender : Sender) → SendsAll P.sent port.old port.new (flat_map (datagrams_from (config_by sizes []) sender) outs.now) }
{
    for out in outs {
        send_all(port, sizes, &out.sends);
    }
}

/// Hands inputs to a node at once, as `Member::take_all` takes them: it stores with one append what it decides on them. Then it sends what
/// came of each, in order and once to each receiver. What came of an input stands in its place of `outs`. A send that fails is a loss,
/// which the port counts, and the next is tried. Refused: as `Member::take_all` is; then nothing is sent, and nobody is to be answered.
pub fn call_all<R: Record, P: Port>(
    member: &mut Member<R>,
    port: &mut P,
    inputs: &[Input],
    outs: &mut [Output],
) -> Result<(), RecordError>
    requires { length outs.old ≡ length inputs.now }
    ensures takes { TakesAll (map (item_of member.old.floored.node.who) inputs.now) member.old member.new outs.old outs.new result }
    ensures sends { OnOk result ((config : Config) (m : NodeState) → FlooredStands config member.old.floored m → SendsAll P.sent port.old
        port.new (flat_map (datagrams_from config member.old.floored.node.who) outs.new)) }
    ensures quiet { IfErr result (λ error. port.new ≡ port.old) }
{
    let sizes = member.sizes();
    match member.take_all(inputs, outs) {
        Ok(()) => {}
        Err(error) => return Err(error),
    }
    send_each(port, sizes, outs);
    Ok(())
}

/// Takes a datagram at a node's port, if one is there, and hands its bytes to the node as `call` does. Refused: the port failed
/// (`PortFault`), and the node is as it was.
pub fn serve_once<R: Record, P: Port>(
    member: &mut Member<R>,
    port: &mut P,
) -> Result<Option<Served>, Refusal>
    ensures serves { Serves P.received P.sent member.old member.new port.old port.new result }
    ensures fault { IfErr result (λ e. (e ≡ PortFault) × IsCounted (P.fault_count port.old) (P.fault_count port.new)) }
{
    let mut buffer = [0; MAX_TAKEN];
    let len = match port.recv(&mut buffer) {
        Ok(Some(len)) => len,
        Ok(None) => return Ok(None),
        Err(refusal) => return Err(refusal),
    };
    Ok(Some(call(member, port, Input::Received(&buffer[..len]))))
}

/// Tells a resource manager's floor, if it has one, once to each acceptor and then to each leader.
fn tell<P: Port>(port: &mut P, sizes: Sizes, manager: ManagerNumber, floor: &Option<Floor>)
    ensures { TellsAll P.sent port.old port.new (notices_of (config_by sizes []) manager floor.now) }
{
    let Some(floor) = floor else {
        return;
    };
    let notice = Notice {
        manager,
        floor: *floor,
    };
    let mut buffer = [0; MAX_DATAGRAM];
    let len = notice.encode(&mut buffer);
    send_to_acceptors(port, sizes.acceptors, &buffer[..len]);
    send_to_leaders(port, sizes.leaders, &buffer[..len]);
}

/// Asks a node to raise its floor to a place, as `Floored::raise` does; where that is done, also where the floor was no lower before, sends
/// its floor, as a notice, once to each acceptor and then to each leader. A send that fails is a loss, which the port counts, and the next
/// is tried. Refused, and nothing is sent: it is no resource manager (`NoSuch`), or as `Floored::raise` is.
pub fn raise<R: Record, P: Port>(
    member: &mut Member<R>,
    port: &mut P,
    floor: &Floor,
) -> Result<(), Refusal>
    ensures { Raises P.sent floor.now member.old.floored.node.who member.old member.new port.old port.new result }
{
    let NodeId::R(rm) = member.id() else {
        return Err(Refusal::NoSuch);
    };
    let sizes = member.sizes();
    match member.raise(floor) {
        Ok(()) => {}
        Err(refusal) => return Err(refusal),
    }
    tell(port, sizes, u16::from(rm), &member.floor());
    Ok(())
}
