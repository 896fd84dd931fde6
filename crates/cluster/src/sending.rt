//! How what a node puts out is sent: a datagram to each receiver, put into the network by the bytes that spell it.

ghost use Rattle.std.specs.Prelude.{◌≡◌, ◌<◌, ◌≤◌, ◌+◌, ◌++◌, true, nat_lt, List, [], ◌∷◌, length, map};
ghost use Rattle.std.specs.List.{flat_map};
ghost use Rattle.wire.specs.declared.message.Kind.{Kind};
ghost use Rattle.wire.specs.Grammar.{Spells};
ghost use Rattle.protocol.specs.declared.nodes.NodeId.{NodeId as Id};
ghost use Rattle.protocol.specs.Worlds.{Datagram, datagrams_of, datagram_to};
ghost use Rattle.network.specs.Networks.{StandsFor};
ghost use Rattle.node_core.specs.Configs.{config_by};
ghost use Rattle.cluster.specs.Sending.{HasRoom, HaveSent, KeepsRoom};

use network::Network;
use node_core::{NodeSends, Receivers, Sizes};
use protocol::{Address, NodeId};
use wire::{MAX_DATAGRAM, MAX_MESSAGE_BYTES};

/// Puts a message into the network for one receiver more, by the bytes that spell it. They are kept with the first.
fn put(network: &mut Network, sender: NodeId, receiver: NodeId, bytes: &[u8], again: bool)
    requires few { length bytes.now ≤ MAX_MESSAGE_BYTES }
    requires room { HasRoom 1 network.old }
    requires some { again ≡ true → 0 < length network.old.datagrams }
    ensures stands { (message : Kind) → Spells message bytes.now → (net : List Datagram) (before : List Id)
        → again ≡ nat_lt 0 (length before)
        → StandsFor network.old (net ++ map (datagram_to sender message) before)
        → StandsFor network.new (net ++ map (datagram_to sender message) (before ++ receiver ∷ [])) }
    ensures some { 0 < length network.new.datagrams }
    ensures room { KeepsRoom 1 network.old network.new }
{
    if again {
        network.push_again(receiver);
    } else {
        network.push(sender, receiver, bytes);
    }
}

/// Sends a message to each of its receivers, by the bytes that spell it. There is room for that, so it takes no memory.
fn send(network: &mut Network, sizes: Sizes, sender: NodeId, to: Address, bytes: &[u8])
    requires few { length bytes.now ≤ MAX_MESSAGE_BYTES }
    requires spelled { (message : Kind) × Spells message bytes.now }
    requires room { (message : Kind) → Spells message bytes.now
        → HasRoom (length (datagrams_of (config_by sizes []) sender (record { to = to; message = message }))) network.old }
    ensures sent { (message : Kind) → Spells message bytes.now
        → HaveSent network.old network.new (datagrams_of (config_by sizes []) sender (record { to = to; message = message })) }
    ensures room { (message : Kind) → Spells message bytes.now
        → KeepsRoom (length (datagrams_of (config_by sizes []) sender (record { to = to; message = message }))) network.old network.new }
{
    let receivers = Receivers::of(sizes, to, bytes);
    for i in 0..receivers.count() {
        put(network, sender, receivers.at(i), bytes, i > 0);
    }
}

/// Sends the messages of a node that aren't spelled yet, in their order, as `send_all` does.
#[inline(never)]
fn spell_and_send_all(network: &mut Network, sizes: Sizes, sender: NodeId, sends: &NodeSends)
    requires { HasRoom (length (flat_map (datagrams_of (config_by sizes []) sender) sends.now)) network.old }
    ensures { HaveSent network.old network.new (flat_map (datagrams_of (config_by sizes []) sender) sends.now) }
{
    let mut buffer = [0; MAX_DATAGRAM];
    for k in 0..sends.count() {
        let (to, len) = sends.spell(k, &mut buffer);
        send(network, sizes, sender, to, &buffer[..len]);
    }
}

/// Sends all messages that a node puts out, in their order. There is room for that, so it takes no memory.
pub(crate) fn send_all(network: &mut Network, sizes: Sizes, sender: NodeId, sends: &NodeSends)
    requires { HasRoom (length (flat_map (datagrams_of (config_by sizes []) sender) sends.now)) network.old }
    ensures { HaveSent network.old network.new (flat_map (datagrams_of (config_by sizes []) sender) sends.now) }
{
    if sends.count() == 0 {
        return;
    }
    match sends.spelled() {
        Some((to, bytes)) => send(network, sizes, sender, to, bytes),
        None => spell_and_send_all(network, sizes, sender, sends),
    }
}
