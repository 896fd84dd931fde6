//! Where nodes stand in a cluster, and which of them an address means.

ghost use Rattle.std.specs.Prelude.{◌≡◌, ◌<◌, [], length, slice_index_or, Some};
ghost use Rattle.wire.specs.declared.message.Kind.{Kind};
ghost use Rattle.wire.specs.Grammar.{Spells};
ghost use Rattle.wire.specs.Messages.{message_tx};
ghost use Rattle.protocol.specs.Effects.{receivers};
ghost use Rattle.protocol.specs.Worlds.{place};
ghost use Rattle.node_core.specs.Configs.{config_by};
ghost use Rattle.node_core.specs.Places.{node_count, node_in, placed_after};
ghost use Rattle.node_core.specs.Receivers.{receivers_in};

use crate::config::Sizes;
use protocol::{Address, NodeId};
use wire::{MessageView, view_of};

/// Where a node stands: acceptors first, then leaders, then resource managers. None where there is no such node.
pub fn place_of(sizes: Sizes, who: NodeId) -> Option<usize>
    ensures { result ≡ place (config_by sizes []) who }
{
    let acceptors = usize::from(sizes.acceptors);
    let leaders = usize::from(sizes.leaders);
    match who {
        NodeId::A(a) => placed(a, sizes.acceptors, 0),
        NodeId::L(l) => placed(l, sizes.leaders, acceptors),
        NodeId::R(rm) => placed(rm, sizes.managers, acceptors + leaders),
    }
}

/// The place of a number below a bound, after so many others.
fn placed(number: u8, bound: u8, before: usize) -> Option<usize>
    requires { before < 1000 }
    ensures { result ≡ placed_after number bound before }
{
    if number < bound {
        Some(before + usize::from(number))
    } else {
        None
    }
}

/// How many nodes a cluster has.
pub fn node_count(sizes: Sizes) -> usize
    ensures { result ≡ node_count sizes }
{
    usize::from(sizes.acceptors) + usize::from(sizes.leaders) + usize::from(sizes.managers)
}

/// The node in a place.
pub fn node_in(sizes: Sizes, at: usize) -> NodeId
    requires { at < node_count sizes }
    ensures named { result ≡ node_in (config_by sizes []) at }
    ensures placed { place (config_by sizes []) result ≡ Some at }
{
    let acceptors = usize::from(sizes.acceptors);
    let leaders = usize::from(sizes.leaders);
    if at < acceptors {
        return NodeId::A(at as u8);
    }
    if at < acceptors + leaders {
        return NodeId::L((at - acceptors) as u8);
    }
    NodeId::R((at - acceptors - leaders) as u8)
}

/// The nodes to which a message goes.
#[derive(Drop)]
pub enum Receivers<'a> {
    /// One.
    Node(NodeId),
    /// So many acceptors.
    Acceptors(u8),
    /// So many leaders.
    Leaders(u8),
    /// The resource managers of the transaction of this message.
    Managers(MessageView<'a>),
}

impl<'a> Receivers<'a> {
    /// Those to which the message goes that these bytes spell.
    pub fn of(sizes: Sizes, to: Address, bytes: &'a [u8]) -> Receivers<'a>
        requires { (message : Kind) × Spells message bytes.now }
        ensures { (message : Kind) → Spells message bytes.now
            → receivers_in result ≡ receivers (config_by sizes []) to (message_tx message) }
    {
        match to {
            Address::Node(node) => Receivers::Node(node),
            Address::Acceptors => Receivers::Acceptors(sizes.acceptors),
            Address::Leaders => Receivers::Leaders(sizes.leaders),
            Address::Managers => Receivers::Managers(seen(bytes)),
        }
    }

    /// How many they are.
    pub fn count(&self) -> usize
        ensures { result ≡ length (receivers_in self.now) }
    {
        match self {
            Receivers::Node(_) => 1,
            Receivers::Acceptors(count) => usize::from(*count),
            Receivers::Leaders(count) => usize::from(*count),
            Receivers::Managers(message) => message.tx().count(),
        }
    }

    /// The one of a place.
    pub fn at(&self, i: usize) -> NodeId
        requires { i < length (receivers_in self.now) }
        ensures { result ≡ slice_index_or (receivers_in self.now) i result }
    {
        match self {
            Receivers::Node(node) => *node,
            Receivers::Acceptors(count) => NodeId::A(number_below(*count, i)),
            Receivers::Leaders(count) => NodeId::L(number_below(*count, i)),
            Receivers::Managers(message) => NodeId::R(message.tx().rm(i) as u8),
        }
    }
}

/// A place below a count, as the number of a node.
fn number_below(count: u8, i: usize) -> u8
    requires { i < count }
    ensures { result ≡ i }
{
    i as u8
}

/// The message that bytes spell, seen over them.
fn seen(bytes: &[u8]) -> MessageView<'_>
    requires { (message : Kind) × Spells message bytes.now }
    ensures { Spells result bytes.now }
{
    match view_of(bytes) {
        Ok(message) => message,
        Err(_) => unreachable!(),
    }
}
