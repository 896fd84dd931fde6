//! Room for what an event may send or tell: made before its node is reached.

ghost use Rattle.std.specs.Prelude.{◌≡◌, ◌≤◌, ℕ, List, length, IfErr, OnOk};
ghost use Rattle.std.specs.List.{flat_map};
ghost use Rattle.xid.specs.declared.refusals.Refusal.TheVariants.{NoMemory};
ghost use Rattle.stable_record.specs.declared.fact.FactKind.{FactKind};
ghost use Rattle.protocol.specs.declared.events.Event.TheVariants.{Deliver};
ghost use Rattle.protocol.specs.Effects.{Config};
ghost use Rattle.protocol.specs.Nodes.{Fault, Memory, on_request, effect_of};
ghost use Rattle.protocol.specs.Worlds.{Datagram, datagrams_of};
ghost use Rattle.node_core.specs.Nodes.{AreSizes, datagram_input};
ghost use Rattle.floors.specs.Worlds.{FlooredWorld, step_with_floors};
ghost use Rattle.floored.specs.Nodes.{FlooredParts};
ghost use Rattle.network.specs.Networks.{StandsFor};
ghost use Rattle.cluster.specs.Clusters.{NoticesParts, ClusterStands, cluster_of};
ghost use Rattle.cluster.specs.Sending.{HasRoom};

use crate::notices::count_told;
use network::Network;
use node_core::Sizes;
use protocol::{Event, NodeId, Request};
use wire::MAX_MESSAGE_BYTES;
use xid::{MAX_BRANCHES, Refusal};

/// How many datagrams a node sends at most on a request.
pub(crate) fn most_asked(sizes: Sizes, who: NodeId, request: &Request) -> usize
    ensures bound { (config : Config) → AreSizes config sizes → (facts : List FactKind) (memory : Memory)
        → length (flat_map (datagrams_of config who) (on_request config who facts memory request.now).sends) ≤ result }
    ensures few { result ≤ 5000 }
{
    let acceptors = usize::from(sizes.acceptors);
    match request {
        Request::Call { .. } => 0,
        Request::Recover => 0,
        Request::View { .. } => 0,
        Request::Status { .. } => 0,
        Request::Commit { tx } => tx.get().count(),
        Request::Timeout { tx } => match who {
            NodeId::A(_) => 0,
            NodeId::L(_) => tx.get().count() * (acceptors + 1),
            NodeId::R(_) => acceptors + usize::from(sizes.leaders),
        },
    }
}

/// How many datagrams a node sends at most on the bytes of a datagram.
pub(crate) fn most_heard(sizes: Sizes, who: NodeId) -> usize
    ensures bound { (config : Config) → AreSizes config sizes → (facts : List FactKind) (memory : Memory) (bytes : List ℕ)
        → length (flat_map (datagrams_of config who) (effect_of config who facts memory (datagram_input bytes)).sends) ≤ result }
    ensures few { result ≤ 5000 }
{
    let acceptors = usize::from(sizes.acceptors);
    match who {
        NodeId::A(_) => usize::from(sizes.leaders) + 1,
        NodeId::L(_) => MAX_BRANCHES * (acceptors + 1),
        NodeId::R(_) => acceptors,
    }
}

/// How many datagrams an event sends at most.
pub(crate) fn most_sent(sizes: Sizes, network: &Network, event: &Event) -> usize
    ensures { (nodes : List FlooredParts) (notices : NoticesParts) (config : Config) (world : FlooredWorld)
        → ClusterStands config (cluster_of sizes nodes network.now notices) world → (fault : Fault)
        → length (step_with_floors config world event.now fault).sent ≤ result }
{
    match event {
        Event::Ask { node, request } => most_asked(sizes, *node, request),
        Event::Deliver { number } => most_delivered(sizes, network, *number),
        Event::Lose { .. } => 0,
        Event::Cut { .. } => 0,
        Event::Noise { .. } => 0,
        Event::Tear { .. } => 0,
        Event::Restart { .. } => 0,
        Event::Compact { .. } => 0,
        Event::Raise { .. } => 0,
        Event::Hear { .. } => 0,
        Event::Replace { .. } => 0,
    }
}

/// How many notices an event tells at most.
pub(crate) fn most_told(sizes: Sizes, event: &Event) -> usize
    ensures { (config : Config) → AreSizes config sizes → (world : FlooredWorld) (fault : Fault)
        → length (step_with_floors config world event.now fault).noticed ≤ result }
{
    match event {
        Event::Ask { .. } => 0,
        Event::Deliver { .. } => 0,
        Event::Lose { .. } => 0,
        Event::Cut { .. } => 0,
        Event::Noise { .. } => 0,
        Event::Tear { .. } => 0,
        Event::Restart { .. } => 0,
        Event::Compact { .. } => 0,
        Event::Raise { .. } => count_told(sizes),
        Event::Hear { .. } => 0,
        Event::Replace { .. } => 0,
    }
}

/// How many datagrams are sent at most where the one of a number is handed over.
fn most_delivered(sizes: Sizes, network: &Network, number: u32) -> usize
    ensures { (nodes : List FlooredParts) (notices : NoticesParts) (config : Config) (world : FlooredWorld)
        → ClusterStands config (cluster_of sizes nodes network.now notices) world → (fault : Fault)
        → length (step_with_floors config world (Deliver number) fault).sent ≤ result }
{
    match network.get(number) {
        Some(kept) => most_heard(sizes, kept.receiver),
        None => 0,
    }
}

/// Makes room for so many datagrams more. Refused: `NoMemory` alone. The datagrams before stay as they are.
pub(crate) fn make_room(network: &mut Network, count: usize) -> Result<(), Refusal>
    requires { count ≤ 5000 }
    ensures same { (net : List Datagram) → StandsFor network.old net → StandsFor network.new net }
    ensures room { OnOk result (HasRoom count network.new) }
    ensures err { IfErr result (λ e. e ≡ NoMemory) }
{
    network.reserve(count, count * MAX_MESSAGE_BYTES)
}
