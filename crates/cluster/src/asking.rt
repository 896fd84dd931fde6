//! What a resource manager of a cluster is asked beside its rules: by its record, and without any change.

ghost use Rattle.std.specs.Prelude.{◌≡◌, length};
ghost use Rattle.protocol.specs.Effects.{Config};
ghost use Rattle.floors.specs.Worlds.{FlooredWorld};
ghost use Rattle.network.specs.Networks.{NetworkParts};
ghost use Rattle.node_core.specs.Places.{node_count};
ghost use Rattle.cluster.specs.Asking.{ViewsIn, TablesIn};
ghost use Rattle.cluster.specs.Clusters.{NoticesParts, cluster_of, ClusterStands};

use floored::Floored;
use node_core::{Sizes, place_of};
use protocol::{NodeId, Row, View};
use stable_record::Record;
use xid::{Refusal, Sequence, Tx};

/// Where a resource manager stands in a transaction; of one that is below its floor it says that this is over (`Forgotten`).
pub(crate) fn view<R: Record>(
    sizes: Sizes,
    nodes: &mut Vec<Floored<R>>,
    rm: u8,
    tx: &Tx,
) -> Result<View, Refusal>
    requires { length nodes.old.items ≡ node_count sizes }
    ensures { (network : NetworkParts) (notices : NoticesParts) (config : Config) (world : FlooredWorld)
        → ClusterStands config (cluster_of sizes nodes.old.items network notices) world
        → ViewsIn config world (cluster_of sizes nodes.old.items network notices) (cluster_of sizes nodes.new.items network notices)
        rm tx.now result }
{
    let Some(at) = place_of(sizes, NodeId::R(rm)) else {
        return Err(Refusal::NoSuch);
    };
    let node = &mut nodes[at];
    node.view(tx)
}

/// The rows of a resource manager's table.
pub(crate) fn table<R: Record>(
    sizes: Sizes,
    nodes: &mut Vec<Floored<R>>,
    rm: u8,
) -> Result<Sequence<Row>, Refusal>
    requires { length nodes.old.items ≡ node_count sizes }
    ensures { (network : NetworkParts) (notices : NoticesParts) (config : Config) (world : FlooredWorld)
        → ClusterStands config (cluster_of sizes nodes.old.items network notices) world
        → TablesIn config world (cluster_of sizes nodes.old.items network notices) (cluster_of sizes nodes.new.items network notices)
        rm result }
{
    let Some(at) = place_of(sizes, NodeId::R(rm)) else {
        return Err(Refusal::NoSuch);
    };
    let node = &mut nodes[at];
    node.table()
}
