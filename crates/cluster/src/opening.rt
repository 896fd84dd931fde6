//! How a cluster is made: a node over each record, none of which has done anything.

ghost use Rattle.std.specs.Prelude.{◌≡◌, true, length, map, IfOk, IfErr};
ghost use Rattle.node_core.specs.Configs.{is_among};
ghost use Rattle.node_core.specs.Nodes.{AreSizes};
ghost use Rattle.node_core.specs.Places.{node_count};
ghost use Rattle.cluster.specs.Opening.{AreBegun, IsBegun, IsUnbegun, IsUnmade};

use floored::Floored;
use node_core::{Config, Sizes, node_count, node_in};
use protocol::NodeId;
use stable_record::Record;
use std::alloc::Global;
use xid::Refusal;

/// A node over an empty record. Refused: the record isn't empty (`BadConfig`), it failed (`RecordFault`), or `NoMemory`.
fn open_new<R: Record + Drop>(
    alloc: Global,
    config: &Config,
    who: NodeId,
    device: R,
) -> Result<Floored<R>, Refusal>
    requires { is_among config.now who ≡ true }
    ensures ok { IfOk result (λ node. IsBegun config.now who (R.Record.held device) node) }
    ensures err { IfErr result (λ e. IsUnbegun (R.Record.held device) e) }
{
    let mut device = device;
    let bytes = match device.read(alloc) {
        Ok(bytes) => bytes,
        Err(error) => return Err(Refusal::from(error)),
    };
    if !bytes.is_empty() {
        return Err(Refusal::BadConfig);
    }
    match Floored::open(alloc, config, who, device) {
        Ok(node) => Ok(node),
        Err((_, refusal)) => Err(refusal),
    }
}

/// A node over each of these records, which are as many as there are nodes. Refused: one isn't empty (`BadConfig`), one failed
/// (`RecordFault`), or `NoMemory`.
pub(crate) fn open_all<R: Record + Drop>(
    alloc: Global,
    config: &Config,
    sizes: Sizes,
    records: Vec<R>,
) -> Result<Vec<Floored<R>>, Refusal>
    requires sizes { AreSizes config.now sizes }
    requires count { length records.items ≡ node_count sizes }
    ensures ok { IfOk result (λ nodes. AreBegun config.now (map R.Record.held records.items) nodes.items) }
    ensures err { IfErr result (λ e. IsUnmade config.now (map R.Record.held records.items) e) }
{
    let mut nodes = Vec::with_capacity(alloc, node_count(sizes))?;
    for device in records {
        let who = node_in(sizes, nodes.len());
        let node = match open_new(alloc, config, who, device) {
            Ok(node) => node,
            Err(refusal) => return Err(refusal),
        };
        nodes.push(node)?;
    }
    Ok(nodes)
}
