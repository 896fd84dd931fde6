//! Rounds, in each of which every node takes one datagram at most.

ghost use Rattle.std.specs.Prelude.{◌≡◌, ◌++◌, IfErr, OnOk, length};
ghost use Rattle.xid.specs.declared.refusals.Refusal.TheVariants.{NoMemory};
ghost use Rattle.node_core.specs.declared.config.Sizes.{Sizes as ClusterSizes};
ghost use Rattle.udp_run.specs.Sites.{site_of};
ghost use Rattle.udp_run.specs.Commands.{Joins, JoinsServed, ServesFirst, listed};

use net_script::Entry;
use port::{Member, Port, Served, serve_once};
use protocol::{Answer, NodeId};
use stable_record::Record;
use std::alloc::Global;
use xid::{Refusal, Sequence};

/// What came of a serve is listed, unless nothing was there. Refused: `NoMemory` alone.
fn list(
    alloc: Global,
    who: NodeId,
    taken: Result<Option<Served>, Refusal>,
    entries: &mut Vec<Entry>,
) -> Result<(), Refusal>
    ensures ok { OnOk result (entries.new.items ≡ entries.old.items ++ listed who taken) }
    ensures err { IfErr result (λ e. e ≡ NoMemory) }
{
    let served = match taken {
        Ok(Some(served)) => served,
        Ok(None) => return Ok(()),
        Err(refusal) => Served {
            reply: Answer::Refused(refusal),
            now: None,
        },
    };
    entries.push(Entry::Serve {
        node: who,
        answer: served.reply,
        now: served.now,
        sent: Sequence::new(Vec::new(alloc)),
    })?;
    Ok(())
}

/// A node takes a datagram at its port, if one has come, and this is listed. Refused: `NoMemory` alone.
fn serve<R: Record, P: Port>(
    alloc: Global,
    node: &mut Member<R>,
    port: &mut P,
    entries: &mut Vec<Entry>,
) -> Result<(), Refusal>
    ensures ok { OnOk result (JoinsServed P.received P.sent node.old node.new port.old port.new entries.old.items entries.new.items) }
    ensures err { IfErr result (λ e. e ≡ NoMemory) }
{
    let who = node.id();
    let taken = serve_once(node, port);
    list(alloc, who, taken, entries)
}

/// Each node, in order, takes a datagram, if one has come. Refused: `NoMemory` alone.
pub(crate) fn serve_each<R: Record, P: Port>(
    alloc: Global,
    nodes: &mut Vec<Member<R>>,
    ports: &mut Vec<P>,
    entries: &mut Vec<Entry>,
) -> Result<(), Refusal>
    requires { length ports.old.items ≡ length nodes.old.items }
    ensures ok { OnOk result ((sizes : ClusterSizes) (noise : P)
        → Joins (ServesFirst P.received P.sent (length nodes.old.items)) (site_of sizes nodes.old.items ports.old.items noise)
        (site_of sizes nodes.new.items ports.new.items noise) entries.old.items entries.new.items) }
    ensures err { IfErr result (λ e. e ≡ NoMemory) }
    ensures nodes { length nodes.new.items ≡ length nodes.old.items }
    ensures ports { length ports.new.items ≡ length ports.old.items }
{
    for at in 0..nodes.len() {
        let node = &mut nodes[at];
        let port = &mut ports[at];
        serve(alloc, node, port, entries)?;
    }
    Ok(())
}
