//! The nodes of a cluster, taken up from their records in a folder, and their sockets.

ghost use Rattle.std.specs.Prelude.{◌≡◌, ◌⊎◌, ◌<◌, true, map, IfOk, IfErr};
ghost use Rattle.xid.specs.declared.refusals.Refusal.TheVariants.{FileFault, NoMemory, PortFault};
ghost use Rattle.stable_record.specs.Records.{file_held, just_opened};
ghost use Rattle.node_core.specs.Configs.{are_sizes, is_among};
ghost use Rattle.node_core.specs.Nodes.{AreSizes};
ghost use Rattle.node_core.specs.Places.{node_count};
ghost use Rattle.udp_run.specs.Runs.{AreOpened, ArePorts, AreStanding, IsOpenedOver, IsOpenedSite, finding};
ghost use Rattle.udp_run.specs.Runs.{IsRefusedOver, IsTakenUp, RefusesNext, RefusesNode, RefusesSite};

use crate::site::Site;
use node_core::{Config, Sizes, node_count, node_in};
use port::{Addresses, Member, UdpPort};
use protocol::NodeId;
use stable_record::{FileRecord, RecordError};
use std::alloc::Global;
use xid::Refusal;

/// The name of a node's file, as `a0.rec`, in a folder.
fn path_of(alloc: Global, folder: &str, who: NodeId) -> Result<String, Refusal>
    ensures { IfErr result (λ e. e ≡ NoMemory) }
{
    let path = match who {
        NodeId::A(a) => format!(in alloc; "{folder}/a{a}.rec")?,
        NodeId::L(l) => format!(in alloc; "{folder}/l{l}.rec")?,
        NodeId::R(rm) => format!(in alloc; "{folder}/r{rm}.rec")?,
    };
    Ok(path)
}

/// A node's record in the folder, which is made where there is none. Refused: its file can't be opened and read (`FileFault`), or
/// `NoMemory`.
fn open_record(rt: HostRuntime, folder: &str, who: NodeId) -> Result<FileRecord, Refusal>
    ensures ok { IfOk result (λ opened. file_held opened ≡ just_opened (file_held opened).bytes) }
    ensures err { IfErr result (λ e. (e ≡ NoMemory) ⊎ (e ≡ FileFault)) }
{
    let path = path_of(rt.alloc(), folder, who)?;
    match FileRecord::open(rt, path.as_str()) {
        Ok(device) => Ok(device),
        Err(RecordError::Fault) => Err(Refusal::FileFault),
        Err(RecordError::Memory) => Err(Refusal::NoMemory),
    }
}

/// The node over its record. Refused as `Member::open` refuses it; the record is closed.
fn take_up(
    alloc: Global,
    config: &Config,
    who: NodeId,
    device: FileRecord,
) -> Result<Member<FileRecord>, Refusal>
    ensures ok { IfOk result (IsTakenUp config.now who (file_held device)) }
    ensures err { IfErr result (IsRefusedOver config.now who (file_held device)) }
{
    match Member::open(alloc, config, who, device) {
        Ok(node) => Ok(node),
        Err((_, refusal)) => Err(refusal),
    }
}

/// A node over its record in the folder, which is made where there is none. Refused: the file can't be opened and read (`FileFault`);
/// its bytes hold nothing that plays (`Damaged`), or the record fails (`RecordFault`); `NoMemory`.
fn open_node(
    rt: HostRuntime,
    folder: &str,
    config: &Config,
    who: NodeId,
) -> Result<Member<FileRecord>, Refusal>
    requires { is_among config.now who ≡ true }
    ensures ok { IfOk result (IsOpenedOver config.now who) }
    ensures err { IfErr result (λ e. (e ≡ NoMemory) ⊎ RefusesNode config.now who e) }
{
    let device = open_record(rt, folder, who)?;
    take_up(rt.alloc(), config, who, device)
}

/// The nodes of a cluster, in order. Refused as the first of them is that is.
fn open_nodes(
    rt: HostRuntime,
    folder: &str,
    config: &Config,
    sizes: Sizes,
) -> Result<Vec<Member<FileRecord>>, Refusal>
    requires { AreSizes config.now sizes }
    ensures ok { IfOk result (λ nodes. AreOpened config.now sizes (node_count sizes) nodes.items) }
    ensures err { IfErr result (λ e. (e ≡ NoMemory) ⊎ RefusesNext config.now sizes e) }
{
    let mut nodes = Vec::new(rt.alloc());
    for at in 0..node_count(sizes) {
        let who = node_in(sizes, at);
        nodes.push(open_node(rt, folder, config, who)?)?;
    }
    Ok(nodes)
}

/// A socket for each node, and where the nodes are found by that. Refused: `PortFault`, `NoMemory`.
fn bind_ports(rt: HostRuntime, sizes: Sizes) -> Result<(Vec<UdpPort>, Addresses), Refusal>
    requires { are_sizes sizes.acceptors sizes.leaders sizes.managers ≡ true }
    ensures ok { IfOk result (λ bound. AreStanding sizes (node_count sizes) bound.0.items bound.1) }
    ensures err { IfErr result (λ e. (e ≡ NoMemory) ⊎ (e ≡ PortFault)) }
{
    let count = node_count(sizes);
    let mut addresses = Addresses::none();
    let mut ports = Vec::new(rt.alloc());
    for at in 0..count {
        let port = UdpPort::bind(&rt)?;
        addresses.set(node_in(sizes, at), port.number());
        ports.push(port)?;
    }
    Ok((ports, addresses))
}

/// Each port finds the nodes there.
fn tell(ports: &mut Vec<UdpPort>, addresses: Addresses)
    ensures { ports.new.items ≡ map (finding addresses) ports.old.items }
{
    for at in 0..ports.len() {
        let port = &mut ports[at];
        port.find_at(addresses);
    }
}

/// A socket for each node, and one for noise. Each of them finds each node. Refused: one can't be made (`PortFault`), or `NoMemory`.
fn bind_all(rt: HostRuntime, sizes: Sizes) -> Result<(Vec<UdpPort>, UdpPort), Refusal>
    requires { are_sizes sizes.acceptors sizes.leaders sizes.managers ≡ true }
    ensures ok { IfOk result (λ bound. ArePorts sizes bound.0.items bound.1) }
    ensures err { IfErr result (λ e. (e ≡ NoMemory) ⊎ (e ≡ PortFault)) }
{
    let (mut ports, addresses) = bind_ports(rt, sizes)?;
    tell(&mut ports, addresses);
    let mut noise = UdpPort::bind(&rt)?;
    noise.find_at(addresses);
    Ok((ports, noise))
}

/// A cluster's nodes over the records of a folder, each at a socket; and a socket for noise. Refused: the first node that is refused,
/// its file (`FileFault`) or its record (`Damaged`, `RecordFault`); else a socket that can't be made (`PortFault`); `NoMemory`.
pub(crate) fn open(
    rt: HostRuntime,
    folder: &str,
    config: &Config,
) -> Result<Site<FileRecord, UdpPort>, Refusal>
    ensures ok { IfOk result (IsOpenedSite config.now) }
    ensures err { IfErr result (λ e. (e ≡ NoMemory) ⊎ RefusesSite config.now e) }
{
    let sizes = config.sizes();
    let nodes = open_nodes(rt, folder, config, sizes)?;
    let (ports, noise) = bind_all(rt, sizes)?;
    Ok(Site::new(rt.alloc(), sizes, nodes, ports, noise))
}
