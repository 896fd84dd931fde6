ghost use Rattle.std.specs.Prelude.{◌≡◌, ◌≤◌, ◌+◌, Ok, Bool, false, length, map, All, codes, string_bytes};
ghost use Rattle.std.specs.Prelude.{IfOk, IfErr, OnOk, IfNone, IfSome};
ghost use Rattle.toml.specs.Data.{table, get_member};
ghost use Rattle.toml.specs.View.{table_view, array_view, view};
ghost use Rattle.cluster_file.specs.Addresses.{is_loopback};
ghost use Rattle.cluster_file.specs.Clusters.{IsLoopback, IsShut};
ghost use Rattle.cluster_file.specs.Mistakes.{reads_at, IsRefused};
ghost use Rattle.cluster_file.specs.Nodes.{node_in, node_keys, node_of, node_path, place_at, section_path};
ghost use Rattle.cluster_file.specs.Nodes.{listed_at, nodes_at, size_fault, ReadNodes};
ghost use Rattle.cluster_file.specs.Reads.{client_address_of, node_address_of};
ghost use Rattle.cluster_file.specs.Rows.{rows_at};

use crate::cluster::Place;
use crate::error::{ClusterError, Fault, Kind};
use crate::section::Section;
use crate::tables::rows_of;
use protocol::Row;
use std::alloc::{AllocError, Global};
use std::net::SocketAddr;
use toml::{Table, Value};
use xid::{MAX_LEADERS, MAX_MANAGERS, Sequence};

/// Which addresses need not be at loopback: those of nodes, and those of clients.
#[derive(Clone, Copy, Debug)]
pub(crate) struct Keyed {
    pub(crate) nodes: bool,
    pub(crate) clients: bool,
}

/// What is wrong with so many nodes of a kind, if something is.
fn size_fault(kind: Kind, count: usize) -> Option<Fault>
    ensures few { IfNone result (count ≤ 64) }
    ensures fault { result ≡ size_fault kind count }
{
    match kind {
        Kind::Acceptor if count == 1 || count == 3 || count == 5 || count == 7 => None,
        Kind::Acceptor => Some(Fault::Acceptors),
        Kind::Leader if 0 < count && count <= usize::from(MAX_LEADERS) => None,
        Kind::Leader => Some(Fault::Leaders),
        Kind::Manager if 0 < count && count <= usize::from(MAX_MANAGERS) => None,
        Kind::Manager => Some(Fault::Managers),
    }
}

/// The nodes of a kind, as many as there may be.
fn nodes_of<'a>(root: &Section<'a>, kind: Kind) -> Result<&'a Vec<Value>, ClusterError>
    ensures few { IfOk result (λ nodes. length nodes.now.items ≤ 64) }
    ensures ok { IfOk result (λ nodes.
        listed_at root.now.path.now kind (table_view root.now.table.now) ≡ Ok (array_view nodes.now)) }
    ensures err { IfErr result (IsRefused (listed_at root.now.path.now kind (table_view root.now.table.now))) }
{
    let nodes = root.list(kind.name())?;
    match size_fault(kind, nodes.len()) {
        None => Ok(nodes),
        Some(fault) => Err(root.fault(kind.name(), fault)),
    }
}

/// Where the node of a number stands.
fn node_path(alloc: Global, kind: Kind, index: usize) -> Result<String, AllocError>
    ensures { IfOk result (λ path. string_bytes path ≡ node_path kind index) }
{
    let name = kind.name();
    format!(in alloc; "{name}[{index}]")
}

/// What stands before the keys of that node.
fn section_path(alloc: Global, kind: Kind, index: usize) -> Result<String, AllocError>
    ensures { IfOk result (λ path. string_bytes path ≡ section_path kind index) }
{
    let name = kind.name();
    format!(in alloc; "{name}[{index}].")
}

/// The table of a node.
fn table_of<'a>(
    alloc: Global,
    kind: Kind,
    index: usize,
    value: &'a Value,
) -> Result<&'a Table, ClusterError>
    ensures ok { IfOk result (λ inner. view value.now ≡ table (table_view inner.now)) }
    ensures err { IfErr result (λ e. (nodes clients : Bool) → IsRefused (node_of kind nodes clients index (view value.now)) e) }
{
    match value.as_table() {
        Some(table) => Ok(table),
        None => {
            let path = node_path(alloc, kind, index)?;
            let fault = Fault::NoTable;
            Err(ClusterError::Wrong { path, fault })
        }
    }
}

/// The first rows of a node, none where it has no table.
fn first_rows(node: &Section<'_>) -> Result<Sequence<Row>, ClusterError>
    ensures ok { IfOk result (λ rows. rows_at node.now.path.now (table_view node.now.table.now) ≡ Ok rows) }
    ensures err { IfErr result (IsRefused (rows_at node.now.path.now (table_view node.now.table.now))) }
{
    let Some(table) = node.inner("table")? else {
        return Ok(Sequence::new(Vec::new(node.alloc)));
    };
    let path = format!(in node.alloc; "{}table.", node.path)?;
    rows_of(&Section {
        alloc: node.alloc,
        path: path.as_str(),
        table,
    })
}

/// The keys that a node may have.
fn keys_of(kind: Kind) -> &'static [&'static str]
    ensures { map (λ key. key.now) result.now ≡ node_keys kind }
{
    match kind {
        Kind::Manager => &["node", "client", "beside", "table"],
        Kind::Acceptor | Kind::Leader => &["node", "client"],
    }
}

/// Whether only this host sends and connects to an address.
fn is_loopback(address: SocketAddr) -> bool
    ensures { result ≡ is_loopback address }
{
    address.ip().is_loopback()
}

/// Where the other nodes find a node.
#[tactic(auto, using(crate::proofs::AddressLemmas::node_right, crate::proofs::SocketLemmas::loopback_is))]
fn node_address(node: &Section<'_>, keyed: Keyed) -> Result<SocketAddr, ClusterError>
    ensures shut { IfOk result (λ at. keyed.nodes ≡ false → IsLoopback at) }
    ensures ok { IfOk result (λ at. reads_at node.now.path.now (codes "node")
        (node_address_of keyed.nodes (get_member (codes "node") (table_view node.now.table.now))) ≡ Ok at) }
    ensures err { IfErr result (IsRefused (reads_at node.now.path.now (codes "node")
        (node_address_of keyed.nodes (get_member (codes "node") (table_view node.now.table.now))))) }
{
    let at = match node.address("node") {
        Ok(Some(at)) => at,
        Ok(None) => return Err(node.fault("node", Fault::Missing)),
        Err(error) => return Err(error),
    };
    if !keyed.nodes && !is_loopback(at) {
        return Err(node.fault("node", Fault::OpenToNodes));
    }
    Ok(at)
}

/// Where the clients of a node come, if they may.
#[tactic(auto, using(crate::proofs::AddressLemmas::client_reading))]
fn client_address(node: &Section<'_>, keyed: Keyed) -> Result<Option<SocketAddr>, ClusterError>
    ensures shut { IfOk result (λ client. keyed.clients ≡ false → IfSome client IsLoopback) }
    ensures ok { IfOk result (λ client. reads_at node.now.path.now (codes "client")
        (client_address_of keyed.clients (get_member (codes "client") (table_view node.now.table.now))) ≡ Ok client) }
    ensures err { IfErr result (IsRefused (reads_at node.now.path.now (codes "client")
        (client_address_of keyed.clients (get_member (codes "client") (table_view node.now.table.now))))) }
{
    let client = match node.address("client") {
        Ok(Some(client)) => client,
        Ok(None) => return Ok(None),
        Err(error) => return Err(error),
    };
    if !keyed.clients && !is_loopback(client) {
        return Err(node.fault("client", Fault::OpenToClients));
    }
    Ok(Some(client))
}

/// Where a node is found.
fn place_of(node: &Section<'_>, keyed: Keyed) -> Result<Place, ClusterError>
    ensures shut { IfOk result (λ place. IsShut keyed.nodes keyed.clients place) }
    ensures ok { IfOk result (λ place.
        place_at node.now.path.now keyed.nodes keyed.clients (table_view node.now.table.now) ≡ Ok place) }
    ensures err { IfErr result
        (IsRefused (place_at node.now.path.now keyed.nodes keyed.clients (table_view node.now.table.now))) }
{
    let at = node_address(node, keyed)?;
    let client = client_address(node, keyed)?;
    let beside = node.flag("beside")?;
    Ok(Place {
        node: at,
        client,
        beside,
    })
}

/// Where the node of a table is found, and its first rows.
fn node_in(
    node: &Section<'_>,
    kind: Kind,
    keyed: Keyed,
) -> Result<(Place, Sequence<Row>), ClusterError>
    ensures shut { IfOk result (λ found. IsShut keyed.nodes keyed.clients found.0) }
    ensures ok { IfOk result (λ found.
        node_in node.now.path.now kind keyed.nodes keyed.clients (table_view node.now.table.now) ≡ Ok found) }
    ensures err { IfErr result
        (IsRefused (node_in node.now.path.now kind keyed.nodes keyed.clients (table_view node.now.table.now))) }
{
    node.check_keys(keys_of(kind))?;
    let place = place_of(node, keyed)?;
    let rows = first_rows(node)?;
    Ok((place, rows))
}

/// Where a node of the file is found, and its first rows.
fn read_node(
    alloc: Global,
    kind: Kind,
    index: usize,
    value: &Value,
    keyed: Keyed,
) -> Result<(Place, Sequence<Row>), ClusterError>
    ensures shut { IfOk result (λ found. IsShut keyed.nodes keyed.clients found.0) }
    ensures ok { IfOk result (λ found. node_of kind keyed.nodes keyed.clients index (view value.now) ≡ Ok found) }
    ensures err { IfErr result (IsRefused (node_of kind keyed.nodes keyed.clients index (view value.now))) }
{
    let table = table_of(alloc, kind, index, value)?;
    let path = section_path(alloc, kind, index)?;
    let node = Section {
        alloc,
        path: path.as_str(),
        table,
    };
    node_in(&node, kind, keyed)
}

/// The nodes of a kind: where they are found, after others, and how many they are. Their first rows.
pub(crate) fn read_nodes(
    root: &Section<'_>,
    kind: Kind,
    keyed: Keyed,
    places: &mut Vec<Place>,
    tables: &mut Vec<Sequence<Row>>,
) -> Result<u8, ClusterError>
    ensures places { IfOk result (λ count. length places.new.items ≡ length places.old.items + count) }
    ensures shut { OnOk result (All (IsShut keyed.nodes keyed.clients) places.old.items
        → All (IsShut keyed.nodes keyed.clients) places.new.items) }
    ensures ok { IfOk result (ReadNodes
        (nodes_at root.now.path.now kind keyed.nodes keyed.clients (table_view root.now.table.now))
        places.old.items places.new.items tables.old.items tables.new.items) }
    ensures err { IfErr result
        (IsRefused (nodes_at root.now.path.now kind keyed.nodes keyed.clients (table_view root.now.table.now))) }
{
    let nodes = nodes_of(root, kind)?;
    for index in 0..nodes.len() {
        let (place, rows) = read_node(root.alloc, kind, index, &nodes[index], keyed)?;
        places.push(place)?;
        tables.push(rows)?;
    }
    Ok(nodes.len() as u8)
}
