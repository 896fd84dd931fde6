ghost use Rattle.std.specs.Prelude.{◌≡◌, ◌≤◌, Ok, Some, IfOk, IfErr, false, is_some};
ghost use Rattle.toml.specs.Data.{Members};
ghost use Rattle.toml.specs.View.{table_view};
ghost use Rattle.toml.specs.Parse.{parse_document};
ghost use Rattle.cluster_file.specs.Clusters.{IsCluster, AreNodePlaces};
ghost use Rattle.cluster_file.specs.ClusterAt.{are_shared, cluster_at, cluster_behind, name_at, naming_at, naming_in, parts_at, timing_at};
ghost use Rattle.cluster_file.specs.ClusterAt.{said_of, timing_in, IsNoCluster, IsNoTable};
ghost use Rattle.cluster_file.specs.Mistakes.{IsRefused};
ghost use Rattle.cluster_file.specs.Reads.{name_bytes};

use crate::addresses::check_apart;
use crate::error::{ClusterError, Fault, Kind};
use crate::nodes::{Keyed, read_nodes};
use crate::section::Section;
use node_core::Config;
use protocol::Row;
use std::alloc::Global;
use std::net::SocketAddr;
use toml::Table;
use xid::Sequence;

/// Where a node is found.
#[derive(Clone, Copy, Debug, PartialEq, Eq)]
pub struct Place {
    /// Its socket for datagrams, where the other nodes send.
    pub node: SocketAddr,
    /// Where its clients come, if they may.
    pub client: Option<SocketAddr>,
    /// Whether it is a resource manager that speaks for a database beside it, and so raises no floor by itself.
    pub beside: bool,
}

/// How long nodes wait, in milliseconds.
#[derive(Clone, Copy, Debug, PartialEq, Eq)]
pub struct Timing {
    /// The first delay before a node asks again.
    pub ask: u32,
    /// How long nobody touches a branch that is then rolled back. It never is where this is 0.
    pub idle: u32,
}

/// How names stand in time, in milliseconds.
#[derive(Clone, Copy, Debug, PartialEq, Eq)]
pub struct Naming {
    /// Whether names begin with their time, so that floors rise by themselves.
    pub timed: bool,
    /// The format of such names.
    pub format: u32,
    /// For how long what stands in a name's time is kept.
    pub keep: u32,
    /// How far a name's time may be ahead of a resource manager's clock.
    pub ahead: u32,
}

/// A cluster, as a file says it.
#[derive(Debug, Drop)]
pub struct Cluster {
    /// Its sizes, its kind and its first tables.
    pub config: Config,
    /// Where its nodes are found: acceptors, then leaders, then resource managers.
    pub places: Vec<Place>,
    /// The name of the file with the key that datagrams are signed with. Without one all nodes are at loopback addresses.
    pub key: Option<String>,
    /// The name of the file with the clients' key. Without one all clients come at loopback addresses.
    pub client_key: Option<String>,
    /// How long nodes wait.
    pub timing: Timing,
    /// How names stand in time.
    pub naming: Naming,
}

/// The keys of a cluster's file.
const KEYS: [&str; 8] = [
    "acceptor",
    "bundled",
    "client_key",
    "key",
    "leader",
    "names",
    "rm",
    "time",
];

/// The name of a file at a key, if there is one.
fn name_at(root: &Section<'_>, key: &str) -> Result<Option<String>, ClusterError>
    ensures ok { IfOk result (λ name.
        name_at root.now.path.now key.now (table_view root.now.table.now) ≡ Ok (name_bytes name)) }
    ensures err { IfErr result (IsRefused (name_at root.now.path.now key.now (table_view root.now.table.now))) }
{
    match root.text(key)? {
        Some(name) => Ok(Some(String::from_str(root.alloc, name)?)),
        None => Ok(None),
    }
}

/// Whether both keys have one name.
fn are_shared(key: &Option<String>, client_key: &Option<String>) -> bool
    ensures { result ≡ are_shared (name_bytes key.now) (name_bytes client_key.now) }
{
    match (key, client_key) {
        (Some(key), Some(client_key)) => key.as_str() == client_key.as_str(),
        _ => false,
    }
}

/// How long nodes wait, as a table says it.
fn timing_in(alloc: Global, table: &Table) -> Result<Timing, ClusterError>
    ensures asks { IfOk result (λ timing. (1 ≤ timing.ask) × (timing.ask ≤ 60000)) }
    ensures ok { IfOk result (λ timing. timing_in (Some (table_view table.now)) ≡ Ok timing) }
    ensures err { IfErr result (IsRefused (timing_in (Some (table_view table.now)))) }
{
    let time = Section {
        alloc,
        path: "time.",
        table,
    };
    time.check_keys(&["ask", "idle"])?;
    let ask = time.number("ask", 1, 60_000, 200)?;
    let idle = time.number("idle", 0, u32::MAX, 60_000)?;
    Ok(Timing { ask, idle })
}

/// How long nodes wait, as a table says it, or as they do where there is none.
fn timing_of(root: &Section<'_>) -> Result<Timing, ClusterError>
    ensures asks { IfOk result (λ timing. (1 ≤ timing.ask) × (timing.ask ≤ 60000)) }
    ensures ok { IfOk result (λ timing. timing_at root.now.path.now (table_view root.now.table.now) ≡ Ok timing) }
    ensures err { IfErr result (IsRefused (timing_at root.now.path.now (table_view root.now.table.now))) }
{
    let Some(table) = root.inner("time")? else {
        return Ok(Timing {
            ask: 200,
            idle: 60_000,
        });
    };
    match timing_in(root.alloc, table) {
        Ok(timing) => Ok(timing),
        Err(error) => Err(error),
    }
}

/// How names stand in time, as a table says it.
fn naming_in(alloc: Global, table: &Table) -> Result<Naming, ClusterError>
    ensures ok { IfOk result (λ naming. naming_in (Some (table_view table.now)) ≡ Ok naming) }
    ensures err { IfErr result (IsRefused (naming_in (Some (table_view table.now)))) }
{
    let names = Section {
        alloc,
        path: "names.",
        table,
    };
    names.check_keys(&["ahead", "format", "keep", "timed"])?;
    let timed = names.flag("timed")?;
    let format = names.number("format", 0, 2_147_483_647, 1)?;
    let keep = names.number("keep", 1000, u32::MAX, 600_000)?;
    let ahead = names.number("ahead", 0, u32::MAX, 60_000)?;
    Ok(Naming {
        timed,
        format,
        keep,
        ahead,
    })
}

/// How names stand in time, as a table says it; where there is none, in no order of time.
fn naming_of(root: &Section<'_>) -> Result<Naming, ClusterError>
    ensures ok { IfOk result (λ naming. naming_at root.now.path.now (table_view root.now.table.now) ≡ Ok naming) }
    ensures err { IfErr result (IsRefused (naming_at root.now.path.now (table_view root.now.table.now))) }
{
    let Some(table) = root.inner("names")? else {
        return Ok(Naming {
            timed: false,
            format: 1,
            keep: 600_000,
            ahead: 60_000,
        });
    };
    match naming_in(root.alloc, table) {
        Ok(naming) => Ok(naming),
        Err(error) => Err(error),
    }
}

/// The nodes of a cluster: where they are found, and their sizes and tables.
fn nodes_of(root: &Section<'_>, keyed: Keyed) -> Result<(Config, Vec<Place>), ClusterError>
    ensures nodes { IfOk result (λ found. AreNodePlaces keyed.nodes keyed.clients found.0 found.1.items) }
    ensures plain { IfOk result (λ found. found.0.bundled ≡ false) }
    ensures ok { IfOk result (λ found.
        parts_at root.now.path.now keyed.nodes keyed.clients (table_view root.now.table.now) ≡ Ok (found.0, found.1.items)) }
    ensures err { IfErr result
        (IsRefused (parts_at root.now.path.now keyed.nodes keyed.clients (table_view root.now.table.now))) }
{
    let mut places = Vec::new(root.alloc);
    let mut none = Vec::new(root.alloc);
    let mut tables = Vec::new(root.alloc);
    let acceptors = read_nodes(root, Kind::Acceptor, keyed, &mut places, &mut none)?;
    let leaders = read_nodes(root, Kind::Leader, keyed, &mut places, &mut none)?;
    let managers = read_nodes(root, Kind::Manager, keyed, &mut places, &mut tables)?;
    check_apart(root.alloc, acceptors, leaders, &places)?;
    match Config::new(acceptors, leaders, managers, Sequence::new(tables)) {
        Ok(config) => Ok((config, places)),
        Err(_) => Err(root.fault("rm", Fault::Limits)),
    }
}

/// The cluster that a table says.
fn cluster_of(root: &Section<'_>) -> Result<Cluster, ClusterError>
    ensures cluster { IfOk result IsCluster }
    ensures ok { IfOk result (λ cluster.
        cluster_behind root.now.path.now (table_view root.now.table.now) ≡ Ok (said_of cluster)) }
    ensures err { IfErr result (IsRefused (cluster_behind root.now.path.now (table_view root.now.table.now))) }
{
    root.check_keys(&KEYS)?;
    let bundled = root.flag("bundled")?;
    let key = name_at(root, "key")?;
    let client_key = name_at(root, "client_key")?;
    if are_shared(&key, &client_key) {
        return Err(root.fault("client_key", Fault::SharedKey));
    }
    let timing = timing_of(root)?;
    let naming = naming_of(root)?;
    let keyed = Keyed {
        nodes: key.is_some(),
        clients: client_key.is_some(),
    };
    let (plain, places) = nodes_of(root, keyed)?;
    let config = if bundled { plain.bundled() } else { plain };
    Ok(Cluster {
        config,
        places,
        key,
        client_key,
        timing,
        naming,
    })
}

/// The line of a place in a text, counted from 1.
fn line_of(text: &[u8], place: usize) -> usize {
    let mut line: usize = 1;
    for i in 0..text.len().min(place) {
        if text[i] == b'\n' {
            line = line.saturating_add(1);
        }
    }
    line
}

/// The table that a text says.
fn table_of(alloc: Global, text: &str) -> Result<Table, ClusterError>
    ensures ok { IfOk result (λ table. parse_document text.now ≡ Some (table_view table)) }
    ensures err { IfErr result (IsNoTable text.now) }
{
    match toml::table_from_str(alloc, text) {
        Ok(table) => Ok(table),
        Err(error) => match error.span() {
            Some(span) => Err(ClusterError::Syntax {
                line: line_of(text.as_bytes(), span.start),
                error,
            }),
            None => Err(ClusterError::Memory),
        },
    }
}

/// The cluster that a file's text says. Refused: it is no TOML (`Syntax`), a key in it is wrong (`Wrong`, the first that is found), or
/// memory ran out (`Memory`).
pub fn read_cluster(alloc: Global, text: &str) -> Result<Cluster, ClusterError>
    ensures cluster { IfOk result IsCluster }
    ensures says { IfOk result (λ c. (members : Members) × (parse_document text.now ≡ Some members)
        × (cluster_at members ≡ Ok (said_of c))) }
    ensures err { IfErr result (IsNoCluster text.now) }
{
    let table = match table_of(alloc, text) {
        Ok(table) => table,
        Err(error) => return Err(error),
    };
    let root = Section {
        alloc,
        path: "",
        table: &table,
    };
    match cluster_of(&root) {
        Ok(cluster) => Ok(cluster),
        Err(error) => Err(error),
    }
}
