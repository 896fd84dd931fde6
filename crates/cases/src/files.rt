//! Files: a cluster's, its keys, and what stands beside a record. In a call `\0a` is the byte of these two hex digits.

use case_lines::{Page, Part, Stop, run_calls, words};
use cluster_file::{Cluster, ClusterError, Owner, Place, digest, key_of, read_cluster};
use std::alloc::Global;

/// Files of clusters, each a line behind others.
#[derive(Drop)]
struct Clusters<'a> {
    head: &'a [u8],
}

/// Files of keys.
#[derive(Drop)]
struct Keys;

/// What stands beside records.
#[derive(Drop)]
struct Owners;

/// Runs the calls of a case of clusters: each call is the last line of a file, behind the head.
pub fn run_clusters(
    alloc: Global,
    head: &[u8],
    calls: &[String],
    page: &mut Page,
) -> Result<(), Stop> {
    run_calls(&mut Clusters { head }, alloc, calls, page)
}

/// Runs the calls of a case of keys.
pub fn run_keys(alloc: Global, calls: &[String], page: &mut Page) -> Result<(), Stop> {
    run_calls(&mut Keys, alloc, calls, page)
}

/// Runs the calls of a case of what stands beside records.
pub fn run_owners(alloc: Global, calls: &[String], page: &mut Page) -> Result<(), Stop> {
    run_calls(&mut Owners, alloc, calls, page)
}

/// A name, `-` for none.
fn say_name(name: &Option<String>, page: &mut Page) -> Result<(), Stop> {
    match name {
        Some(name) => page.word(name.as_bytes()),
        None => page.word(b"-"),
    }
}

/// Where a node is found, and behind a comma where its clients come, if they may.
fn say_place(alloc: Global, place: &Place, page: &mut Page) -> Result<(), Stop> {
    let node = place.node;
    match place.client {
        Some(client) => page.word(format!(in alloc; "{node},{client}")?.as_bytes()),
        None => page.word(format!(in alloc; "{node}")?.as_bytes()),
    }
}

/// How names stand in time, where they do: their format, for how long they are kept, how far they may be ahead; and which nodes speak for a
/// database beside them, by their numbers among all.
fn say_naming(cluster: &Cluster, page: &mut Page) -> Result<(), Stop> {
    let naming = cluster.naming;
    if naming.timed {
        page.number(u64::from(naming.format))?;
        page.number(u64::from(naming.keep))?;
        page.number(u64::from(naming.ahead))?;
    }
    for at in 0..cluster.places.len() {
        if cluster.places[at].beside {
            page.word(b"beside")?;
            page.number(at as u64)?;
        }
    }
    Ok(())
}

/// A cluster: its sizes, whether it is bundled, its keys, its times, its names, its digest, and where its nodes are found.
fn say(alloc: Global, cluster: &Cluster, page: &mut Page) -> Result<(), Stop> {
    let sizes = cluster.config.sizes();
    page.number(u64::from(sizes.acceptors))?;
    page.number(u64::from(sizes.leaders))?;
    page.number(u64::from(sizes.managers))?;
    page.truth(sizes.bundled)?;
    say_name(&cluster.key, page)?;
    say_name(&cluster.client_key, page)?;
    page.number(u64::from(cluster.timing.ask))?;
    page.number(u64::from(cluster.timing.idle))?;
    say_naming(cluster, page)?;
    page.hex(&digest(&cluster.config))?;
    for place in &cluster.places {
        say_place(alloc, place, page)?;
    }
    Ok(())
}

impl Part for Clusters<'_> {
    fn call(&mut self, alloc: Global, line: &[u8], page: &mut Page) -> Result<(), Stop> {
        let mut text = Vec::new(alloc);
        words::unescaped(alloc, self.head, &mut text)?;
        text.push(b'\n')?;
        words::unescaped(alloc, words::plain(line), &mut text)?;
        let Ok(text) = String::from_utf8(text) else {
            return Err(Stop::Unread);
        };
        match read_cluster(alloc, text.as_str()) {
            Ok(cluster) => say(alloc, &cluster, page)?,
            Err(ClusterError::Memory) => return Err(Stop::Wanted),
            Err(error) => page.word(format!(in alloc; "{error}")?.as_bytes())?,
        }
        page.end_line()
    }
}

impl Part for Keys {
    fn call(&mut self, alloc: Global, line: &[u8], page: &mut Page) -> Result<(), Stop> {
        let mut text = Vec::new(alloc);
        words::unescaped(alloc, words::plain(line), &mut text)?;
        match key_of(&text) {
            Ok(key) => page.hex(&key)?,
            Err(error) => page.word(format!(in alloc; "{error}")?.as_bytes())?,
        }
        page.end_line()
    }
}

impl Part for Owners {
    /// The node, the digest, and a text: whether it names them.
    fn call(&mut self, alloc: Global, line: &[u8], page: &mut Page) -> Result<(), Stop> {
        let (name, rest) = words::cut(line);
        let (digits, text) = words::cut(rest);
        let bytes = words::bytes(alloc, digits)?;
        if bytes.len() != 32 {
            return Err(Stop::Unread);
        }
        let mut digest = [0; 32];
        digest.copy_from_slice(&bytes);
        let who = words::node(name)?;
        let owner = Owner { who, digest };
        let mut found = Vec::new(alloc);
        words::unescaped(alloc, words::plain(text), &mut found)?;
        page.truth(owner.is_named_by(&found))?;
        page.word(owner.text().as_slice())
    }
}
