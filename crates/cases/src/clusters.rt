//! A whole cluster over records of which one fails.

use crate::{nodes, records};
use case_lines::{Page, Part, Stop, in_memory, run_calls, wanted, words};
use cluster::Cluster;
use net_script::{Command, WrittenTx, read_script, write_finals, write_step};
use node_core::{Config, place_of};
use protocol::{Event, Row};
use stable_record::{FailRecord, Leaves, MemRecord, Record};
use std::alloc::Global;
use xid::{Refusal, Sequence};

/// A cluster, and how many resource managers it has.
#[derive(Drop)]
struct Whole {
    cluster: Cluster<FailRecord<MemRecord>>,
    managers: u8,
}

/// The records of so many nodes, all empty: the one in this place fails at its call of this number.
fn empty_records(
    alloc: Global,
    count: usize,
    place: usize,
    call: u64,
    leaves: Leaves,
) -> Result<Vec<FailRecord<MemRecord>>, Stop> {
    let mut all = Vec::new(alloc);
    for at in 0..count {
        let call = if at == place { call } else { 0 };
        let inner = in_memory(alloc, b"-")?;
        all.push(FailRecord::new(inner, call, leaves))?;
    }
    Ok(all)
}

/// Opens the cluster over such records, as `r0 2 old` says: the second call of r0's, which leaves the old content.
fn open(
    alloc: Global,
    config: &Config,
    rest: &[u8],
    page: &mut Page,
) -> Result<Cluster<FailRecord<MemRecord>>, Stop> {
    let (name, rest) = words::cut(rest);
    let (call, left) = words::cut(rest);
    let call = u64::from(words::number(call)?);
    let sizes = config.sizes();
    let Some(place) = place_of(sizes, words::node(name)?) else {
        return Err(Stop::Unread);
    };
    let count = usize::from(sizes.acceptors)
        + usize::from(sizes.leaders)
        + usize::from(sizes.managers);
    let all = empty_records(alloc, count, place, call, records::leaves(left)?)?;
    match Cluster::new(alloc, config, all) {
        Ok(cluster) => Ok(cluster),
        Err(refusal) => {
            page.bytes(b"new ->")?;
            page.finished(Err(refusal))?;
            Err(Stop::Refused)
        }
    }
}

/// Runs the calls of a case: the sizes as of a node's, the node whose record fails, its call, and what that leaves. Each call is an event
/// of a script, or a flow. Tells last the tables, and how often each record has failed.
pub fn run(alloc: Global, rest: &[u8], calls: &[String], page: &mut Page) -> Result<(), Stop> {
    let (config, rest) = words::cluster(alloc, rest)?;
    let mut whole = match open(alloc, &config, rest, page) {
        Ok(cluster) => Whole {
            cluster,
            managers: config.sizes().managers,
        },
        Err(Stop::Refused) => return Ok(()),
        Err(stop) => return Err(stop),
    };
    run_calls(&mut whole, alloc, calls, page)?;
    say_finals(&mut whole, alloc, page)?;
    page.bytes(b"faults")?;
    for node in whole.cluster.into_nodes() {
        page.number(node.into_record().faults())?;
    }
    page.end_line()
}

/// The tables, as at the end of a trace.
fn say_finals(whole: &mut Whole, alloc: Global, page: &mut Page) -> Result<(), Stop> {
    let mut tables: Vec<Sequence<Row>> = Vec::new(alloc);
    for rm in 0..whole.managers {
        tables.push(wanted(whole.cluster.table(rm))?)?;
    }
    let mut text = Vec::new(alloc);
    write_finals(&mut text, &tables)?;
    page.bytes(&text)
}

impl Whole {
    /// An event, and what came of it: the lines of a trace.
    fn happen(&mut self, alloc: Global, event: Event) -> Result<Vec<u8>, Stop> {
        let step = self.cluster.step(event);
        let mut text = Vec::new(alloc);
        write_step(&mut text, &mut WrittenTx::none(alloc), &step)?;
        Ok(text)
    }

    /// Delivers what isn't marked, so many times at most.
    fn flow(&mut self, alloc: Global, times: u32, page: &mut Page) -> Result<(), Stop> {
        page.end_line()?;
        for _time in 0..times {
            let Some(number) = self.cluster.least_unmarked() else {
                return Ok(());
            };
            let text = self.happen(alloc, Event::Deliver { number })?;
            page.bytes(&text)?;
        }
        Ok(())
    }
}

impl Part for Whole {
    fn call(&mut self, alloc: Global, line: &[u8], page: &mut Page) -> Result<(), Stop> {
        match nodes::command(alloc, line)? {
            Command::Flow(times) => self.flow(alloc, times, page),
            Command::Do(event) => {
                let text = self.happen(alloc, event)?;
                let rest = text.strip_prefix(line).unwrap_or(&text);
                page.bytes(rest.strip_prefix(b" ->").unwrap_or(rest))
            }
        }
    }
}
