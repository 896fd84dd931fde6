//! Nodes that start over a record, make it shorter, and start over what is left.
use crate::digest::Digest;
use crate::frames::{BRANCHES, FrameVersion, acceptor_record, leader_record, manager_record};
use crate::numbers::{Numbers, rounds};
use anyhow::{Result, bail};
use node_core::Config;
use port::Member;
use protocol::{NodeId, Row};
use stable_record::MemRecord;
use std::alloc::Global;
use xid::{Refusal, Sequence};

/// How many rounds the job takes, with other numbers in each.
const ROUNDS: u32 = 2;

/// How many groups of transactions a record has.
const GROUPS: u32 = 2_400;

/// A cluster of three acceptors, two leaders and three resource managers, whose tables are empty.
fn cluster(alloc: Global) -> Result<Config> {
    let mut tables: Vec<Sequence<Row>> = Vec::new(alloc);
    for _ in 0..BRANCHES {
        tables.push(Sequence::new(Vec::new(alloc)))?;
    }
    Ok(Config::new(3, 2, BRANCHES, Sequence::new(tables))?)
}

/// Takes the table of a resource manager, or that there is none.
pub fn take_table(node: &mut Member<MemRecord>, digest: &mut Digest) {
    match node.table() {
        Ok(rows) => {
            digest.number(u64::try_from(rows.as_slice().len()).unwrap_or(0));
            for row in rows.as_slice() {
                digest.take(row.key.as_slice());
                digest.take(row.value.as_slice());
            }
        }
        Err(refusal) => digest.number(u64::from(refusal.number())),
    }
}

/// Takes whether a call was refused.
fn take_result(done: Result<(), Refusal>, digest: &mut Digest) {
    match done {
        Ok(()) => digest.number(0),
        Err(refusal) => digest.number(u64::from(refusal.number())),
    }
}

/// A node starts over a record, makes it shorter, and starts over that.
fn start_one(alloc: Global, who: NodeId, bytes: Vec<u8>, digest: &mut Digest) -> Result<()> {
    let config = cluster(alloc)?;
    let mut node = match Member::open(alloc, &config, who, MemRecord::new(alloc, bytes)) {
        Ok(node) => node,
        Err((_, refusal)) => bail!("the record is refused: {refusal}"),
    };
    take_table(&mut node, digest);
    take_result(node.compact(), digest);
    take_result(node.restart(), digest);
    take_table(&mut node, digest);
    digest.take(node.into_record().as_slice());
    Ok(())
}

/// Nodes of all kinds start over long records, and over some of the first version, once.
fn start_round(
    alloc: Global,
    parts: u32,
    numbers: &mut Numbers,
    digest: &mut Digest,
) -> Result<()> {
    let groups = (GROUPS / parts.max(1)).max(2);
    for version in [FrameVersion::First, FrameVersion::Second] {
        let so_many = match version {
            FrameVersion::First => groups / 2,
            FrameVersion::Second => groups,
        };
        let bytes = acceptor_record(alloc, version, so_many, numbers)?;
        start_one(alloc, NodeId::A(1), bytes, digest)?;
        for keys in [1_000, 1_000_000] {
            let bytes = manager_record(alloc, version, so_many, keys, numbers)?;
            start_one(alloc, NodeId::R(2), bytes, digest)?;
        }
    }
    let bytes = leader_record(alloc, groups, numbers)?;
    start_one(alloc, NodeId::L(1), bytes, digest)
}

/// Nodes of all kinds start over long records, and over some of the first version.
pub fn start(alloc: Global, seed: u32, parts: u32, digest: &mut Digest) -> Result<()> {
    let mut numbers = Numbers::new(seed, 5);
    for _ in 0..rounds(ROUNDS, parts) {
        start_round(alloc, parts, &mut numbers, digest)?;
    }
    Ok(())
}
