//! Shows on figures that the records of nodes stay bounded where their floors rise; how much memory it takes, `bench/long_run.sh` measures.
//! A resource manager, an acceptor and a leader commit transactions, one after another: `long_run run TRANSACTIONS EVERY` raises the floors
//! after each EVERY of them (0: never), `long_run raise FORGOTTEN LEFT` once, to the first of the LEFT last ones. Either prints one line.
#![tactic(auto)]

mod cluster;
mod gauge;
mod member;
mod names;
mod posts;

use anyhow::{Result, bail};
use cluster::{Cluster, Lengths};
use names::Name;
use protocol::NodeId;
use std::env;
use std::time::Instant;

const USAGE: &str = "usage: long_run run TRANSACTIONS EVERY | long_run raise FORGOTTEN LEFT";

/// Commits so many transactions, and raises the floors to the next name after each so many of them.
fn run(rt: &HostRuntime, transactions: u64, every: u64) -> Result<()> {
    let mut cluster = Cluster::new(rt.alloc())?;
    for number in 0..transactions {
        cluster.commit(Name::new(number))?;
        let taken = number.saturating_add(1);
        if every > 0 && taken % every == 0 {
            cluster.raise_all(Name::new(taken))?;
        }
    }
    let Lengths {
        manager,
        acceptor,
        leader,
    } = cluster.lengths();
    println!(rt;
        "{transactions} transactions, {} committed; record bytes now and at most: manager {manager}, acceptor {acceptor}, leader {leader}",
        cluster.committed()
    )?;
    Ok(())
}

/// Raises the floor of a node. Answers the nanoseconds that it took.
fn timed(rt: &HostRuntime, cluster: &mut Cluster, who: NodeId, name: Name) -> Result<u128> {
    let begin = Instant::now(rt)?;
    cluster.raise(who, name)?;
    Ok(begin.elapsed(rt)?.as_nanos())
}

/// Commits transactions, and raises the floors to the first of the last ones.
fn raise(rt: &HostRuntime, forgotten: u64, left: u64) -> Result<()> {
    let mut cluster = Cluster::new(rt.alloc())?;
    for number in 0..forgotten.saturating_add(left) {
        cluster.commit(Name::new(number))?;
    }
    let name = Name::new(forgotten);
    let before = cluster.lengths();
    let manager = timed(rt, &mut cluster, NodeId::R(0), name)?;
    let acceptor = timed(rt, &mut cluster, NodeId::A(0), name)?;
    let leader = timed(rt, &mut cluster, NodeId::L(0), name)?;
    let after = cluster.lengths();
    println!(rt;
        "{forgotten} forgotten, {left} left; nanoseconds, and record bytes before and after: \
            manager {manager} {} {}, acceptor {acceptor} {} {}, leader {leader} {} {}",
        before.manager.now,
        after.manager.now,
        before.acceptor.now,
        after.acceptor.now,
        before.leader.now,
        after.leader.now
    )?;
    Ok(())
}

fn main(rt: HostRuntime) -> Result<()> {
    let words: Vec<String> = env::args(&rt)?.collect(rt.alloc())?;
    let [_, job, first, second] = words.as_slice() else {
        bail!("{USAGE}");
    };
    let first = first.parse::<u64>()?;
    let second = second.parse::<u64>()?;
    match job.as_str() {
        "run" => run(&rt, first, second),
        "raise" => raise(&rt, first, second),
        _ => bail!("{USAGE}"),
    }
}
