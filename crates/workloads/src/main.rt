//! The jobs that users wait for, on input that is made from a seed: `workloads JOB SEED`, or `workloads small SEED` for a short form of
//! all. Prints, for each job, a sum over all that came of it. `bench/run` times it; docs/PERF.md says what for.
#![tactic(auto)]

mod clusters;
mod digest;
mod frames;
mod jobs;
mod kinds;
mod names;
mod numbers;
mod payments;
mod posts;
mod scripts;
mod starts;
mod tables;

use anyhow::{Result, bail};
use digest::Digest;
use std::alloc::Global;
use std::env;

/// The names of the jobs.
const JOBS: [&str; 6] = ["simulate", "audit", "tables", "draw", "start", "cluster"];

/// In how many parts a small job is one.
const SMALL: u32 = 50;

/// The sum of a job, of which this is one of so many parts.
fn sum_of(alloc: Global, job: &str, seed: u32, parts: u32) -> Result<u64> {
    let mut digest = Digest::new();
    match job {
        "simulate" => jobs::simulate(alloc, seed, parts, &mut digest)?,
        "audit" => jobs::audit(alloc, seed, parts, &mut digest)?,
        "tables" => jobs::tables(alloc, seed, parts, &mut digest)?,
        "draw" => jobs::draw(alloc, seed, parts, &mut digest)?,
        "start" => starts::start(alloc, seed, parts, &mut digest)?,
        "cluster" => clusters::commit(alloc, seed, parts, &mut digest)?,
        _ => bail!("usage: workloads small|simulate|audit|tables|draw|start|cluster SEED"),
    }
    Ok(digest.sum())
}

fn main(rt: HostRuntime) -> Result<()> {
    let words: Vec<String> = env::args(&rt)?.collect(rt.alloc())?;
    let [_, job, seed] = words.as_slice() else {
        bail!("usage: workloads JOB SEED");
    };
    let seed = seed.parse::<u32>()?;
    if job.as_str() == "small" {
        for name in JOBS {
            let sum = sum_of(rt.alloc(), name, seed, SMALL)?;
            println!(rt; "{name} {sum:016x}")?;
        }
        return Ok(());
    }
    let sum = sum_of(rt.alloc(), job.as_str(), seed, 1)?;
    println!(rt; "{job} {sum:016x}")?;
    Ok(())
}
