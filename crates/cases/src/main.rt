//! Calls of single parts, read as lines, and what each gave. A case is a few lines: the first names the part and how it begins, each
//! further one is a call of it.
#![tactic(auto)]

mod acceptors;
mod ballots;
mod clusters;
mod codec;
mod files;
mod groups;
mod hmacs;
mod leaders;
mod letter_ports;
mod managers;
mod nodes;
mod numbers;
mod parts;
mod ports;
mod records;
mod seen;
mod signed;
mod tables;
mod texts;
mod values;
mod ways;

use case_lines::{Page, Program, Stop, run_program};
use std::process::ExitCode;

/// Runs cases of the parts that their heads name.
#[derive(Drop)]
struct Cases;

impl Program for Cases {
    fn run(
        &self,
        rt: HostRuntime,
        head: &[u8],
        calls: &[String],
        page: &mut Page,
    ) -> Result<(), Stop> {
        parts::run(rt, head, calls, page)
    }
}

fn main(rt: HostRuntime) -> ExitCode {
    run_program(&Cases, rt)
}
