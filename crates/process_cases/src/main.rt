//! Cases of the process of a node without its sockets, and what each gave. A case is a few lines: the first says which node it is and how
//! the process begins, each further one is something that happens to it, or a look at it.
#![tactic(auto)]

mod clients;
mod datagrams;
mod devices;
mod looks;
mod processes;
mod settings;
mod stations;
mod writing;

use case_lines::{Page, Program, Stop, run_program, words};
use std::process::ExitCode;

/// Runs cases of processes.
#[derive(Drop)]
struct Cases;

impl Program for Cases {
    fn run(
        &self,
        rt: HostRuntime,
        head: &[u8],
        calls: &[String],
        page: &mut Page,
    ) -> Result<(), Stop> {
        match words::cut(head) {
            (b"process", rest) => processes::run(rt, rest, calls, page),
            _ => Err(Stop::Unread),
        }
    }
}

fn main(rt: HostRuntime) -> ExitCode {
    run_program(&Cases, rt)
}
