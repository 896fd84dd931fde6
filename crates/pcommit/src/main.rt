//! Paxos Commit with X/Open XA branches.
#![tactic(auto)]

use std::env;
use std::process::ExitCode;
use udp_edge::{Rejected, program, reject};

fn main(rt: HostRuntime) -> ExitCode {
    let status = match words(&rt) {
        Ok(words) => program(rt, words.as_slice(), &mut rt.stdout(), &mut rt.stderr()),
        Err(rejected) => reject(rejected, &mut rt.stderr()),
    };
    ExitCode::from(status)
}

/// The words of the command line, the program's own name first.
fn words(rt: &HostRuntime) -> Result<Vec<String>, Rejected> {
    let mut words = Vec::new(rt.alloc());
    // `collect` would ask again for less where its first growth is refused
    for word in env::args(rt)? {
        words.push(word)?;
    }
    Ok(words)
}
