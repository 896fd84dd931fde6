//! `pcommit_picture FILE`: the picture of a trace, as an SVG on standard output.
#![tactic(auto)]

mod printing;

use printing::{misused, program, refused};
use std::process::ExitCode;
use std::{env, io};
use xid::Refusal;

fn main(rt: HostRuntime) -> ExitCode {
    let status = match words(&rt) {
        Ok(words) => program(rt, words.as_slice(), &mut rt.stdout(), &mut rt.stderr()),
        Err(error) => match error.kind() {
            io::ErrorKind::OutOfMemory => refused(Refusal::NoMemory, &mut rt.stderr()),
            _ => misused(&mut rt.stderr()),
        },
    };
    ExitCode::from(status)
}

/// The words of the command line, the program's own name first.
fn words(rt: &HostRuntime) -> io::Result<Vec<String>> {
    let mut words = Vec::new(rt.alloc());
    // `collect` would ask again for less where its first growth is refused
    for word in env::args(rt)? {
        words.push(word)?;
    }
    Ok(words)
}
