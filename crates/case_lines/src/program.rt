//! Programs that run cases. A case is a few lines: the first says of what it is and how that begins, each further one is a call of it.

use crate::page::Page;
use crate::stop::Stop;
use std::process::ExitCode;

/// What runs the cases of a program.
pub trait Program {
    /// Makes the calls of a case with this head, and prints what each gave.
    fn run(
        &self,
        rt: HostRuntime,
        head: &[u8],
        calls: &[String],
        page: &mut Page,
    ) -> Result<(), Stop>;
}

/// Runs the cases of standard input, and prints what came of each. The status is 3 where one can't be run to its end.
pub fn run_program<P: Program>(program: &P, rt: HostRuntime) -> ExitCode {
    match run_all(program, rt) {
        Ok(()) => ExitCode::from(0),
        Err(_) => ExitCode::from(3),
    }
}

/// Runs each case of standard input. Lines that begin with `#` and empty lines are passed over; an empty line ends a case.
fn run_all<P: Program>(program: &P, rt: HostRuntime) -> Result<(), Stop> {
    let mut lines = Vec::new(rt.alloc());
    for line in rt.lines(rt.alloc()) {
        let line = line?;
        if line.as_bytes().is_empty() {
            run_one(program, rt, &lines)?;
            lines.clear();
        } else if !line.as_bytes().starts_with(b"#") {
            lines.push(line)?;
        }
    }
    run_one(program, rt, &lines)
}

/// Runs a case, if it has a line, and prints what came of it.
fn run_one<P: Program>(program: &P, rt: HostRuntime, lines: &[String]) -> Result<(), Stop> {
    let [head, calls @ ..] = lines else {
        return Ok(());
    };
    let mut page = Page::new(rt.alloc())?;
    page.bytes(head.as_bytes())?;
    page.end_line()?;
    let done = program.run(rt, head.as_bytes(), calls, &mut page);
    page.end_line()?;
    page.print(&rt)?;
    done
}
