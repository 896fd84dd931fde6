//! Lines that are calls of a part.

use crate::page::Page;
use crate::stop::Stop;
use std::alloc::Global;

/// A part that lines are calls of.
pub trait Part {
    /// Makes the call that a line is, and prints its answer, to the end of the line, and in further lines what else came of it. Where
    /// the part is refused memory (`Wanted`), nothing is printed, and the part is as it was.
    fn call(&mut self, alloc: Global, line: &[u8], page: &mut Page) -> Result<(), Stop>;
}

/// Prints the beginning of a line: the call.
fn ask(line: &[u8], page: &mut Page) -> Result<(), Stop> {
    page.bytes(line)?;
    page.bytes(b" ->")
}

/// Makes a call. Where memory is refused it says so, and makes the call again.
fn call_twice<P: Part>(
    part: &mut P,
    alloc: Global,
    line: &[u8],
    page: &mut Page,
) -> Result<(), Stop> {
    ask(line, page)?;
    match part.call(alloc, line, page) {
        Err(Stop::Wanted) => {
            page.bytes(b" refused 11\n")?;
            ask(line, page)?;
            part.call(alloc, line, page)
        }
        Err(Stop::Unread) => page.bytes(b" ?\n"),
        done => done,
    }
}

/// Makes each call in turn.
pub fn run_calls<P: Part>(
    part: &mut P,
    alloc: Global,
    calls: &[String],
    page: &mut Page,
) -> Result<(), Stop> {
    for line in calls {
        call_twice(part, alloc, line.as_bytes(), page)?;
    }
    Ok(())
}
