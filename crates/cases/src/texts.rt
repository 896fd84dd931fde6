//! Scripts and traces as texts. In a call `\0a` is the byte of these two hex digits.

use case_lines::{Page, Part, Stop, run_calls, wanted, words};
use net_script::{read_script, read_trace, write_trace};
use std::alloc::Global;
use xid::Refusal;

/// What the bytes of calls follow.
#[derive(Drop)]
struct Behind<'a> {
    head: &'a [u8],
}

/// Runs the calls of a case of scripts: each call stands behind the head and a line feed, or alone where the head is empty.
pub fn run_scripts(
    alloc: Global,
    head: &[u8],
    calls: &[String],
    page: &mut Page,
) -> Result<(), Stop> {
    run_calls(&mut Behind { head }, alloc, calls, page)
}

impl Part for Behind<'_> {
    /// How many tables and commands there are, or the refusal.
    fn call(&mut self, alloc: Global, line: &[u8], page: &mut Page) -> Result<(), Stop> {
        let mut text = Vec::new(alloc);
        text.extend_from_slice(self.head)?;
        if !self.head.is_empty() {
            text.push(b'\n')?;
        }
        words::unescaped(alloc, words::plain(line), &mut text)?;
        match read_script(alloc, &text) {
            Ok(script) => {
                page.number(script.tables.as_slice().len() as u64)?;
                page.number(script.commands.into_vec(alloc)?.len() as u64)?;
            }
            Err(Refusal::NoMemory) => return Err(Stop::Wanted),
            Err(refusal) => page.refusal(refusal)?,
        }
        page.end_line()
    }
}

/// Reads the lines of a case as a trace, and writes it again, or says why it is refused.
pub fn run_trace(alloc: Global, calls: &[String], page: &mut Page) -> Result<(), Stop> {
    let mut text = Vec::new(alloc);
    for line in calls {
        words::unescaped(alloc, line.as_bytes(), &mut text)?;
        text.push(b'\n')?;
    }
    match read_trace(alloc, &text) {
        Ok(trace) => page.bytes(&wanted(write_trace(alloc, &trace))?),
        Err(refusal) => {
            page.bytes(b"->")?;
            page.refusal(refusal)?;
            page.end_line()
        }
    }
}
