//! Parts that each line calls in two ways: by value, and over bytes as nodes do. Both have to come to the same.

use case_lines::{Page, Part, Stop, run_calls};
use std::alloc::Global;

/// A part that is called in one way.
#[derive(Drop)]
pub struct Alone<T>(pub T);

/// A part that is called by value: facts, messages and entries are built.
#[derive(Drop)]
pub struct ByValue<T>(pub T);

/// A part that is called over bytes: facts, messages and entries are seen over those that spell them.
#[derive(Drop)]
pub struct OverBytes<T>(pub T);

/// A part in each way, and what is printed of each.
#[derive(Drop)]
struct Both<P, Q> {
    one: P,
    other: Q,
    first: Page,
    second: Page,
}

/// Makes each call in turn, in both ways.
pub fn run_both<P: Part + Drop, Q: Part + Drop>(
    one: P,
    other: Q,
    alloc: Global,
    calls: &[String],
    page: &mut Page,
) -> Result<(), Stop> {
    let first = Page::new(alloc)?;
    let second = Page::new(alloc)?;
    let mut both = Both {
        one,
        other,
        first,
        second,
    };
    run_calls(&mut both, alloc, calls, page)
}

/// What was done behind a call that can't be made again: where it wanted memory, the case ends.
fn behind(done: Result<(), Stop>) -> Result<(), Stop> {
    match done {
        Err(Stop::Wanted) => Err(Stop::Ended),
        done => done,
    }
}

/// Makes a call behind that of the other way. Where memory is refused it makes the call again.
fn call_behind<P: Part>(
    part: &mut P,
    alloc: Global,
    line: &[u8],
    page: &mut Page,
) -> Result<(), Stop> {
    let done = match part.call(alloc, line, page) {
        Err(Stop::Wanted) => behind(part.call(alloc, line, page)),
        done => done,
    };
    match done {
        Err(Stop::Unread) => page.bytes(b" ?\n"),
        done => done,
    }
}

impl<P: Part, Q: Part> Part for Both<P, Q> {
    /// Makes the call in both ways, and prints what came of the call by value.
    fn call(&mut self, alloc: Global, line: &[u8], page: &mut Page) -> Result<(), Stop> {
        self.first.clear();
        self.one.call(alloc, line, &mut self.first)?;
        self.second.clear();
        call_behind(&mut self.other, alloc, line, &mut self.second)?;
        page.bytes(self.first.text())?;
        page.compare(&self.first, &self.second)
    }
}
