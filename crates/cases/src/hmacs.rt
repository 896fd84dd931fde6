//! Tags of messages.

use case_lines::{Page, Part, Stop, run_calls, words};
use hmac::{hmac, is_same};
use std::alloc::Global;

/// Tags, each call by itself.
#[derive(Drop)]
struct Tags;

/// Runs the calls of a case.
pub fn run(alloc: Global, calls: &[String], page: &mut Page) -> Result<(), Stop> {
    run_calls(&mut Tags, alloc, calls, page)
}

impl Part for Tags {
    fn call(&mut self, alloc: Global, line: &[u8], page: &mut Page) -> Result<(), Stop> {
        let (verb, rest) = words::cut(line);
        let (first, second) = words::cut(rest);
        let first = words::bytes(alloc, first)?;
        let second = words::bytes(alloc, second)?;
        match verb {
            b"tag" => page.hex(&hmac(&first, &second))?,
            b"same" => page.truth(is_same(&first, &second))?,
            _ => return Err(Stop::Unread),
        }
        page.end_line()
    }
}
