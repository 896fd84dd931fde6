//! The clock, the record and the port of a process.

use crate::clients;
use crate::datagrams::{letter, put, say_gone};
use crate::stations::{Station, later};
use case_lines::{Page, Stop, words};
use std::alloc::Global;

/// Time passes by so many milliseconds, for the clock too.
fn pass(station: &mut Station, wait: u64, page: &mut Page) -> Result<(), Stop> {
    station.now = later(station.now, wait);
    let terms = &mut station.process.desk.terms;
    terms.clock = terms.clock.saturating_add(wait);
    page.finished(Ok(()))
}

/// The clock is set.
fn set_clock(station: &mut Station, clock: u64, page: &mut Page) -> Result<(), Stop> {
    station.process.desk.terms.clock = clock;
    page.finished(Ok(()))
}

/// The system says from now on that the record has so many bytes.
fn set_record(station: &mut Station, len: u64, page: &mut Page) -> Result<(), Stop> {
    station.gauges.record = len;
    page.finished(Ok(()))
}

/// The next append fails, and so many of its bytes are kept.
fn tear(station: &mut Station, kept: usize, page: &mut Page) -> Result<(), Stop> {
    station.process.node.arm(kept);
    page.finished(Ok(()))
}

/// What comes from the clock, the record or the port; else what a client does, or a look.
pub fn call(
    station: &mut Station,
    alloc: Global,
    line: &[u8],
    page: &mut Page,
) -> Result<(), Stop> {
    let (verb, rest) = words::cut(line);
    match verb {
        b"passes" => pass(station, u64::from(words::number(rest)?), page),
        b"clock" => set_clock(station, u64::from(words::number(rest)?), page),
        b"record" => set_record(station, u64::from(words::number(rest)?), page),
        b"tear" => tear(station, words::number(rest)? as usize, page),
        b"put" => put(station, alloc, &words::bytes(alloc, rest)?, page),
        b"letter" => put(station, alloc, &letter(alloc, rest)?, page),
        b"gone" => say_gone(station, alloc, page),
        _ => clients::call(station, alloc, line, page),
    }
}
