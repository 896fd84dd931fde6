//! Looks at a process, which change nothing.

use crate::stations::{Station, to_send};
use case_lines::{Page, Stop, words};
use serving::{Client, Stage};
use std::alloc::Global;

/// What the next lines of a client are.
fn stage_word(stage: &Stage) -> &'static [u8] {
    match stage {
        Stage::Proving(_) => b"proving",
        Stage::Open => b"open",
        Stage::Awaiting { .. } => b"awaiting",
    }
}

/// The lines of a text that the client at a key is to be sent.
pub fn say_lines(key: usize, text: &[u8], page: &mut Page) -> Result<(), Stop> {
    let Some(lines) = text.strip_suffix(b"\n".as_slice()) else {
        return Ok(());
    };
    for line in lines.split(|byte| *byte == b'\n') {
        page.bytes(b"to")?;
        page.number(key as u64)?;
        page.word(line)?;
        page.end_line()?;
    }
    Ok(())
}

/// A client, and what it is to be sent.
fn say_client(key: usize, client: &Client, page: &mut Page) -> Result<(), Stop> {
    page.bytes(b"client")?;
    page.number(key as u64)?;
    page.word(stage_word(client.stage()))?;
    if client.is_broken() {
        page.word(b"broken")?;
    }
    page.end_line()?;
    say_lines(key, client.output(), page)
}

/// How many clients there are, and each with what it is to be sent.
fn say_clients(station: &Station, page: &mut Page) -> Result<(), Stop> {
    let seats = &station.process.desk.clients.seats;
    page.number(seats.len() as u64)?;
    page.end_line()?;
    for key in 0..seats.capacity() {
        if let Some(client) = seats.get(key) {
            say_client(key, client, page)?;
        }
    }
    Ok(())
}

/// How many clients there are, and how many of them are to be sent something.
fn say_answered(station: &Station, page: &mut Page) -> Result<(), Stop> {
    let seats = &station.process.desk.clients.seats;
    let mut count: u64 = 0;
    for key in 0..seats.capacity() {
        match seats.get(key) {
            Some(client) if !client.output().is_empty() => count = count.saturating_add(1),
            _ => {}
        }
    }
    page.number(seats.len() as u64)?;
    page.number(count)?;
    page.end_line()
}

/// How many bytes a client is to be sent.
fn say_length(station: &mut Station, key: &[u8], page: &mut Page) -> Result<(), Stop> {
    page.number(to_send(station, key)? as u64)?;
    page.end_line()
}

/// The branches that a client of a number started and left active.
fn say_active(station: &Station, alloc: Global, number: u64, page: &mut Page) -> Result<(), Stop> {
    let names = station.process.desk.notes.branches.active_of(number)?;
    page.number(names.len() as u64)?;
    for xid in &names {
        let mut text = Vec::new(alloc);
        xid.write(&mut text)?;
        page.word(&text)?;
    }
    page.end_line()
}

/// How many requests wait that nobody is answered for, and after how many transactions is asked.
fn say_waiting(station: &Station, page: &mut Page) -> Result<(), Stop> {
    let desk = &station.process.desk;
    page.number(desk.pending.len() as u64)?;
    page.number(desk.notes.watches.len() as u64)?;
    page.end_line()
}

/// For how many milliseconds the system may be waited for.
fn say_timeout(station: &Station, page: &mut Page) -> Result<(), Stop> {
    let wait = station.process.desk.timeout(station.now);
    page.number(u64::try_from(wait.as_millis()).unwrap_or(u64::MAX))?;
    page.end_line()
}

/// A look at a process.
pub fn call(
    station: &mut Station,
    alloc: Global,
    line: &[u8],
    page: &mut Page,
) -> Result<(), Stop> {
    let (verb, rest) = words::cut(line);
    match verb {
        b"told" => say_clients(station, page),
        b"answered" => say_answered(station, page),
        b"length" => say_length(station, rest, page),
        b"active" => say_active(station, alloc, u64::from(words::number(rest)?), page),
        b"waiting" => say_waiting(station, page),
        b"timeout" => say_timeout(station, page),
        _ => Err(Stop::Unread),
    }
}
