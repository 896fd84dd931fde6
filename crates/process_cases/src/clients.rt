//! The clients of a process: they come, are sent what they are told, and go.

use crate::looks::say_lines;
use crate::stations::{Station, client_at, or_close};
use crate::writing;
use case_lines::{Page, Stop, words};
use serving::{Challenge, Client, Stage, put_challenge};
use std::alloc::Global;
use xid::Refusal;

/// The challenge whose 16 bytes a word has in hex digits.
fn challenge_of(alloc: Global, word: &[u8]) -> Result<Challenge, Stop> {
    let bytes = words::bytes(alloc, word)?;
    let mut challenge = [0; 16];
    if bytes.len() != challenge.len() {
        return Err(Stop::Unread);
    }
    challenge.copy_from_slice(&bytes);
    Ok(challenge)
}

/// A client comes; one that has a key to prove, by a challenge. Its key among clients, if there was memory for it.
fn take_in(station: &mut Station, alloc: Global, word: &[u8]) -> Result<Option<usize>, Stop> {
    let clients = &mut station.process.desk.clients;
    if word.is_empty() {
        return Ok(clients.come(Stage::Open, &[], station.now).ok());
    }
    let challenge = challenge_of(alloc, word)?;
    let mut greeting = Vec::new(alloc);
    put_challenge(&mut greeting, &challenge)?;
    let come = clients.come(Stage::Proving(challenge), &greeting, station.now);
    Ok(come.ok())
}

/// A client comes. One for which there is no memory is closed.
fn come(station: &mut Station, alloc: Global, word: &[u8], page: &mut Page) -> Result<(), Stop> {
    match take_in(station, alloc, word)? {
        Some(key) => {
            page.number(key as u64)?;
            page.end_line()
        }
        None => page.finished(Err(Refusal::NoMemory)),
    }
}

/// So many clients come, and each writes a line.
fn come_together(
    station: &mut Station,
    alloc: Global,
    rest: &[u8],
    page: &mut Page,
) -> Result<(), Stop> {
    let (count, line) = words::cut(rest);
    let mut bytes = Vec::from_slice(alloc, line)?;
    bytes.push(b'\n')?;
    for _ in 0..words::number(count)? {
        let clients = &mut station.process.desk.clients;
        let key = clients.come(Stage::Open, &[], station.now)?;
        if let Some(client) = clients.seats.get_mut(key) {
            client.hear(&bytes)?;
        }
    }
    page.finished(Ok(()))
}

/// So many bytes were sent to a client.
fn sent(station: &mut Station, rest: &[u8], page: &mut Page) -> Result<(), Stop> {
    let (key, count) = words::cut(rest);
    let count = words::number(count)? as usize;
    let client = client_at(station, key)?;
    if count > client.output().len() {
        return Err(Stop::Unread);
    }
    let done = client.sent(count);
    or_close(client, done, page)
}

/// A client is sent all that it is to be sent, unless it is broken.
fn send(key: usize, client: &mut Client, page: &mut Page) -> Result<(), Stop> {
    if client.is_broken() {
        return Ok(());
    }
    say_lines(key, client.output(), page)?;
    let count = client.output().len();
    Ok(client.sent(count)?)
}

/// Each client is sent all that it is to be sent.
pub fn send_all(station: &mut Station, page: &mut Page) -> Result<(), Stop> {
    let seats = &mut station.process.desk.clients.seats;
    for key in 0..seats.capacity() {
        if let Some(client) = seats.get_mut(key) {
            send(key, client, page)?;
        }
    }
    Ok(())
}

/// Clients that are gone or too slow are let go.
pub fn sweep(station: &mut Station, page: &mut Page) -> Result<(), Stop> {
    let desk = &mut station.process.desk;
    for key in 0..desk.clients.seats.capacity() {
        if desk.is_gone(key, station.now) {
            desk.let_go(key)?;
            page.bytes(b"went")?;
            page.number(key as u64)?;
            page.end_line()?;
        }
    }
    Ok(())
}

/// No more comes of a client.
fn end(station: &mut Station, key: &[u8], page: &mut Page) -> Result<(), Stop> {
    client_at(station, key)?.end();
    page.finished(Ok(()))
}

/// A client breaks off.
fn break_off(station: &mut Station, key: &[u8], page: &mut Page) -> Result<(), Stop> {
    client_at(station, key)?.break_off();
    page.finished(Ok(()))
}

/// What a client does; else what it writes, or a look.
pub fn call(
    station: &mut Station,
    alloc: Global,
    line: &[u8],
    page: &mut Page,
) -> Result<(), Stop> {
    let (verb, rest) = words::cut(line);
    match verb {
        b"comes" => come(station, alloc, rest, page),
        b"together" => come_together(station, alloc, rest, page),
        b"sent" => sent(station, rest, page),
        b"ends" => end(station, rest, page),
        b"breaks" => break_off(station, rest, page),
        _ => writing::call(station, alloc, line, page),
    }
}
