//! What clients write.

use crate::looks;
use crate::stations::{Station, client_at, go_on, or_close, to_send, work};
use case_lines::{Page, Stop, words};
use std::alloc::Global;

/// Bytes of a client come.
fn hear(station: &mut Station, key: &[u8], bytes: &[u8], page: &mut Page) -> Result<(), Stop> {
    let client = client_at(station, key)?;
    let done = client.hear(bytes);
    or_close(client, done, page)
}

/// Bytes of a client come: those that a text says, and then others.
fn hear_text(
    station: &mut Station,
    alloc: Global,
    rest: &[u8],
    behind: &[u8],
    page: &mut Page,
) -> Result<(), Stop> {
    let (key, text) = words::cut(rest);
    let mut bytes = Vec::new(alloc);
    words::unescaped(alloc, text, &mut bytes)?;
    bytes.extend_from_slice(behind)?;
    hear(station, key, &bytes, page)
}

/// So many bytes of a client come, of a line that doesn't end.
fn hear_long(
    station: &mut Station,
    alloc: Global,
    rest: &[u8],
    page: &mut Page,
) -> Result<(), Stop> {
    let (key, count) = words::cut(rest);
    let mut bytes = Vec::new(alloc);
    bytes.resize(words::number(count)? as usize, b'x')?;
    hear(station, key, &bytes, page)
}

/// A line of a client comes so many times.
fn hear_often(
    station: &mut Station,
    alloc: Global,
    rest: &[u8],
    page: &mut Page,
) -> Result<(), Stop> {
    let (key, rest) = words::cut(rest);
    let (count, line) = words::cut(rest);
    let mut bytes = Vec::new(alloc);
    for _ in 0..words::number(count)? {
        bytes.extend_from_slice(line)?;
        bytes.push(b'\n')?;
    }
    hear(station, key, &bytes, page)
}

/// A byte comes from a client, and what waits is done. Whether there is more to be sent to it then.
fn hear_byte(station: &mut Station, key: &[u8], byte: u8) -> Result<bool, Stop> {
    let before = to_send(station, key)?;
    client_at(station, key)?.hear(&[byte])?;
    work(station)?;
    Ok(to_send(station, key)? > before)
}

/// Each byte of a text comes from a client by itself. Behind which ones there was more to be sent to it, counted from 1.
fn hear_slowly(
    station: &mut Station,
    alloc: Global,
    rest: &[u8],
    page: &mut Page,
) -> Result<(), Stop> {
    let (key, text) = words::cut(rest);
    let mut bytes = Vec::new(alloc);
    words::unescaped(alloc, text, &mut bytes)?;
    let mut count: u64 = 0;
    for byte in &bytes {
        count = count.saturating_add(1);
        if hear_byte(station, key, *byte)? {
            page.number(count)?;
        }
    }
    go_on(station)?;
    page.end_line()
}

/// What a client writes; else a look.
pub fn call(
    station: &mut Station,
    alloc: Global,
    line: &[u8],
    page: &mut Page,
) -> Result<(), Stop> {
    let (verb, rest) = words::cut(line);
    match verb {
        b"begins" => hear_text(station, alloc, rest, b"", page),
        b"writes" => hear_text(station, alloc, rest, b"\n", page),
        b"long" => hear_long(station, alloc, rest, page),
        b"often" => hear_often(station, alloc, rest, page),
        b"slowly" => hear_slowly(station, alloc, rest, page),
        _ => looks::call(station, alloc, line, page),
    }
}
