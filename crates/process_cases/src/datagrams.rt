//! The datagrams that come to a process, and those that went.

use crate::stations::Station;
use case_lines::{Page, Stop, wanted, words};
use letter_port::LetterPort;
use letters::take_message;
use port::{FakePort, Letter};
use std::alloc::Global;
use wire::{MAX_DATAGRAM, decode};

/// A datagram comes. The port is a new one: what went before is forgotten.
pub fn put(
    station: &mut Station,
    alloc: Global,
    datagram: &[u8],
    page: &mut Page,
) -> Result<(), Stop> {
    let mut port = FakePort::new(alloc, 0);
    wanted(port.put(datagram))?;
    station.process.port = LetterPort::new(alloc, port, station.sizes)?;
    station.process.desk.has_datagrams = true;
    page.finished(Ok(()))
}

/// The letter of messages, as a trace has them; between two stands `; `.
pub fn letter(alloc: Global, line: &[u8]) -> Result<Vec<u8>, Stop> {
    let mut letter = Vec::from_slice(alloc, &[3])?;
    for text in line.split(|byte| *byte == b';') {
        let mut bytes = [0; MAX_DATAGRAM];
        let message = text.strip_prefix(b" ").unwrap_or(text);
        let len = words::datagram(alloc, message, &mut bytes)?;
        letter.extend_from_slice(&(len as u16).to_be_bytes())?;
        letter.extend_from_slice(&bytes[..len])?;
    }
    Ok(letter)
}

/// The messages of a letter, as a trace has them; between two stands `; `. What is no message, as a notice, is hex digits.
fn say_messages(letter: &[u8], page: &mut Page) -> Result<(), Stop> {
    let mut rest = letter.get(1..).unwrap_or(&[]);
    for place in 0..letter.len() {
        let Some((message, more)) = take_message(rest) else {
            return Ok(());
        };
        if place > 0 {
            page.bytes(b";")?;
        }
        match decode(message) {
            Ok(message) => page.message(&message)?,
            Err(_) => page.hex(message)?,
        }
        rest = more;
    }
    Ok(())
}

/// A line for a letter that went.
fn say_letter(letter: &Letter, page: &mut Page) -> Result<(), Stop> {
    page.bytes(b"gone to")?;
    page.node(letter.receiver)?;
    say_messages(letter.bytes.as_slice(), page)?;
    page.end_line()
}

/// What has gone out since this was last asked, or a datagram came: how many letters, and a line for each.
pub fn say_gone(station: &mut Station, alloc: Global, page: &mut Page) -> Result<(), Stop> {
    let gone = station.process.port.port().gone();
    page.number(gone.len() as u64)?;
    page.end_line()?;
    for letter in gone {
        say_letter(letter, page)?;
    }
    station.process.port = LetterPort::new(alloc, FakePort::new(alloc, 0), station.sizes)?;
    Ok(())
}
