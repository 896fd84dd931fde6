//! Messages and their bytes.

use crate::seen;
use crate::ways::{ByValue, OverBytes, run_both};
use case_lines::{Page, Part, Stop, words};
use protocol::{Address, Outgoing, SentReply};
use std::alloc::Global;
use wire::{MAX_DATAGRAM, decode, encode, view_of};

/// The codec, each call by itself.
#[derive(Drop)]
struct Codec;

/// Runs the calls of a case.
pub fn run(alloc: Global, calls: &[String], page: &mut Page) -> Result<(), Stop> {
    run_both(ByValue(Codec), OverBytes(Codec), alloc, calls, page)
}

/// What is sent, by the bytes that spell it.
pub fn outgoing(to: Address, bytes: &[u8]) -> Result<Outgoing, Stop> {
    match decode(bytes) {
        Ok(message) => Ok(Outgoing { to, message }),
        Err(_) => Err(Stop::Unread),
    }
}

/// What is sent on a message, as it is spelled.
pub fn say_reply(reply: &Option<SentReply<'_>>, page: &mut Page) -> Result<(), Stop> {
    let Some(reply) = reply else {
        return Ok(());
    };
    let mut bytes = [0; MAX_DATAGRAM];
    let len = reply.message.encode(&mut bytes);
    page.sent(&outgoing(reply.to, &bytes[..len])?)
}

impl Part for ByValue<Codec> {
    fn call(&mut self, alloc: Global, line: &[u8], page: &mut Page) -> Result<(), Stop> {
        let (verb, rest) = words::cut(line);
        match verb {
            b"encode" => {
                let mut bytes = [0; MAX_DATAGRAM];
                let len = words::datagram(alloc, rest, &mut bytes)?;
                page.hex(&bytes[..len])?;
            }
            b"decode" => match decode(&words::bytes(alloc, rest)?) {
                Ok(message) => page.message(&message)?,
                Err(refusal) => page.refusal(refusal)?,
            },
            _ => return Err(Stop::Unread),
        }
        page.end_line()
    }
}

/// The bytes of a message that is seen over bytes.
fn say_again(bytes: &[u8], page: &mut Page) -> Result<(), Stop> {
    let Ok(message) = view_of(bytes) else {
        return Err(Stop::Unread);
    };
    let mut again = [0; MAX_DATAGRAM];
    let len = encode(&message.to_message(), &mut again);
    page.hex(&again[..len])
}

impl Part for OverBytes<Codec> {
    fn call(&mut self, alloc: Global, line: &[u8], page: &mut Page) -> Result<(), Stop> {
        let (verb, rest) = words::cut(line);
        match verb {
            b"encode" => {
                let mut bytes = [0; MAX_DATAGRAM];
                let len = words::datagram(alloc, rest, &mut bytes)?;
                say_again(&bytes[..len], page)?;
            }
            b"decode" => match view_of(&words::bytes(alloc, rest)?) {
                Ok(message) => seen::say(&message, page)?,
                Err(refusal) => page.refusal(refusal)?,
            },
            _ => return Err(Stop::Unread),
        }
        page.end_line()
    }
}
