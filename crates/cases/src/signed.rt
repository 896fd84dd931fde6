//! A port whose datagrams are signed, over a carrier in memory, and one that signs nothing.

use crate::ports;
use case_lines::{Page, Part, Stop, run_calls, wanted, words};
use hmac::Key;
use port::{FakePort, MAX_TAKEN, Port};
use protocol::NodeId;
use signed_port::{DIGEST, PlainPort, SignedPort};
use std::alloc::Global;

/// A node's key, its cluster's digest, and itself.
#[derive(Drop)]
struct Signing {
    key: Key,
    digest: [u8; DIGEST],
    who: NodeId,
}

/// A node's port, new at each call.
#[derive(Drop)]
struct Station {
    signing: Option<Signing>,
}

/// The key, the digest and the node of words. No key, `-`: a port that signs nothing.
fn signing_of(alloc: Global, rest: &[u8]) -> Result<Option<Signing>, Stop> {
    let (key, rest) = words::cut(rest);
    if key == b"-".as_slice() {
        return Ok(None);
    }
    let (digest, name) = words::cut(rest);
    let mut all = [0; DIGEST];
    let bytes = words::bytes(alloc, digest)?;
    if bytes.len() != DIGEST {
        return Err(Stop::Unread);
    }
    all.copy_from_slice(&bytes);
    Ok(Some(Signing {
        key: Key::new(&words::bytes(alloc, key)?),
        digest: all,
        who: words::node(name)?,
    }))
}

/// Runs the calls of a case.
pub fn run(alloc: Global, rest: &[u8], calls: &[String], page: &mut Page) -> Result<(), Stop> {
    let signing = signing_of(alloc, rest)?;
    run_calls(&mut Station { signing }, alloc, calls, page)
}

/// A carrier at which a datagram is waiting.
fn carrier(alloc: Global, datagram: &[u8]) -> Result<FakePort, Stop> {
    let mut carrier = FakePort::new(alloc, 0);
    wanted(carrier.put(datagram))?;
    Ok(carrier)
}

/// A port of a node over a carrier.
fn signed(carrier: FakePort, signing: &Signing, who: NodeId) -> SignedPort<FakePort> {
    let key = signing.key.clone().unwrap();
    SignedPort::new(carrier, key, signing.digest, who)
}

/// What a port gives of what its carrier has, and how often it has failed.
fn say_received<P: Port>(port: &mut P, page: &mut Page) -> Result<(), Stop> {
    let mut buffer = [0; MAX_TAKEN];
    match port.recv(&mut buffer) {
        Ok(Some(len)) => page.hex(&buffer[..len.min(MAX_TAKEN)])?,
        Ok(None) => page.word(b"none")?,
        Err(refusal) => page.refusal(refusal)?,
    }
    page.number(port.faults())
}

/// A datagram comes; and how many were dropped for their signature.
fn receive(signing: Option<&Signing>, carrier: FakePort, page: &mut Page) -> Result<(), Stop> {
    match signing {
        Some(signing) => {
            let mut port = signed(carrier, signing, signing.who);
            say_received(&mut port, page)?;
            page.number(port.dropped())
        }
        None => say_received(&mut PlainPort::new(carrier), page),
    }
}

/// A datagram with a bit turned.
fn flipped(alloc: Global, datagram: &[u8], at: usize) -> Result<Vec<u8>, Stop> {
    let mut bytes = Vec::new(alloc);
    for (i, byte) in datagram.iter().enumerate() {
        let mask = if i == at / 8 { 1 << (at % 8) } else { 0 };
        bytes.push(byte ^ mask)?;
    }
    Ok(bytes)
}

/// How many of a short datagram's bits may be turned one by one so that it is still taken.
fn taken_flips(alloc: Global, signing: &Signing, datagram: &[u8]) -> Result<u64, Stop> {
    let mut taken: u64 = 0;
    let mut buffer = [0; MAX_TAKEN];
    for at in 0..8 * datagram.len().min(64) {
        let carrier = carrier(alloc, &flipped(alloc, datagram, at)?)?;
        let mut port = signed(carrier, signing, signing.who);
        if port.recv(&mut buffer).is_ok() {
            taken = taken.saturating_add(1);
        }
    }
    Ok(taken)
}

/// A node sends bytes to another: what has gone, or the refusal.
fn send<P: Port>(
    port: &mut P,
    receiver: NodeId,
    bytes: &[u8],
    page: &mut Page,
) -> Result<(), Stop> {
    page.done(port.send(receiver, bytes))
}

/// A node sends so many zeros to another, which takes what has gone: how many bytes have, and how many of them are given there.
fn say_long(
    alloc: Global,
    signing: &Signing,
    receiver: NodeId,
    count: u32,
    page: &mut Page,
) -> Result<(), Stop> {
    let mut zeros = Vec::new(alloc);
    zeros.resize(count as usize, 0)?;
    let mut port = signed(FakePort::new(alloc, 0), signing, signing.who);
    send(&mut port, receiver, &zeros, page)?;
    for letter in port.carrier().gone() {
        let bytes = letter.bytes.as_slice();
        page.number(bytes.len() as u64)?;
        let mut there = signed(carrier(alloc, bytes)?, signing, receiver);
        let mut buffer = [0; MAX_TAKEN];
        if let Ok(Some(len)) = there.recv(&mut buffer) {
            page.number(len as u64)?;
        }
    }
    Ok(())
}

/// A node sends bytes to another: what its carrier has then.
fn say_sent(
    signing: Option<&Signing>,
    alloc: Global,
    rest: &[u8],
    page: &mut Page,
) -> Result<(), Stop> {
    let (receiver, bytes) = words::cut(rest);
    let receiver = words::node(receiver)?;
    let bytes = words::bytes(alloc, bytes)?;
    let carrier = FakePort::new(alloc, 0);
    match signing {
        Some(signing) => {
            let mut port = signed(carrier, signing, signing.who);
            send(&mut port, receiver, &bytes, page)?;
            ports::say_gone(port.carrier(), page)
        }
        None => {
            let mut port = PlainPort::new(carrier);
            send(&mut port, receiver, &bytes, page)?;
            ports::say_gone(port.carrier(), page)
        }
    }
}

impl Part for Station {
    fn call(&mut self, alloc: Global, line: &[u8], page: &mut Page) -> Result<(), Stop> {
        let (verb, rest) = words::cut(line);
        match (verb, self.signing.as_ref()) {
            (b"recv", signing) => receive(
                signing,
                carrier(alloc, &words::bytes(alloc, rest)?)?,
                page,
            )?,
            (b"send", signing) => return say_sent(signing, alloc, rest, page),
            (b"flips", Some(signing)) => page.number(taken_flips(
                alloc,
                signing,
                &words::bytes(alloc, rest)?,
            )?)?,
            (b"long", Some(signing)) => {
                let (receiver, count) = words::cut(rest);
                say_long(
                    alloc,
                    signing,
                    words::node(receiver)?,
                    words::number(count)?,
                    page,
                )?;
            }
            _ => return Err(Stop::Unread),
        }
        page.end_line()
    }
}
