//! The words of a line.

ghost use Rattle.std.specs.Prelude.{◌≤◌, IfOk};

use crate::stop::Stop;
use ballot::Report;
use net_script::{Entry, read_trace};
use node_core::Config;
use protocol::NodeId;
use std::alloc::Global;
use wire::{MAX_DATAGRAM, MAX_MESSAGE_BYTES, Message, encode};
use xid::{Refusal, Sequence, Tx, Vote, Xid, text};

/// The first word of a line, and what follows the space after it.
pub fn cut(line: &[u8]) -> (&[u8], &[u8]) {
    match text::split_once(line, b' ') {
        Some(parts) => parts,
        None => (line, &[]),
    }
}

/// The part before a mark, and the part after it.
pub fn cut_at(word: &[u8], mark: u8) -> Result<(&[u8], &[u8]), Stop> {
    text::split_once(word, mark).ok_or(Stop::Unread)
}

/// The number that a word is.
pub fn number(word: &[u8]) -> Result<u32, Stop> {
    text::number(word).ok_or(Stop::Unread)
}

/// The number below 256 that a word is.
pub fn small(word: &[u8]) -> Result<u8, Stop> {
    match u8::try_from(number(word)?) {
        Ok(number) => Ok(number),
        Err(_) => Err(Stop::Unread),
    }
}

/// The number behind a letter.
fn lettered(word: &[u8], letter: u8) -> Option<u8> {
    let [first, digits @ ..] = word else {
        return None;
    };
    if *first != letter {
        return None;
    }
    small(digits).ok()
}

/// The node that a word names, as a0, l1 or r2.
pub fn node(word: &[u8]) -> Result<NodeId, Stop> {
    if let Some(number) = lettered(word, b'a') {
        return Ok(NodeId::A(number));
    }
    if let Some(number) = lettered(word, b'l') {
        return Ok(NodeId::L(number));
    }
    match lettered(word, b'r') {
        Some(number) => Ok(NodeId::R(number)),
        None => Err(Stop::Unread),
    }
}

/// The name of a branch.
pub fn xid(word: &[u8]) -> Result<Xid, Stop> {
    match Xid::read(word) {
        Ok(xid) => Ok(xid),
        Err(_) => Err(Stop::Unread),
    }
}

/// A transaction.
pub fn tx(word: &[u8]) -> Result<Tx, Stop> {
    match Tx::read(word) {
        Ok(tx) => Ok(tx),
        Err(_) => Err(Stop::Unread),
    }
}

/// A vote.
pub fn vote(word: &[u8]) -> Result<Vote, Stop> {
    if word == b"prepared".as_slice() {
        return Ok(Vote::Prepared);
    }
    if word == b"aborted".as_slice() {
        return Ok(Vote::Aborted);
    }
    Err(Stop::Unread)
}

/// What an acceptor reports: `none`, or a ballot and a vote, as 2:prepared.
pub fn report(word: &[u8]) -> Result<Report, Stop> {
    if word == b"none".as_slice() {
        return Ok(None);
    }
    let (ballot, word) = cut_at(word, b':')?;
    Ok(Some((number(ballot)?, vote(word)?)))
}

/// The bytes whose hex digits a word is, `-` for none.
pub fn bytes(alloc: Global, word: &[u8]) -> Result<Vec<u8>, Stop> {
    if word == b"-".as_slice() {
        return Ok(Vec::new(alloc));
    }
    Ok(hex::decode(alloc, word)?)
}

/// The bytes of a word as they are, `-` for none.
pub fn plain(word: &[u8]) -> &[u8] {
    if word == b"-".as_slice() { &[] } else { word }
}

/// The bytes that a text says are put behind others: `\0a` is the byte of these two hex digits.
pub fn unescaped(alloc: Global, text: &[u8], out: &mut Vec<u8>) -> Result<(), Stop> {
    for (i, piece) in text.split(|byte| *byte == b'\\').enumerate() {
        match piece {
            [first, second, rest @ ..] if i > 0 => {
                out.extend_from_slice(&bytes(alloc, &[*first, *second])?)?;
                out.extend_from_slice(rest)?;
            }
            _ if i > 0 => return Err(Stop::Unread),
            _ => out.extend_from_slice(piece)?,
        }
    }
    Ok(())
}

/// The message that is sent in an entry of a trace.
fn sent_message(entry: Entry) -> Result<Message, Stop> {
    let Entry::Step(step) = entry else {
        return Err(Stop::Unread);
    };
    match step.sent.as_slice() {
        [sent] => Ok(sent.message),
        _ => Err(Stop::Unread),
    }
}

/// The message that words say, as a trace has them.
pub fn message(alloc: Global, words: &[u8]) -> Result<Message, Stop> {
    let mut text = Vec::new(alloc);
    text.extend_from_slice(b"cluster acceptors 1 leaders 1 rms 1\ndeliver 1 -> ok\nsent 1 a0 a0 ")?;
    text.extend_from_slice(words)?;
    text.extend_from_slice(b"\nfinal r0\n")?;
    let trace = match read_trace(alloc, &text) {
        Ok(trace) => trace,
        Err(Refusal::NoMemory) => return Err(Stop::Ended),
        Err(_) => return Err(Stop::Unread),
    };
    for entry in trace.entries.into_vec() {
        return sent_message(entry);
    }
    Err(Stop::Unread)
}

/// The bytes of the message that words say, in front, and how many they are.
pub fn datagram(alloc: Global, words: &[u8], bytes: &mut [u8; MAX_DATAGRAM]) -> Result<usize, Stop>
    ensures { IfOk result (λ len. len ≤ MAX_MESSAGE_BYTES) }
{
    Ok(encode(&message(alloc, words)?, bytes))
}

/// The cluster whose sizes stand in a line: acceptors, leaders and managers, whose tables are empty; and what follows them.
pub fn cluster(alloc: Global, rest: &[u8]) -> Result<(Config, &[u8]), Stop> {
    let (acceptors, rest) = cut(rest);
    let (leaders, rest) = cut(rest);
    let (managers, rest) = cut(rest);
    let managers = small(managers)?;
    let mut tables = Vec::new(alloc);
    for _table in 0..managers {
        tables.push(Sequence::new(Vec::new(alloc)))?;
    }
    let config = Config::new(
        small(acceptors)?,
        small(leaders)?,
        managers,
        Sequence::new(tables),
    )?;
    match rest.strip_prefix(b"bundled ") {
        Some(rest) => Ok((config.bundled(), rest)),
        None => Ok((config, rest)),
    }
}
