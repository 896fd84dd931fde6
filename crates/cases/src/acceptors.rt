//! An acceptor.

use crate::ways::Alone;
use crate::{codec, records};
use acceptor::Acceptor;
use case_lines::{Page, Part, Stop, run_calls, wanted, words};
use protocol::Answer;
use std::alloc::Global;
use wire::{MAX_DATAGRAM, MAX_TX_BYTES, view_of};

/// Runs the calls of a case: `NUMBER LEADERS`, and `bundled` in a bundled cluster.
pub fn run(alloc: Global, rest: &[u8], calls: &[String], page: &mut Page) -> Result<(), Stop> {
    let (first, rest) = words::cut(rest);
    let (second, kind) = words::cut(rest);
    let (number, leaders) = (words::small(first)?, words::small(second)?);
    if number >= 7 || leaders == 0 {
        return Err(Stop::Unread);
    }
    let bundled = kind == b"bundled".as_slice();
    let acceptor = Acceptor::new(alloc, number, leaders, bundled);
    run_calls(&mut Alone(acceptor), alloc, calls, page)
}

/// A message comes: a fact is decided on, made ready for and played, and then the messages go.
fn hear(acceptor: &mut Acceptor, alloc: Global, words: &[u8], page: &mut Page) -> Result<(), Stop> {
    let mut bytes = [0; MAX_DATAGRAM];
    let len = words::datagram(alloc, words, &mut bytes)?;
    let Ok(message) = view_of(&bytes[..len]) else {
        return Err(Stop::Unread);
    };
    let decision = acceptor.on_message(&message);
    if let Some(fact) = &decision.fact {
        wanted(acceptor.ready(fact.tx()))?;
        acceptor.play(fact)?;
    }
    page.finished_answer(Answer::Done)?;
    if let Some(fact) = &decision.fact {
        page.fact(fact)?;
    }
    codec::say_reply(&decision.reply, page)
}

impl Part for Alone<Acceptor> {
    fn call(&mut self, alloc: Global, line: &[u8], page: &mut Page) -> Result<(), Stop> {
        let (verb, rest) = words::cut(line);
        match verb {
            b"hear" => hear(&mut self.0, alloc, rest, page),
            b"play" => {
                let frame = words::bytes(alloc, rest)?;
                let mut buffer = [0; MAX_TX_BYTES];
                let played = self.0.play(&records::read(alloc, &frame, &mut buffer)?);
                page.played(played)
            }
            b"shorter" => page.frames(&wanted(self.0.shorter())?),
            _ => Err(Stop::Unread),
        }
    }
}
