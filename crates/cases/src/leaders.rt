//! A leader.

use crate::{codec, records};
use case_lines::{Page, Part, Stop, run_calls, wanted, words};
use leader::{Leader, LeaderDecision, LeaderSends};
use protocol::Answer;
use stable_record::{FactRest, FactView};
use std::alloc::Global;
use std::mem;
use wire::{MAX_DATAGRAM, MAX_TX_BYTES, SpelledTx, view_of};

/// A leader that decides on messages where it decided before, as a node has it do.
#[derive(Drop)]
struct InPlace {
    leader: Leader,
    led: LeaderDecision,
}

/// Runs the calls of a case: `NUMBER ACCEPTORS LEADERS MANAGERS`, and `bundled` in a bundled cluster.
pub fn run(alloc: Global, rest: &[u8], calls: &[String], page: &mut Page) -> Result<(), Stop> {
    let (number, rest) = words::cut(rest);
    let (acceptors, rest) = words::cut(rest);
    let (leaders, rest) = words::cut(rest);
    let (managers, kind) = words::cut(rest);
    let (number, acceptors) = (words::small(number)?, words::small(acceptors)?);
    let (leaders, managers) = (words::small(leaders)?, words::small(managers)?);
    if number >= leaders || acceptors > 7 {
        return Err(Stop::Unread);
    }
    let bundled = kind == b"bundled".as_slice();
    let leader = Leader::new(alloc, number, acceptors, leaders, managers, bundled);
    let mut part = InPlace {
        leader,
        led: LeaderDecision::nothing(),
    };
    run_calls(&mut part, alloc, calls, page)
}

/// What is sent.
fn say_sends(sends: &LeaderSends, page: &mut Page) -> Result<(), Stop> {
    for i in 0..sends.count() {
        codec::say_reply(&Some(sends.at(i)), page)?;
    }
    Ok(())
}

/// A ballot is stored: it is made ready for and played, and it begins.
fn store(leader: &mut Leader, fact: &FactView<'_>) -> Result<(), Stop> {
    wanted(leader.ready(fact))?;
    leader.play(fact)?;
    if let FactRest::Ballot { ballot } = fact.rest() {
        leader.begin(fact.tx(), *ballot);
    }
    Ok(())
}

impl InPlace {
    /// What was answered last.
    fn answer(&mut self) -> Answer {
        mem::replace(&mut self.led.answer, Answer::Done)
    }

    /// What was answered and sent last, with nothing to store.
    fn say(&mut self, page: &mut Page) -> Result<(), Stop> {
        page.finished_answer(self.answer())?;
        say_sends(&self.led.sends, page)
    }

    /// A message comes.
    fn hear(&mut self, alloc: Global, words: &[u8], page: &mut Page) -> Result<(), Stop> {
        let mut bytes = [0; MAX_DATAGRAM];
        let len = words::datagram(alloc, words, &mut bytes)?;
        let Ok(message) = view_of(&bytes[..len]) else {
            return Err(Stop::Unread);
        };
        wanted(self.leader.on_message(&message, &mut self.led))?;
        self.say(page)
    }

    /// A request comes that stores nothing: its messages take the place of others.
    fn ask(&mut self, verb: &[u8], tx: &[u8], page: &mut Page) -> Result<(), Stop> {
        let mut buffer = [0; MAX_TX_BYTES];
        let tx = &SpelledTx::of(&words::tx(tx)?, &mut buffer);
        match verb {
            b"commit" => wanted(self.leader.commit(tx, &mut self.led))?,
            b"status" => self.leader.status(tx, &mut self.led),
            _ => return Err(Stop::Unread),
        }
        self.say(page)
    }

    /// A timeout comes: the ballot of a take-over is stored, and then its messages go, in place of others.
    fn time_out(&mut self, tx: &[u8], page: &mut Page) -> Result<(), Stop> {
        let mut buffer = [0; MAX_TX_BYTES];
        let tx = &SpelledTx::of(&words::tx(tx)?, &mut buffer);
        self.leader.timeout(tx, &mut self.led);
        let Some(fact) = self.led.fact.take() else {
            return self.say(page);
        };
        let mut buffer = [0; MAX_TX_BYTES];
        let fact = FactView::of(fact, &mut buffer);
        store(&mut self.leader, &fact)?;
        page.finished_answer(self.answer())?;
        page.fact(&fact)?;
        say_sends(&self.led.sends, page)
    }
}

impl Part for InPlace {
    fn call(&mut self, alloc: Global, line: &[u8], page: &mut Page) -> Result<(), Stop> {
        let (verb, rest) = words::cut(line);
        match verb {
            b"hear" => self.hear(alloc, rest, page),
            b"play" => {
                let frame = words::bytes(alloc, rest)?;
                let mut buffer = [0; MAX_TX_BYTES];
                let fact = records::read(alloc, &frame, &mut buffer)?;
                let played = self.leader.play(&fact);
                page.played(played)
            }
            b"shorter" => page.frames(&wanted(self.leader.shorter())?),
            b"timeout" => self.time_out(rest, page),
            _ => self.ask(verb, rest, page),
        }
    }
}
