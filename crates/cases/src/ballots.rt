//! Ballots, slots, quorums and the choice of a value.

use ballot::{Quorum, Slot, choose, next_owned, owner};
use case_lines::{Page, Part, Stop, run_calls, words};
use std::alloc::Global;
use xid::Vote;

/// A slot; all else is computed by itself.
#[derive(Drop)]
struct Ballots {
    slot: Slot,
}

/// Runs the calls of a case.
pub fn run(alloc: Global, calls: &[String], page: &mut Page) -> Result<(), Stop> {
    run_calls(&mut Ballots { slot: Slot::new() }, alloc, calls, page)
}

/// Who owns a ballot.
fn say_owner(first: &[u8], second: &[u8], page: &mut Page) -> Result<(), Stop> {
    let (ballot, leaders) = (words::number(first)?, words::small(second)?);
    if ballot == 0 || leaders == 0 {
        return Err(Stop::Unread);
    }
    page.number(u64::from(owner(ballot, leaders)))
}

/// The next ballot that a leader owns.
fn say_next(first: &[u8], others: &[u8], page: &mut Page) -> Result<(), Stop> {
    let (second, third) = words::cut(others);
    let (leader, leaders) = (words::small(first)?, words::small(second)?);
    if leader >= leaders {
        return Err(Stop::Unread);
    }
    match next_owned(leader, leaders, words::number(third)?) {
        Ok(ballot) => page.number(u64::from(ballot)),
        Err(refusal) => page.refusal(refusal),
    }
}

/// Whether these acceptors are a majority of so many.
fn say_majority(first: &[u8], others: &[u8], page: &mut Page) -> Result<(), Stop> {
    let acceptors = words::small(first)?;
    let mut quorum = Quorum::new();
    for word in others.split(|byte| *byte == b' ') {
        let acceptor = words::small(word)?;
        if acceptor >= 7 {
            return Err(Stop::Unread);
        }
        quorum.add(acceptor);
    }
    if acceptors > 7 {
        return Err(Stop::Unread);
    }
    page.truth(quorum.majority(acceptors))
}

/// The word of a vote.
fn vote_word(vote: Vote) -> &'static [u8] {
    match vote {
        Vote::Prepared => b"prepared",
        Vote::Aborted => b"aborted",
    }
}

/// What is proposed on these reports.
fn say_choice(alloc: Global, reports: &[u8], page: &mut Page) -> Result<(), Stop> {
    let mut read = Vec::new(alloc);
    for word in reports.split(|byte| *byte == b' ') {
        read.push(words::report(word)?)?;
    }
    page.word(vote_word(choose(&read)))
}

/// Whether the slot changed, and what it then is.
fn say_slot(slot: &Slot, changed: bool, page: &mut Page) -> Result<(), Stop> {
    page.truth(changed)?;
    page.number(u64::from(slot.mbal))?;
    match slot.report {
        Some((ballot, vote)) => {
            page.number(u64::from(ballot))?;
            page.word(vote_word(vote))
        }
        None => page.word(b"none"),
    }
}

impl Part for Ballots {
    fn call(&mut self, alloc: Global, line: &[u8], page: &mut Page) -> Result<(), Stop> {
        let (verb, rest) = words::cut(line);
        let (first, others) = words::cut(rest);
        match verb {
            b"owner" => say_owner(first, others, page)?,
            b"next" => say_next(first, others, page)?,
            b"majority" => say_majority(first, others, page)?,
            b"choose" => say_choice(alloc, rest, page)?,
            b"promise" => {
                let changed = self.slot.promise(words::number(first)?);
                say_slot(&self.slot, changed, page)?;
            }
            b"accept" => {
                let changed = self
                    .slot
                    .accept(words::number(first)?, words::vote(others)?);
                say_slot(&self.slot, changed, page)?;
            }
            _ => return Err(Stop::Unread),
        }
        page.end_line()
    }
}
