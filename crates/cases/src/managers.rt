//! A resource manager.

use crate::ways::Alone;
use crate::{codec, records, tables};
use case_lines::{Page, Part, Stop, run_calls, wanted, words};
use protocol::{Answer, View};
use resource_manager::ResourceManager;
use std::alloc::Global;
use wire::{MAX_DATAGRAM, MAX_TX_BYTES, SpelledTx, view_of};
use xid::Xid;

/// Runs the calls of a case: `NUMBER MANAGERS`, and the first rows.
pub fn run(alloc: Global, rest: &[u8], calls: &[String], page: &mut Page) -> Result<(), Stop> {
    let (number, rest) = words::cut(rest);
    let (managers, rows) = words::cut(rest);
    let (number, managers) = (words::small(number)?, words::small(managers)?);
    let own = tables::rows(alloc, rows)?;
    let manager = ResourceManager::new(alloc, number, managers, own)?;
    run_calls(&mut Alone(manager), alloc, calls, page)
}

/// A client call on a branch.
fn client_call(
    manager: &mut ResourceManager,
    alloc: Global,
    verb: &[u8],
    xid: &Xid,
    rest: &[u8],
) -> Result<Answer, Stop> {
    let (first, second) = words::cut(rest);
    match verb {
        b"start" => wanted(manager.start(xid)),
        b"put" => {
            let (key, value) = (words::bytes(alloc, first)?, words::bytes(alloc, second)?);
            wanted(manager.put(xid, &key, &value))
        }
        b"del" => wanted(manager.del(xid, &words::bytes(alloc, first)?)),
        b"get" => wanted(manager.get(xid, &words::bytes(alloc, first)?)),
        b"end" => Ok(manager.end(xid, tables::ending(first))),
        b"rollback" => Ok(manager.rollback(xid)),
        _ => Err(Stop::Unread),
    }
}

/// A message comes: a fact is decided on, made ready for and played, and then the messages go.
fn hear(
    manager: &mut ResourceManager,
    alloc: Global,
    words: &[u8],
    page: &mut Page,
) -> Result<(), Stop> {
    let mut bytes = [0; MAX_DATAGRAM];
    let len = words::datagram(alloc, words, &mut bytes)?;
    let Ok(message) = view_of(&bytes[..len]) else {
        return Err(Stop::Unread);
    };
    let decision = match manager.on_message(&message) {
        Ok(decision) => decision,
        Err(_) => return Err(Stop::Wanted),
    };
    if let Some(fact) = &decision.fact {
        wanted(manager.ready(fact))?;
        manager.play(fact)?;
    }
    page.finished_answer(Answer::Done)?;
    if let Some(fact) = &decision.fact {
        page.fact(fact)?;
    }
    codec::say_reply(&decision.reply, page)
}

/// What a timeout sends again.
fn time_out(manager: &ResourceManager, tx: &[u8], page: &mut Page) -> Result<(), Stop> {
    let mut buffer = [0; MAX_TX_BYTES];
    let reminder = manager.timeout(&SpelledTx::of(&words::tx(tx)?, &mut buffer));
    page.answer(reminder.answer)?;
    page.end_line()?;
    for outgoing in reminder.vote.as_slice() {
        page.sent(outgoing)?;
    }
    for outgoing in reminder.question.as_slice() {
        page.sent(outgoing)?;
    }
    Ok(())
}

/// The word of a view.
pub fn view_word(view: View) -> &'static [u8] {
    match view {
        View::Working => b"working",
        View::Prepared => b"prepared",
        View::Committed => b"committed",
        View::Aborted => b"aborted",
    }
}

/// Where the resource manager stands in a transaction.
fn say_view(manager: &ResourceManager, tx: &[u8], page: &mut Page) -> Result<(), Stop> {
    let mut buffer = [0; MAX_TX_BYTES];
    match manager.view(&SpelledTx::of(&words::tx(tx)?, &mut buffer)) {
        Ok(view) => page.word(view_word(view))?,
        Err(refusal) => page.refusal(refusal)?,
    }
    page.end_line()
}

/// A call that decides on no fact.
fn call_plain(
    manager: &mut ResourceManager,
    alloc: Global,
    verb: &[u8],
    rest: &[u8],
    page: &mut Page,
) -> Result<(), Stop> {
    match verb {
        b"timeout" => return time_out(manager, rest, page),
        b"view" => return say_view(manager, rest, page),
        b"recover" => page.answer(wanted(manager.recover())?)?,
        b"rows" => page.rows(&wanted(manager.rows())?)?,
        _ => {
            let (name, rest) = words::cut(rest);
            let answer = client_call(manager, alloc, verb, &words::xid(name)?, rest)?;
            page.answer(answer)?;
        }
    }
    page.end_line()
}

impl Part for Alone<ResourceManager> {
    fn call(&mut self, alloc: Global, line: &[u8], page: &mut Page) -> Result<(), Stop> {
        let (verb, rest) = words::cut(line);
        match verb {
            b"hear" => hear(&mut self.0, alloc, rest, page),
            b"shorter" => page.frames(&wanted(self.0.shorter(alloc))?),
            b"play" => {
                let frame = words::bytes(alloc, rest)?;
                let mut buffer = [0; MAX_TX_BYTES];
                let played = self.0.play(&records::read(alloc, &frame, &mut buffer)?);
                page.played(played)
            }
            _ => call_plain(&mut self.0, alloc, verb, rest, page),
        }
    }
}
