//! A branch table, and client calls.

ghost use Rattle.std.specs.Prelude.{◌≡◌, true, IfOk};
ghost use Rattle.branch_table.specs.TableStates.{is_row, are_rows};

use crate::records;
use crate::ways::Alone;
use branch_table::{BranchTable, Ending};
use case_lines::{Page, Part, Stop, run_calls, wanted, words};
use protocol::{Answer, Row};
use stable_record::{EntryKind, FactKind, Touched};
use std::alloc::Global;
use xid::{Bytes, Refusal, Xid};

/// A row, if its lengths are within the limits.
fn row(alloc: Global, word: &[u8]) -> Result<Row, Stop>
    ensures { IfOk result (λ row. is_row row ≡ true) }
{
    let (key, value) = words::cut_at(word, b'=')?;
    let (key, value) = (words::bytes(alloc, key)?, words::bytes(alloc, value)?);
    if key.is_empty() || key.len() > 64 || value.len() > 256 {
        return Err(Stop::Unread);
    }
    let key = Bytes::copy_of(alloc, &key)?;
    let value = Bytes::copy_of(alloc, &value)?;
    Ok(Row { key, value })
}

/// The rows of a list as 6b=30 6c=-; none where it is empty.
pub fn rows(alloc: Global, list: &[u8]) -> Result<Vec<Row>, Stop>
    ensures { IfOk result (λ rows. are_rows rows.items ≡ true) }
{
    let mut rows = Vec::new(alloc);
    for word in list.split(|byte| *byte == b' ') {
        if !word.is_empty() {
            rows.push(row(alloc, word)?)?;
        }
    }
    Ok(rows)
}

/// Runs the calls of a case over a table with these rows.
pub fn run(alloc: Global, rest: &[u8], calls: &[String], page: &mut Page) -> Result<(), Stop> {
    let table = BranchTable::new(alloc, rows(alloc, rest)?)?;
    run_calls(&mut Alone(table), alloc, calls, page)
}

/// How a branch ends: `fail`, or nothing.
pub fn ending(word: &[u8]) -> Ending {
    if word == b"fail".as_slice() {
        Ending::Fail
    } else {
        Ending::Success
    }
}

/// A client call on a branch.
fn client_call(
    table: &mut BranchTable,
    alloc: Global,
    verb: &[u8],
    xid: &Xid,
    rest: &[u8],
) -> Result<Answer, Stop> {
    let (first, second) = words::cut(rest);
    match verb {
        b"start" => wanted(table.start(xid)),
        b"put" => {
            let (key, value) = (words::bytes(alloc, first)?, words::bytes(alloc, second)?);
            wanted(table.put(xid, &key, &value))
        }
        b"del" => wanted(table.del(xid, &words::bytes(alloc, first)?)),
        b"get" => wanted(table.get(xid, &words::bytes(alloc, first)?)),
        b"end" => Ok(table.end(xid, ending(first))),
        b"rollback" => Ok(table.rollback(xid)),
        _ => Err(Stop::Unread),
    }
}

/// The touched keys of a vote: how many, and then their acts.
fn say_keys(keys: &[Touched], page: &mut Page) -> Result<(), Stop> {
    page.number(keys.len() as u64)?;
    for touched in keys {
        page.touched(touched)?;
    }
    page.end_line()
}

/// Makes a branch prepared with the keys of a vote, which a frame has.
fn restore(
    table: &mut BranchTable,
    alloc: Global,
    xid: &Xid,
    frame: &[u8],
) -> Result<Result<(), Refusal>, Stop> {
    let entry = records::entry(alloc, frame)?;
    let EntryKind::Fact(FactKind::VotePrepared { keys, .. }) = entry.kind() else {
        return Err(Stop::Unread);
    };
    match table.restore(xid, keys.as_slice()) {
        Err(Refusal::NoMemory) => Err(Stop::Wanted),
        restored => Ok(restored),
    }
}

/// A call of the layer above, on a branch.
fn call_from_above(
    table: &mut BranchTable,
    alloc: Global,
    verb: &[u8],
    xid: &Xid,
    rest: &[u8],
    page: &mut Page,
) -> Result<(), Stop> {
    match verb {
        b"prepare" => match wanted(table.prepare(xid))? {
            Some(keys) => say_keys(keys.as_slice(), page),
            None => page.nothing(),
        },
        b"restore" => {
            page.done(restore(table, alloc, xid, rest)?)?;
            page.end_line()
        }
        b"undo" => {
            table.undo(xid);
            page.nothing()
        }
        b"commit" => {
            table.commit(xid);
            page.nothing()
        }
        b"exists" => {
            page.truth(table.has_branch(xid))?;
            page.end_line()
        }
        _ => Err(Stop::Unread),
    }
}

impl Part for Alone<BranchTable> {
    fn call(&mut self, alloc: Global, line: &[u8], page: &mut Page) -> Result<(), Stop> {
        let (verb, rest) = words::cut(line);
        match verb {
            b"looks" => {
                page.number(self.0.looks())?;
                return page.end_line();
            }
            b"rows" => {
                page.rows(&wanted(self.0.rows())?)?;
                return page.end_line();
            }
            b"recover" => {
                page.answer(wanted(self.0.recover())?)?;
                return page.end_line();
            }
            _ => {}
        }
        let (name, rest) = words::cut(rest);
        let xid = words::xid(name)?;
        match client_call(&mut self.0, alloc, verb, &xid, rest) {
            Err(Stop::Unread) => call_from_above(&mut self.0, alloc, verb, &xid, rest, page),
            answered => {
                page.answer(answered?)?;
                page.end_line()
            }
        }
    }
}
