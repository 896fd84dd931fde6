//! Names of branches and of transactions. The parts of a name are read as they stand in the line, and printed as hex digits.

use case_lines::{Page, Part, Stop, run_calls, words};
use std::alloc::Global;
use xid::{ManagerNumber, Refusal, Tx, Xid};

/// Makers and readers of names, each call by itself.
#[derive(Drop)]
struct Values;

/// Runs the calls of a case.
pub fn run(alloc: Global, calls: &[String], page: &mut Page) -> Result<(), Stop> {
    run_calls(&mut Values, alloc, calls, page)
}

/// A format, which may be -1.
fn format_of(word: &[u8]) -> Result<i64, Stop> {
    let [b'-', digits @ ..] = word else {
        return Ok(i64::from(words::number(word)?));
    };
    Ok(-i64::from(words::number(digits)?))
}

/// Prints the text of a branch's name, or the refusal.
fn say_xid(alloc: Global, made: Result<Xid, Refusal>, page: &mut Page) -> Result<(), Stop> {
    match made {
        Ok(xid) => {
            let mut text = Vec::new(alloc);
            xid.write(&mut text)?;
            page.word(&text)?;
        }
        Err(refusal) => page.refusal(refusal)?,
    }
    page.end_line()
}

/// Prints the text of a transaction, or the refusal.
fn say_tx(alloc: Global, made: Result<Tx, Refusal>, page: &mut Page) -> Result<(), Stop> {
    match made {
        Ok(tx) => {
            let mut text = Vec::new(alloc);
            tx.write(&mut text)?;
            page.word(&text)?;
        }
        Err(refusal) => page.refusal(refusal)?,
    }
    page.end_line()
}

/// The branches of a list as 0=a,1=b, in the order of the list; `-` for none.
fn branches(alloc: Global, list: &[u8]) -> Result<Vec<(ManagerNumber, &[u8])>, Stop> {
    let mut branches = Vec::new(alloc);
    for item in words::plain(list).split(|byte| *byte == b',') {
        if item.is_empty() {
            continue;
        }
        let (rm, bqual) = words::cut_at(item, b'=')?;
        match ManagerNumber::try_from(words::number(rm)?) {
            Ok(rm) => branches.push((rm, words::plain(bqual)))?,
            Err(_) => return Err(Stop::Unread),
        }
    }
    Ok(branches)
}

/// The parts of the name of a branch.
fn say_xid_parts(xid: &Xid, page: &mut Page) -> Result<(), Stop> {
    page.number(u64::from(xid.format()))?;
    page.hex(xid.gtrid())?;
    page.hex(xid.bqual())?;
    page.word(b"area")?;
    page.hex(&xid.area())?;
    page.end_line()
}

/// The parts of a transaction: its format, its gtrid and its branches.
fn say_tx_parts(tx: &Tx, page: &mut Page) -> Result<(), Stop> {
    page.number(u64::from(tx.format()))?;
    page.hex(tx.gtrid())?;
    for i in 0..tx.count() {
        page.number(u64::from(tx.rm(i)))?;
        page.hex(tx.bqual(i))?;
    }
    page.end_line()
}

/// The branch of a transaction at a resource manager.
fn say_branch(alloc: Global, tx: &Tx, rm: &[u8], page: &mut Page) -> Result<(), Stop> {
    let rm = u16::from(words::small(rm)?);
    page.truth(tx.is_participant(rm))?;
    match tx.branch(rm) {
        Some(xid) => say_xid(alloc, Ok(xid), page),
        None => page.end_line(),
    }
}

/// How one value stands to another.
fn say_order<T: Ord + Drop>(first: &T, second: &T, page: &mut Page) -> Result<(), Stop> {
    page.word(if first == second {
        b"same"
    } else if first < second {
        b"before"
    } else {
        b"after"
    })?;
    page.end_line()
}

impl Part for Values {
    fn call(&mut self, alloc: Global, line: &[u8], page: &mut Page) -> Result<(), Stop> {
        let (verb, rest) = words::cut(line);
        let (first, others) = words::cut(rest);
        let (second, third) = words::cut(others);
        match verb {
            b"xid" => {
                let made = Xid::new(format_of(first)?, words::plain(second), words::plain(third));
                say_xid(alloc, made, page)
            }
            b"tx" => {
                let branches = branches(alloc, third)?;
                let made = Tx::new(format_of(first)?, words::plain(second), &branches);
                say_tx(alloc, made, page)
            }
            b"read-xid" => say_xid(alloc, Xid::read(first), page),
            b"read-tx" => say_tx(alloc, Tx::read(first), page),
            b"parts-xid" => say_xid_parts(&words::xid(first)?, page),
            b"parts-tx" => say_tx_parts(&words::tx(first)?, page),
            b"branch" => say_branch(alloc, &words::tx(first)?, second, page),
            b"order-xid" => say_order(&words::xid(first)?, &words::xid(second)?, page),
            b"order-tx" => say_order(&words::tx(first)?, &words::tx(second)?, page),
            _ => Err(Stop::Unread),
        }
    }
}
