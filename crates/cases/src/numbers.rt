//! Transactions by their numbers.

use crate::ways::Alone;
use case_lines::{Page, Part, Stop, run_calls, words};
use std::alloc::Global;
use transactions::Transactions;
use xid::Tx;

/// Runs the calls of a case.
pub fn run(alloc: Global, calls: &[String], page: &mut Page) -> Result<(), Stop> {
    run_calls(&mut Alone(Transactions::new(alloc)), alloc, calls, page)
}

/// The number of a transaction.
fn say_number(number: Option<usize>, page: &mut Page) -> Result<(), Stop> {
    match number {
        Some(number) => {
            page.number(number as u64)?;
            page.end_line()
        }
        None => page.nothing(),
    }
}

/// The transaction of a number.
fn say_tx(alloc: Global, tx: Option<Tx>, page: &mut Page) -> Result<(), Stop> {
    let Some(tx) = tx else {
        return page.nothing();
    };
    let mut text = Vec::new(alloc);
    tx.write(&mut text)?;
    page.word(&text)?;
    page.end_line()
}

impl Part for Alone<Transactions> {
    fn call(&mut self, alloc: Global, line: &[u8], page: &mut Page) -> Result<(), Stop> {
        let (verb, word) = words::cut(line);
        match verb {
            b"add" => {
                let number = match self.0.add(&words::tx(word)?) {
                    Ok(number) => number,
                    Err(_) => return Err(Stop::Wanted),
                };
                say_number(Some(number), page)
            }
            b"number" => say_number(self.0.number_of(&words::tx(word)?), page),
            b"spelled" => say_number(self.0.number_of_spelled(&words::bytes(alloc, word)?), page),
            b"get" => say_tx(alloc, self.0.get(words::number(word)? as usize), page),
            b"count" => say_number(Some(self.0.len()), page),
            _ => Err(Stop::Unread),
        }
    }
}
