//! Words that are messages.

ghost use Rattle.std.specs.Prelude.{◌≡◌, ◌≢◌, ◌∷◌, ◌++◌, ℕ, ◌<◌, ◌^◌, false, List, MatchOption, true};
ghost use Rattle.net_script.specs.Basics.{R};
ghost use Rattle.net_script.specs.Lines.{words, node_text};
ghost use Rattle.net_script.specs.Spelling.{Finds};
ghost use Rattle.net_script.specs.Messages.{vote_text, accepted_text, report_text, report_item_text, accept_item_text, FitsReport};
ghost use Rattle.net_script.specs.Messages.{FitsReportItem, FitsAcceptItem, FitsReported, reported_words, FitsSaid, said_words};
ghost use Rattle.net_script.specs.Laws.{a_vote, a_report_item, an_accept_item, a_report};

use crate::nodes::{Acceptor, Manager};
use crate::stop::Stop;
use crate::word::{Word, Words, is_word};
use crate::words::{manager_word, next_word, split_once};
use protocol::Boxed;
use std::alloc::Global;
use wire::{InstanceAccept, InstanceReport, Items};
use xid::{Ballot, ManagerNumber, Vote, text as names};

impl Word for Vote {
    ghost fits = { λ vote. Unit {0} };

    ghost text = { vote_text };

    ghost allocates = { false };

    ghost spelling = { a_vote };

    fn read(_alloc: Global, word: &[u8]) -> Result<Vote, Stop> {
        match word {
            b"prepared" => Ok(Vote::Prepared),
            b"aborted" => Ok(Vote::Aborted),
            _ => Err(Stop::Wrong),
        }
    }
}

/// The ballot and the vote of this text.
fn accepted_of(alloc: Global, text: &[u8]) -> Result<(Ballot, Vote), Stop>
    ensures { Finds false (λ a. a.0 < 2 ^ 32) (λ a. accepted_text a.0 a.1) text.now result }
{
    let Some((digits, word)) = split_once(text, b':') else {
        return Err(Stop::Wrong);
    };
    let Some(ballot) = names::number(digits) else {
        return Err(Stop::Wrong);
    };
    let vote = Vote::read(alloc, word)?;
    Ok((ballot, vote))
}

/// The report of this text.
fn report_of(alloc: Global, text: &[u8]) -> Result<Option<(Ballot, Vote)>, Stop>
    ensures { Finds false FitsReport report_text text.now result }
{
    if is_word(text, b"none") {
        return Ok(None);
    }
    let accepted = accepted_of(alloc, text)?;
    Ok(Some(accepted))
}

/// The resource manager before a colon, and the text after it.
fn item_of(word: &[u8]) -> Option<(u8, &[u8])>
    ensures { MatchOption result
        ((n : ℕ) (item : List ℕ) → n < 256 → word.now ≢ node_text (R n) ++ 58 ∷ item)
        (λ found. (found.0 < 256) × (word.now ≡ node_text (R found.0) ++ 58 ∷ found.1.now)) }
{
    let (node, text) = split_once(word, b':')?;
    Some((manager_word(node)?, text))
}

impl Word for InstanceReport {
    ghost fits = { FitsReportItem };

    ghost text = { report_item_text };

    ghost allocates = { false };

    ghost spelling = { a_report_item };

    fn read(alloc: Global, word: &[u8]) -> Result<InstanceReport, Stop> {
        let Some((rm, text)) = item_of(word) else {
            return Err(Stop::Wrong);
        };
        let report = report_of(alloc, text)?;
        Ok(InstanceReport {
            instance: ManagerNumber::from(rm),
            report,
        })
    }
}

impl Word for InstanceAccept {
    ghost fits = { FitsAcceptItem };

    ghost text = { accept_item_text };

    ghost allocates = { false };

    ghost spelling = { an_accept_item };

    fn read(alloc: Global, word: &[u8]) -> Result<InstanceAccept, Stop> {
        let Some((rm, text)) = item_of(word) else {
            return Err(Stop::Wrong);
        };
        let (ballot, vote) = accepted_of(alloc, text)?;
        Ok(InstanceAccept {
            instance: ManagerNumber::from(rm),
            ballot,
            vote,
        })
    }
}

/// What phase 1b says after its ballot.
#[derive(Drop)]
pub struct Reported {
    report: Option<(Ballot, Vote)>,
    acceptor: u8,
}

impl Words for Reported {
    ghost fit = { FitsReported };

    ghost texts = { reported_words };

    ghost allocate = { false };

    ghost spellings = { a_report };

    fn read(alloc: Global, args: &[u8]) -> Result<Reported, Stop> {
        let Some((word, rest)) = next_word(args) else {
            return Err(Stop::Wrong);
        };
        if is_word(word, b"none") {
            let (Acceptor(acceptor), ()) = Words::read(alloc, rest)?;
            return Ok(Reported {
                report: None,
                acceptor,
            });
        }
        let (ballot, (vote, (Acceptor(acceptor), ()))) = Words::read(alloc, args)?;
        Ok(Reported {
            report: Some((ballot, vote)),
            acceptor,
        })
    }
}

/// What a message says beside its transaction, each as the kind of its name. What is large stands in a block of its own.
#[derive(Drop)]
pub enum Said {
    Prepare,
    P1a(ManagerNumber, Ballot),
    P1b(ManagerNumber, Ballot, Option<(Ballot, Vote)>, u8),
    P2a(ManagerNumber, Ballot, Vote),
    P2b(ManagerNumber, Ballot, Vote, u8),
    Commit,
    Abort,
    Ask(ManagerNumber),
    B1a(Ballot),
    B1b(Ballot, u8, Boxed<Items<InstanceReport>>),
    B2b(u8, Boxed<Items<InstanceAccept>>),
}

/// What a message of this name says, by the words after its transaction; it may be one of no transaction.
#[inline(never)]
pub(crate) fn read_said(alloc: Global, name: &[u8], args: &[u8]) -> Result<Said, Stop>
    ensures { Finds true FitsSaid said_words (name.now ∷ words args.now) result }
{
    if is_word(name, b"prepare") {
        let () = Words::read(alloc, args)?;
        return Ok(Said::Prepare);
    }
    if is_word(name, b"p1a") {
        let (Manager(rm), (ballot, ())) = Words::read(alloc, args)?;
        return Ok(Said::P1a(ManagerNumber::from(rm), ballot));
    }
    if is_word(name, b"p1b") {
        let (Manager(rm), (ballot, Reported { report, acceptor })) = Words::read(alloc, args)?;
        return Ok(Said::P1b(ManagerNumber::from(rm), ballot, report, acceptor));
    }
    if is_word(name, b"p2a") {
        let (Manager(rm), (ballot, (vote, ()))) = Words::read(alloc, args)?;
        return Ok(Said::P2a(ManagerNumber::from(rm), ballot, vote));
    }
    if is_word(name, b"p2b") {
        let (Manager(rm), (ballot, (vote, (Acceptor(acceptor), ())))) = Words::read(alloc, args)?;
        return Ok(Said::P2b(ManagerNumber::from(rm), ballot, vote, acceptor));
    }
    if is_word(name, b"commit") {
        let () = Words::read(alloc, args)?;
        return Ok(Said::Commit);
    }
    if is_word(name, b"abort") {
        let () = Words::read(alloc, args)?;
        return Ok(Said::Abort);
    }
    if is_word(name, b"ask") {
        let (Manager(rm), ()) = Words::read(alloc, args)?;
        return Ok(Said::Ask(ManagerNumber::from(rm)));
    }
    if is_word(name, b"b1a") {
        let (ballot, ()) = Words::read(alloc, args)?;
        return Ok(Said::B1a(ballot));
    }
    if is_word(name, b"b1b") {
        let (ballot, (Acceptor(acceptor), reports)) = Words::read(alloc, args)?;
        let reports = Boxed::new(alloc, reports).ok().ok_or(Stop::Memory)?;
        return Ok(Said::B1b(ballot, acceptor, reports));
    }
    if is_word(name, b"b2b") {
        let (Acceptor(acceptor), accepts) = Words::read(alloc, args)?;
        let accepts = Boxed::new(alloc, accepts).ok().ok_or(Stop::Memory)?;
        return Ok(Said::B2b(acceptor, accepts));
    }
    Err(Stop::Wrong)
}
