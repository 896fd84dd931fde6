//! What is seen of a message over its bytes, in the words of a trace.

use case_lines::{Page, Stop};
use protocol::NodeId;
use wire::{MessageView, Rest, SpelledTx, VersionNumber, take_byte, take_number, take_rm};
use xid::{Ballot, ManagerNumber, Vote};

/// A transaction, by the names of its branches.
fn say_tx(tx: &SpelledTx<'_>, page: &mut Page) -> Result<(), Stop> {
    for i in 0..tx.count() {
        let rm = tx.rm(i);
        let Some(xid) = tx.branch(rm) else {
            return Err(Stop::Unread);
        };
        if i == 0 {
            page.number(u64::from(xid.format()))?;
            page.bytes(b":")?;
            page.digits(xid.gtrid())?;
            page.bytes(b"/")?;
        } else {
            page.bytes(b",")?;
        }
        page.plain_number(u64::from(rm))?;
        page.bytes(b"=")?;
        page.digits(xid.bqual())?;
    }
    Ok(())
}

/// The word of a vote.
fn vote_word(vote: Vote) -> &'static [u8] {
    match vote {
        Vote::Prepared => b"prepared",
        Vote::Aborted => b"aborted",
    }
}

/// An instance, after a space.
fn say_instance(instance: ManagerNumber, page: &mut Page) -> Result<(), Stop> {
    page.bytes(b" r")?;
    page.plain_number(u64::from(instance))
}

/// A ballot and a vote, each after a mark.
fn say_value(mark: &[u8], ballot: Ballot, vote: Vote, page: &mut Page) -> Result<(), Stop> {
    page.bytes(mark)?;
    page.plain_number(u64::from(ballot))?;
    page.bytes(mark)?;
    page.bytes(vote_word(vote))
}

/// What was accepted last.
fn say_report(report: Option<(Ballot, Vote)>, page: &mut Page) -> Result<(), Stop> {
    match report {
        Some((ballot, vote)) => say_value(b" ", ballot, vote, page),
        None => page.word(b"none"),
    }
}

/// The item of a bundle in front of bytes: its instance, a ballot, and a vote, or none; and what follows it.
fn say_item<'a>(bytes: &'a [u8], page: &mut Page) -> Result<&'a [u8], Stop> {
    let Some((instance, rest)) = take_rm(VersionNumber::Second, bytes) else {
        return Err(Stop::Unread);
    };
    let Some((ballot, rest)) = take_number(rest) else {
        return Err(Stop::Unread);
    };
    say_instance(instance, page)?;
    match rest {
        [0, after @ ..] => {
            page.bytes(b":none")?;
            Ok(after)
        }
        [1, after @ ..] => {
            say_value(b":", ballot, Vote::Prepared, page)?;
            Ok(after)
        }
        [2, after @ ..] => {
            say_value(b":", ballot, Vote::Aborted, page)?;
            Ok(after)
        }
        _ => Err(Stop::Unread),
    }
}

/// The items of a bundle, behind their number.
fn say_items(bytes: &[u8], page: &mut Page) -> Result<(), Stop> {
    let Some((count, items)) = take_byte(bytes) else {
        return Err(Stop::Unread);
    };
    let mut rest = items;
    for _item in 0..count {
        rest = say_item(rest, page)?;
    }
    if rest.is_empty() {
        Ok(())
    } else {
        Err(Stop::Unread)
    }
}

/// A message's kind and its transaction.
fn begin(kind: &[u8], tx: &SpelledTx<'_>, page: &mut Page) -> Result<(), Stop> {
    page.word(kind)?;
    say_tx(tx, page)
}

/// What a message of phase 1 says.
fn say_first(tx: &SpelledTx<'_>, rest: Rest<'_>, page: &mut Page) -> Result<(), Stop> {
    match rest {
        Rest::P1a { instance, ballot } => {
            begin(b"p1a", tx, page)?;
            say_instance(instance, page)?;
            page.number(u64::from(ballot))
        }
        Rest::P1b {
            instance,
            ballot,
            report,
            acceptor,
        } => {
            begin(b"p1b", tx, page)?;
            say_instance(instance, page)?;
            page.number(u64::from(ballot))?;
            say_report(report, page)?;
            page.node(NodeId::A(acceptor))
        }
        _ => Err(Stop::Unread),
    }
}

/// What a message of phase 2 says.
fn say_second(tx: &SpelledTx<'_>, rest: Rest<'_>, page: &mut Page) -> Result<(), Stop> {
    match rest {
        Rest::P2a {
            instance,
            ballot,
            vote,
        } => {
            begin(b"p2a", tx, page)?;
            say_instance(instance, page)?;
            say_value(b" ", ballot, vote, page)
        }
        Rest::P2b {
            instance,
            ballot,
            vote,
            acceptor,
        } => {
            begin(b"p2b", tx, page)?;
            say_instance(instance, page)?;
            say_value(b" ", ballot, vote, page)?;
            page.node(NodeId::A(acceptor))
        }
        _ => Err(Stop::Unread),
    }
}

/// What a bundle says.
fn say_bundle(tx: &SpelledTx<'_>, rest: Rest<'_>, page: &mut Page) -> Result<(), Stop> {
    match rest {
        Rest::B1a { ballot } => {
            begin(b"b1a", tx, page)?;
            page.number(u64::from(ballot))
        }
        Rest::B1b {
            ballot,
            acceptor,
            reports,
        } => {
            begin(b"b1b", tx, page)?;
            page.number(u64::from(ballot))?;
            page.node(NodeId::A(acceptor))?;
            say_items(reports, page)
        }
        Rest::B2b { acceptor, accepts } => {
            begin(b"b2b", tx, page)?;
            page.node(NodeId::A(acceptor))?;
            say_items(accepts, page)
        }
        _ => Err(Stop::Unread),
    }
}

/// What a message says.
pub fn say(message: &MessageView<'_>, page: &mut Page) -> Result<(), Stop> {
    let tx = message.tx();
    let rest = message.rest();
    match rest {
        Rest::Prepare => begin(b"prepare", tx, page),
        Rest::Commit => begin(b"commit", tx, page),
        Rest::Abort => begin(b"abort", tx, page),
        Rest::Ask { rm } => {
            begin(b"ask", tx, page)?;
            say_instance(rm, page)
        }
        Rest::P1a { .. } | Rest::P1b { .. } => say_first(tx, rest, page),
        Rest::P2a { .. } | Rest::P2b { .. } => say_second(tx, rest, page),
        Rest::B1a { .. } | Rest::B1b { .. } | Rest::B2b { .. } => say_bundle(tx, rest, page),
    }
}
