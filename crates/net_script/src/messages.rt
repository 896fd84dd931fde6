//! Messages, as a trace prints them.

ghost use Rattle.std.specs.Prelude.{◌≡◌, ◌∷◌, map, OnErr};
ghost use Rattle.xid.specs.Text.{Extends};
ghost use Rattle.xid.specs.Transactions.{TxParts};
ghost use Rattle.wire.specs.Messages.{IsMessage};
ghost use Rattle.wire.specs.Said.{said};
ghost use Rattle.net_script.specs.Messages.{vote_text, report_words, ballot_words, message_word, message_args, message_words};
ghost use Rattle.net_script.specs.Messages.{accepted_text, report_item_text, accept_item_text};
ghost use Rattle.net_script.specs.Traces.{spaced_words};
ghost use Rattle.net_script.specs.Writing.{Puts};

use crate::pieces::{put_manager, put_node, put_number, put_word};
use crate::written::WrittenTx;
use protocol::NodeId;
use wire::{InstanceAccept, InstanceReport, MessageView, Rest, accepts_of, reports_of};
use xid::{Ballot, ManagerNumber, Refusal, Vote, text};

/// The word of a vote.
fn vote_word(vote: Vote) -> &'static [u8]
    ensures { result.now ≡ vote_text vote }
{
    match vote {
        Vote::Prepared => b"prepared",
        Vote::Aborted => b"aborted",
    }
}

/// A report of phase 1b.
fn put_report(out: &mut Vec<u8>, report: Option<(Ballot, Vote)>) -> Result<(), Refusal>
    ensures puts { Puts out.old.items out.new.items result (spaced_words (report_words report)) }
    ensures kept { OnErr result (Extends out.old.items out.new.items) }
{
    let Some((ballot, vote)) = report else {
        return put_word(out, b"none");
    };
    put_number(out, ballot)?;
    put_word(out, vote_word(vote))
}

/// An instance and a ballot.
fn put_ballot(out: &mut Vec<u8>, rm: ManagerNumber, ballot: Ballot) -> Result<(), Refusal>
    ensures puts { Puts out.old.items out.new.items result (spaced_words (ballot_words rm ballot)) }
    ensures kept { OnErr result (Extends out.old.items out.new.items) }
{
    put_manager(out, u32::from(rm))?;
    put_number(out, ballot)
}

/// A colon, and the ballot and the vote of an item.
fn put_accepted(out: &mut Vec<u8>, ballot: Ballot, vote: Vote) -> Result<(), Refusal>
    ensures puts { Puts out.old.items out.new.items result (58 ∷ accepted_text ballot vote) }
    ensures kept { OnErr result (Extends out.old.items out.new.items) }
{
    out.push(b':')?;
    text::put_number(ballot, out)?;
    out.push(b':')?;
    out.extend_from_slice(vote_word(vote))?;
    Ok(())
}

/// The items of phase 1b.
fn put_reports(out: &mut Vec<u8>, reports: &[InstanceReport]) -> Result<(), Refusal>
    ensures puts { Puts out.old.items out.new.items result (spaced_words (map report_item_text reports.now)) }
    ensures kept { OnErr result (Extends out.old.items out.new.items) }
{
    for item in reports {
        put_manager(out, u32::from(item.instance))?;
        match item.report {
            None => out.extend_from_slice(b":none")?,
            Some((ballot, vote)) => put_accepted(out, ballot, vote)?,
        }
    }
    Ok(())
}

/// The items of phase 2b.
fn put_accepts(out: &mut Vec<u8>, accepts: &[InstanceAccept]) -> Result<(), Refusal>
    ensures puts { Puts out.old.items out.new.items result (spaced_words (map accept_item_text accepts.now)) }
    ensures kept { OnErr result (Extends out.old.items out.new.items) }
{
    for item in accepts {
        put_manager(out, u32::from(item.instance))?;
        put_accepted(out, item.ballot, item.vote)?;
    }
    Ok(())
}

/// The first word of a message.
fn kind_word(rest: Rest<'_>) -> &'static [u8]
    ensures { (tx : TxParts) → result.now ≡ message_word (said tx rest.entry) }
{
    match rest {
        Rest::Prepare => b"prepare",
        Rest::P1a { .. } => b"p1a",
        Rest::P1b { .. } => b"p1b",
        Rest::P2a { .. } => b"p2a",
        Rest::P2b { .. } => b"p2b",
        Rest::Commit => b"commit",
        Rest::Abort => b"abort",
        Rest::Ask { .. } => b"ask",
        Rest::B1a { .. } => b"b1a",
        Rest::B1b { .. } => b"b1b",
        Rest::B2b { .. } => b"b2b",
    }
}

/// The words of a message after its transaction.
fn put_args(out: &mut Vec<u8>, rest: Rest<'_>) -> Result<(), Refusal>
    requires { (tx : TxParts) × IsMessage (said tx rest) }
    ensures puts { (tx : TxParts) → Puts out.old.items out.new.items result (spaced_words (message_args (said tx rest.entry))) }
    ensures kept { OnErr result (Extends out.old.items out.new.items) }
{
    match rest {
        Rest::Prepare | Rest::Commit | Rest::Abort => Ok(()),
        Rest::P1a { instance, ballot } => put_ballot(out, instance, ballot),
        Rest::P1b {
            instance,
            ballot,
            report,
            acceptor,
        } => {
            put_ballot(out, instance, ballot)?;
            put_report(out, report)?;
            put_node(out, NodeId::A(acceptor))
        }
        Rest::P2a {
            instance,
            ballot,
            vote,
        } => {
            put_ballot(out, instance, ballot)?;
            put_word(out, vote_word(vote))
        }
        Rest::P2b {
            instance,
            ballot,
            vote,
            acceptor,
        } => {
            put_ballot(out, instance, ballot)?;
            put_word(out, vote_word(vote))?;
            put_node(out, NodeId::A(acceptor))
        }
        Rest::Ask { rm } => put_manager(out, u32::from(rm)),
        Rest::B1a { ballot } => put_number(out, ballot),
        Rest::B1b {
            ballot,
            acceptor,
            reports,
        } => {
            put_number(out, ballot)?;
            put_node(out, NodeId::A(acceptor))?;
            put_reports(out, reports_of(reports).as_slice())
        }
        Rest::B2b { acceptor, accepts } => {
            put_node(out, NodeId::A(acceptor))?;
            put_accepts(out, accepts_of(accepts).as_slice())
        }
    }
}

/// A message.
pub(crate) fn put_message(
    out: &mut Vec<u8>,
    written: &mut WrittenTx,
    message: &MessageView<'_>,
) -> Result<(), Refusal>
    ensures puts { Puts out.old.items out.new.items result (spaced_words (message_words message.now)) }
    ensures kept { OnErr result (Extends out.old.items out.new.items) }
{
    let rest = message.rest();
    put_word(out, kind_word(rest))?;
    written.put(out, message.tx())?;
    put_args(out, rest)
}
