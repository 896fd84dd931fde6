//! What a message says beside its transaction, read from the bytes behind that.

ghost use Rattle.std.specs.Prelude.{◌≡◌, ◌≢◌, ◌↔◌, IsTrue};
ghost use Rattle.xid.specs.Transactions.{TxParts};
ghost use Rattle.wire.specs.Grammar.{kind_byte};
ghost use Rattle.wire.specs.Messages.{IsMessage};
ghost use Rattle.wire.specs.Reading.{p1a_at, p1b_at, p2a_at, p2b_at, ask_at, b1a_at, b1b_at, b2b_at, kind_at};
ghost use Rattle.wire.specs.Decoding.{decoded};
ghost use Rattle.wire.specs.Said.{said, heard, told};

use crate::grammar::VersionNumber;
use crate::items::{InstanceAccept, InstanceReport};
use crate::message::is_report_below;
use crate::reading::{
    take_byte, take_end, take_instance, take_number, take_report, take_rm, take_vote,
};
use crate::rest::Rest;
use crate::spelled_tx::SpelledTx;
use crate::view_items::are_items;
use xid::MAX_ACCEPTORS;

#[tactic(auto, unfolding(crate::specs::Reading::p1a_at))]
fn take_p1a(bytes: &[u8]) -> Option<(Rest<'_>, &[u8])>
    ensures { (tx : TxParts) → heard tx result ≡ p1a_at tx bytes.now }
{
    let (instance, ballot, rest) = take_instance(bytes)?;
    Some((Rest::P1a { instance, ballot }, rest))
}

#[tactic(auto, unfolding(crate::specs::Reading::p1b_at))]
fn take_p1b(bytes: &[u8]) -> Option<(Rest<'_>, &[u8])>
    ensures { (tx : TxParts) → heard tx result ≡ p1b_at tx bytes.now }
{
    let (instance, ballot, rest) = take_instance(bytes)?;
    let (report, rest) = take_report(rest)?;
    let (acceptor, rest) = take_byte(rest)?;
    let said = Rest::P1b {
        instance,
        ballot,
        report,
        acceptor,
    };
    Some((said, rest))
}

#[tactic(auto, unfolding(crate::specs::Reading::p2a_at))]
fn take_p2a(bytes: &[u8]) -> Option<(Rest<'_>, &[u8])>
    ensures { (tx : TxParts) → heard tx result ≡ p2a_at tx bytes.now }
{
    let (instance, ballot, rest) = take_instance(bytes)?;
    let (vote, rest) = take_vote(rest)?;
    let said = Rest::P2a {
        instance,
        ballot,
        vote,
    };
    Some((said, rest))
}

#[tactic(auto, unfolding(crate::specs::Reading::p2b_at))]
fn take_p2b(bytes: &[u8]) -> Option<(Rest<'_>, &[u8])>
    ensures { (tx : TxParts) → heard tx result ≡ p2b_at tx bytes.now }
{
    let (instance, ballot, rest) = take_instance(bytes)?;
    let (vote, rest) = take_vote(rest)?;
    let (acceptor, rest) = take_byte(rest)?;
    let said = Rest::P2b {
        instance,
        ballot,
        vote,
        acceptor,
    };
    Some((said, rest))
}

#[tactic(auto, unfolding(crate::specs::Reading::ask_at))]
fn take_ask(bytes: &[u8]) -> Option<(Rest<'_>, &[u8])>
    ensures { (tx : TxParts) → heard tx result ≡ ask_at tx bytes.now }
{
    let (rm, rest) = take_rm(VersionNumber::Second, bytes)?;
    Some((Rest::Ask { rm }, rest))
}

#[tactic(auto, unfolding(crate::specs::Reading::b1a_at))]
fn take_b1a(bytes: &[u8]) -> Option<(Rest<'_>, &[u8])>
    ensures { (tx : TxParts) → heard tx result ≡ b1a_at tx bytes.now }
{
    let (ballot, rest) = take_number(bytes)?;
    Some((Rest::B1a { ballot }, rest))
}

/// Takes what a message of a number says, where it isn't a bundle of items.
#[tactic(auto, unfolding(crate::specs::Reading::kind_at))]
fn take_plain(code: u8, bytes: &[u8]) -> Option<(Rest<'_>, &[u8])>
    requires no_reports { code ≢ 11 }
    requires no_accepts { code ≢ 12 }
    ensures { (tx : TxParts) → heard tx result ≡ kind_at code tx bytes.now }
{
    match code {
        1 => Some((Rest::Prepare, bytes)),
        2 => take_p1a(bytes),
        3 => take_p1b(bytes),
        4 => take_p2a(bytes),
        5 => take_p2b(bytes),
        6 => Some((Rest::Commit, bytes)),
        7 => Some((Rest::Abort, bytes)),
        8 => take_ask(bytes),
        10 => take_b1a(bytes),
        _ => None,
    }
}

/// Whether a rest makes a message with the transaction, where it isn't a bundle of items.
fn is_said(tx: &SpelledTx<'_>, rest: Rest<'_>) -> bool
    requires no_reports { kind_byte (said tx.now rest) ≢ 11 }
    requires no_accepts { kind_byte (said tx.now rest) ≢ 12 }
    ensures { IsTrue result ↔ IsMessage (said tx.now rest.entry) }
{
    let _ = tx.count();
    match rest {
        Rest::Prepare | Rest::Commit | Rest::Abort => true,
        Rest::P1a { instance, ballot } => tx.is_participant(instance) && ballot >= 1,
        Rest::P1b {
            instance,
            ballot,
            report,
            acceptor,
        } => {
            tx.is_participant(instance)
                && ballot >= 1
                && is_report_below(report, ballot)
                && acceptor < MAX_ACCEPTORS
        }
        Rest::P2a { instance, .. } => tx.is_participant(instance),
        Rest::P2b {
            instance,
            acceptor,
            ..
        } => tx.is_participant(instance) && acceptor < MAX_ACCEPTORS,
        Rest::Ask { rm } => tx.is_participant(rm),
        Rest::B1a { ballot } => ballot >= 1,
        Rest::B1b { .. } | Rest::B2b { .. } => false,
    }
}

fn plain_of<'a>(code: u8, tx: &SpelledTx<'_>, bytes: &'a [u8]) -> Option<Rest<'a>>
    requires no_reports { code ≢ 11 }
    requires no_accepts { code ≢ 12 }
    ensures { told tx.now result ≡ decoded (kind_at code tx.now bytes.now) }
{
    let (rest, after) = take_plain(code, bytes)?;
    take_end(after)?;
    if !is_said(tx, rest) {
        return None;
    }
    Some(rest)
}

#[tactic(auto, unfolding(crate::specs::Reading::b1b_at))]
fn b1b_of<'a>(tx: &SpelledTx<'_>, bytes: &'a [u8]) -> Option<Rest<'a>>
    ensures { told tx.now result ≡ decoded (b1b_at tx.now bytes.now) }
{
    let (ballot, rest) = take_number(bytes)?;
    let (acceptor, reports) = take_byte(rest)?;
    if ballot == 0 {
        return None;
    }
    if acceptor >= MAX_ACCEPTORS {
        return None;
    }
    if !are_items::<InstanceReport>(tx, ballot, reports) {
        return None;
    }
    let _ = tx.count();
    Some(Rest::B1b {
        ballot,
        acceptor,
        reports,
    })
}

#[tactic(auto, unfolding(crate::specs::Reading::b2b_at))]
fn b2b_of<'a>(tx: &SpelledTx<'_>, bytes: &'a [u8]) -> Option<Rest<'a>>
    ensures { told tx.now result ≡ decoded (b2b_at tx.now bytes.now) }
{
    let (acceptor, accepts) = take_byte(bytes)?;
    if acceptor >= MAX_ACCEPTORS {
        return None;
    }
    if !are_items::<InstanceAccept>(tx, 0, accepts) {
        return None;
    }
    let _ = tx.count();
    Some(Rest::B2b { acceptor, accepts })
}

/// What the message of a number says beside its transaction, which stands to the end.
#[tactic(auto, unfolding(crate::specs::Reading::kind_at))]
pub(crate) fn rest_of<'a>(code: u8, tx: &SpelledTx<'_>, bytes: &'a [u8]) -> Option<Rest<'a>>
    ensures { told tx.now result ≡ decoded (kind_at code tx.now bytes.now) }
{
    match code {
        11 => b1b_of(tx, bytes),
        12 => b2b_of(tx, bytes),
        _ => plain_of(code, tx, bytes),
    }
}
