ghost use Rattle.std.specs.Prelude.{◌≡◌, ◌≢◌, ◌<◌, ◌∷◌, IfOk, IfErr, MatchOption};
ghost use Rattle.xid.specs.declared.refusals.Refusal.TheVariants.{BadMessage};
ghost use Rattle.wire.specs.declared.message.Kind.{Kind};
ghost use Rattle.wire.specs.Versions.{version_2};
ghost use Rattle.wire.specs.Grammar.{Spells, kind_byte, spelling};
ghost use Rattle.wire.specs.Messages.{IsMessage, message_tx};
ghost use Rattle.wire.specs.Said.{said};

use crate::grammar::VERSION;
use crate::message::{Kind, Message};
use crate::rest::Rest;
use crate::spelled_tx::SpelledTx;
use crate::view_items::{accepts_of, reports_of};
use crate::view_reading::rest_of;
use std::marker::Model;
use xid::{Refusal, Tx};

/// A message, seen over the bytes that spell it, which stand elsewhere.
#[derive(Debug, Drop)]
pub struct MessageView<'a> {
    tx: SpelledTx<'a>,
    rest: Rest<'a>,
}

impl<'a> Model for MessageView<'a> {
    ghost use Rattle.wire.specs.declared.message.Kind.{Kind};
    ghost use Rattle.wire.specs.Messages.{IsMessage};
    ghost use Rattle.wire.specs.Said.{said};

    ghost Value = { Kind };

    ghost view = { λ m. said m.tx m.rest };

    ghost invariant = { λ m. IsMessage (said m.tx m.rest) };
}

/// What a message of phase 1 says, as plain data.
fn first_kind(tx: Tx, rest: Rest<'_>) -> Kind
    requires above { 1 < kind_byte (said tx rest) }
    requires below { kind_byte (said tx rest) < 4 }
    ensures { result ≡ said tx rest.entry }
{
    match rest {
        Rest::P1a { instance, ballot } => Kind::P1a {
            tx,
            instance,
            ballot,
        },
        Rest::P1b {
            instance,
            ballot,
            report,
            acceptor,
        } => Kind::P1b {
            tx,
            instance,
            ballot,
            report,
            acceptor,
        },
        _ => Kind::Prepare(tx),
    }
}

/// What a message of phase 2 says, as plain data.
fn second_kind(tx: Tx, rest: Rest<'_>) -> Kind
    requires above { 3 < kind_byte (said tx rest) }
    requires below { kind_byte (said tx rest) < 6 }
    ensures { result ≡ said tx rest.entry }
{
    match rest {
        Rest::P2a {
            instance,
            ballot,
            vote,
        } => Kind::P2a {
            tx,
            instance,
            ballot,
            vote,
        },
        Rest::P2b {
            instance,
            ballot,
            vote,
            acceptor,
        } => Kind::P2b {
            tx,
            instance,
            ballot,
            vote,
            acceptor,
        },
        _ => Kind::Prepare(tx),
    }
}

/// What a message says, as plain data.
fn kind_of(tx: Tx, rest: Rest<'_>) -> Kind
    requires { IsMessage (said tx rest) }
    ensures { result ≡ said tx rest.entry }
{
    match rest {
        Rest::Prepare => Kind::Prepare(tx),
        Rest::P1a { .. } | Rest::P1b { .. } => first_kind(tx, rest),
        Rest::P2a { .. } | Rest::P2b { .. } => second_kind(tx, rest),
        Rest::Commit => Kind::Commit(tx),
        Rest::Abort => Kind::Abort(tx),
        Rest::Ask { rm } => Kind::Ask { tx, rm },
        Rest::B1a { ballot } => Kind::B1a { tx, ballot },
        Rest::B1b {
            ballot,
            acceptor,
            reports,
        } => Kind::B1b {
            tx,
            ballot,
            acceptor,
            reports: reports_of(reports),
        },
        Rest::B2b { acceptor, accepts } => Kind::B2b {
            tx,
            acceptor,
            accepts: accepts_of(accepts),
        },
    }
}

impl<'a> MessageView<'a> {
    /// The transaction.
    pub fn tx(&self) -> &SpelledTx<'a>
        ensures value { result.now ≡ message_tx self.now }
        ensures valid { IsMessage self.now }
    {
        &self.tx
    }

    /// What it says beside that.
    pub fn rest(&self) -> Rest<'a>
        ensures value { said (message_tx self.now) result ≡ self.now }
        ensures valid { IsMessage self.now }
    {
        self.rest
    }

    /// The message with its parts in place, as it is kept and handed on.
    pub fn to_message(&self) -> Message
        ensures { result ≡ self.now }
    {
        Message::new(kind_of(self.tx.to_tx(), self.rest))
    }
}

/// The number of the kind, and what follows it, behind the version.
fn take_code(bytes: &[u8]) -> Option<(u8, &[u8])>
    ensures { MatchOption result ((k : Kind) → bytes.now ≢ spelling k) (λ x. bytes.now ≡ version_2.byte ∷ x.0 ∷ x.1.now) }
{
    let [VERSION, code, rest @ ..] = bytes else {
        return None;
    };
    Some((*code, rest))
}

/// The message that these bytes spell, over them. All other bytes are refused (`BadMessage`).
pub fn view_of(bytes: &[u8]) -> Result<MessageView<'_>, Refusal>
    ensures ok { IfOk result (λ m. Spells m bytes.now) }
    ensures err { IfErr result (λ e. (e ≡ BadMessage) × ((k : Kind) → IsMessage k → bytes.now ≢ spelling k)) }
{
    let Some((code, after)) = take_code(bytes) else {
        return Err(Refusal::BadMessage);
    };
    let Some((tx, last)) = SpelledTx::take(after) else {
        return Err(Refusal::BadMessage);
    };
    let Some(rest) = rest_of(code, &tx, last) else {
        return Err(Refusal::BadMessage);
    };
    Ok(MessageView { tx, rest })
}

/// The message that these bytes spell. All other bytes are refused (`BadMessage`).
pub fn decode(bytes: &[u8]) -> Result<Message, Refusal>
    ensures ok { IfOk result (λ m. Spells m bytes.now) }
    ensures err { IfErr result (λ e. (e ≡ BadMessage) × ((k : Kind) → IsMessage k → bytes.now ≢ spelling k)) }
{
    Ok(view_of(bytes)?.to_message())
}
