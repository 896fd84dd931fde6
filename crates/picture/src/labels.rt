//! What stands beside the marks of a picture.

ghost use Rattle.std.specs.Prelude.{◌≡◌, ◌++◌, ◌∷◌, decimal, IfOk, IfErr, OnOk};
ghost use Rattle.xid.specs.declared.refusals.Refusal.TheVariants.{NoMemory};
ghost use Rattle.net_script.specs.Basics.{R};
ghost use Rattle.net_script.specs.Lines.{node_text};
ghost use Rattle.net_script.specs.Events.{action_word, request_word, event_word};
ghost use Rattle.net_script.specs.Answers.{view_text};
ghost use Rattle.net_script.specs.Messages.{ballot_words, message_word, report_words, vote_text};
ghost use Rattle.net_script.specs.Traces.{spaced_words};
ghost use Rattle.picture.specs.Labels.{change_label, label_args, named, notice_label, sent_label};

use itoa::Buffer;
use net_script::{put_floor, put_tx};
use protocol::{Action, Change, Event, Request, Sent, Told, View};
use std::alloc::Global;
use wire::Kind;
use xid::{Ballot, Bytes, ManagerNumber, Refusal, Sequence, Tx, Vote};

/// The word of a call.
fn action_word(action: &Action) -> &'static [u8]
    ensures { result.now ≡ action_word action.now }
{
    match action {
        Action::Start => b"start",
        Action::Put { .. } => b"put",
        Action::Del { .. } => b"del",
        Action::Get { .. } => b"get",
        Action::End | Action::EndFail => b"end",
        Action::Rollback => b"rollback",
    }
}

/// The word of a request.
fn request_word(request: &Request) -> &'static [u8]
    ensures { result.now ≡ request_word request.now }
{
    match request {
        Request::Call { action, .. } => action_word(action),
        Request::Recover => b"recover",
        Request::View { .. } => b"view",
        Request::Commit { .. } => b"commit",
        Request::Status { .. } => b"status",
        Request::Timeout { .. } => b"timeout",
    }
}

/// The word of an event.
pub(crate) fn event_word(event: &Event) -> &'static [u8]
    ensures { result.now ≡ event_word event.now }
{
    match event {
        Event::Ask { request, .. } => request_word(request),
        Event::Deliver { .. } => b"deliver",
        Event::Lose { .. } => b"lose",
        Event::Cut { .. } => b"cut",
        Event::Noise { .. } => b"noise",
        Event::Tear { .. } => b"tear",
        Event::Restart { .. } => b"restart",
        Event::Compact { .. } => b"compact",
        Event::Raise { .. } => b"floor",
        Event::Hear { .. } => b"hear",
        Event::Replace { .. } => b"replace",
    }
}

/// The word of a view.
fn view_word(view: View) -> &'static [u8]
    ensures { result.now ≡ view_text view }
{
    match view {
        View::Working => b"working",
        View::Prepared => b"prepared",
        View::Committed => b"committed",
        View::Aborted => b"aborted",
    }
}

/// The word of a vote.
fn vote_word(vote: Vote) -> &'static [u8]
    ensures { result.now ≡ vote_text vote }
{
    match vote {
        Vote::Prepared => b"prepared",
        Vote::Aborted => b"aborted",
    }
}

/// The first word of a message.
fn kind_word(kind: &Kind) -> &'static [u8]
    ensures { result.now ≡ message_word kind.now }
{
    match kind {
        Kind::Prepare(_) => b"prepare",
        Kind::P1a { .. } => b"p1a",
        Kind::P1b { .. } => b"p1b",
        Kind::P2a { .. } => b"p2a",
        Kind::P2b { .. } => b"p2b",
        Kind::Commit(_) => b"commit",
        Kind::Abort(_) => b"abort",
        Kind::Ask { .. } => b"ask",
        Kind::B1a { .. } => b"b1a",
        Kind::B1b { .. } => b"b1b",
        Kind::B2b { .. } => b"b2b",
    }
}

/// A word, after a space.
fn put_word(out: &mut Vec<u8>, word: &[u8]) -> Result<(), Refusal>
    ensures ok { OnOk result (out.new.items ≡ out.old.items ++ 32 ∷ word.now) }
    ensures err { IfErr result (λ e. e ≡ NoMemory) }
{
    out.push(b' ')?;
    out.extend_from_slice(word)?;
    Ok(())
}

/// A ballot, after a space.
fn put_ballot(out: &mut Vec<u8>, ballot: Ballot) -> Result<(), Refusal>
    ensures ok { OnOk result (out.new.items ≡ out.old.items ++ 32 ∷ decimal ballot) }
    ensures err { IfErr result (λ e. e ≡ NoMemory) }
{
    let mut digits = Buffer::new();
    put_word(out, digits.format(ballot).as_bytes())
}

/// A resource manager, after a space.
fn put_manager(out: &mut Vec<u8>, rm: ManagerNumber) -> Result<(), Refusal>
    ensures ok { OnOk result (out.new.items ≡ out.old.items ++ 32 ∷ node_text (R rm)) }
    ensures err { IfErr result (λ e. e ≡ NoMemory) }
{
    let mut digits = Buffer::new();
    out.extend_from_slice(b" r")?;
    out.extend_from_slice(digits.format(rm).as_bytes())?;
    Ok(())
}

/// An instance and a ballot of it.
fn put_instance(out: &mut Vec<u8>, instance: ManagerNumber, ballot: Ballot) -> Result<(), Refusal>
    ensures ok { OnOk result (out.new.items ≡ out.old.items ++ spaced_words (ballot_words instance ballot)) }
    ensures err { IfErr result (λ e. e ≡ NoMemory) }
{
    put_manager(out, instance)?;
    put_ballot(out, ballot)?;
    Ok(())
}

/// A report of phase 1b.
fn put_report(out: &mut Vec<u8>, report: Option<(Ballot, Vote)>) -> Result<(), Refusal>
    ensures ok { OnOk result (out.new.items ≡ out.old.items ++ spaced_words (report_words report)) }
    ensures err { IfErr result (λ e. e ≡ NoMemory) }
{
    let Some((ballot, vote)) = report else {
        return put_word(out, b"none");
    };
    put_ballot(out, ballot)?;
    put_word(out, vote_word(vote))?;
    Ok(())
}

/// What a message says, but its transaction, its acceptor and the items of a bundle.
fn put_args(out: &mut Vec<u8>, kind: &Kind) -> Result<(), Refusal>
    ensures ok { OnOk result (out.new.items ≡ out.old.items ++ spaced_words (label_args kind.now)) }
    ensures err { IfErr result (λ e. e ≡ NoMemory) }
{
    match kind {
        Kind::Prepare(_) | Kind::Commit(_) | Kind::Abort(_) | Kind::B2b { .. } => {}
        Kind::P1a {
            instance,
            ballot,
            ..
        } => put_instance(out, *instance, *ballot)?,
        Kind::P1b {
            instance,
            ballot,
            report,
            ..
        } => {
            put_instance(out, *instance, *ballot)?;
            put_report(out, *report)?;
        }
        Kind::P2a {
            instance,
            ballot,
            vote,
            ..
        } => {
            put_instance(out, *instance, *ballot)?;
            put_word(out, vote_word(*vote))?;
        }
        Kind::P2b {
            instance,
            ballot,
            vote,
            ..
        } => {
            put_instance(out, *instance, *ballot)?;
            put_word(out, vote_word(*vote))?;
        }
        Kind::Ask { rm, .. } => put_manager(out, *rm)?,
        Kind::B1a { ballot, .. } => put_ballot(out, *ballot)?,
        Kind::B1b { ballot, .. } => put_ballot(out, *ballot)?,
    }
    Ok(())
}

/// The name of a transaction, where there are several.
fn put_named(out: &mut Vec<u8>, several: bool, tx: &Tx) -> Result<(), Refusal>
    ensures ok { OnOk result (out.new.items ≡ out.old.items ++ named several tx.now) }
    ensures err { IfErr result (λ e. e ≡ NoMemory) }
{
    if several {
        put_tx(out, tx)?;
    }
    Ok(())
}

/// What a datagram says, with the name of its transaction where there are several. The only refusal is `NoMemory`.
pub(crate) fn sent_label(alloc: Global, several: bool, sent: &Sent) -> Result<Bytes, Refusal>
    ensures ok { IfOk result (λ label. label ≡ sent_label several sent.now) }
    ensures err { IfErr result (λ e. e ≡ NoMemory) }
{
    let kind = sent.message.kind();
    let mut label = Vec::new(alloc);
    label.extend_from_slice(kind_word(kind))?;
    put_args(&mut label, kind)?;
    put_named(&mut label, several, kind.tx())?;
    Ok(Sequence::new(label))
}

/// The word of a notice and the floor that it tells. The only refusal is `NoMemory`.
pub(crate) fn notice_label(alloc: Global, told: &Told) -> Result<Bytes, Refusal>
    ensures ok { IfOk result (λ label. label ≡ notice_label told.now) }
    ensures err { IfErr result (λ e. e ≡ NoMemory) }
{
    let mut label = Vec::new(alloc);
    label.extend_from_slice(b"told")?;
    put_floor(&mut label, &told.floor)?;
    Ok(Sequence::new(label))
}

/// The view that was changed to, with the name of its transaction where there are several. The only refusal is `NoMemory`.
pub(crate) fn change_label(alloc: Global, several: bool, change: &Change) -> Result<Bytes, Refusal>
    ensures ok { IfOk result (λ label. label ≡ change_label several change.now) }
    ensures err { IfErr result (λ e. e ≡ NoMemory) }
{
    let mut label = Vec::new(alloc);
    label.extend_from_slice(view_word(change.view))?;
    put_named(&mut label, several, &change.tx)?;
    Ok(Sequence::new(label))
}
