//! Whether an input is below a floor, looked at over its bytes.

ghost use Rattle.std.specs.Prelude.{◌≡◌, Some, false};
ghost use Rattle.std.specs.Option.{option_map_or};
ghost use Rattle.wire.specs.Decoding.{spells_message};
ghost use Rattle.protocol.specs.Nodes.{Asked};
ghost use Rattle.node_core.specs.Nodes.{datagram_input, input_of};
ghost use Rattle.xid.specs.Places.{is_lower};
ghost use Rattle.wire.specs.Names.{name_at};
ghost use Rattle.floors.specs.Nodes.{forgotten_answer as answer_below, is_input_below, is_request_below as is_asked_below};

use node_core::Input;
use protocol::{Action, Answer, Request};
use wire::{take_name, view_of};
use xid::{Floor, Refusal, XaCode};

/// Whether a request is on a name below the floor.
fn is_request_below(floor: &Floor, request: &Request) -> bool
    ensures { result ≡ is_asked_below (Some floor.now) request.now }
{
    match request {
        Request::Call { xid, .. } => floor.is_above_xid(xid),
        Request::Recover => false,
        Request::View { tx } => tx.get().is_below(floor),
        Request::Commit { tx } => tx.get().is_below(floor),
        Request::Status { tx } => tx.get().is_below(floor),
        Request::Timeout { tx } => tx.get().is_below(floor),
    }
}

/// Whether bytes spell a message.
fn is_message(bytes: &[u8]) -> bool
    ensures { result ≡ spells_message bytes.now }
{
    match view_of(bytes) {
        Ok(_) => true,
        Err(_) => false,
    }
}

/// Whether the name that is spelled at the front of bytes stands below the floor; no name does.
fn is_name_below(floor: &Floor, bytes: &[u8]) -> bool
    ensures { result ≡ option_map_or (λ x. is_lower (Some x.0) (Some floor.now)) (name_at bytes.now) false }
{
    match take_name(bytes) {
        Some((format, gtrid, _)) => floor.is_above(format, gtrid),
        None => false,
    }
}

/// Whether the bytes of a datagram spell a message on a name below the floor. Where the name that stands behind version and kind isn't
/// below it, no more of them is looked at.
fn is_datagram_below(floor: &Floor, bytes: &[u8]) -> bool
    ensures { result ≡ is_input_below (Some floor.now) (datagram_input bytes.now) }
{
    if bytes.len() < 2 {
        return false;
    }
    if !is_name_below(floor, &bytes[2..]) {
        return false;
    }
    is_message(bytes)
}

/// Whether an input is on a name below the floor.
pub(crate) fn is_below(floor: &Floor, input: &Input) -> bool
    ensures { result ≡ is_input_below (Some floor.now) (input_of input.now) }
{
    match input {
        Input::Asked(request) => is_request_below(floor, request),
        Input::Received(bytes) => is_datagram_below(floor, bytes),
    }
}

/// What is answered to an input below the floor.
pub(crate) fn forgotten_answer(input: &Input) -> Answer
    ensures { result ≡ answer_below (input_of input.now) }
{
    match input {
        Input::Asked(request) => forgotten_request(request),
        Input::Received(_) => Answer::Done,
    }
}

/// What is answered to a request below the floor.
fn forgotten_request(request: &Request) -> Answer
    ensures { result ≡ answer_below (Asked request.now) }
{
    match request {
        Request::Call { action, .. } => match action {
            Action::Start => Answer::Code(XaCode::DupId),
            Action::Put { .. }
            | Action::Del { .. }
            | Action::Get { .. }
            | Action::End
            | Action::EndFail
            | Action::Rollback => Answer::Code(XaCode::Nota),
        },
        Request::Recover
        | Request::View { .. }
        | Request::Commit { .. }
        | Request::Status { .. }
        | Request::Timeout { .. } => Answer::Refused(Refusal::Forgotten),
    }
}
