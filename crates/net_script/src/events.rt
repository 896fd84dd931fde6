//! Events, read and written, and what else a script asks for.

ghost use Rattle.std.specs.Prelude.{◌≡◌, ◌∷◌, false, true, OnErr};
ghost use Rattle.xid.specs.Text.{Extends};
ghost use Rattle.net_script.specs.Basics.{R, Ask, Call};
ghost use Rattle.net_script.specs.Lines.{Reads, words};
ghost use Rattle.net_script.specs.Spelling.{Finds};
ghost use Rattle.net_script.specs.Events.{IsEvent, IsEnding, action_words, event_words, action_word, request_word, request_args};
ghost use Rattle.net_script.specs.Events.{event_word, event_args};
ghost use Rattle.net_script.specs.Items.{IsCommand, command_words};
ghost use Rattle.net_script.specs.Laws.{an_ending};
ghost use Rattle.net_script.specs.Traces.{spaced_words};
ghost use Rattle.net_script.specs.Writing.{Puts};

use crate::nodes::{Leader, Manager, Party};
use crate::pieces::{
    put_bytes_word, put_floor, put_manager, put_node, put_number, put_word, put_xid,
};
use crate::stop::{Stop, or_none};
use crate::values::Command;
use crate::word::{Words, is_word};
use crate::words::{is_over, next_word};
use crate::written::put_spelled;
use protocol::{Action, Event, NodeId, Request};
use std::alloc::Global;
use xid::{Refusal, Xid};

/// How an end ends: with no word more, or with `fail`.
impl Words for Action {
    ghost fit = { IsEnding };

    ghost texts = { action_words };

    ghost allocate = { false };

    ghost spellings = { an_ending };

    fn read(_alloc: Global, args: &[u8]) -> Result<Action, Stop> {
        let Some((word, rest)) = next_word(args) else {
            return Ok(Action::End);
        };
        if !is_word(word, b"fail") || !is_over(rest) {
            return Err(Stop::Wrong);
        }
        Ok(Action::EndFail)
    }
}

/// A request of a node.
fn ask(node: NodeId, request: Request) -> Event
    ensures { result ≡ Ask node request }
{
    Event::Ask { node, request }
}

/// A call of a resource manager.
fn call(rm: u8, xid: Xid, action: Action) -> Event
    ensures { result ≡ Ask (R rm) (Call xid action) }
{
    ask(NodeId::R(rm), Request::Call { xid, action })
}

/// The event of this first word, by those after it.
#[inline(never)]
pub(crate) fn event_by(alloc: Global, name: &[u8], args: &[u8]) -> Result<Event, Stop>
    ensures { Finds true IsEvent event_words (name.now ∷ words args.now) result }
{
    if is_word(name, b"deliver") {
        let (number, ()) = Words::read(alloc, args)?;
        return Ok(Event::Deliver { number });
    }
    if is_word(name, b"start") {
        let (Manager(rm), (xid, ())) = Words::read(alloc, args)?;
        return Ok(call(rm, xid, Action::Start));
    }
    if is_word(name, b"put") {
        let (Manager(rm), (xid, (key, (value, ())))) = Words::read(alloc, args)?;
        return Ok(call(rm, xid, Action::Put { key, value }));
    }
    if is_word(name, b"del") {
        let (Manager(rm), (xid, (key, ()))) = Words::read(alloc, args)?;
        return Ok(call(rm, xid, Action::Del { key }));
    }
    if is_word(name, b"get") {
        let (Manager(rm), (xid, (key, ()))) = Words::read(alloc, args)?;
        return Ok(call(rm, xid, Action::Get { key }));
    }
    if is_word(name, b"end") {
        let (Manager(rm), (xid, action)) = Words::read(alloc, args)?;
        return Ok(call(rm, xid, action));
    }
    if is_word(name, b"rollback") {
        let (Manager(rm), (xid, ())) = Words::read(alloc, args)?;
        return Ok(call(rm, xid, Action::Rollback));
    }
    if is_word(name, b"recover") {
        let (Manager(rm), ()) = Words::read(alloc, args)?;
        return Ok(ask(NodeId::R(rm), Request::Recover));
    }
    if is_word(name, b"view") {
        let (Manager(rm), (tx, ())) = Words::read(alloc, args)?;
        return Ok(ask(NodeId::R(rm), Request::View { tx }));
    }
    if is_word(name, b"commit") {
        let (Leader(leader), (tx, ())) = Words::read(alloc, args)?;
        return Ok(ask(NodeId::L(leader), Request::Commit { tx }));
    }
    if is_word(name, b"status") {
        let (Leader(leader), (tx, ())) = Words::read(alloc, args)?;
        return Ok(ask(NodeId::L(leader), Request::Status { tx }));
    }
    if is_word(name, b"timeout") {
        let (Party(node), (tx, ())) = Words::read(alloc, args)?;
        return Ok(ask(node, Request::Timeout { tx }));
    }
    if is_word(name, b"lose") {
        let (number, ()) = Words::read(alloc, args)?;
        return Ok(Event::Lose { number });
    }
    if is_word(name, b"cut") {
        let (number, (bytes, ())) = Words::read(alloc, args)?;
        return Ok(Event::Cut { number, bytes });
    }
    if is_word(name, b"noise") {
        let (node, (bytes, ())) = Words::read(alloc, args)?;
        return Ok(Event::Noise { node, bytes });
    }
    if is_word(name, b"tear") {
        let (node, (bytes, ())) = Words::read(alloc, args)?;
        return Ok(Event::Tear { node, bytes });
    }
    if is_word(name, b"restart") {
        let (node, ()) = Words::read(alloc, args)?;
        return Ok(Event::Restart { node });
    }
    if is_word(name, b"compact") {
        let (node, ()) = Words::read(alloc, args)?;
        return Ok(Event::Compact { node });
    }
    if is_word(name, b"floor") {
        let (Manager(rm), (floor, ())) = Words::read(alloc, args)?;
        return Ok(Event::Raise { rm, floor });
    }
    if is_word(name, b"hear") {
        let (number, ()) = Words::read(alloc, args)?;
        return Ok(Event::Hear { number });
    }
    if is_word(name, b"replace") {
        let (node, (floor, ())) = Words::read(alloc, args)?;
        return Ok(Event::Replace { node, floor });
    }
    Err(Stop::Wrong)
}

/// The command of this first word, by those after it.
pub(crate) fn command_by(alloc: Global, name: &[u8], args: &[u8]) -> Result<Command, Stop>
    ensures { Finds true IsCommand command_words (name.now ∷ words args.now) result }
{
    if is_word(name, b"flow") {
        let (most, ()) = Words::read(alloc, args)?;
        return Ok(Command::Flow(most));
    }
    Ok(Command::Do(event_by(alloc, name, args)?))
}

/// The command of these words.
pub fn read_command(alloc: Global, line: &[u8]) -> Result<Option<Command>, Refusal>
    ensures { Reads IsCommand command_words (words line.now) result }
{
    let Some((name, args)) = next_word(line) else {
        return Ok(None);
    };
    or_none(command_by(alloc, name, args))
}

/// The first word of a call.
fn action_word(action: &Action) -> &'static [u8]
    ensures { result.now ≡ action_word action.now }
{
    match action {
        Action::Start => b"start",
        Action::Put { .. } => b"put",
        Action::Del { .. } => b"del",
        Action::Get { .. } => b"get",
        Action::End | Action::EndFail => b"end",
        Action::Rollback => b"rollback",
    }
}

/// The words of a call after its XID.
fn put_action(out: &mut Vec<u8>, action: &Action) -> Result<(), Refusal>
    ensures puts { Puts out.old.items out.new.items result (spaced_words (action_words action.now)) }
    ensures kept { OnErr result (Extends out.old.items out.new.items) }
{
    match action {
        Action::Start | Action::End | Action::Rollback => Ok(()),
        Action::Put { key, value } => {
            put_bytes_word(out, key.as_slice())?;
            put_bytes_word(out, value.as_slice())
        }
        Action::Del { key } | Action::Get { key } => put_bytes_word(out, key.as_slice()),
        Action::EndFail => put_word(out, b"fail"),
    }
}

/// The first word of a request.
fn request_word(request: &Request) -> &'static [u8]
    ensures { result.now ≡ request_word request.now }
{
    match request {
        Request::Call { action, .. } => action_word(action),
        Request::Recover => b"recover",
        Request::View { .. } => b"view",
        Request::Commit { .. } => b"commit",
        Request::Status { .. } => b"status",
        Request::Timeout { .. } => b"timeout",
    }
}

/// The words of a request after its node.
fn put_request(out: &mut Vec<u8>, request: &Request) -> Result<(), Refusal>
    ensures puts { Puts out.old.items out.new.items result (spaced_words (request_args request.now)) }
    ensures kept { OnErr result (Extends out.old.items out.new.items) }
{
    match request {
        Request::Call { xid, action } => {
            put_xid(out, xid)?;
            put_action(out, action)
        }
        Request::Recover => Ok(()),
        Request::View { tx }
        | Request::Commit { tx }
        | Request::Status { tx }
        | Request::Timeout { tx } => put_spelled(out, &tx.get()),
    }
}

/// The first word of an event.
pub(crate) fn event_word(event: &Event) -> &'static [u8]
    ensures { result.now ≡ event_word event.now }
{
    match event {
        Event::Ask { request, .. } => request_word(request),
        Event::Deliver { .. } => b"deliver",
        Event::Lose { .. } => b"lose",
        Event::Cut { .. } => b"cut",
        Event::Noise { .. } => b"noise",
        Event::Tear { .. } => b"tear",
        Event::Restart { .. } => b"restart",
        Event::Compact { .. } => b"compact",
        Event::Raise { .. } => b"floor",
        Event::Hear { .. } => b"hear",
        Event::Replace { .. } => b"replace",
    }
}

/// The words of an event after its first.
pub(crate) fn put_event_args(out: &mut Vec<u8>, event: &Event) -> Result<(), Refusal>
    ensures puts { Puts out.old.items out.new.items result (spaced_words (event_args event.now)) }
    ensures kept { OnErr result (Extends out.old.items out.new.items) }
{
    match event {
        Event::Ask { node, request } => {
            put_node(out, *node)?;
            put_request(out, request)
        }
        Event::Deliver { number } | Event::Lose { number } | Event::Hear { number } => {
            put_number(out, *number)
        }
        Event::Cut { number, bytes } => {
            put_number(out, *number)?;
            put_number(out, *bytes)
        }
        Event::Noise { node, bytes } => {
            put_node(out, *node)?;
            put_bytes_word(out, bytes.as_slice())
        }
        Event::Tear { node, bytes } => {
            put_node(out, *node)?;
            put_number(out, *bytes)
        }
        Event::Restart { node } | Event::Compact { node } => put_node(out, *node),
        Event::Raise { rm, floor } => {
            put_manager(out, u32::from(*rm))?;
            put_floor(out, floor)
        }
        Event::Replace { node, floor } => {
            put_node(out, *node)?;
            put_floor(out, floor)
        }
    }
}
