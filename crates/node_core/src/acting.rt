//! What a node does on an input: by its role, if it is up.

ghost use Rattle.std.specs.Prelude.{◌≡◌, true, false, List, Option, Some, None};
ghost use Rattle.stable_record.specs.declared.fact.FactKind.{FactKind};
ghost use Rattle.protocol.specs.Effects.{Config};
ghost use Rattle.protocol.specs.Nodes.{Memory, Asked, effect_of, on_message, down_answer as down_answer_of};
ghost use Rattle.protocol.specs.declared.nodes.NodeId.{NodeId as Id};
ghost use Rattle.stable_record.specs.Held.{Held};
ghost use Rattle.node_core.specs.declared.role.Role.TheVariants as roles;
ghost use Rattle.node_core.specs.Roles.{RoleStands};
ghost use Rattle.node_core.specs.Storing.{Carries, carried};
ghost use Rattle.node_core.specs.declared.config.Sizes.{Sizes as SizesParts};
ghost use Rattle.node_core.specs.Nodes.{AreSizes, datagram_input, input_of, role_settled};
ghost use Rattle.node_core.specs.Sparing.{asks_freely, hears_freely, is_free};
ghost use Rattle.node_core.specs.Handling.{Handles};

use crate::accepting::{accept, is_of_cluster};
use crate::config::Sizes;
use crate::managing::manage;
use crate::output::{Input, Output};
use crate::requests::accepts_request;
use crate::role::Role;
use crate::storing::{Workspace, carry_out_asked};
use leader::Leader;
use protocol::{Answer, NodeId, Request};
use stable_record::Record;
use wire::{MessageView, view_of};
use xid::{Refusal, XaCode};

/// What a leader that is up does on a message of the cluster, with nothing to store. False where it goes down.
fn lead(leader: &mut Leader, message: &MessageView<'_>, out: &mut Output) -> bool
    ensures { (config : Config) (who : Id) (facts : List FactKind) (memory : Memory) (held : Held)
        → RoleStands config who (roles.Leader leader.old) facts memory
        → Carries config who facts memory (on_message config who facts memory message.now) held held (roles.Leader leader.new)
        (carried result out.new) }
{
    match out.sends.lead(leader, message, &mut out.reply) {
        Ok(()) => {
            out.keep_view();
            true
        }
        Err(refusal) => {
            out.refuse(refusal);
            false
        }
    }
}

/// What a node that is up does on a message of the cluster. False where it goes down.
fn play<R: Record>(
    work: &mut Workspace,
    device: &mut R,
    who: NodeId,
    role: &mut Role,
    message: &MessageView<'_>,
    out: &mut Output,
) -> bool
    ensures carries { (config : Config) (facts : List FactKind) (memory : Memory) → RoleStands config who role.old facts memory
        → Carries config who facts memory (on_message config who facts memory message.now)
        (R.held device.old) (R.held device.new) role.new (carried result out.new) }
    ensures free { hears_freely role.old ≡ true → (config : Config) (facts : List FactKind) (memory : Memory)
        → RoleStands config who role.old facts memory → (on_message config who facts memory message.now).fact ≡ None → result ≡ true }
{
    match role {
        Role::Acceptor(acceptor) => { accept(&mut work.frame, device, who, acceptor, message, out) }
        Role::Leader(leader) => lead(leader, message, out),
        Role::Manager(manager) => { manage(&mut work.frame, device, who, manager, message, out) }
    }
}

/// What a node that is up does on the bytes of a datagram. False where it goes down.
fn hear<R: Record>(
    work: &mut Workspace,
    device: &mut R,
    who: NodeId,
    sizes: Sizes,
    role: &mut Role,
    bytes: &[u8],
    out: &mut Output,
) -> bool
    ensures carries { (config : Config) (facts : List FactKind) (memory : Memory) → AreSizes config sizes
        → RoleStands config who role.old facts memory
        → Carries config who facts memory (effect_of config who facts memory (datagram_input bytes.now))
        (R.held device.old) (R.held device.new) role.new (carried result out.new) }
    ensures free { is_free who (datagram_input bytes.now) ≡ true → (config : Config) (facts : List FactKind) (memory : Memory)
        → AreSizes config sizes → RoleStands config who role.old facts memory
        → (effect_of config who facts memory (datagram_input bytes.now)).fact ≡ None → result ≡ true }
{
    match &view_of(bytes) {
        Ok(message) => {
            if !is_of_cluster(sizes, message) {
                out.answer(Answer::Done);
                return true;
            }
            play(work, device, who, role, message, out)
        }
        Err(_) => {
            out.refuse(Refusal::BadMessage);
            true
        }
    }
}

/// What a node that is up does on a request. False where it goes down.
fn serve<R: Record>(
    work: &mut Workspace,
    device: &mut R,
    who: NodeId,
    role: &mut Role,
    request: &Request,
    out: &mut Output,
) -> bool
    ensures carries { (config : Config) (facts : List FactKind) (memory : Memory) → RoleStands config who role.old facts memory
        → Carries config who facts memory (effect_of config who facts memory (Asked request.now))
        (R.held device.old) (R.held device.new) role.new (carried result out.new) }
    ensures free { asks_freely who request.now ≡ true → (config : Config) (facts : List FactKind) (memory : Memory)
        → RoleStands config who role.old facts memory
        → (effect_of config who facts memory (Asked request.now)).fact ≡ None → result ≡ true }
{
    match role.on_request(request, out, &mut work.fact) {
        Ok(()) => carry_out_asked(work, device, who, role, out),
        Err(refusal) => {
            out.refuse(refusal);
            false
        }
    }
}

/// Where a decision wasn't carried out, the node is down.
pub(crate) fn settle(role: &mut Option<Role>, up: bool)
    ensures { role.new ≡ role_settled role.old up }
{
    if !up {
        *role = None;
    }
}

/// What a node that is down answers to a request.
fn down_answer(request: &Request) -> Answer
    ensures { result ≡ down_answer_of (Asked request.now) }
{
    match request {
        Request::Call { .. } => Answer::Code(XaCode::RmFail),
        Request::Recover => Answer::Code(XaCode::RmFail),
        Request::View { .. } => Answer::Code(XaCode::RmFail),
        Request::Commit { .. } => Answer::Refused(Refusal::Down),
        Request::Status { .. } => Answer::Refused(Refusal::Down),
        Request::Timeout { .. } => Answer::Refused(Refusal::Down),
    }
}

/// What a node does on the bytes of a datagram.
fn receive<R: Record>(
    work: &mut Workspace,
    device: &mut R,
    who: NodeId,
    sizes: Sizes,
    role: &mut Option<Role>,
    bytes: &[u8],
    out: &mut Output,
)
    ensures { Handles who sizes (datagram_input bytes.now) (R.held device.old) (R.held device.new) role.old role.new out.new }
{
    let stays = match role {
        Some(up) => hear(work, device, who, sizes, up, bytes, out),
        None => {
            out.refuse(Refusal::Down);
            return;
        }
    };
    settle(role, stays);
}

/// What a node does on a request, in a cluster of whatever sizes.
fn ask<R: Record>(
    work: &mut Workspace,
    device: &mut R,
    who: NodeId,
    role: &mut Option<Role>,
    request: &Request,
    out: &mut Output,
)
    ensures { (sizes : SizesParts)
        → Handles who sizes (Asked request.now) (R.held device.old) (R.held device.new) role.old role.new out.new }
{
    if !accepts_request(who, request) {
        out.refuse(Refusal::NoSuch);
        return;
    }
    let stays = match role {
        Some(up) => serve(work, device, who, up, request, out),
        None => {
            out.answer(down_answer(request));
            return;
        }
    };
    settle(role, stays);
}

/// What a node does on an input. What is put out takes the place of what came of another.
pub(crate) fn handle<R: Record>(
    work: &mut Workspace,
    device: &mut R,
    who: NodeId,
    sizes: Sizes,
    role: &mut Option<Role>,
    input: &Input,
    out: &mut Output,
)
    ensures { Handles who sizes (input_of input.now) (R.held device.old) (R.held device.new) role.old role.new out.new }
{
    match input {
        Input::Asked(request) => ask(work, device, who, role, request, out),
        Input::Received(bytes) => receive(work, device, who, sizes, role, bytes, out),
    }
}
