//! What a leader and a resource manager are asked.

ghost use Rattle.std.specs.Prelude.{◌≡◌, ℕ, true, IfOk, IfErr, IsOk, OnOk};
ghost use Rattle.xid.specs.declared.refusals.Refusal.TheVariants.{NoMemory, NoSuch};
ghost use Rattle.protocol.specs.declared.answers.Answer.TheVariants.{Refused};
ghost use Rattle.protocol.specs.declared.requests.Request.TheVariants as requests;
ghost use Rattle.protocol.specs.Effects.{Config, view_standing};
ghost use Rattle.protocol.specs.Nodes.{on_request, accepts_request as is_accepted};
ghost use Rattle.leader.specs.Decisions.{shown};
ghost use Rattle.resource_manager.specs.Managers.{IsCall};
ghost use Rattle.node_core.specs.declared.role.Role.TheVariants as roles;
ghost use Rattle.node_core.specs.Roles.{Decides, decided, answering};
ghost use Rattle.node_core.specs.Sparing.{is_ending, leads_freely, manages_freely};

use crate::output::Output;
use branch_table::Ending;
use leader::{Leader, LeaderDecision};
use protocol::{Action, Answer, NodeId, Request, Standing, View};
use resource_manager::ResourceManager;
use stable_record::Fact;
use wire::SpelledTx;
use xid::{Refusal, Xid};

/// Whether a kind of node takes a request: an acceptor none, a leader those on transactions, a resource manager the client calls too.
pub fn accepts_request(who: NodeId, request: &Request) -> bool
    ensures { result ≡ is_accepted who request.now }
{
    match who {
        NodeId::A(_) => false,
        NodeId::L(_) => match request {
            Request::Commit { .. } | Request::Status { .. } | Request::Timeout { .. } => true,
            Request::Call { .. } | Request::Recover | Request::View { .. } => false,
        },
        NodeId::R(_) => match request {
            Request::Call { .. }
            | Request::Recover
            | Request::View { .. }
            | Request::Timeout { .. } => true,
            Request::Commit { .. } | Request::Status { .. } => false,
        },
    }
}

/// What a leader decides on a request, in place of what was decided before.
pub(crate) fn lead(
    leader: &mut Leader,
    request: &Request,
    decision: &mut LeaderDecision,
) -> Result<(), Refusal>
    ensures ok { OnOk result (Decides (roles.Leader leader.old) (roles.Leader leader.new) (shown decision.new)
        (λ config who facts memory. on_request config who facts memory request.now)) }
    ensures err { IfErr result (λ e. e ≡ NoMemory) }
    ensures free { leads_freely request.now ≡ true → IsOk result }
{
    match request {
        Request::Commit { tx } => leader.commit(&tx.get(), decision),
        Request::Status { tx } => {
            leader.status(&tx.get(), decision);
            Ok(())
        }
        Request::Timeout { tx } => {
            leader.timeout(&tx.get(), decision);
            Ok(())
        }
        Request::Call { .. } | Request::Recover | Request::View { .. } => {
            decision.refuse(Refusal::NoSuch);
            Ok(())
        }
    }
}

/// What a resource manager does on a request.
pub(crate) fn at_manager(
    manager: &mut ResourceManager,
    request: &Request,
    out: &mut Output,
    fact: &mut Option<Fact>,
) -> Result<(), Refusal>
    ensures ok { OnOk result (Decides (roles.Manager manager.old) (roles.Manager manager.new) (decided fact.new out.new)
        (λ config who facts memory. on_request config who facts memory request.now)) }
    ensures err { IfErr result (λ e. e ≡ NoMemory) }
    ensures free { manages_freely request.now ≡ true → IsOk result }
{
    match request {
        Request::Call { xid, action } => {
            out.take_answer(call(manager, xid, action)?, fact);
            Ok(())
        }
        Request::Recover => {
            out.take_answer(manager.recover()?, fact);
            Ok(())
        }
        Request::View { tx } => {
            show(manager, &tx.get(), out, fact);
            Ok(())
        }
        Request::Timeout { tx } => {
            remind(manager, &tx.get(), out, fact);
            Ok(())
        }
        Request::Commit { .. } | Request::Status { .. } => {
            not_taken(out, fact);
            Ok(())
        }
    }
}

/// What a resource manager does where its view is asked for.
#[inline(never)]
fn show(manager: &ResourceManager, tx: &SpelledTx<'_>, out: &mut Output, fact: &mut Option<Fact>)
    ensures { Decides (roles.Manager manager.now) (roles.Manager manager.now) (decided fact.new out.new)
        (λ config who facts memory. on_request config who facts memory (requests.View tx.now)) }
{
    match manager.view(tx) {
        Ok(view) => out.take_answer(Answer::Stands(standing_of(view)), fact),
        Err(refusal) => out.take_answer(Answer::Refused(refusal), fact),
    }
}

/// What a resource manager does at a timeout.
#[inline(never)]
fn remind(manager: &ResourceManager, tx: &SpelledTx<'_>, out: &mut Output, fact: &mut Option<Fact>)
    ensures { Decides (roles.Manager manager.now) (roles.Manager manager.now) (decided fact.new out.new)
        (λ config who facts memory. on_request config who facts memory (requests.Timeout tx.now)) }
{
    out.take_reminder(manager.timeout(tx), fact);
}

/// A client call.
fn call(manager: &mut ResourceManager, xid: &Xid, action: &Action) -> Result<Answer, Refusal>
    ensures ok { IfOk result (λ answer. (config : Config) (number : ℕ)
        → IsCall config number manager.old manager.new xid.now action.now answer) }
    ensures err { IfErr result (λ e. e ≡ NoMemory) }
    ensures free { is_ending action.now ≡ true → IsOk result }
{
    match action {
        Action::Start => manager.start(xid),
        Action::Put { key, value } => manager.put(xid, key.as_slice(), value.as_slice()),
        Action::Del { key } => manager.del(xid, key.as_slice()),
        Action::Get { key } => manager.get(xid, key.as_slice()),
        Action::End => Ok(manager.end(xid, Ending::Success)),
        Action::EndFail => Ok(manager.end(xid, Ending::Fail)),
        Action::Rollback => Ok(manager.rollback(xid)),
    }
}

/// How a view is answered.
fn standing_of(view: View) -> Standing
    ensures { result ≡ view_standing view }
{
    match view {
        View::Working => Standing::Working,
        View::Prepared => Standing::Prepared,
        View::Committed => Standing::Committed,
        View::Aborted => Standing::Aborted,
    }
}

/// What is decided on a request that a kind of node doesn't take.
pub(crate) fn not_taken(out: &mut Output, fact: &mut Option<Fact>)
    ensures { decided fact.new out.new ≡ answering (Refused NoSuch) }
{
    out.take_answer(Answer::Refused(Refusal::NoSuch), fact);
}
