//! A resource manager's floor rises.

ghost use Rattle.std.specs.Prelude.{◌≡◌, Result as ResultParts, IfOk, OnOk};
ghost use Rattle.xid.specs.declared.refusals.Refusal.{Refusal as RefusalParts};
ghost use Rattle.node_core.specs.Opening.{restart_answer};
ghost use Rattle.floors.specs.Worlds.{is_done};
ghost use Rattle.letter_port.specs.LetterPorts.{RaisesInLetters};
ghost use Rattle.node_process.specs.Rising.{IsLetBy, MayRise, MayTell};

use crate::desk::Desk;
use letter_port::LetterPort;
use port::{Member, Port};
use protocol::{Answer, NodeId};
use serving::held_back;
use stable_record::Record;
use std::time::Instant;
use xid::{Floor, Refusal};

/// How far a resource manager's branches let its floor rise that is to rise to a place.
pub(crate) fn let_by_branches<R: Record>(
    node: &Member<R>,
    desk: &Desk,
    wanted: Floor,
) -> Result<Floor, Refusal>
    ensures { IfOk result (IsLetBy desk.now.notes.branches wanted) }
{
    let prepared = node.open_transactions()?;
    Ok(held_back(wanted, &desk.notes.branches, prepared.as_slice()))
}

/// A node's floor is to rise to a place; what that is answered. Refused: the node is down, and its process is to end.
pub(crate) fn raise<R: Record, P: Port>(
    node: &mut Member<R>,
    port: &mut LetterPort<P>,
    floor: &Floor,
) -> Result<Answer, Refusal>
    ensures { IfOk result (λ answer. (done : ResultParts (Unit {0}) RefusalParts) × (answer ≡ restart_answer done)
        × RaisesInLetters P.sent floor.now node.old.floored.node.who node.old node.new port.old port.new done) }
{
    match port.raise(node, floor) {
        Ok(()) => Ok(Answer::Done),
        Err(refusal) => match refusal {
            Refusal::NoMemory | Refusal::RecordFault => Err(refusal),
            _ => Ok(Answer::Refused(refusal)),
        },
    }
}

/// Whether what was asked for was done.
fn is_done(answer: &Answer) -> bool
    ensures { result ≡ is_done answer.now }
{
    matches!(answer, Answer::Done)
}

/// What came of a floor that was to rise by itself.
#[derive(Clone, Copy, Debug)]
pub struct Rising {
    /// The place of the branch that held it back, at or below which it stays, if one did.
    pub held_by: Option<Floor>,
    /// Whether it rose, and the record became what is left.
    pub has_risen: bool,
}

/// It isn't time, or nothing rises by itself.
const STAYS: Rising = Rising {
    held_by: None,
    has_risen: false,
};

/// The floor of a resource manager whose names stand in time rises by itself, if it is time. Where nothing was begun since the process
/// began none does: no name says then that the clock is right.
pub(crate) fn rise<R: Record, P: Port>(
    node: &mut Member<R>,
    port: &mut LetterPort<P>,
    desk: &mut Desk,
    now: Instant,
) -> Result<Rising, Refusal>
    ensures rises { IfOk result (λ rising. MayRise P.sent desk.old.terms desk.old.notes.branches rising.has_risen node.old node.new
        port.old port.new) }
    ensures desk { desk.new ≡ record desk.old { next_rise = desk.new.next_rise } }
{
    if !desk.may_rise(now) || desk.terms.latest == 0 {
        return Ok(STAYS);
    }
    let Some(wanted) = desk.terms.wanted_floor() else {
        return Ok(STAYS);
    };
    let floor = let_by_branches(node, desk, wanted)?;
    let held_by = if wanted.is_higher_than(&Some(floor)) {
        Some(floor)
    } else {
        None
    };
    if !floor.is_higher_than(&node.floor()) {
        return Ok(Rising {
            held_by,
            has_risen: false,
        });
    }
    let answer = raise(node, port, &floor)?;
    Ok(Rising {
        held_by,
        has_risen: is_done(&answer),
    })
}

/// A resource manager that has a floor tells it again, if it is time: who was told may have been started anew since.
pub(crate) fn tell_again<R: Record, P: Port>(
    node: &mut Member<R>,
    port: &mut LetterPort<P>,
    desk: &mut Desk,
    now: Instant,
) -> Result<(), Refusal>
    ensures tells { OnOk result (MayTell P.sent node.old node.new port.old port.new) }
    ensures desk { desk.new ≡ record desk.old { next_tell = desk.new.next_tell } }
{
    if !desk.is_to_tell(now) {
        return Ok(());
    }
    let NodeId::R(_) = desk.terms.who else {
        return Ok(());
    };
    if let Some(floor) = node.floor() {
        raise(node, port, &floor)?;
    }
    Ok(())
}
