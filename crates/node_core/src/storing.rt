//! How a node stores what was decided: ready for the fact first, then appended, then played. Nothing is sent that wasn't stored before.

ghost use Rattle.std.specs.Prelude.{◌≡◌, List, None, Some, true};
ghost use Rattle.stable_record.specs.declared.fact.FactKind.{FactKind};
ghost use Rattle.stable_record.specs.Facts.{IsFact};
ghost use Rattle.protocol.specs.Effects.{Config, Effect};
ghost use Rattle.protocol.specs.Nodes.{Memory};
ghost use Rattle.node_core.specs.Roles.{IsDecided, decided};
ghost use Rattle.node_core.specs.Storing.{HasStored, Carries, carried, fact_frame};

use crate::output::Output;
use crate::role::Role;
use crate::taking::Playing;
use protocol::NodeId;
use stable_record::{Fact, FactView, MemRecord, Record, RecordError};
use std::alloc::Global;
use wire::MAX_TX_BYTES;

/// Why a fact wasn't answered as stored.
#[derive(Clone, Copy, Debug, PartialEq, Eq)]
pub(crate) enum Stopped {
    /// The record failed. The fact is there where its whole frame was kept.
    Fault {
        /// Whether it was.
        whole: bool,
    },
    /// Memory ran out, and the record is as it was.
    Memory,
}

/// Where a node has the fact that it is to store, its frame, and the frames of a group: places that are kept from input to input, so that
/// none is made anew.
#[derive(Drop)]
pub(crate) struct Workspace {
    /// Where memory comes from.
    pub(crate) alloc: Global,
    /// The fact, if there is one.
    pub(crate) fact: Option<Fact>,
    /// The frame of the last one that was stored.
    pub(crate) frame: Vec<u8>,
    /// The frames of the last group.
    pub(crate) group: MemRecord,
}

impl Workspace {
    /// Empty places, which take no memory.
    pub(crate) fn new(alloc: Global) -> Workspace {
        Workspace {
            alloc,
            fact: None,
            frame: Vec::new(alloc),
            group: MemRecord::new(alloc, Vec::new(alloc)),
        }
    }
}

/// Appends the frame of whatever fact it is.
fn append_frame<R: Record>(device: &mut R, frame: &[u8]) -> Result<(), Stopped>
    ensures { (fact : FactKind) → frame.now ≡ fact_frame fact → HasStored fact (R.held device.old) (R.held device.new) result }
{
    match device.append(frame) {
        Ok(()) => Ok(()),
        Err(RecordError::Fault) => {
            let whole = device.kept() == frame.len();
            Err(Stopped::Fault { whole })
        }
        Err(RecordError::Memory) => Err(Stopped::Memory),
    }
}

/// Appends the frame of a fact, which is made in the place of another.
pub(crate) fn store<R: Record>(
    frame: &mut Vec<u8>,
    device: &mut R,
    fact: &FactView<'_>,
) -> Result<(), Stopped>
    ensures stored { HasStored fact.now (R.held device.old) (R.held device.new) result }
    ensures valid { IsFact fact.now }
{
    frame.clear();
    match fact.write(frame) {
        Ok(()) => append_frame(device, frame),
        Err(_) => Err(Stopped::Memory),
    }
}

/// Carries out what a role decided: with nothing to store, it is answered and sent; else the role makes itself ready for the fact, which
/// is appended and then played. False where the node goes down: the record failed, or memory ran out. Then nothing is sent.
pub(crate) fn carry_out<R: Record, P: Playing>(
    frame: &mut Vec<u8>,
    device: &mut R,
    who: NodeId,
    role: &mut P,
    fact: &Option<FactView<'_>>,
    out: &mut Output,
) -> bool
    ensures carries { (config : Config) (facts : List FactKind) (memory : Memory) (e : Effect Memory)
        → IsDecided config who facts memory (P.role role.old) (decided fact.now out.old) e
        → Carries config who facts memory e (R.held device.old) (R.held device.new) (P.role role.new) (carried result out.new) }
    ensures idle { fact.now ≡ None → result ≡ true }
{
    let Some(fact) = fact else {
        out.keep_view();
        return true;
    };
    match role.make_ready(fact) {
        Ok(()) => {}
        Err(refusal) => {
            out.refuse(refusal);
            return false;
        }
    }
    match store(frame, device, fact) {
        Ok(()) => {}
        Err(stopped) => {
            out.stop(stopped, who, fact);
            return false;
        }
    }
    match role.take(fact) {
        Ok(()) => {
            out.put_change_by(who, fact);
            true
        }
        Err(refusal) => {
            out.refuse(refusal);
            false
        }
    }
}

/// Carries out that a role decided to store a fact that has its transaction in place, as `carry_out` does. It stands apart, since the room
/// for the transaction's spelling is cleared.
#[inline(never)]
fn carry_out_fact<R: Record>(
    frame: &mut Vec<u8>,
    device: &mut R,
    who: NodeId,
    role: &mut Role,
    fact: Fact,
    out: &mut Output,
) -> bool
    ensures { (config : Config) (facts : List FactKind) (memory : Memory) (e : Effect Memory)
        → IsDecided config who facts memory role.old (decided (Some fact) out.old) e
        → Carries config who facts memory e (R.held device.old) (R.held device.new) role.new (carried result out.new) }
{
    let mut buffer = [0; MAX_TX_BYTES];
    let fact = Some(FactView::of(fact, &mut buffer));
    carry_out(frame, device, who, role, &fact, out)
}

/// Carries out what a role decided on a request: its fact, if there is one, has its transaction in place.
pub(crate) fn carry_out_asked<R: Record>(
    work: &mut Workspace,
    device: &mut R,
    who: NodeId,
    role: &mut Role,
    out: &mut Output,
) -> bool
    ensures carries { (config : Config) (facts : List FactKind) (memory : Memory) (e : Effect Memory)
        → IsDecided config who facts memory role.old (decided work.old.fact out.old) e
        → Carries config who facts memory e (R.held device.old) (R.held device.new) role.new (carried result out.new) }
    ensures idle { work.old.fact ≡ None → result ≡ true }
{
    let Some(_) = &work.fact else {
        out.keep_view();
        return true;
    };
    let Some(fact) = work.fact.take() else {
        unreachable!();
    };
    carry_out_fact(&mut work.frame, device, who, role, fact, out)
}
