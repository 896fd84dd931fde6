//! Inputs that are handled as one group: each is decided after those before it, and the frames of all go into one text.

ghost use Rattle.std.specs.Prelude.{◌≡◌, List, [], map, length, is_some, true, false, None};
ghost use Rattle.stable_record.specs.Held.{Held};
ghost use Rattle.stable_record.specs.Records.{mem_held};
ghost use Rattle.protocol.specs.declared.rows.Row.{Row};
ghost use Rattle.protocol.specs.declared.answers.Answer.TheVariants.{Refused};
ghost use Rattle.protocol.specs.Effects.{Config};
ghost use Rattle.protocol.specs.Nodes.{NodeState};
ghost use Rattle.node_core.specs.Nodes.{AreSizes, Stands, input_of};
ghost use Rattle.node_core.specs.Groups.{AppendsOnce, Comes, GathersOn, Groups, IsStoredAll};
ghost use Rattle.node_core.specs.Storing.{output_of};

use crate::acting::{handle, settle};
use crate::config::Sizes;
use crate::output::{Input, Output};
use crate::role::Role;
use crate::storing::Workspace;
use protocol::NodeId;
use stable_record::{MemRecord, Record, RecordError};
use std::alloc::Global;
use std::mem;
use xid::Refusal;

/// What a node does on inputs, one after another, with their frames in memory.
fn gather(
    work: &mut Workspace,
    frames: &mut MemRecord,
    who: NodeId,
    sizes: Sizes,
    role: &mut Option<Role>,
    inputs: &[Input],
    outs: &mut [Output],
)
    requires { length outs.old ≡ length inputs.now }
    ensures { (config : Config) (own : List Row) (m : NodeState) (held : Held) → held.armed ≡ None
        → (mem_held frames.old).armed ≡ None → AreSizes config sizes → Stands config who own held role.old m
        → GathersOn config who own (record { state = m; held = held; role = role.old }) (map input_of inputs.now) outs.new role.new
        (mem_held frames.old) (mem_held frames.new) }
{
    for i in 0..inputs.len() {
        handle(work, frames, who, sizes, role, &inputs[i], &mut outs[i]);
    }
}

/// Appends a text that isn't empty.
fn store_all<R: Record>(device: &mut R, text: &[u8]) -> Result<(), RecordError>
    ensures { IsStoredAll text.now (R.held device.old) (R.held device.new) result }
{
    if text.is_empty() {
        return Ok(());
    }
    device.append(text)
}

/// No frames, in the place of those of another group.
fn begin(frames: &mut MemRecord, alloc: Global)
    ensures bytes { (mem_held frames.new).bytes ≡ [] }
    ensures unarmed { (mem_held frames.new).armed ≡ None }
{
    // no tear is ever armed here, and a cut in memory isn't refused
    if frames.is_armed() || frames.cut(0).is_err() {
        *frames = MemRecord::new(alloc, Vec::new(alloc));
    }
}

/// What a node does on inputs, one after another in memory, and then one append for the frames of all.
fn store_at_once<R: Record>(
    work: &mut Workspace,
    device: &mut R,
    who: NodeId,
    sizes: Sizes,
    role: &mut Option<Role>,
    inputs: &[Input],
    outs: &mut [Output],
) -> Result<(), RecordError>
    requires places { length outs.old ≡ length inputs.now }
    requires unarmed { is_some (R.held device.old).armed ≡ false }
    ensures comes { (config : Config) (own : List Row) (m : NodeState) → AreSizes config sizes
        → Stands config who own (R.held device.old) role.old m
        → Comes config who own (record { state = m; held = R.held device.old; role = role.old }) (map input_of inputs.now) outs.new
        role.new (R.held device.new) result }
    ensures once { (config : Config) (own : List Row) (m : NodeState) → AreSizes config sizes
        → Stands config who own (R.held device.old) role.old m → AppendsOnce (R.held device.old) (R.held device.new) result }
{
    let alloc = work.alloc;
    let mut frames = mem::replace(&mut work.group, MemRecord::new(alloc, Vec::new(alloc)));
    begin(&mut frames, alloc);
    gather(work, &mut frames, who, sizes, role, inputs, outs);
    let stored = store_all(device, frames.as_slice());
    work.group = frames;
    stored
}

/// What a node does on inputs, one after another, each with its own append, to the one at which a tear stops it.
fn store_one_by_one<R: Record>(
    work: &mut Workspace,
    device: &mut R,
    who: NodeId,
    sizes: Sizes,
    role: &mut Option<Role>,
    inputs: &[Input],
    outs: &mut [Output],
) -> Result<(), RecordError>
    requires places { length outs.old ≡ length inputs.now }
    requires armed { is_some (R.held device.old).armed ≡ true }
    ensures comes { (config : Config) (own : List Row) (m : NodeState) → AreSizes config sizes
        → Stands config who own (R.held device.old) role.old m
        → Comes config who own (record { state = m; held = R.held device.old; role = role.old }) (map input_of inputs.now) outs.new
        role.new (R.held device.new) result }
    ensures once { (config : Config) (own : List Row) (m : NodeState) → AreSizes config sizes
        → Stands config who own (R.held device.old) role.old m → AppendsOnce (R.held device.old) (R.held device.new) result }
{
    for i in 0..inputs.len() {
        handle(work, device, who, sizes, role, &inputs[i], &mut outs[i]);
        if !device.is_armed() {
            return Err(RecordError::Fault);
        }
    }
    Ok(())
}

/// What a node does on inputs, one after another, and what they store: with one append, but where a tear is armed, which counts the bytes
/// of one input's.
fn store_group<R: Record>(
    work: &mut Workspace,
    device: &mut R,
    who: NodeId,
    sizes: Sizes,
    role: &mut Option<Role>,
    inputs: &[Input],
    outs: &mut [Output],
) -> Result<(), RecordError>
    requires { length outs.old ≡ length inputs.now }
    ensures comes { (config : Config) (own : List Row) (m : NodeState) → AreSizes config sizes
        → Stands config who own (R.held device.old) role.old m
        → Comes config who own (record { state = m; held = R.held device.old; role = role.old }) (map input_of inputs.now) outs.new
        role.new (R.held device.new) result }
    ensures once { (config : Config) (own : List Row) (m : NodeState) → AreSizes config sizes
        → Stands config who own (R.held device.old) role.old m → AppendsOnce (R.held device.old) (R.held device.new) result }
{
    if device.is_armed() {
        return store_one_by_one(work, device, who, sizes, role, inputs, outs);
    }
    store_at_once(work, device, who, sizes, role, inputs, outs)
}

/// A refusal alone, for each input.
fn refuse_all(outs: &mut [Output], refusal: Refusal)
    ensures { outs.new ≡ map (λ out. output_of (Refused refusal) None) outs.old }
{
    for out in outs.iter_mut() {
        out.refuse(refusal);
    }
}

/// What a node does on a group. Where its append is refused, the node is down, and each input is answered that refusal.
pub(crate) fn handle_group<R: Record>(
    work: &mut Workspace,
    device: &mut R,
    who: NodeId,
    sizes: Sizes,
    role: &mut Option<Role>,
    inputs: &[Input],
    outs: &mut [Output],
) -> Result<(), RecordError>
    requires { length outs.old ≡ length inputs.now }
    ensures groups { (config : Config) (own : List Row) (m : NodeState) → AreSizes config sizes
        → Stands config who own (R.held device.old) role.old m
        → Groups config who own (record { state = m; held = R.held device.old; role = role.old }) (map input_of inputs.now) outs.new
        role.new (R.held device.new) result }
    ensures once { (config : Config) (own : List Row) (m : NodeState) → AreSizes config sizes
        → Stands config who own (R.held device.old) role.old m → AppendsOnce (R.held device.old) (R.held device.new) result }
{
    match store_group(work, device, who, sizes, role, inputs, outs) {
        Ok(()) => Ok(()),
        Err(error) => {
            settle(role, false);
            refuse_all(outs, Refusal::from(error));
            Err(error)
        }
    }
}
