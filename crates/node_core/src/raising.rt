//! How a node's floor rises: its role forgets what is below, and what is left of its record stands behind the new floor.

ghost use Rattle.std.specs.Prelude.{◌≡◌, List};
ghost use Rattle.protocol.specs.declared.nodes.NodeId.{NodeId as Id};
ghost use Rattle.protocol.specs.declared.rows.Row.{Row};
ghost use Rattle.protocol.specs.Effects.{Config};
ghost use Rattle.protocol.specs.Nodes.{NodeState};
ghost use Rattle.node_core.specs.Nodes.{Stands};
ghost use Rattle.node_core.specs.Raising.{Forgets, Raises};

use crate::compacting::shorter;
use crate::role::Role;
use hashing::HashKey;
use stable_record::{Behind, Record};
use std::alloc::Global;
use xid::{Floor, Refusal};

/// Puts the frames of what is left of a role behind a floor, in the place of its record, and answers what is left. Refused: the record
/// failed (`RecordFault`), and holds what it held, or these; `NoMemory`, and it is as it was.
fn forget<R: Record>(
    alloc: Global,
    key: HashKey,
    device: &mut Behind<R>,
    role: Role,
    floor: &Floor,
) -> Result<Role, Refusal>
    ensures { Forgets floor.now role device.old device.new result }
{
    let left = role.above(alloc, key, floor)?;
    device.raise(floor, &shorter(alloc, &left)?)?;
    Ok(left)
}

/// Raises a node's floor to a place. Refused, and nothing changes: the node is down (`Down`), or a branch is below the place (`Busy`). The
/// record failed (`RecordFault`), and holds what it held, or what is left behind the new floor; `NoMemory`, and it is as it was: after
/// these the node is down.
pub(crate) fn raise<R: Record>(
    alloc: Global,
    key: HashKey,
    device: &mut Behind<R>,
    role: &mut Option<Role>,
    floor: &Floor,
) -> Result<(), Refusal>
    ensures machine { (config : Config) (who : Id) (own : List Row) (m : NodeState) → Stands config who own device.old.held role.old m
        → Raises config who own m floor.now device.old device.new role.old role.new result }
    ensures nature { device.new.held.nature.may_fail ≡ device.old.held.nature.may_fail }
{
    match role {
        None => return Err(Refusal::Down),
        Some(up) => {
            if up.is_held_back(floor) {
                return Err(Refusal::Busy);
            }
        }
    }
    let Some(up) = role.take() else {
        return Err(Refusal::Down);
    };
    match forget(alloc, key, device, up, floor) {
        Ok(left) => {
            *role = Some(left);
            Ok(())
        }
        Err(refusal) => Err(refusal),
    }
}
