//! How a node's record is made shorter: its role says what is to be kept, and its frames replace the record.

ghost use Rattle.std.specs.Prelude.{◌≡◌, List, IfOk, IfErr};
ghost use Rattle.xid.specs.declared.refusals.Refusal.TheVariants.{NoMemory};
ghost use Rattle.protocol.specs.declared.rows.Row.{Row};
ghost use Rattle.protocol.specs.Effects.{Config};
ghost use Rattle.protocol.specs.Nodes.{NodeState};
ghost use Rattle.protocol.specs.declared.nodes.NodeId.{NodeId as Id};
ghost use Rattle.node_core.specs.Nodes.{Stands};
ghost use Rattle.node_core.specs.Compacting.{Shortens, Recompacts, role_kept, Compacts};

use crate::migrating::replace;
use crate::role::Role;
use stable_record::Record;
use std::alloc::Global;
use xid::Refusal;

/// The frames of a shorter record that says the same as a role. Refused: `NoMemory` alone.
pub(crate) fn shorter(alloc: Global, role: &Role) -> Result<Vec<u8>, Refusal>
    ensures ok { IfOk result (λ frames. Shortens role.now frames.items) }
    ensures err { IfErr result (λ e. e ≡ NoMemory) }
{
    match role {
        Role::Acceptor(acceptor) => acceptor.shorter(),
        Role::Leader(leader) => leader.shorter(),
        Role::Manager(manager) => manager.shorter(alloc),
    }
}

/// Puts the frames of a shorter record that says the same as a role in the place of its record. Refused: the record failed
/// (`RecordFault`), and holds the one or the other; `NoMemory`, and it is as it was.
fn recompact<R: Record>(alloc: Global, device: &mut R, role: &Role) -> Result<(), Refusal>
    ensures { Recompacts role.now (R.held device.old) (R.held device.new) result }
{
    replace(device, &shorter(alloc, role)?)
}

/// What was done, whatever it is; where it was refused, the node is down.
fn keep(role: &mut Option<Role>, done: Result<(), Refusal>) -> Result<(), Refusal>
    ensures done { result ≡ done }
    ensures role { role.new ≡ role_kept role.old done }
{
    match done {
        Ok(()) => Ok(()),
        Err(refusal) => {
            *role = None;
            Err(refusal)
        }
    }
}

/// Puts the frames of a shorter record that says the same in the place of a node's record. Refused: the node is down (`Down`), and
/// nothing changes; the record failed (`RecordFault`), and holds the one or the other; `NoMemory`, and it is as it was. After the
/// latter two the node is down.
pub(crate) fn compact<R: Record>(
    alloc: Global,
    device: &mut R,
    role: &mut Option<Role>,
) -> Result<(), Refusal>
    ensures { (config : Config) (who : Id) (own : List Row) (m : NodeState) → Stands config who own (R.held device.old) role.old m
        → Compacts config who own m (R.held device.old) (R.held device.new) role.new result }
{
    let done = match role {
        Some(up) => recompact(alloc, device, up),
        None => return Err(Refusal::Down),
    };
    keep(role, done)
}
