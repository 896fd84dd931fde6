//! What the whole frames of a record say, which is read and left as it is.

ghost use Rattle.std.specs.Prelude.{◌≡◌, true, List};
ghost use Rattle.stable_record.specs.declared.fact.FactKind.{FactKind};
ghost use Rattle.protocol.specs.declared.nodes.NodeId.{NodeId as Id};
ghost use Rattle.protocol.specs.Effects.{Config};
ghost use Rattle.protocol.specs.Nodes.{Memory, NodeState};
ghost use Rattle.node_core.specs.Roles.{RoleStands};
ghost use Rattle.branch_table.specs.TableStates.{are_rows};
ghost use Rattle.node_core.specs.Nodes.{AreSizes, IsAmong, IsSized, Stands};
ghost use Rattle.node_core.specs.Viewing.{AsksUnused, Peeks, SaysView, SaysTable, Views, Tables};
ghost use Rattle.node_core.specs.Listing.{ListsOpen, SaysOpen};
ghost use Rattle.stable_record.specs.Held.{Held};
ghost use Rattle.protocol.specs.declared.rows.Row.{Row as RowParts};

use crate::config::Sizes;
use crate::opening::read_role;
use crate::role::Role;
use hashing::HashKey;
use protocol::{NodeId, Row, View};
use stable_record::Record;
use std::alloc::Global;
use wire::{MAX_TX_BYTES, SpelledTx};
use xid::{Floor, Refusal, Sequence, Tx};

/// Reads a record and plays its entries, and leaves it as it is. Refused: its bytes are no frames of entries that play, and a tail
/// (`Damaged`); it failed (`RecordFault`), and then its bytes are what they were; `NoMemory`.
fn peek<R: Record>(
    alloc: Global,
    key: HashKey,
    device: &mut R,
    who: NodeId,
    sizes: Sizes,
    own: &[Row],
) -> Result<Role, Refusal>
    requires sized { IsSized sizes }
    requires among { IsAmong sizes who }
    requires short { are_rows own.now ≡ true }
    ensures { (config : Config) → AreSizes config sizes → Peeks config who own.now (R.held device.old) (R.held device.new) result }
{
    let bytes = match device.read(alloc) {
        Ok(bytes) => bytes,
        Err(error) => return Err(Refusal::from(error)),
    };
    match read_role(alloc, key, who, sizes, own, &bytes) {
        Ok(read) => Ok(read.0),
        Err(refusal) => Err(refusal),
    }
}

/// Where a role stands in a transaction. Refused: it is no resource manager's (`NoSuch`), or the transaction names a resource manager
/// outside the cluster, or doesn't name this one (`BadTx`).
fn view_of(role: &Role, tx: &Tx) -> Result<View, Refusal>
    ensures { (config : Config) (who : Id) (facts : List FactKind) (memory : Memory) → RoleStands config who role.now facts memory
        → SaysView config who facts tx.now result }
{
    match role {
        Role::Manager(manager) => {
            let mut buffer = [0; MAX_TX_BYTES];
            manager.view(&SpelledTx::of(tx, &mut buffer))
        }
        Role::Acceptor(_) => Err(Refusal::NoSuch),
        Role::Leader(_) => Err(Refusal::NoSuch),
    }
}

/// The rows of a role's table. Refused: it is no resource manager's (`NoSuch`); `NoMemory`.
fn table_of(role: &Role) -> Result<Sequence<Row>, Refusal>
    ensures { (config : Config) (who : Id) (facts : List FactKind) (memory : Memory) → RoleStands config who role.now facts memory
        → SaysTable config who facts result }
{
    match role {
        Role::Manager(manager) => Ok(Sequence::new(manager.rows()?)),
        Role::Acceptor(_) => Err(Refusal::NoSuch),
        Role::Leader(_) => Err(Refusal::NoSuch),
    }
}

/// Where a node stands in a transaction: by its role if it is up, else by its record.
pub(crate) fn view<R: Record>(
    alloc: Global,
    key: HashKey,
    device: &mut R,
    who: NodeId,
    sizes: Sizes,
    own: &[Row],
    role: &Option<Role>,
    tx: &Tx,
) -> Result<View, Refusal>
    requires sized { IsSized sizes }
    requires among { IsAmong sizes who }
    requires short { are_rows own.now ≡ true }
    ensures { (config : Config) (m : NodeState) → AreSizes config sizes → Stands config who own.now (R.held device.old) role.now m
        → Views config who own.now m (R.held device.old) (R.held device.new) role.now tx.now result }
{
    let NodeId::R(_) = who else {
        return Err(Refusal::NoSuch);
    };
    match role {
        Some(up) => return view_of(up, tx),
        None => {}
    }
    match peek(alloc, key, device, who, sizes, own) {
        Ok(read) => view_of(&read, tx),
        Err(refusal) => Err(refusal),
    }
}

/// The rows of a node's table: by its role if it is up, else by its record.
pub(crate) fn table<R: Record>(
    alloc: Global,
    key: HashKey,
    device: &mut R,
    who: NodeId,
    sizes: Sizes,
    own: &[Row],
    role: &Option<Role>,
) -> Result<Sequence<Row>, Refusal>
    requires sized { IsSized sizes }
    requires among { IsAmong sizes who }
    requires short { are_rows own.now ≡ true }
    ensures { (config : Config) (m : NodeState) → AreSizes config sizes → Stands config who own.now (R.held device.old) role.now m
        → Tables config who own.now m (R.held device.old) (R.held device.new) role.now result }
{
    let NodeId::R(_) = who else {
        return Err(Refusal::NoSuch);
    };
    match role {
        Some(up) => return table_of(up),
        None => {}
    }
    match peek(alloc, key, device, who, sizes, own) {
        Ok(read) => table_of(&read),
        Err(refusal) => Err(refusal),
    }
}

/// Whether an acceptor or a leader has stored nothing about a name at or above a floor: by its role if it is up, else by its record.
pub(crate) fn is_unused_above<R: Record>(
    alloc: Global,
    key: HashKey,
    device: &mut R,
    who: NodeId,
    sizes: Sizes,
    own: &[Row],
    role: &Option<Role>,
    floor: &Floor,
) -> Result<bool, Refusal>
    requires sized { IsSized sizes }
    requires among { IsAmong sizes who }
    requires short { are_rows own.now ≡ true }
    ensures { (config : Config) (m : NodeState) → AreSizes config sizes → Stands config who own.now (R.held device.old) role.now m
        → AsksUnused config who own.now m (R.held device.old) (R.held device.new) role.now floor.now result }
{
    match role {
        Some(up) => return Ok(up.is_unused_above(floor)),
        None => {}
    }
    match peek(alloc, key, device, who, sizes, own) {
        Ok(read) => Ok(read.is_unused_above(floor)),
        Err(refusal) => Err(refusal),
    }
}

/// The transactions that a role has prepared and not ended. Refused: it is no resource manager's (`NoSuch`); `NoMemory`.
fn open_of(alloc: Global, role: &Role) -> Result<Sequence<Tx>, Refusal>
    ensures { (config : Config) (who : Id) (facts : List FactKind) (memory : Memory) → RoleStands config who role.now facts memory
        → SaysOpen who facts result }
{
    match role {
        Role::Manager(manager) => Ok(Sequence::new(manager.open_transactions(alloc)?)),
        Role::Acceptor(_) => Err(Refusal::NoSuch),
        Role::Leader(_) => Err(Refusal::NoSuch),
    }
}

/// The transactions that a node's record has prepared and not ended, where it is up.
pub(crate) fn list_open(
    alloc: Global,
    who: NodeId,
    role: &Option<Role>,
) -> Result<Sequence<Tx>, Refusal>
    ensures { (config : Config) (own : List RowParts) (held : Held) (m : NodeState) → Stands config who own held role.now m
        → ListsOpen who m.facts role.now result }
{
    let NodeId::R(_) = who else {
        return Err(Refusal::NoSuch);
    };
    match role {
        Some(up) => open_of(alloc, up),
        None => Err(Refusal::Down),
    }
}
