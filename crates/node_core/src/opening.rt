//! How a node reads its record: the rows of its table, if it was made shorter, then entry by entry, each played as it is read; then the
//! tail is cut, and frames of version 1 are written anew.

ghost use Rattle.std.specs.Prelude.{◌≡◌, ◌≤◌, true, [], length, take, IfOk, IfErr, MatchOption};
ghost use Rattle.stable_record.specs.Held.{HasPut};
ghost use Rattle.xid.specs.declared.refusals.Refusal.TheVariants.{NoMemory};
ghost use Rattle.protocol.specs.Effects.{Config};
ghost use Rattle.protocol.specs.Nodes.{NodeState, empty_memory};
ghost use Rattle.branch_table.specs.TableStates.{are_rows};
ghost use Rattle.node_core.specs.Roles.{RoleStands};
ghost use Rattle.node_core.specs.Nodes.{AreSizes, HasRows, IsAmong, IsSized, Stands};
ghost use Rattle.node_core.specs.Opening.{IsManager, IsPlain, IsSnapshot, TakesNothing, IsPlayedFrom, Reads, Loads, Restarts};

use crate::config::Sizes;
use crate::migrating::migrate;
use crate::records::replay;
use crate::role::Role;
use crate::snapshots::take_snapshot;
use acceptor::Acceptor;
use hashing::HashKey;
use leader::Leader;
use protocol::{NodeId, Row};
use resource_manager::ResourceManager;
use stable_record::{Record, RecordError};
use std::alloc::Global;
use xid::{Bytes, Refusal};

/// A copy of rows. Refused: `NoMemory` alone.
pub(crate) fn copy_rows(alloc: Global, rows: &[Row]) -> Result<Vec<Row>, Refusal>
    ensures ok { IfOk result (λ copy. copy.items ≡ rows.now) }
    ensures err { IfErr result (λ e. e ≡ NoMemory) }
{
    let mut copy = Vec::new(alloc);
    for row in rows {
        let key = Bytes::copy_of(alloc, row.key.as_slice())?;
        let value = Bytes::copy_of(alloc, row.value.as_slice())?;
        copy.push(Row { key, value })?;
    }
    Ok(copy)
}

/// The role of a node that has played nothing, over a table of these rows; names are hashed under the key. Refused: `NoMemory` alone.
fn new_role(
    alloc: Global,
    key: HashKey,
    who: NodeId,
    sizes: Sizes,
    rows: Vec<Row>,
) -> Result<Role, Refusal>
    requires sized { IsSized sizes }
    requires among { IsAmong sizes who }
    requires short { are_rows rows.items ≡ true }
    ensures ok { IfOk result (λ role. (config : Config) → AreSizes config sizes → HasRows config who rows.items
        → RoleStands config who role [] empty_memory) }
    ensures err { IfErr result (λ e. e ≡ NoMemory) }
{
    match who {
        NodeId::A(a) => Ok(Role::Acceptor(Acceptor::with_hash_key(
            alloc,
            key,
            a,
            sizes.leaders,
            sizes.bundled,
        ))),
        NodeId::L(l) => Ok(Role::Leader(Leader::with_hash_key(
            alloc,
            key,
            l,
            sizes.acceptors,
            sizes.leaders,
            sizes.managers,
            sizes.bundled,
        ))),
        NodeId::R(rm) => Ok(Role::Manager(ResourceManager::with_hash_key(
            alloc,
            key,
            rm,
            sizes.managers,
            rows,
        )?)),
    }
}

/// A role over a table of these rows that has played the entries of bytes, and how many bytes their frames fill. Refused: the bytes are no
/// frames of entries that may stand there and play, and a tail (`Damaged`); `NoMemory`.
fn play_from(
    alloc: Global,
    key: HashKey,
    who: NodeId,
    sizes: Sizes,
    rows: Vec<Row>,
    compacted: bool,
    bytes: &[u8],
) -> Result<(Role, usize), Refusal>
    requires sized { IsSized sizes }
    requires among { IsAmong sizes who }
    requires short { are_rows rows.items ≡ true }
    ensures within { IfOk result (λ read. read.1 ≤ length bytes.now) }
    ensures read { (config : Config) → AreSizes config sizes → HasRows config who rows.items
        → IsPlayedFrom config who compacted bytes.now result }
{
    let mut role = new_role(alloc, key, who, sizes, rows)?;
    let len = replay(alloc, &mut role, compacted, bytes)?;
    Ok((role, len))
}

/// The rows of the snapshot with which a resource manager's record begins, and what follows them; none where it begins with none, and at
/// other nodes. Refused as `take_snapshot` is.
fn take_start(
    alloc: Global,
    who: NodeId,
    bytes: &[u8],
) -> Result<Option<(Vec<Row>, &[u8])>, Refusal>
    ensures ok { IfOk result (λ found. MatchOption found (IsPlain who bytes.now)
        (λ x. IsManager who × IsSnapshot bytes.now x.1.now x.0.items)) }
    ensures err { IfErr result (λ e. TakesNothing bytes.now e) }
{
    match who {
        NodeId::R(_) => take_snapshot(alloc, bytes),
        NodeId::A(_) => Ok(None),
        NodeId::L(_) => Ok(None),
    }
}

/// The role of a node whose record holds these bytes: it begins with the rows of a snapshot where one stands in front, at a resource
/// manager, else with its own, and plays what follows; and how many bytes all frames fill. Refused: the bytes are no frames of entries
/// that play, and a tail (`Damaged`); `NoMemory`.
pub(crate) fn read_role(
    alloc: Global,
    key: HashKey,
    who: NodeId,
    sizes: Sizes,
    own: &[Row],
    bytes: &[u8],
) -> Result<(Role, usize), Refusal>
    requires sized { IsSized sizes }
    requires among { IsAmong sizes who }
    requires short { are_rows own.now ≡ true }
    ensures within { IfOk result (λ read. read.1 ≤ length bytes.now) }
    ensures read { (config : Config) → AreSizes config sizes → Reads config who own.now bytes.now result }
{
    match take_start(alloc, who, bytes) {
        Ok(Some((rows, rest))) => match play_from(alloc, key, who, sizes, rows, true, rest) {
            Ok((role, len)) => Ok((role, bytes.len() - (rest.len() - len))),
            Err(refusal) => Err(refusal),
        },
        Ok(None) => match copy_rows(alloc, own) {
            Ok(rows) => play_from(alloc, key, who, sizes, rows, false, bytes),
            Err(refusal) => Err(refusal),
        },
        Err(refusal) => Err(refusal),
    }
}

/// Reads a record, plays its entries, and cuts its tail; where a frame of version 1 stands, the frames are then written anew, in version
/// 2. Refused: its bytes are no frames of entries that play, and a tail (`Damaged`), and then it is as it was; it failed
/// (`RecordFault`), and then it has its tail or not, and its frames are old or new; `NoMemory`, and it has its tail or not.
pub(crate) fn load<R: Record>(
    alloc: Global,
    key: HashKey,
    device: &mut R,
    who: NodeId,
    sizes: Sizes,
    own: &[Row],
) -> Result<Role, Refusal>
    requires sized { IsSized sizes }
    requires among { IsAmong sizes who }
    requires short { are_rows own.now ≡ true }
    ensures { (config : Config) → AreSizes config sizes → Loads config who own.now (R.held device.old) (R.held device.new) result }
{
    let bytes = match device.read(alloc) {
        Ok(bytes) => bytes,
        Err(error) => return Err(Refusal::from(error)),
    };
    let (role, len) = match read_role(alloc, key, who, sizes, own, &bytes) {
        Ok(read) => read,
        Err(refusal) => return Err(refusal),
    };
    match cut_tail(device, len, bytes.len()) {
        Ok(()) => {}
        Err(error) => return Err(Refusal::from(error)),
    }
    match migrate(alloc, device, &bytes[..len]) {
        Ok(()) => Ok(role),
        Err(refusal) => Err(refusal),
    }
}

/// Cuts what follows the first so many bytes, if anything does.
fn cut_tail<R: Record>(device: &mut R, len: usize, all: usize) -> Result<(), RecordError>
    requires all { all ≡ length (R.held device.old).bytes }
    requires within { len ≤ all }
    ensures { HasPut (take len (R.held device.old).bytes) (R.held device.old) (R.held device.new) result }
{
    if len == all {
        return Ok(());
    }
    device.cut(len)
}

/// Reads a record again, and puts the role that it gives in place of another; where it is refused, there is none. Refused as `load` is.
pub(crate) fn reload<R: Record>(
    alloc: Global,
    key: HashKey,
    device: &mut R,
    who: NodeId,
    sizes: Sizes,
    own: &[Row],
    role: &mut Option<Role>,
) -> Result<(), Refusal>
    requires sized { IsSized sizes }
    requires among { IsAmong sizes who }
    requires short { are_rows own.now ≡ true }
    ensures { (config : Config) (m : NodeState) → AreSizes config sizes → Stands config who own.now (R.held device.old) role.old m
        → Restarts config who own.now m (R.held device.old) (R.held device.new) role.new result }
{
    match load(alloc, key, device, who, sizes, own) {
        Ok(loaded) => {
            *role = Some(loaded);
            Ok(())
        }
        Err(refusal) => {
            *role = None;
            Err(refusal)
        }
    }
}
