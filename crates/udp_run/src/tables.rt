//! What the tables of resource managers hold.

ghost use Rattle.std.specs.Prelude.{◌≡◌, ◌⊎◌, IfOk, IfErr, OnOk};
ghost use Rattle.xid.specs.declared.refusals.Refusal.TheVariants.{NoMemory, RecordFault};
ghost use Rattle.udp_run.specs.NodeTables.{AreTablesOf, HasTable, IsUnshown, ShowsTable, StopsAtTable};

use port::Member;
use protocol::{NodeId, Row};
use stable_record::Record;
use std::alloc::Global;
use xid::{Refusal, Sequence};

/// The rows of a node's table, if it is a resource manager. Refused: `NoMemory`; it is down, and its record fails (`RecordFault`).
fn table_of<R: Record>(node: &mut Member<R>) -> Result<Option<Sequence<Row>>, Refusal>
    ensures ok { IfOk result (HasTable node.old) }
    ensures err { IfErr result (λ e. (e ≡ NoMemory) ⊎ ((e ≡ RecordFault) × IsUnshown node.old)) }
{
    let NodeId::R(_) = node.id() else {
        return Ok(None);
    };
    // that it stands for a node of the machine
    let _ = node.sizes();
    match node.table() {
        Ok(rows) => Ok(Some(rows)),
        Err(refusal) => Err(refusal),
    }
}

/// Puts the rows of a node's table after others, if it is a resource manager. Refused as `table_of` is.
fn show<R: Record>(node: &mut Member<R>, tables: &mut Vec<Sequence<Row>>) -> Result<(), Refusal>
    ensures ok { OnOk result (ShowsTable node.old tables.old.items tables.new.items) }
    ensures err { IfErr result (λ e. (e ≡ NoMemory) ⊎ ((e ≡ RecordFault) × IsUnshown node.old)) }
{
    let rows = match table_of(node) {
        Ok(Some(rows)) => rows,
        Ok(None) => return Ok(()),
        Err(refusal) => return Err(refusal),
    };
    tables.push(rows)?;
    Ok(())
}

/// The rows of each resource manager's table, in order. Refused: `NoMemory`; the record of one that is down fails (`RecordFault`).
pub(crate) fn tables_of<R: Record>(
    alloc: Global,
    nodes: &mut Vec<Member<R>>,
) -> Result<Vec<Sequence<Row>>, Refusal>
    ensures ok { IfOk result (λ tables. AreTablesOf nodes.old.items tables.items) }
    ensures err { IfErr result (λ e. (e ≡ NoMemory) ⊎ ((e ≡ RecordFault) × StopsAtTable nodes.old.items)) }
{
    let mut tables = Vec::new(alloc);
    for at in 0..nodes.len() {
        let node = &mut nodes[at];
        show(node, &mut tables)?;
    }
    Ok(tables)
}
