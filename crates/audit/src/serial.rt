//! One serial order: committed transactions one after another, in the order of their first commits.

ghost use Rattle.std.specs.Prelude.{◌≡◌, ℕ, ◌<◌, ◌&&◌, ◌==◌, length, true, false, if◌then◌else◌, MatchOption, IfOk, IfErr, IsTrue, OnOk};
ghost use Rattle.std.specs.List.{list_all};
ghost use Rattle.std.specs.Option.{option_copied};
ghost use Rattle.xid.specs.Transactions.{nth_branch, participants};
ghost use Rattle.xid.specs.declared.refusals.Refusal.TheVariants.{NoMemory};
ghost use Rattle.protocol.specs.Tables.{with_writes};
ghost use Rattle.history.specs.Writes.{is_committed_view};
ghost use Rattle.audit.specs.Stretches.{branch_at, gets_in, writes_at};
ghost use Rattle.audit.specs.ToldTables.{first_tables, shows};
ghost use Rattle.audit.specs.Consistent.{are_shown, is_order_kept, reads_are_serial, serial_table};
ghost use Rattle.audit.specs.Books.{rows_of, stretch_of, has_committed, has_committed_everywhere, view_in, IsReplayed};

use crate::branches::Branches;
use crate::ledger::Ledger;
use crate::stretch::{Shown, Stretch, shows};
use crate::tables::Tables;
use net_script::Table;
use protocol::Row;
use stable_record::Act;
use std::alloc::Global;
use xid::{Refusal, Sequence, Tx};

/// Whether gets showed the rows of a resource manager, with the writes of their branch over them.
fn are_shown(tables: &Tables, rm: u8, gets: &[Shown]) -> bool
    ensures { result ≡ are_shown (rows_of tables.now rm) gets.now }
{
    gets.iter().all(|get| is_shown(tables, rm, get))
}

/// Whether a get did.
fn is_shown(tables: &Tables, rm: u8, get: &Shown) -> bool
    ensures { result ≡ shows (rows_of tables.now rm) get.now.key get.now.own get.now.found }
{
    let found = match &get.found {
        Some(value) => Some(value.as_slice()),
        None => None,
    };
    shows(
        tables.rows(rm).get(get.key.as_slice()),
        Some(&get.own),
        found,
    )
}

/// What was done in the branch of a participant, by its place, if that was started.
fn stretch_at<'a>(branches: &'a Branches, tx: &Tx, place: usize) -> Option<&'a Stretch>
    requires { place < length tx.now.branches }
    ensures { option_copied result ≡ branch_at (stretch_of branches.now) (nth_branch tx.now place).rm tx.now }
{
    let rm = tx.rm(place);
    let Some(xid) = tx.branch(rm) else {
        return None;
    };
    branches.get(rm as u8, &xid)
}

/// Whether the gets of the branch of a participant, by its place, showed these tables.
fn reads_serially_at(tables: &Tables, branches: &Branches, tx: &Tx, place: usize) -> bool
    requires { place < length tx.now.branches }
    ensures { let rm = (nth_branch tx.now place).rm in
        result ≡ are_shown (rows_of tables.now rm) (gets_in (branch_at (stretch_of branches.now) rm tx.now)) }
{
    match stretch_at(branches, tx, place) {
        Some(stretch) => are_shown(tables, tx.rm(place) as u8, stretch.gets()),
        None => true,
    }
}

/// Whether the gets of the branches of a transaction showed these tables.
fn reads_serially(tables: &Tables, branches: &Branches, tx: &Tx) -> bool
    ensures { result ≡ list_all (λ rm. are_shown (rows_of tables.now rm) (gets_in (branch_at (stretch_of branches.now) rm tx.now)))
        (participants tx.now) }
{
    for place in 0..tx.count() {
        if !reads_serially_at(tables, branches, tx, place) {
            return false;
        }
    }
    true
}

/// Makes the writes of a participant of a transaction, by its place. Refused: `NoMemory` alone.
fn write_at(
    tables: &mut Tables,
    alloc: Global,
    branches: &Branches,
    tx: &Tx,
    place: usize,
) -> Result<(), Refusal>
    requires { place < length tx.now.branches }
    ensures ok { OnOk result (let rm = (nth_branch tx.now place).rm in (other : ℕ) → rows_of tables.new other
        ≡ (if rm == other then with_writes (rows_of tables.old rm) (writes_at (stretch_of branches.now) rm tx.now)
        else rows_of tables.old other)) }
    ensures err { IfErr result (λ e. e ≡ NoMemory) }
{
    let Some(stretch) = stretch_at(branches, tx, place) else {
        return Ok(());
    };
    let rm = tx.rm(place) as u8;
    tables.write_all(alloc, rm, stretch.writes())
}

/// Makes the writes of all participants of a transaction. Refused: `NoMemory` alone.
fn write_all(
    tables: &mut Tables,
    alloc: Global,
    branches: &Branches,
    tx: &Tx,
) -> Result<(), Refusal>
    ensures ok { OnOk result ((rm : ℕ)
        → rows_of tables.new rm ≡ with_writes (rows_of tables.old rm) (writes_at (stretch_of branches.now) rm tx.now)) }
    ensures err { IfErr result (λ e. e ≡ NoMemory) }
{
    for place in 0..tx.count() {
        write_at(tables, alloc, branches, tx, place)?;
    }
    Ok(())
}

/// Makes the writes of a participant, by its place, where it has committed the transaction. Refused: `NoMemory` alone.
fn write_committed_at(
    tables: &mut Tables,
    alloc: Global,
    ledger: &Ledger,
    tx: &Tx,
    place: usize,
) -> Result<(), Refusal>
    requires { place < length tx.now.branches }
    ensures ok { OnOk result (let rm = (nth_branch tx.now place).rm in (other : ℕ) → rows_of tables.new other
        ≡ (if (rm == other) && is_committed_view (view_in ledger.now.views tx.now place)
        then with_writes (rows_of tables.old rm) (writes_at (stretch_of ledger.now.branches) rm tx.now)
        else rows_of tables.old other)) }
    ensures err { IfErr result (λ e. e ≡ NoMemory) }
{
    if !ledger.views.has_committed(tx, place) {
        return Ok(());
    }
    write_at(tables, alloc, &ledger.branches, tx, place)
}

/// Makes the writes of those participants of a transaction that have committed it. Refused: `NoMemory` alone.
fn write_committed(
    tables: &mut Tables,
    alloc: Global,
    ledger: &Ledger,
    tx: &Tx,
) -> Result<(), Refusal>
    ensures ok { OnOk result ((rm : ℕ) → rows_of tables.new rm ≡ (if has_committed ledger.now.views rm tx.now
        then with_writes (rows_of tables.old rm) (writes_at (stretch_of ledger.now.branches) rm tx.now)
        else rows_of tables.old rm)) }
    ensures err { IfErr result (λ e. e ≡ NoMemory) }
{
    for place in 0..tx.count() {
        write_committed_at(tables, alloc, ledger, tx, place)?;
    }
    Ok(())
}

/// The tables after all transactions of the order of first commits, where it explains the gets. Refused: `NoMemory` alone.
fn replayed_all(alloc: Global, ledger: &Ledger, tables: &[Table]) -> Result<Option<Tables>, Refusal>
    ensures ok { IfOk result (λ last. let first = first_tables tables.now in let done = stretch_of ledger.now.branches in
        MatchOption last (reads_are_serial first done ledger.now.firsts ≡ false)
        (λ last. (reads_are_serial first done ledger.now.firsts ≡ true)
        × ((rm : ℕ) → rows_of last rm ≡ serial_table first done rm ledger.now.firsts))) }
    ensures err { IfErr result (λ e. e ≡ NoMemory) }
{
    let mut all = Tables::first(alloc, tables)?;
    for number in 0..ledger.firsts.len() {
        let Some(tx) = ledger.firsts.get(number) else {
            return Ok(None);
        };
        if !reads_serially(&all, &ledger.branches, &tx) {
            return Ok(None);
        }
        write_all(&mut all, alloc, &ledger.branches, &tx)?;
    }
    Ok(Some(all))
}

/// The tables after the order of first commits, each by the transactions that its resource manager has committed. Refused: `NoMemory`
/// alone.
fn replayed_committed(alloc: Global, ledger: &Ledger, tables: &[Table]) -> Result<Tables, Refusal>
    ensures ok { IfOk result (λ last. IsReplayed (first_tables tables.now) (stretch_of ledger.now.branches)
        (has_committed ledger.now.views) ledger.now.firsts last) }
    ensures err { IfErr result (λ e. e ≡ NoMemory) }
{
    let mut committed = Tables::first(alloc, tables)?;
    for number in 0..ledger.firsts.len() {
        let Some(tx) = ledger.firsts.get(number) else {
            unreachable!();
        };
        write_committed(&mut committed, alloc, ledger, &tx)?;
    }
    Ok(committed)
}

/// Whether each transaction of the order of first commits is committed by all its participants.
fn are_all_committed(ledger: &Ledger) -> bool
    ensures { IsTrue result → list_all (has_committed_everywhere ledger.now.views) ledger.now.firsts ≡ true }
{
    for number in 0..ledger.firsts.len() {
        let Some(tx) = ledger.firsts.get(number) else {
            return false;
        };
        if !ledger.views.has_committed_everywhere(&tx) {
            return false;
        }
    }
    true
}

/// The tables after the order of first commits, where it explains the gets. While no participant lags behind, the tables after all
/// transactions are these; else the order is gone through once more. Refused: `NoMemory` alone.
pub fn replayed(alloc: Global, ledger: &Ledger, tables: &[Table]) -> Result<Option<Tables>, Refusal>
    ensures ok { IfOk result (λ last. let first = first_tables tables.now in let done = stretch_of ledger.now.branches in
        MatchOption last (reads_are_serial first done ledger.now.firsts ≡ false)
        (λ last. (reads_are_serial first done ledger.now.firsts ≡ true)
        × IsReplayed first done (has_committed ledger.now.views) ledger.now.firsts last)) }
    ensures err { IfErr result (λ e. e ≡ NoMemory) }
{
    let Some(all) = replayed_all(alloc, ledger, tables)? else {
        return Ok(None);
    };
    if are_all_committed(ledger) {
        return Ok(Some(all));
    }
    let committed = replayed_committed(alloc, ledger, tables)?;
    Ok(Some(committed))
}

/// Whether the order of first commits explains the last rows and the gets. Refused: `NoMemory` alone.
pub fn is_serial(
    alloc: Global,
    ledger: &Ledger,
    tables: &[Table],
    finals: &[Sequence<Row>],
) -> Result<bool, Refusal>
    ensures ok { IfOk result (λ yes. yes ≡ is_order_kept (first_tables tables.now) (stretch_of ledger.now.branches)
        (has_committed ledger.now.views) ledger.now.firsts finals.now) }
    ensures err { IfErr result (λ e. e ≡ NoMemory) }
{
    match replayed(alloc, ledger, tables)? {
        Some(last) => Ok(last.are(finals)),
        None => Ok(false),
    }
}
