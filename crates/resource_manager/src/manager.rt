ghost use Rattle.std.specs.Prelude.{◌≡◌, ◌++◌, ℕ, true, List, [], filter_map, length, IfOk, IfErr, OnOk};
ghost use Rattle.std.specs.List.{cons_option};
ghost use Rattle.xid.specs.Transactions.{IsTx, xid_at};
ghost use Rattle.xid.specs.declared.refusals.Refusal.TheVariants.{NoMemory};
ghost use Rattle.stable_record.specs.declared.fact.FactKind.{FactKind as Fact};
ghost use Rattle.protocol.specs.declared.requests.Action.TheVariants as actions;
ghost use Rattle.protocol.specs.Effects.{Config};
ghost use Rattle.protocol.specs.Managers.{Branch, on_recover, on_view_call, stored_votes};
ghost use Rattle.protocol.specs.Nodes.{first_rows};
ghost use Rattle.protocol.specs.Tables.{table};
ghost use Rattle.branch_table.specs.Admission.{end_action};
ghost use Rattle.branch_table.specs.TableStates.{are_rows};
ghost use Rattle.resource_manager.specs.Managers.{IsCall, StandsFor, view_answer};
ghost use Rattle.resource_manager.specs.Open.{open_at, open_in};

use crate::courses::Courses;
use crate::reminding::is_inside;
use crate::spent::SpentNames;
use branch_table::{BranchTable, Ending};
use hashing::HashKey;
use protocol::{Answer, Row, View};
use std::alloc::Global;
use std::marker::Model;
use wire::SpelledTx;
use xid::{ManagerNumber, Refusal, Tx, XaCode, Xid};

/// A resource manager: its number, how many there are, how far each transaction has come, the spent names, and the branches with the
/// table.
#[derive(Debug, Drop)]
pub struct ResourceManager {
    pub(crate) number: u8,
    pub(crate) managers: u8,
    pub(crate) courses: Courses,
    pub(crate) spent: SpentNames,
    pub(crate) table: BranchTable,
}

impl Model for ResourceManager {
    ghost use Rattle.resource_manager.specs.Managers.{ManagerParts};

    ghost Value = { ManagerParts };

    ghost view = { λ m. record {
      number = m.number;
      managers = m.managers;
      courses = m.courses;
      spent = m.spent;
      table = m.table;
    } };
}

impl ResourceManager {
    /// A resource manager that has played nothing, over a table of these rows, which are within the limits; of two with one key the later
    /// counts. Refused: `NoMemory` alone.
    pub fn new(
        alloc: Global,
        number: u8,
        managers: u8,
        rows: Vec<Row>,
    ) -> Result<ResourceManager, Refusal>
        requires { are_rows rows.items ≡ true }
        ensures ok { IfOk result (λ m. (config : Config) → managers ≡ config.managers → rows.items ≡ first_rows config number
            → StandsFor config number m [] []) }
        ensures err { IfErr result (λ e. e ≡ NoMemory) }
    {
        ResourceManager::with_hash_key(alloc, HashKey::fixed(), number, managers, rows)
    }

    /// The same under a key of hashes, which nothing that is answered depends on. Refused: `NoMemory` alone.
    pub fn with_hash_key(
        alloc: Global,
        key: HashKey,
        number: u8,
        managers: u8,
        rows: Vec<Row>,
    ) -> Result<ResourceManager, Refusal>
        requires { are_rows rows.items ≡ true }
        ensures ok { IfOk result (λ m. (config : Config) → managers ≡ config.managers → rows.items ≡ first_rows config number
            → StandsFor config number m [] []) }
        ensures err { IfErr result (λ e. e ≡ NoMemory) }
    {
        let table = match BranchTable::with_hash_key(alloc, key, rows) {
            Ok(table) => table,
            Err(refusal) => return Err(refusal),
        };
        Ok(ResourceManager {
            number,
            managers,
            courses: Courses::new(alloc, key),
            spent: SpentNames::new(alloc, key.words()),
            table,
        })
    }

    /// Starts a branch (xa_start). `DupId` where it exists, or its name is spent; then nothing changes. Refused: `NoMemory` alone, and
    /// then nothing has changed.
    pub fn start(&mut self, xid: &Xid) -> Result<Answer, Refusal>
        ensures ok { IfOk result (λ answer. (config : Config) (number : ℕ)
            → IsCall config number self.old self.new xid.now actions.Start answer) }
        ensures err { IfErr result (λ e. (e ≡ NoMemory) × (self.new ≡ self.old)) }
    {
        if self.spent.contains(xid) {
            return Ok(Answer::Code(XaCode::DupId));
        }
        self.table.start(xid)
    }

    /// Puts a value at a key, for its branch alone. Codes and refusals are those of `BranchTable::put`. Refused: `NoMemory` alone, and
    /// then nothing has changed.
    pub fn put(&mut self, xid: &Xid, key: &[u8], value: &[u8]) -> Result<Answer, Refusal>
        ensures ok { IfOk result (λ answer. (config : Config) (number : ℕ)
            → IsCall config number self.old self.new xid.now (actions.Put key.now value.now) answer) }
        ensures err { IfErr result (λ e. (e ≡ NoMemory) × (self.new ≡ self.old)) }
    {
        self.table.put(xid, key, value)
    }

    /// Deletes a key, for its branch alone. Codes and refusals are those of `put`.
    pub fn del(&mut self, xid: &Xid, key: &[u8]) -> Result<Answer, Refusal>
        ensures ok { IfOk result (λ answer. (config : Config) (number : ℕ)
            → IsCall config number self.old self.new xid.now (actions.Del key.now) answer) }
        ensures err { IfErr result (λ e. (e ≡ NoMemory) × (self.new ≡ self.old)) }
    {
        self.table.del(xid, key)
    }

    /// Reads a key: the branch's own last write of it, or else the table's row. Codes and refusals are those of `put`, but `Busy` only
    /// where another branch has put or deleted the key.
    pub fn get(&mut self, xid: &Xid, key: &[u8]) -> Result<Answer, Refusal>
        ensures ok { IfOk result (λ answer. (config : Config) (number : ℕ)
            → IsCall config number self.old self.new xid.now (actions.Get key.now) answer) }
        ensures err { IfErr result (λ e. (e ≡ NoMemory) × (self.new ≡ self.old)) }
    {
        self.table.get(xid, key)
    }

    /// Ends an active branch (xa_end). `Ok`, or `RbRollback` where it ends as failed; `Nota` where there is no such branch,
    /// `Proto` where it isn't active. It takes no memory.
    pub fn end(&mut self, xid: &Xid, ending: Ending) -> Answer
        ensures { (config : Config) (number : ℕ) → IsCall config number self.old self.new xid.now (end_action ending) result }
    {
        self.table.end(xid, ending)
    }

    /// Rolls back a branch that was ended (xa_rollback): it becomes non-existent, and its keys are free. `Nota` where there
    /// is no such branch, `Proto` where it is active or prepared. It takes no memory.
    pub fn rollback(&mut self, xid: &Xid) -> Answer
        ensures { (config : Config) (number : ℕ) → IsCall config number self.old self.new xid.now actions.Rollback result }
    {
        self.table.rollback(xid)
    }

    /// The XIDs of the prepared branches, ascending (xa_recover). Refused: `NoMemory` alone.
    pub fn recover(&self) -> Result<Answer, Refusal>
        ensures ok { IfOk result (λ answer. (config : Config) (number : ℕ) (facts : List Fact) (branches : List Branch)
            → StandsFor config number self.now facts branches
            → answer ≡ (on_recover number (stored_votes number facts) branches).answer) }
        ensures err { IfErr result (λ e. e ≡ NoMemory) }
    {
        self.table.recover()
    }

    /// Where the resource manager stands in a transaction. Refused: the transaction names a resource manager outside the cluster, or
    /// doesn't name this one (`BadTx`). It takes no memory.
    pub fn view(&self, tx: &SpelledTx<'_>) -> Result<View, Refusal>
        ensures { (config : Config) (number : ℕ) (facts : List Fact) (branches : List Branch)
            → StandsFor config number self.now facts branches
            → view_answer result ≡ (on_view_call config number (stored_votes number facts) branches tx.now).answer }
    {
        if !is_inside(self.managers, tx) {
            return Err(Refusal::BadTx);
        }
        if !tx.is_participant(self.number()) {
            return Err(Refusal::BadTx);
        }
        Ok(self.courses.of(tx).view())
    }

    /// Its number, as transactions have it.
    pub(crate) fn number(&self) -> ManagerNumber
        ensures { result ≡ self.now.number }
    {
        u16::from(self.number)
    }

    /// The name that a transaction has here, if it has one.
    pub(crate) fn name_here(&self, tx: &SpelledTx<'_>) -> Option<Xid>
        ensures value { result ≡ xid_at tx.now self.now.number }
        ensures valid { IsTx tx.now }
    {
        tx.branch(self.number())
    }

    /// Of how many transactions it keeps something in memory.
    pub fn transaction_count(&self) -> usize
        ensures { result ≡ length self.now.courses.transactions }
    {
        self.courses.len()
    }

    /// The transactions that are prepared and not ended, in the order of their first facts. Refused: `NoMemory` alone.
    pub fn open_transactions(&self, alloc: Global) -> Result<Vec<Tx>, Refusal>
        ensures ok { IfOk result (λ txs. (config : Config) (number : ℕ) (facts : List Fact) (branches : List Branch)
            → StandsFor config number self.now facts branches → txs.items ≡ open_in facts) }
        ensures err { IfErr result (λ e. e ≡ NoMemory) }
    {
        self.prepared(alloc)
    }

    /// The transactions that are prepared, of those of which a fact is stored. Refused: `NoMemory` alone.
    fn prepared(&self, alloc: Global) -> Result<Vec<Tx>, Refusal>
        ensures ok { IfOk result (λ txs. txs.items ≡ filter_map (open_at self.now) self.now.courses.begun) }
        ensures err { IfErr result (λ e. e ≡ NoMemory) }
    {
        let mut txs = Vec::new(alloc);
        for number in self.courses.begun() {
            let Some(tx) = self.courses.view(*number) else {
                continue;
            };
            self.push_open(&mut txs, &tx)?;
        }
        Ok(txs)
    }

    /// Pushes a transaction, if it is prepared. Refused: `NoMemory` alone.
    fn push_open(&self, txs: &mut Vec<Tx>, tx: &SpelledTx<'_>) -> Result<(), Refusal>
        ensures ok { OnOk result (txs.new.items ≡ txs.old.items ++ cons_option (open_at self.now tx.now) []) }
        ensures err { IfErr result (λ e. e ≡ NoMemory) }
    {
        if self.courses.of(tx).is_prepared() {
            txs.push(tx.to_tx())?;
        }
        Ok(())
    }

    /// The rows of the table, copied, with their keys ascending. Refused: `NoMemory` alone.
    pub fn rows(&self) -> Result<Vec<Row>, Refusal>
        ensures ok { IfOk result (λ rows. (config : Config) (number : ℕ) (facts : List Fact) (branches : List Branch)
            → StandsFor config number self.now facts branches → rows.items ≡ table (first_rows config number) facts) }
        ensures err { IfErr result (λ e. e ≡ NoMemory) }
    {
        self.table.rows()
    }
}
