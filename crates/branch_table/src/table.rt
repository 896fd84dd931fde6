//! A resource manager's branches and table, and the client calls on them.

ghost use Rattle.std.specs.Prelude.{◌≡◌, ◌≢◌, ◌<◌, ◌&&◌, Some, None, [], true, IfOk, IfErr, OnOk, length, Ok};
ghost use Rattle.std.specs.Bool.{Decides};
ghost use Rattle.std.specs.List.{list_any};
ghost use Rattle.xid.specs.Names.{XidParts};
ghost use Rattle.xid.specs.Places.{is_xid_below};
ghost use Rattle.xid.specs.declared.codes.XaCode.{XaCode};
ghost use Rattle.xid.specs.declared.refusals.Refusal.TheVariants.{NoMemory};
ghost use Rattle.stable_record.specs.Facts.{IsKey, IsAct};
ghost use Rattle.protocol.specs.declared.requests.Action.TheVariants as actions;
ghost use Rattle.protocol.specs.declared.answers.Answer.TheVariants as answers;
ghost use Rattle.protocol.specs.Branches.{key_fits as key_fits_of, value_fits, get_answer, hinders_use, is_write, read_of, row_at};
ghost use Rattle.protocol.specs.Managers.{view_named};
ghost use Rattle.branch_table.specs.Admission.{end_action, end_state, end_code, is_writing, Admits, Touches};
ghost use Rattle.branch_table.specs.OneCall.{IsHindered};
ghost use Rattle.branch_table.specs.Outcomes.{HasLooked, keys_named};
ghost use Rattle.branch_table.specs.Parts.{uses_held, uses_of};
ghost use Rattle.branch_table.specs.TableStates.{AreTableBranches, Steps, are_rows, branch_named, first_table};

use crate::branch::Branch;
use crate::branches::Branches;
use crate::hold::Hold;
use crate::looks::Looks;
use crate::places::Places;
use hashing::HashKey;
use protocol::{Answer, BranchState, Row};
use stable_record::Act;
use std::alloc::Global;
use std::marker::Model;
use xid::{Bytes, Floor, MAX_KEY, MAX_VALUE, Refusal, XaCode, Xid};

/// How a branch is ended, after the flags TMSUCCESS and TMFAIL of X/Open XA.
#[derive(Clone, Copy, Debug, PartialEq, Eq)]
pub enum Ending {
    /// Its work may be kept.
    Success,
    /// It may only be rolled back.
    Fail,
}

impl Ending {
    /// The state that it leaves, and the code that it is answered with.
    fn outcome(self) -> (BranchState, XaCode)
        ensures state { result.0 ≡ end_state self }
        ensures code { result.1 ≡ end_code self }
    {
        match self {
            Ending::Success => (BranchState::Idle, XaCode::Ok),
            Ending::Fail => (BranchState::RollbackOnly, XaCode::RbRollback),
        }
    }
}

/// How a call uses a key.
#[derive(Clone, Copy, Debug, PartialEq, Eq)]
pub(crate) enum Access {
    /// It reads it.
    Read,
    /// It puts or deletes it.
    Write,
}

impl Access {
    /// The access that an act has.
    pub(crate) fn of(act: &Act) -> Access
        ensures { is_writing result ≡ is_write act.now }
    {
        match act {
            Act::Read => Access::Read,
            Act::Put(_) | Act::Del => Access::Write,
        }
    }
}

/// The branches of one resource manager and its table. Each call on a branch gives its answer. Want of memory is none: it is an
/// `Err` of `NoMemory`, and then nothing has changed.
#[derive(Debug, Drop)]
pub struct BranchTable {
    pub(crate) alloc: Global,
    pub(crate) places: Places,
    pub(crate) branches: Branches,
    pub(crate) looks: Looks,
}

impl Model for BranchTable {
    ghost use Rattle.branch_table.specs.TableStates.{TableState, AreTableBranches};
    ghost use Rattle.branch_table.specs.Parts.{AreHolds, table_of};

    ghost Value = { TableState };

    ghost view = { λ t. record { rows = table_of t.places; branches = t.branches; looks = t.looks } };

    ghost invariant = { λ t. AreTableBranches t.branches × AreHolds t.places t.branches };
}

impl BranchTable {
    /// No branches, and a table of these rows, which are within the limits, in any order; of two with one key the later counts. Refused:
    /// `NoMemory` alone.
    pub fn new(alloc: Global, rows: Vec<Row>) -> Result<BranchTable, Refusal>
        requires { are_rows rows.items ≡ true }
        ensures ok { IfOk result (λ table. (table.rows ≡ first_table rows.items) × (table.branches ≡ []) × (table.looks ≡ 0)) }
        ensures err { IfErr result (λ e. e ≡ NoMemory) }
    {
        BranchTable::with_hash_key(alloc, HashKey::fixed(), rows)
    }

    /// The same under a key of hashes, which nothing that is answered depends on. Refused: `NoMemory` alone.
    pub fn with_hash_key(
        alloc: Global,
        key: HashKey,
        rows: Vec<Row>,
    ) -> Result<BranchTable, Refusal>
        requires { are_rows rows.items ≡ true }
        ensures ok { IfOk result (λ table. (table.rows ≡ first_table rows.items) × (table.branches ≡ []) × (table.looks ≡ 0)) }
        ensures err { IfErr result (λ e. e ≡ NoMemory) }
    {
        let places = Places::new(alloc, key.words(), rows)?;
        Ok(BranchTable {
            alloc,
            places,
            branches: Branches::new(alloc, key.words()),
            looks: Looks::new(),
        })
    }

    /// The rows of the table, copied, with their keys ascending. All are within the limits. Refused: `NoMemory` alone.
    pub fn rows(&self) -> Result<Vec<Row>, Refusal>
        ensures ok { IfOk result (λ rows. rows.items ≡ self.now.rows) }
        ensures err { IfErr result (λ e. e ≡ NoMemory) }
        ensures limits { are_rows self.now.rows ≡ true }
        ensures branches { AreTableBranches self.now.branches }
    {
        self.places.rows(self.alloc)
    }

    /// Whether a branch is below a floor, in whatever state. It takes no memory.
    pub fn has_below(&self, floor: &Floor) -> bool
        ensures { result ≡ list_any (λ branch. is_xid_below (Some floor.now) branch.xid) self.now.branches }
    {
        self.branches.has_below(floor)
    }

    /// How many branches, holds and keys of their own the ends of branches have read or taken out. It stays at the greatest value.
    pub fn looks(&self) -> u64
        ensures { result ≡ self.now.looks }
    {
        self.looks.count()
    }

    /// Starts a branch (xa_start). `DupId` where it exists, which changes nothing. Refused: `NoMemory` alone, and then nothing has changed.
    pub fn start(&mut self, xid: &Xid) -> Result<Answer, Refusal>
        ensures ok { IfOk result (λ answer. Steps self.old self.new xid.now actions.Start answer) }
        ensures err { IfErr result (λ e. (e ≡ NoMemory) × (self.new ≡ self.old)) }
        ensures looks { self.new.looks ≡ self.old.looks }
    {
        if self.branches.get(xid).is_some() {
            return Ok(Answer::Code(XaCode::DupId));
        }
        self.branches.add(xid, Branch::started(self.alloc))?;
        Ok(Answer::Code(XaCode::Ok))
    }

    /// Ends an active branch (xa_end). `Ok`, or `RbRollback` where it ends as failed; `Nota` where there is no such branch,
    /// `Proto` where it isn't active.
    pub fn end(&mut self, xid: &Xid, ending: Ending) -> Answer
        ensures steps { Steps self.old self.new xid.now (end_action ending) result }
        ensures looks { self.new.looks ≡ self.old.looks }
    {
        let Some(branch) = self.branches.get(xid) else {
            return Answer::Code(XaCode::Nota);
        };
        if !branch.is_active() {
            return Answer::Code(XaCode::Proto);
        }
        let (state, code) = ending.outcome();
        self.branches.set_state(xid, state);
        Answer::Code(code)
    }

    /// Rolls back a branch that was ended (xa_rollback): it becomes non-existent, and its keys are free. `Nota` where there
    /// is no such branch, `Proto` where it is active or prepared.
    pub fn rollback(&mut self, xid: &Xid) -> Answer
        ensures steps { Steps self.old self.new xid.now actions.Rollback result }
        ensures done { result ≡ answers.Code XaCode.Ok
            → HasLooked self.old.looks self.new.looks (length (keys_named self.old.branches xid.now)) }
        ensures undone { result ≢ answers.Code XaCode.Ok → self.new.looks ≡ self.old.looks }
    {
        let Some(branch) = self.branches.get(xid) else {
            return Answer::Code(XaCode::Nota);
        };
        if !branch.can_be_rolled_back() {
            return Answer::Code(XaCode::Proto);
        }
        self.undo(xid);
        Answer::Code(XaCode::Ok)
    }

    /// Puts a value at a key, for its branch alone. `Inval` for a key without bytes or with more than 64, or a value of more
    /// than 256; `Nota` where there is no such branch, `Proto` where it isn't active. Refused: `Busy` where another branch
    /// has touched the key, `Full` where this would be a 65th key. All these change nothing.
    pub fn put(&mut self, xid: &Xid, key: &[u8], value: &[u8]) -> Result<Answer, Refusal>
        ensures ok { IfOk result (λ answer. Steps self.old self.new xid.now (actions.Put key.now value.now) answer) }
        ensures err { IfErr result (λ e. (e ≡ NoMemory) × (self.new ≡ self.old)) }
        ensures looks { self.new.looks ≡ self.old.looks }
    {
        let alloc = self.alloc;
        if !put_fits(key, value) {
            return Ok(Answer::Code(XaCode::Inval));
        }
        let own = match self.admit(xid, Access::Write, key) {
            Ok(own) => own,
            Err(answer) => return Ok(answer),
        };
        let act = Act::Put(Bytes::copy_of(alloc, value)?);
        self.touch(alloc, xid, key, act, own)?;
        Ok(Answer::Code(XaCode::Ok))
    }

    /// Deletes a key, for its branch alone; that there is no row of it is no fault. Codes and refusals are those of `put`.
    pub fn del(&mut self, xid: &Xid, key: &[u8]) -> Result<Answer, Refusal>
        ensures ok { IfOk result (λ answer. Steps self.old self.new xid.now (actions.Del key.now) answer) }
        ensures err { IfErr result (λ e. (e ≡ NoMemory) × (self.new ≡ self.old)) }
        ensures looks { self.new.looks ≡ self.old.looks }
    {
        let alloc = self.alloc;
        if !key_fits(key) {
            return Ok(Answer::Code(XaCode::Inval));
        }
        let own = match self.admit(xid, Access::Write, key) {
            Ok(own) => own,
            Err(answer) => return Ok(answer),
        };
        self.touch(alloc, xid, key, Act::Del, own)?;
        Ok(Answer::Code(XaCode::Ok))
    }

    /// Reads a key: the branch's own last write of it, or else the table's row. The key is held from then on, shared with others that
    /// only read it. Codes and refusals are those of `put`, but `Busy` only where another branch has put or deleted the key.
    pub fn get(&mut self, xid: &Xid, key: &[u8]) -> Result<Answer, Refusal>
        ensures ok { IfOk result (λ answer. Steps self.old self.new xid.now (actions.Get key.now) answer) }
        ensures err { IfErr result (λ e. (e ≡ NoMemory) × (self.new ≡ self.old)) }
        ensures looks { self.new.looks ≡ self.old.looks }
    {
        let alloc = self.alloc;
        if !key_fits(key) {
            return Ok(Answer::Code(XaCode::Inval));
        }
        let own = match self.admit(xid, Access::Read, key) {
            Ok(own) => own,
            Err(answer) => return Ok(answer),
        };
        let answer = self.read(alloc, xid, key)?;
        self.touch(alloc, xid, key, Act::Read, own)?;
        Ok(answer)
    }

    /// Lets a call on a key in, with the hold that its branch has on the key, or gives the answer of one that isn't let in. The branch,
    /// its state, the holds of others and the room are asked for in this order.
    fn admit(&self, xid: &Xid, access: Access, key: &[u8]) -> Result<Hold, Answer>
        ensures { Admits self.now.branches xid.now (is_writing access) key.now result }
    {
        let Some(branch) = self.branches.get(xid) else {
            return Err(Answer::Code(XaCode::Nota));
        };
        if !branch.is_active() {
            return Err(Answer::Code(XaCode::Proto));
        }
        let own = branch.hold_on(key);
        if self.is_hindered(own, access, key) {
            return Err(Answer::Refused(Refusal::Busy));
        }
        if !branch.has_room(key, own) {
            return Err(Answer::Refused(Refusal::Full));
        }
        Ok(own)
    }

    /// Whether another branch hinders an access to a key, by the hold that one's own branch has on it.
    pub(crate) fn is_hindered(&self, own: Hold, access: Access, key: &[u8]) -> bool
        ensures { (x : XidParts) → uses_held (is_writing access) own ≡ uses_of (is_writing access) key.now
            (branch_named self.now.branches x)
            → Decides result (IsHindered (hinders_use (is_writing access) key.now) (view_named self.now.branches) x) }
    {
        let hold = self.places.hold_at(key);
        match access {
            Access::Read => hold.written_by > own.written_by,
            Access::Write => hold.touched_by > own.touched_by,
        }
    }

    /// The answer of a get that reads a key. Refused: `NoMemory` alone.
    fn read(&self, alloc: Global, xid: &Xid, key: &[u8]) -> Result<Answer, Refusal>
        ensures ok { IfOk result (λ answer. answer ≡ get_answer (read_of self.now.rows (view_named self.now.branches xid.now) key.now)) }
        ensures err { IfErr result (λ e. e ≡ NoMemory) }
    {
        let Some(branch) = self.branches.get(xid) else {
            return self.read_row(alloc, key);
        };
        let Some(act) = branch.act_on(key) else {
            return self.read_row(alloc, key);
        };
        match act {
            Act::Put(value) => Ok(Answer::Value(Bytes::copy_of(alloc, value.as_slice())?)),
            Act::Del => Ok(Answer::NoValue),
            Act::Read => self.read_row(alloc, key),
        }
    }

    /// The answer of a get that finds no write of its own. Refused: `NoMemory` alone.
    fn read_row(&self, alloc: Global, key: &[u8]) -> Result<Answer, Refusal>
        ensures ok { IfOk result (λ answer. answer ≡ get_answer (row_at self.now.rows key.now)) }
        ensures err { IfErr result (λ e. e ≡ NoMemory) }
    {
        match self.places.value_at(key) {
            Some(value) => Ok(Answer::Value(Bytes::copy_of(alloc, value)?)),
            None => Ok(Answer::NoValue),
        }
    }

    /// Notes an act on a key at a branch that may do it, and has this hold on it. At `NoMemory`, the only refusal, nothing changes.
    fn touch(
        &mut self,
        alloc: Global,
        xid: &Xid,
        key: &[u8],
        act: Act,
        own: Hold,
    ) -> Result<(), Refusal>
        requires key { IsKey key.now }
        requires act { IsAct act }
        requires admitted { Admits self.old.branches xid.now (is_write act) key.now (Ok own) }
        ensures ok { OnOk result (Touches self.old self.new xid.now key.now act) }
        ensures err { IfErr result (λ e. (e ≡ NoMemory) × (self.new ≡ self.old)) }
    {
        let more = own.more(&act);
        // so many branches hold a key at most
        let _ = self.branches.len();
        self.places.add(alloc, key, more)?;
        if self.branches.touch(alloc, xid, key, act).is_err() {
            self.places.leave(key, Act::Read, more);
            return Err(Refusal::NoMemory);
        }
        Ok(())
    }
}

fn key_fits(key: &[u8]) -> bool
    ensures { result ≡ key_fits_of key.now }
{
    (1..=MAX_KEY).contains(&key.len())
}

fn put_fits(key: &[u8], value: &[u8]) -> bool
    ensures { result ≡ (key_fits_of key.now && value_fits value.now) }
{
    key_fits(key) && value.len() <= MAX_VALUE
}
