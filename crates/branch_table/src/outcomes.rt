//! What becomes of a branch once its work is over: it is prepared, committed or undone.

ghost use Rattle.std.specs.Prelude.{◌≡◌, List, true, None, Some, IfOk, IfErr, OnOk, IfSome, is_some};
ghost use Rattle.xid.specs.declared.refusals.Refusal.TheVariants.{NoMemory};
ghost use Rattle.stable_record.specs.Facts.{AreKeys};
ghost use Rattle.std.specs.Bool.{Decides};
ghost use Rattle.xid.specs.Names.{XidParts};
ghost use Rattle.protocol.specs.Branches.{hinders_use, is_write};
ghost use Rattle.protocol.specs.Managers.{idle_keys, view_named};
ghost use Rattle.branch_table.specs.OneCall.{IsHindered};
ghost use Rattle.protocol.specs.declared.answers.Answer.TheVariants as answers;
ghost use Rattle.branch_table.specs.TableStates.{AreTableBranches, branch_named};
ghost use Rattle.branch_table.specs.Outcomes.{AreHindered, AreRecovered, Commits, IsRestored, RefusesRestore, Undoes, keys_named};

use crate::branch::Branch;
use crate::hold::Hold;
use crate::keys::copied;
use crate::looks::Looks;
use crate::table::{Access, BranchTable};
use protocol::{Answer, BranchState};
use stable_record::Touched;
use xid::{Refusal, Sequence, Xid};

impl BranchTable {
    /// The touched keys of an idle branch with its last acts on them, ascending, as a prepared vote stores them; `None` where there is
    /// no such branch, or it isn't idle. It changes nothing. Refused: `NoMemory` alone.
    pub fn prepare(&self, xid: &Xid) -> Result<Option<Sequence<Touched>>, Refusal>
        ensures ok { IfOk result (λ keys. keys ≡ idle_keys self.now.branches xid.now) }
        ensures valid { IfOk result (λ keys. IfSome keys AreKeys) }
        ensures err { IfErr result (λ e. e ≡ NoMemory) }
        ensures branches { AreTableBranches self.now.branches }
    {
        let Some(branch) = self.branches.get(xid) else {
            return Ok(None);
        };
        if !branch.is_idle() {
            return Ok(None);
        }
        let keys = copied(self.alloc, branch.keys())?;
        Ok(Some(Sequence::new(keys)))
    }

    /// Makes the branch of an XID prepared with these keys. One that is idle with just these keys becomes prepared, which takes no
    /// memory. Where there is none, and no other branch hinders its use of the keys, as when a record is replayed, it is made. Refused:
    /// `Damaged` in all other cases, and `NoMemory` where it is to be made; then nothing has changed.
    pub fn restore(&mut self, xid: &Xid, keys: &[Touched]) -> Result<(), Refusal>
        requires { AreKeys keys.now }
        ensures ok { OnOk result (IsRestored self.old self.new xid.now keys.now) }
        ensures err { IfErr result (λ e. RefusesRestore self.old.branches xid.now keys.now e × (self.new ≡ self.old)) }
        ensures branches { AreTableBranches self.old.branches }
    {
        if let Some(branch) = self.branches.get(xid) {
            if !branch.is_idle() {
                return Err(Refusal::Damaged);
            }
            if !branch.has_just(keys) {
                return Err(Refusal::Damaged);
            }
            self.branches.set_state(xid, BranchState::Prepared);
            return Ok(());
        }
        if self.are_hindered(keys) {
            return Err(Refusal::Damaged);
        }
        let Ok(branch) = Branch::prepared(self.alloc, keys) else {
            return Err(Refusal::NoMemory);
        };
        // so many branches hold a key at most
        let _ = self.branches.len();
        if self.places.hold(self.alloc, keys).is_err() {
            return Err(Refusal::NoMemory);
        }
        if self.branches.add(xid, branch).is_err() {
            self.places.let_go(keys, &mut Looks::new());
            return Err(Refusal::NoMemory);
        }
        Ok(())
    }

    /// Whether some branch hinders the use that a new one would make of these keys.
    fn are_hindered(&self, keys: &[Touched]) -> bool
        ensures { (x : XidParts) → branch_named self.now.branches x ≡ None → Decides result (AreHindered self.now.branches x keys.now) }
    {
        for touched in keys {
            if self.is_use_hindered(touched) {
                return true;
            }
        }
        false
    }

    /// Whether some branch hinders the use that a new one would make of a key.
    fn is_use_hindered(&self, touched: &Touched) -> bool
        ensures { (x : XidParts) → branch_named self.now.branches x ≡ None
            → Decides result (IsHindered (hinders_use (is_write touched.now.act) touched.now.key) (view_named self.now.branches) x) }
    {
        let access = Access::of(&touched.act);
        self.is_hindered(Hold::free(), access, touched.key.as_slice())
    }

    /// The touched keys of a branch with its last acts on them, ascending, copied; none where there is no such branch. Refused:
    /// `NoMemory` alone.
    pub fn keys_of(&self, xid: &Xid) -> Result<Sequence<Touched>, Refusal>
        ensures ok { IfOk result (λ keys. keys ≡ keys_named self.now.branches xid.now) }
        ensures valid { IfOk result AreKeys }
        ensures err { IfErr result (λ e. e ≡ NoMemory) }
    {
        match self.branches.get(xid) {
            Some(branch) => Ok(Sequence::new(copied(self.alloc, branch.keys())?)),
            None => Ok(Sequence::new(Vec::new(self.alloc))),
        }
    }

    /// Whether an XID has a branch.
    pub fn has_branch(&self, xid: &Xid) -> bool
        ensures value { result ≡ is_some (branch_named self.now.branches xid.now) }
        ensures branches { AreTableBranches self.now.branches }
    {
        self.branches.get(xid).is_some()
    }

    /// Ends a branch, and moves its writes into the table. It takes no memory. Where there is no such branch, only looks change.
    pub fn commit(&mut self, xid: &Xid)
        ensures { Commits self.old self.new xid.now }
    {
        self.looks.add(1);
        let Some(branch) = self.branches.remove(xid) else {
            return;
        };
        self.looks.add(1);
        self.places.settle(branch.into_keys(), &mut self.looks);
    }

    /// Ends a branch without effect. It takes no memory. Where there is no such branch, only looks change.
    pub fn undo(&mut self, xid: &Xid)
        ensures { Undoes self.old self.new xid.now }
    {
        self.looks.add(1);
        let Some(branch) = self.branches.remove(xid) else {
            return;
        };
        self.looks.add(1);
        self.places.let_go(branch.keys(), &mut self.looks);
    }

    /// The XIDs of the prepared branches, ascending (xa_recover). Refused: `NoMemory` alone.
    pub fn recover(&self) -> Result<Answer, Refusal>
        ensures ok { IfOk result
            (λ answer. (names : List XidParts) × (answer ≡ answers.Xids names) × AreRecovered self.now.branches names) }
        ensures err { IfErr result (λ e. e ≡ NoMemory) }
        ensures branches { AreTableBranches self.now.branches }
    {
        let mut names = self.branches.prepared(self.alloc)?;
        names.sort_unstable();
        Ok(Answer::Xids(Sequence::new(names)))
    }
}
