//! The branches of a resource manager, by their names.

ghost use Rattle.std.specs.Prelude.{◌≡◌, ◌<◌, ◌^◌, ◌||◌, true, [], None, Some, IfOk, IfErr, IfSome, OnOk, is_some, length, nat_lt, map};
ghost use Rattle.std.specs.List.{IsDistinct, list_any};
ghost use Rattle.std.specs.Option.{option_map};
ghost use Rattle.xid.specs.Limits.{most_touched};
ghost use Rattle.xid.specs.Names.{xid_eq};
ghost use Rattle.xid.specs.Places.{is_xid_below};
ghost use Rattle.xid.specs.declared.refusals.Refusal.TheVariants.{NoMemory};
ghost use Rattle.stable_record.specs.Facts.{IsKey, IsAct};
ghost use Rattle.protocol.specs.Managers.{has_key};
ghost use Rattle.branch_table.specs.TableStates.{branch_named, in_state, with_act};
ghost use Rattle.branch_table.specs.Outcomes.{prepared_names};
ghost use Rattle.branch_table.specs.Parts.{branch_of, Replaces};

use crate::branch::Branch;
use hashing::WordKey;
use indexmap::IndexMap;
use protocol::BranchState;
use stable_record::Act;
use std::alloc::Global;
use std::marker::Model;
use xid::{Floor, Refusal, Xid};

/// Branches by their names.
#[derive(Debug, Drop)]
pub struct Branches {
    named: IndexMap<Xid, Branch, WordKey>,
}

impl Model for Branches {
    ghost use Rattle.std.specs.Prelude.{List, map};
    ghost use Rattle.protocol.specs.Managers.{Branch};
    ghost use Rattle.branch_table.specs.Parts.{branch_of};

    ghost Value = { List Branch };

    ghost view = { λ branches. map (λ entry. branch_of entry.0 entry.1) branches.named.entries };
}

impl Branches {
    /// No branch. Names are hashed under the key.
    pub fn new(alloc: Global, key: WordKey) -> Branches
        ensures { result ≡ [] }
    {
        Branches {
            named: IndexMap::with_hasher(alloc, key),
        }
    }

    /// How many there are. No two have one name.
    pub fn len(&self) -> usize
        ensures value { result ≡ length self.now }
        ensures few { result < 2 ^ 63 }
        ensures distinct { IsDistinct xid_eq (map (λ branch. branch.xid) self.now) }
    {
        self.named.len()
    }

    /// The branch of a name, if it exists.
    pub fn get(&self, xid: &Xid) -> Option<&Branch>
        ensures { option_map (λ branch. branch_of xid.now branch.now) result ≡ branch_named self.now xid.now }
    {
        self.named.get(xid)
    }

    /// Adds a branch, which didn't exist. At `NoMemory`, the only refusal, nothing changes.
    pub fn add(&mut self, xid: &Xid, branch: Branch) -> Result<(), Refusal>
        requires { branch_named self.old xid.now ≡ None }
        ensures ok { OnOk result (Replaces self.old self.new xid.now None (Some (branch_of xid.now branch))) }
        ensures err { IfErr result (λ e. (e ≡ NoMemory) × (self.new ≡ self.old)) }
    {
        self.named.insert(*xid, branch)?;
        Ok(())
    }

    /// Takes a branch out, if it exists. It takes no memory.
    pub fn remove(&mut self, xid: &Xid) -> Option<Branch>
        ensures value { option_map (branch_of xid.now) result ≡ branch_named self.old xid.now }
        ensures left { Replaces self.old self.new xid.now (branch_named self.old xid.now) None }
    {
        self.named.swap_remove(xid)
    }

    /// A branch that exists is in another state. It takes no memory.
    pub fn set_state(&mut self, xid: &Xid, state: BranchState)
        requires { is_some (branch_named self.old xid.now) ≡ true }
        ensures { Replaces self.old self.new xid.now (branch_named self.old xid.now)
            (option_map (in_state state) (branch_named self.old xid.now)) }
    {
        let Some(branch) = self.named.get_mut(xid) else {
            return;
        };
        branch.set_state(state);
    }

    /// Notes an act on a key at a branch that exists. At `NoMemory`, the only refusal, nothing changes.
    pub fn touch(&mut self, alloc: Global, xid: &Xid, key: &[u8], act: Act) -> Result<(), Refusal>
        requires key { IsKey key.now }
        requires act { IsAct act }
        requires found { is_some (branch_named self.old xid.now) ≡ true }
        requires room { IfSome (branch_named self.old xid.now)
            (λ branch. (has_key key.now branch.keys || nat_lt (length branch.keys) most_touched) ≡ true) }
        ensures ok { OnOk result (Replaces self.old self.new xid.now (branch_named self.old xid.now)
            (option_map (with_act key.now act) (branch_named self.old xid.now))) }
        ensures err { IfErr result (λ e. (e ≡ NoMemory) × (self.new ≡ self.old)) }
    {
        let Some(branch) = self.named.get_mut(xid) else {
            return Ok(());
        };
        branch.touch(alloc, key, act)
    }

    /// Whether one of them is below a floor.
    pub fn has_below(&self, floor: &Floor) -> bool
        ensures { result ≡ list_any (λ branch. is_xid_below (Some floor.now) branch.xid) self.now }
    {
        for (xid, _) in &self.named {
            if floor.is_above_xid(xid) {
                return true;
            }
        }
        false
    }

    /// The names of the prepared branches. Refused: `NoMemory` alone.
    pub fn prepared(&self, alloc: Global) -> Result<Vec<Xid>, Refusal>
        ensures ok { IfOk result (λ names. names.items ≡ prepared_names self.now) }
        ensures err { IfErr result (λ e. e ≡ NoMemory) }
    {
        let mut names = Vec::new(alloc);
        for (xid, branch) in &self.named {
            if branch.is_prepared() {
                names.push(*xid)?;
            }
        }
        Ok(names)
    }
}
