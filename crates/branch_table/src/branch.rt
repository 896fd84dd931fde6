//! One branch, without its name.

ghost use Rattle.std.specs.Prelude.{◌≡◌, ◌||◌, true, [], IfErr, IfNone, IfSome, OnOk, IfOk, is_some, length, nat_lt};
ghost use Rattle.std.specs.Bool.{Decides};
ghost use Rattle.xid.specs.Limits.{most_touched};
ghost use Rattle.xid.specs.declared.refusals.Refusal.TheVariants.{NoMemory};
ghost use Rattle.stable_record.specs.Facts.{AreKeys, IsKey, IsAct};
ghost use Rattle.protocol.specs.declared.states.BranchState.{BranchState};
ghost use Rattle.stable_record.specs.declared.fact.Act.TheVariants as acts;
ghost use Rattle.protocol.specs.Managers.{act_on as act_on_of, has_key, with_touched};
ghost use Rattle.branch_table.specs.Parts.{hold_of};
ghost use Rattle.branch_table.specs.TableStates.{is_active, is_idle, is_prepared, can_be_rolled_back};

use crate::hold::Hold;
use crate::keys::{act_on, are_same, copied, touch_key};
use protocol::BranchState;
use stable_record::{Act, Touched};
use std::alloc::Global;
use std::marker::Model;
use xid::{MAX_TOUCHED, Refusal};

/// A branch that exists: how far it has come, and the keys that it has touched, ascending, with its last acts on them.
#[derive(Debug, Drop)]
pub struct Branch {
    state: BranchState,
    keys: Vec<Touched>,
}

impl Model for Branch {
    ghost use Rattle.stable_record.specs.Facts.{AreKeys};
    ghost use Rattle.branch_table.specs.Parts.{Course};

    ghost Value = { Course };

    ghost view = { λ b. record { state = b.state; keys = b.keys.items } };

    ghost invariant = { λ b. AreKeys b.keys.items };
}

impl Branch {
    /// A branch that was just started.
    pub fn started(alloc: Global) -> Branch
        ensures { result ≡ record { state = BranchState.Active; keys = [] } }
    {
        Branch {
            state: BranchState::Active,
            keys: Vec::new(alloc),
        }
    }

    /// A prepared branch that has touched these keys. Refused: `NoMemory` alone.
    pub fn prepared(alloc: Global, keys: &[Touched]) -> Result<Branch, Refusal>
        requires { AreKeys keys.now }
        ensures ok { IfOk result (λ branch. branch ≡ record { state = BranchState.Prepared; keys = keys.now }) }
        ensures err { IfErr result (λ e. e ≡ NoMemory) }
    {
        let keys = copied(alloc, keys)?;
        Ok(Branch {
            state: BranchState::Prepared,
            keys,
        })
    }

    /// Whether it is active.
    pub fn is_active(&self) -> bool
        ensures { result ≡ is_active self.now.state }
    {
        matches!(self.state, BranchState::Active)
    }

    /// Whether it is idle.
    pub fn is_idle(&self) -> bool
        ensures { result ≡ is_idle self.now.state }
    {
        matches!(self.state, BranchState::Idle)
    }

    /// Whether it is prepared.
    pub fn is_prepared(&self) -> bool
        ensures { result ≡ is_prepared self.now.state }
    {
        matches!(self.state, BranchState::Prepared)
    }

    /// Whether it was ended, and isn't prepared.
    pub fn can_be_rolled_back(&self) -> bool
        ensures { result ≡ can_be_rolled_back self.now.state }
    {
        matches!(self.state, BranchState::Idle | BranchState::RollbackOnly)
    }

    /// The same branch in another state.
    pub fn set_state(&mut self, state: BranchState)
        ensures { self.new ≡ record self.old { state = state } }
    {
        self.state = state;
    }

    /// The keys that it has touched, ascending.
    pub fn keys(&self) -> &[Touched]
        ensures value { result.now ≡ self.now.keys }
        ensures valid { AreKeys self.now.keys }
    {
        &self.keys
    }

    /// The keys that it has touched, ascending, and the branch is no more.
    pub fn into_keys(self) -> Vec<Touched>
        ensures value { result.items ≡ self.keys }
        ensures valid { AreKeys self.keys }
    {
        self.keys
    }

    /// Whether these are the keys that it has touched.
    pub fn has_just(&self, keys: &[Touched]) -> bool
        ensures { Decides result (self.now.keys ≡ keys.now) }
    {
        are_same(self.keys(), keys)
    }

    /// Its last act on a key, if it has touched it.
    pub fn act_on(&self, key: &[u8]) -> Option<&Act>
        ensures some { IfSome result (λ act. act.now ≡ act_on_of self.now.keys key.now) }
        ensures none { IfNone result (act_on_of self.now.keys key.now ≡ acts.Read) }
        ensures touched { is_some result ≡ has_key key.now self.now.keys }
    {
        act_on(&self.keys, key)
    }

    /// Its hold on a key.
    pub fn hold_on(&self, key: &[u8]) -> Hold
        ensures { result ≡ hold_of self.now.keys key.now }
    {
        match self.act_on(key) {
            Some(act) => Hold::by(act),
            None => Hold::free(),
        }
    }

    /// Whether it may touch a key on which it has this hold.
    pub fn has_room(&self, key: &[u8], own: Hold) -> bool
        requires { own ≡ hold_of self.now.keys key.now }
        ensures valid { AreKeys self.now.keys }
        ensures value { result ≡ (has_key key.now self.now.keys || nat_lt (length self.now.keys) most_touched) }
    {
        own.touched_by > 0 || self.keys.len() < MAX_TOUCHED
    }

    /// Notes a key as touched, at its place, and its last act. At `NoMemory`, the only refusal, nothing changes.
    pub fn touch(&mut self, alloc: Global, key: &[u8], act: Act) -> Result<(), Refusal>
        requires key { IsKey key.now }
        requires act { IsAct act }
        requires room { (has_key key.now self.old.keys || nat_lt (length self.old.keys) most_touched) ≡ true }
        ensures ok { OnOk result (self.new ≡ record self.old { keys = with_touched self.old.keys key.now act }) }
        ensures err { IfErr result (λ e. (e ≡ NoMemory) × (self.new ≡ self.old)) }
    {
        touch_key(alloc, &mut self.keys, key, act)
    }
}
