//! What was done in the branches of all resource managers.

ghost use Rattle.std.specs.Prelude.{◌≡◌, [], Some, IfErr, OnOk};
ghost use Rattle.std.specs.Option.{option_copied, option_map};
ghost use Rattle.xid.specs.declared.refusals.Refusal.TheVariants.{NoMemory};
ghost use Rattle.audit.specs.Stretches.{just_started, with_write, with_get};
ghost use Rattle.audit.specs.Books.{stretch_of, Sets};

use crate::stretch::Stretch;
use hashing::WordKey;
use indexmap::IndexMap;
use stable_record::Act;
use std::alloc::Global;
use std::marker::Model;
use xid::{Refusal, Xid};

/// The name of a branch, and the number of its resource manager.
#[derive(Clone, Copy, Debug, PartialEq, Eq, Hash)]
pub struct Name {
    /// The resource manager.
    pub rm: u8,
    /// The branch.
    pub xid: Xid,
}

/// What was done in each branch since it was last started.
#[derive(Debug, Drop)]
pub struct Branches {
    named: IndexMap<Name, Stretch, WordKey>,
}

impl Model for Branches {
    ghost use Rattle.std.specs.Prelude.{List};
    ghost use Rattle.audit.specs.declared.branches.Name.{Name};
    ghost use Rattle.audit.specs.Stretches.{StretchParts};

    ghost Value = { List (Name × StretchParts) };

    ghost view = { λ branches. branches.named.entries };
}

impl Branches {
    /// No branch was started. Names are hashed under the key. It takes no memory.
    pub fn new(alloc: Global, key: WordKey) -> Branches
        ensures { result ≡ [] }
    {
        Branches {
            named: IndexMap::with_hasher(alloc, key),
        }
    }

    /// What was done in a branch, if it was started.
    pub fn get(&self, rm: u8, xid: &Xid) -> Option<&Stretch>
        ensures { option_copied result ≡ stretch_of self.now rm xid.now }
    {
        self.named.get(&Name { rm, xid: *xid })
    }

    /// Starts a branch. Refused: `NoMemory` alone.
    pub fn start(&mut self, alloc: Global, rm: u8, xid: &Xid) -> Result<(), Refusal>
        ensures ok { OnOk result (Sets self.old self.new rm xid.now (Some just_started)) }
        ensures err { IfErr result (λ e. e ≡ NoMemory) }
    {
        self.named
            .insert(Name { rm, xid: *xid }, Stretch::new(alloc))?;
        Ok(())
    }

    /// Adds a write to a branch, if it was started. Refused: `NoMemory` alone.
    pub fn write(
        &mut self,
        alloc: Global,
        rm: u8,
        xid: &Xid,
        key: &[u8],
        act: Act,
    ) -> Result<(), Refusal>
        ensures ok { OnOk result
            (Sets self.old self.new rm xid.now (option_map (with_write key.now act) (stretch_of self.old rm xid.now))) }
        ensures err { IfErr result (λ e. e ≡ NoMemory) }
    {
        let Some(stretch) = self.named.get_mut(&Name { rm, xid: *xid }) else {
            return Ok(());
        };
        stretch.write(alloc, key, act)
    }

    /// Adds a get to a branch, if it was started. Refused: `NoMemory` alone.
    pub fn show(
        &mut self,
        alloc: Global,
        rm: u8,
        xid: &Xid,
        key: &[u8],
        found: Option<&[u8]>,
    ) -> Result<(), Refusal>
        ensures ok { OnOk result (Sets self.old self.new rm xid.now
            (option_map (with_get key.now (option_copied found.entry)) (stretch_of self.old rm xid.now))) }
        ensures err { IfErr result (λ e. e ≡ NoMemory) }
    {
        let Some(stretch) = self.named.get_mut(&Name { rm, xid: *xid }) else {
            return Ok(());
        };
        stretch.show(alloc, key, found)
    }
}
