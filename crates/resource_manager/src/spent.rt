ghost use Rattle.std.specs.Prelude.{◌≡◌, ◌<◌, ◌||◌, [], IfErr, OnOk};
ghost use Rattle.xid.specs.Names.{XidParts, xid_eq};
ghost use Rattle.xid.specs.declared.refusals.Refusal.TheVariants.{NoMemory};
ghost use Rattle.resource_manager.specs.SpentNames.{is_spent_in};

use hashing::WordKey;
use indexmap::IndexSet;
use std::alloc::Global;
use std::marker::Model;
use xid::{Refusal, Xid};

/// The names that are spent: a vote or an outcome is stored of some transaction that has them here.
#[derive(Debug, Drop)]
pub struct SpentNames {
    names: IndexSet<Xid, WordKey>,
}

impl Model for SpentNames {
    ghost use Rattle.indexmap.specs.IndexSet.{keys, spare};
    ghost use Rattle.resource_manager.specs.SpentNames.{SpentParts};

    ghost Value = { SpentParts };

    ghost view = { λ s. record { names = keys s.names; room = spare s.names } };
}

impl SpentNames {
    /// No name. They are hashed under the key. It takes no memory.
    pub fn new(alloc: Global, key: WordKey) -> SpentNames
        ensures { result.names ≡ [] }
    {
        SpentNames {
            names: IndexSet::with_hasher(alloc, key),
        }
    }

    /// Whether a name is spent. It takes no memory.
    pub fn contains(&self, xid: &Xid) -> bool
        ensures { result ≡ is_spent_in self.now xid.now }
    {
        self.names.contains(xid)
    }

    /// Makes room for one name more. At `NoMemory`, the only refusal, there was none; then, and else too, the names are as before.
    pub fn reserve(&mut self) -> Result<(), Refusal>
        ensures room { OnOk result (0 < self.new.room) }
        ensures names { self.new.names ≡ self.old.names }
        ensures err { IfErr result (λ e. (e ≡ NoMemory) × (¬ (0 < self.old.room))) }
    {
        match self.names.reserve(1) {
            Ok(()) => Ok(()),
            Err(_) => Err(Refusal::NoMemory),
        }
    }

    /// Spends a name, for which there is room.
    pub fn spend(&mut self, xid: &Xid)
        requires { 0 < self.old.room }
        ensures { (x : XidParts) → is_spent_in self.new x ≡ (xid_eq x xid.now || is_spent_in self.old x) }
    {
        let _ = self.names.insert(*xid);
    }
}
