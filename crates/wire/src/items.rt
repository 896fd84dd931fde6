ghost use Rattle.std.specs.Prelude.{◌≡◌, ◌<◌, ◌≤◌, [], ◌∷◌, ◌++◌, length};
ghost use Rattle.std.specs.Cmp.Lexicographic.{pointwise};
ghost use Rattle.std.specs.Cmp.Rules.{comparing};
ghost use Rattle.std.specs.Hash as fed;
ghost use Rattle.std.specs.Hash.{items_Alike};
ghost use Rattle.std.proofs.Common.{rules};
ghost use Rattle.xid.specs.Limits.{most_branches};

use std::alloc::AllocError;
use std::hash::{Hash, Hasher};
use std::marker::Model;
use xid::{Ballot, MAX_BRANCHES, ManagerNumber, Vote};

/// What an acceptor reports of one instance in phase 1b.
#[derive(Clone, Copy, Debug, PartialEq, Eq, Hash)]
pub struct InstanceReport {
    /// The instance.
    pub instance: ManagerNumber,
    /// The ballot and vote that it accepted last there, if there are any.
    pub report: Option<(Ballot, Vote)>,
}

/// What an acceptor tells of one instance in phase 2b.
#[derive(Clone, Copy, Debug, PartialEq, Eq, Hash)]
pub struct InstanceAccept {
    /// The instance.
    pub instance: ManagerNumber,
    /// The ballot in which it accepted last there.
    pub ballot: Ballot,
    /// The vote that it accepted.
    pub vote: Vote,
}

/// The items of a bundle in their order: one for each of some instances, so 1 to `MAX_BRANCHES`. They are kept in place.
#[derive(Copy, Debug)]
pub struct Items<T> {
    count: u8,
    array: [T; MAX_BRANCHES],
}

impl<T> Model for Items<T> {
    ghost use Rattle.std.specs.Prelude.{List, length, take};
    ghost use Rattle.wire.specs.ItemArray.{IsItemArray, filled, item-count-shown, items-shown};

    ghost Value = { List T };

    ghost view = { λ items. take items.count items.array };

    ghost invariant = { λ items. IsItemArray items.count items.array };

    ghost inverse = { λ items. record { count = length items; array = filled items } };

    ghost inverse_ok = { λ items ok i. record {
      count = item-count-shown items.count items.array ok i;
      array = items-shown items.count items.array ok i;
    } };
}

impl<T: Copy> Clone for Items<T> {
    fn clone(&self) -> Result<Items<T>, AllocError> {
        Ok(*self)
    }
}

impl<T: Copy> Items<T> {
    /// One item.
    pub fn one(item: T) -> Items<T>
        ensures { result ≡ item ∷ [] }
    {
        Items {
            count: 1,
            array: [item; MAX_BRANCHES],
        }
    }

    /// Puts an item after the others.
    pub fn push(&mut self, item: T)
        requires { length self.old < most_branches }
        ensures { self.new ≡ self.old ++ item ∷ [] }
    {
        self.array[self.count as usize] = item;
        self.count += 1;
    }
}

impl<T> Items<T> {
    /// The items.
    pub fn as_slice(&self) -> &[T]
        ensures items { result.now ≡ self.now }
        ensures some { 0 < length self.now }
        ensures few { length self.now ≤ most_branches }
    {
        &self.array[..self.count as usize]
    }
}

impl<T: PartialEq> PartialEq for Items<T> {
    ghost eq = { pointwise T.eq };

    ghost laws = { Prim.search (comparing, rules) };

    fn eq(&self, other: &Items<T>) -> bool {
        self.as_slice() == other.as_slice()
    }
}

impl<T: Eq> Eq for Items<T> {
    ghost laws = { Prim.search (comparing, rules) };
}

impl<T: Hash> Hash for Items<T> {
    ghost hash_input = { fed.slice T.hash_input };

    ghost respects_eq = { (items_Alike (record { fed = T.respects_eq })).fed };

    fn hash<H: Hasher>(&self, state: &mut H) {
        self.as_slice().hash(state);
    }
}
