ghost use Rattle.std.specs.Prelude.{◌≡◌, ◌≢◌, ℕ, ◌+◌, ◌<◌, ◌≤◌, ◌↔◌, List, [], ◌∷◌, ◌++◌, length, map, take, IsTrue, MatchOption};
ghost use Rattle.std.specs.Cmp.Lexicographic.{slice_cmp, pointwise};
ghost use Rattle.std.specs.Cmp.{partial_order_from_own_ties};
ghost use Rattle.std.specs.Cmp.Rules.{comparing};
ghost use Rattle.std.specs.Ordering.{as_partial_cmp};
ghost use Rattle.std.specs.Hash as fed;
ghost use Rattle.std.proofs.Common.{rules};
ghost use Rattle.xid.specs.Limits.{most_branches, most_component};
ghost use Rattle.xid.specs.Transactions.{IsBranch, AreBranches};

use crate::branch_id::is_component;
use crate::component::Component;
use crate::limits::{MAX_BRANCHES, MAX_COMPONENT, MAX_MANAGERS, ManagerNumber};
use std::cmp::Ordering;
use std::hash::{Hash, Hasher};
use std::marker::Model;

/// One branch of a transaction: the number of its resource manager, and its bqual.
#[derive(Clone, Copy, Debug, PartialEq, Eq, PartialOrd, Ord, Hash)]
pub(crate) struct Branch {
    rm: ManagerNumber,
    bqual: Component,
}

impl Model for Branch {
    ghost use Rattle.xid.specs.Transactions.{BranchParts};

    ghost Value = { BranchParts };

    ghost view = { λ b. record { rm = b.rm; bqual = b.bqual } };

    ghost inverse = { λ b. record { rm = b.rm; bqual = b.bqual } };
}

impl Branch {
    /// The number of its resource manager.
    pub(crate) fn rm(&self) -> ManagerNumber
        ensures { result ≡ self.now.rm }
    {
        self.rm
    }

    /// Its bqual as a component.
    pub(crate) fn component(&self) -> Component
        ensures { result ≡ self.now.bqual }
    {
        self.bqual
    }

    /// Its bqual.
    pub(crate) fn bqual(&self) -> &[u8]
        ensures value { result.now ≡ self.now.bqual }
        ensures few { length self.now.bqual ≤ most_component }
    {
        self.bqual.as_bytes()
    }
}

/// Branches in their order, at most `MAX_BRANCHES`, in place. What is past them is blank.
#[derive(Clone, Copy, Debug)]
pub struct Branches {
    count: u8,
    array: [Branch; MAX_BRANCHES],
}

impl Model for Branches {
    ghost use Rattle.std.specs.Prelude.{List, length, take};
    ghost use Rattle.xid.specs.Transactions.{BranchParts};

    ghost Value = { List BranchParts };

    ghost use Rattle.xid.specs.BranchArray.{IsBranchArray, array_of, count-shown, array-shown};

    ghost view = { λ b. take b.count b.array };

    ghost invariant = { λ b. IsBranchArray b.count b.array };

    ghost inverse = { λ bs. record { count = length bs; array = array_of bs } };

    ghost inverse_ok = { λ b ok i. record { count = count-shown b.count b.array ok i; array = array-shown b.count b.array ok i } };
}

impl Branches {
    ghost use Rattle.xid.specs.Transactions.{BranchParts, AreBranches, IsBranch, branch_of};

    /// No branches.
    pub fn new() -> Branches
        ensures { result ≡ [] }
    {
        Branches {
            count: 0,
            array: [Branch {
                rm: 0,
                bqual: Component::new(&[]),
            }; MAX_BRANCHES],
        }
    }

    /// Puts a branch after the others. It is called only where there is room, and with a bqual of at most 64 bytes.
    pub fn push(&mut self, rm: ManagerNumber, bqual: &[u8])
        requires room { length self.old < most_branches }
        requires few { length bqual.now ≤ most_component }
        ensures { self.new ≡ self.old ++ record { rm = rm; bqual = bqual.now } ∷ [] }
    {
        let branch = Branch {
            rm,
            bqual: Component::new(bqual),
        };
        self.array[self.count as usize] = branch;
        self.count += 1;
    }

    /// The branches of these parts. None where there are more than `MAX_BRANCHES`, or a bqual is longer than 64 bytes.
    pub(crate) fn of(parts: &[(ManagerNumber, &[u8])]) -> Option<Branches>
        ensures { MatchOption result ((bs : List BranchParts) → AreBranches bs → bs ≢ map branch_of parts.now)
            (λ bs. bs ≡ map branch_of parts.now) }
    {
        if parts.len() > MAX_BRANCHES {
            return None;
        }
        let mut all = Branches::new();
        for (rm, bqual) in parts {
            if bqual.len() > MAX_COMPONENT {
                return None;
            }
            all.push(*rm, bqual);
        }
        Some(all)
    }

    /// Its branches.
    pub(crate) fn as_slice(&self) -> &[Branch]
        ensures branches { result.now ≡ self.now }
        ensures few { length self.now ≤ most_branches }
    {
        &self.array[..self.count as usize]
    }
}

/// Whether a branch has a resource manager's number and a bqual of 1 to 64 bytes.
fn is_branch(branch: &Branch) -> bool
    ensures { IsTrue result ↔ IsBranch branch.now }
{
    branch.rm < MAX_MANAGERS && is_component(branch.bqual.as_bytes())
}

/// Whether there is a branch, none is wrong, and the resource managers ascend strictly.
pub(crate) fn are_branches(branches: &[Branch]) -> bool
    requires { length branches.now ≤ most_branches }
    ensures { IsTrue result ↔ AreBranches branches.now }
{
    if branches.is_empty() {
        return false;
    }
    for (i, branch) in branches.iter().enumerate() {
        if !is_branch(branch) {
            return false;
        }
        if i > 0 && branches[i - 1].rm() >= branch.rm() {
            return false;
        }
    }
    true
}

impl PartialEq for Branches {
    ghost use Rattle.xid.specs.Transactions.{branch_eq};

    ghost eq = { pointwise branch_eq };

    ghost laws = { Prim.search (comparing, rules) };

    fn eq(&self, other: &Branches) -> bool {
        self.as_slice() == other.as_slice()
    }
}

impl Eq for Branches {
    ghost laws = { Prim.search (comparing, rules) };
}

impl Ord for Branches {
    ghost use Rattle.xid.specs.Transactions.{branch_cmp};
    ghost use Rattle.xid.specs.Comparing.{branches_tie};

    ghost cmp = { slice_cmp branch_cmp };

    ghost total = { Prim.search (comparing, rules) };

    ghost matches_partial_cmp = { Prim.search (comparing, rules) };

    ghost matches_eq = { branches_tie };

    fn cmp(&self, other: &Branches) -> Ordering {
        self.as_slice().cmp(other.as_slice())
    }
}

impl PartialOrd for Branches {
    ghost use Rattle.xid.specs.Transactions.{branch_cmp};
    ghost use Rattle.xid.specs.Comparing.{branches_tie};

    ghost partial_cmp = { as_partial_cmp (slice_cmp branch_cmp) };

    ghost laws = { partial_order_from_own_ties (Prim.search (comparing, rules)) branches_tie };

    fn partial_cmp(&self, other: &Branches) -> Option<Ordering> {
        Some(self.cmp(other))
    }
}

impl Hash for Branches {
    ghost use Rattle.xid.specs.Transactions.{branch_fed};
    ghost use Rattle.xid.specs.Comparing.{branches_alike};

    ghost hash_input = { fed.slice branch_fed };

    ghost respects_eq = { branches_alike };

    fn hash<H: Hasher>(&self, state: &mut H) {
        self.as_slice().hash(state);
    }
}
