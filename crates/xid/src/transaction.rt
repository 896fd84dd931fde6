ghost use Rattle.std.specs.Prelude.{◌≡◌, ◌↔◌, IsTrue, ◌≢◌, ◌++◌, OnOk, ℕ, ◌≤◌, ◌<◌, List, length, map, slice_index};
ghost use Rattle.std.specs.Prelude.{IfOk, IfErr, MatchOption, pos};
ghost use Rattle.std.specs.Cmp.{partial_order_from_own_ties, partial_order_from_total};
ghost use Rattle.std.specs.Cmp.Rules.{comparing};
ghost use Rattle.std.specs.Ordering.{as_partial_cmp};
ghost use Rattle.std.proofs.Common.{rules};
ghost use Rattle.xid.specs.declared.refusals.Refusal.TheVariants.{BadTx, NoMemory};
ghost use Rattle.xid.specs.Limits.{most_component, most_managers};

use crate::branch_id::{Xid, is_component};
use crate::branches::{Branches, are_branches};
use crate::component::Component;
use crate::limits::{FORMATS, ManagerNumber};
use crate::refusals::Refusal;
use crate::text;
use crate::transaction_text::{tx_of, write_branches};
use std::cmp::Ordering;
use std::marker::Model;

/// The name of a transaction: a format, a gtrid, and for each resource manager that takes part the bqual of its
/// branch, resource managers strictly ascending. Two lists make two transactions.
#[derive(Clone, Copy, Debug, PartialEq, Eq, Hash)]
pub struct Tx {
    format: u32,
    gtrid: Component,
    branches: Branches,
}

impl Model for Tx {
    ghost use Rattle.xid.specs.Transactions.{TxParts, IsTx};

    ghost Value = { TxParts };

    ghost view = { λ tx. record { format = tx.format; gtrid = tx.gtrid; branches = tx.branches } };

    ghost invariant = { λ tx. IsTx (record { format = tx.format; gtrid = tx.gtrid; branches = tx.branches }) };

    ghost inverse = { λ tx. record { format = tx.format; gtrid = tx.gtrid; branches = tx.branches } };
}

impl Tx {
    ghost use Rattle.xid.specs.Transactions.{TxParts, BranchParts, IsTx, nth_branch, branch_of};
    ghost use Rattle.xid.specs.Transactions.{is_participant, participants, xid_at, tx_text};
    ghost use Rattle.xid.specs.Text.{Extends};

    /// The transaction of these parts, each branch by its resource manager's number and its bqual. Refused (`BadTx`): no branch
    /// or more than 16, a number above 63, numbers that don't ascend strictly, and a format or a length that no XID has. Then
    /// there is no transaction.
    pub fn new(
        format: i64,
        gtrid: &[u8],
        branches: &[(ManagerNumber, &[u8])],
    ) -> Result<Tx, Refusal>
        ensures ok { IfOk result (λ tx. IsTx tx × (format ≡ pos tx.format) × (tx.gtrid ≡ gtrid.now)
            × (tx.branches ≡ map branch_of branches.now)) }
        ensures err { IfErr result (λ e. (e ≡ BadTx) × ((tx : TxParts) → IsTx tx → format ≡ pos tx.format
            → tx.gtrid ≡ gtrid.now → tx.branches ≡ map branch_of branches.now → ⊥)) }
    {
        let Ok(format) = u32::try_from(format) else {
            return Err(Refusal::BadTx);
        };
        let Some(branches) = Branches::of(branches) else {
            return Err(Refusal::BadTx);
        };
        Tx::from_branches(format, gtrid, &branches)
    }

    /// The same of branches that stand in place. Refused (`BadTx`) as `new` is; the branches stay as they are.
    pub fn from_branches(format: u32, gtrid: &[u8], branches: &Branches) -> Result<Tx, Refusal>
        ensures ok { IfOk result (λ tx. IsTx tx × (tx ≡ record { format = format; gtrid = gtrid.now; branches = branches.now })) }
        ensures err { IfErr result (λ e. (e ≡ BadTx)
            × (IsTx (record { format = format; gtrid = gtrid.now; branches = branches.now }) → ⊥)) }
    {
        if !Tx::are_parts(format, gtrid, branches) {
            return Err(Refusal::BadTx);
        }
        Ok(Tx::of_parts(format, gtrid, branches))
    }

    /// Whether these are the parts of a transaction.
    pub fn are_parts(format: u32, gtrid: &[u8], branches: &Branches) -> bool
        ensures { IsTrue result ↔ IsTx (record { format = format; gtrid = gtrid.now; branches = branches.now }) }
    {
        format < FORMATS && is_component(gtrid) && are_branches(branches.as_slice())
    }

    /// The transaction of these parts, which `are_parts` tells.
    pub fn of_parts(format: u32, gtrid: &[u8], branches: &Branches) -> Tx
        requires { IsTx (record { format = format; gtrid = gtrid.now; branches = branches.now }) }
        ensures { result ≡ record { format = format; gtrid = gtrid.now; branches = branches.now } }
    {
        Tx {
            format,
            gtrid: Component::new(gtrid),
            branches: *branches,
        }
    }

    /// Its format, 0 to 2^31-1.
    pub fn format(&self) -> u32
        ensures value { result ≡ self.now.format }
        ensures valid { IsTx self.now }
    {
        self.format
    }

    /// Its gtrid, 1 to 64 bytes.
    pub fn gtrid(&self) -> &[u8]
        ensures value { result.now ≡ self.now.gtrid }
        ensures valid { IsTx self.now }
    {
        self.gtrid.as_bytes()
    }

    /// How many resource managers take part, 1 to `MAX_BRANCHES`.
    pub fn count(&self) -> usize
        ensures value { result ≡ length self.now.branches }
        ensures valid { IsTx self.now }
    {
        self.branches.as_slice().len()
    }

    /// The number of the resource manager of a branch, by the branch's place.
    pub fn rm(&self, i: usize) -> ManagerNumber
        requires { i < length self.now.branches }
        ensures value { result ≡ slice_index (participants self.now) i }
        ensures branch { result ≡ (nth_branch self.now i).rm }
        ensures below { result < most_managers }
        ensures valid { IsTx self.now }
    {
        self.branches.as_slice()[i].rm()
    }

    /// The bqual of a branch, by the branch's place: 1 to 64 bytes.
    pub fn bqual(&self, i: usize) -> &[u8]
        requires { i < length self.now.branches }
        ensures value { result.now ≡ (nth_branch self.now i).bqual }
        ensures few { length result.now ≤ most_component }
        ensures valid { IsTx self.now }
    {
        self.branches.as_slice()[i].bqual()
    }

    /// The XID of a resource manager's branch, where it takes part; None where it doesn't.
    pub fn branch(&self, rm: ManagerNumber) -> Option<Xid>
        ensures value { result ≡ xid_at self.now rm }
        ensures valid { IsTx self.now }
    {
        for branch in self.branches.as_slice() {
            if branch.rm() == rm {
                return Some(Xid::of(self.format, self.gtrid, branch.component()));
            }
        }
        None
    }

    /// Whether a resource manager takes part.
    pub fn is_participant(&self, rm: ManagerNumber) -> bool
        ensures value { result ≡ is_participant self.now rm }
        ensures valid { IsTx self.now }
    {
        self.branches
            .as_slice()
            .iter()
            .any(|branch| branch.rm() == rm)
    }

    /// Whether two are the same transaction, which is what `==` answers.
    pub fn is_same(&self, other: &Tx) -> bool
        ensures { IsTrue result ↔ (self.now ≡ other.now) }
    {
        *self == *other
    }

    /// The transaction whose text this is, as `1:7431/0=6231,1=6232`. Every other text is refused (`BadTx`), and nothing
    /// is made of it.
    pub fn read(text: &[u8]) -> Result<Tx, Refusal>
        ensures ok { IfOk result (λ tx. IsTx tx × (text.now ≡ tx_text tx)) }
        ensures err { IfErr result (λ e. (e ≡ BadTx) × ((tx : TxParts) → IsTx tx → text.now ≢ tx_text tx)) }
    {
        tx_of(text).ok_or(Refusal::BadTx)
    }

    /// Writes its text at the end. At `NoMemory`, the only refusal, the content is as it was.
    pub fn write(&self, out: &mut Vec<u8>) -> Result<(), Refusal>
        ensures valid { IsTx self.now }
        ensures ok { OnOk result (out.new.items ≡ out.old.items ++ tx_text self.now) }
        ensures err { IfErr result (λ e. (e ≡ NoMemory) × (out.new.items ≡ out.old.items)) }
    {
        let before = out.len();
        match self.put(out) {
            Ok(()) => Ok(()),
            Err(refusal) => {
                out.truncate(before);
                Err(refusal)
            }
        }
    }

    /// Writes its text at the end. At `NoMemory`, the only refusal, there may be a beginning of it.
    fn put(&self, out: &mut Vec<u8>) -> Result<(), Refusal>
        ensures valid { IsTx self.now }
        ensures ok { OnOk result (out.new.items ≡ out.old.items ++ tx_text self.now) }
        ensures err { IfErr result (λ e. e ≡ NoMemory) }
        ensures kept { Extends out.old.items out.new.items }
    {
        text::put_number(self.format, out)?;
        out.push(b':')?;
        text::put_hex(self.gtrid.as_bytes(), out)?;
        out.push(b'/')?;
        write_branches(self.branches.as_slice(), out)?;
        Ok(())
    }
}

impl Ord for Tx {
    ghost use Rattle.xid.specs.Transactions.{tx_cmp};
    ghost use Rattle.xid.specs.Comparing.{tx_ties, tx_total};

    ghost cmp = { tx_cmp };

    ghost total = { tx_total };

    ghost matches_partial_cmp = { Prim.search (comparing, rules) };

    ghost matches_eq = { tx_ties };

    fn cmp(&self, other: &Tx) -> Ordering {
        self.format
            .cmp(&other.format)
            .then(self.gtrid.cmp(&other.gtrid))
            .then(self.branches.cmp(&other.branches))
    }
}

impl PartialOrd for Tx {
    ghost use Rattle.xid.specs.Transactions.{tx_cmp};
    ghost use Rattle.xid.specs.Comparing.{tx_ties, tx_total};

    ghost partial_cmp = { as_partial_cmp tx_cmp };

    ghost laws = { partial_order_from_own_ties (partial_order_from_total tx_total) tx_ties };

    fn partial_cmp(&self, other: &Tx) -> Option<Ordering> {
        Some(self.cmp(other))
    }
}

/// What a resource manager votes, and what an instance of consensus decides.
#[derive(Clone, Copy, Debug, PartialEq, Eq, Hash)]
pub enum Vote {
    /// Prepared to commit.
    Prepared,
    /// Not prepared: the transaction is aborted.
    Aborted,
}
