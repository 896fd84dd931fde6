ghost use Rattle.std.specs.Prelude.{◌≡◌, ℕ, ◌+◌, ◌≤◌, ◌<◌, None, Some, IfErr, IfOk, IsTrue, MatchOption, is_some, length, nat_lt};
ghost use Rattle.std.specs.Prelude.{slice_index};
ghost use Rattle.std.specs.List.{list_all, position_or_len};
ghost use Rattle.xid.specs.Limits.{most_managers};
ghost use Rattle.xid.specs.Places.{is_below};
ghost use Rattle.xid.specs.declared.refusals.Refusal.TheVariants.{NoMemory};
ghost use Rattle.xid.specs.Transactions.{IsTx, nth_branch, participants, is_at, is_participant, xid_at};
ghost use Rattle.wire.specs.Decoding.{tx_in};
ghost use Rattle.wire.specs.Grammar.{tx_spelling, branches_spelling};
ghost use Rattle.wire.specs.Reading.{taken, branch_at};
ghost use Rattle.wire.specs.Versions.{version_2};
ghost use Rattle.wire.specs.Spelled.{tx_spelled, IsSpelled, seen, branch_taken, branches_from, manager_at, after_branches, after_tx};

use crate::grammar::{MAX_TX_BYTES, VersionNumber};
use crate::reading::{take_byte, take_component, take_number, take_rm};
use crate::writing::{put_bytes, put_tx};
use byteorder::{BigEndian, ByteOrder};
use std::alloc::Global;
use std::marker::Model;
use xid::{
    Branches, Bytes, FORMATS, Floor, MAX_BRANCHES, MAX_MANAGERS, ManagerNumber, Refusal, Tx, Xid,
};

/// A transaction, by the bytes that spell it, which stand elsewhere.
#[derive(Debug, Drop)]
pub struct SpelledTx<'a> {
    bytes: &'a [u8],
}

impl<'a> Model for SpelledTx<'a> {
    ghost use Rattle.xid.specs.Transactions.{TxParts};
    ghost use Rattle.wire.specs.Spelled.{tx_spelled, IsSpelled};

    ghost Value = { TxParts };

    ghost view = { λ t. tx_spelled t.bytes.now };

    ghost invariant = { λ t. IsSpelled t.bytes.now };
}

/// Takes a branch from the front, one that a transaction may have, with a resource manager that isn't below the least, and answers
/// that and what follows the branch.
#[tactic(auto, unfolding(crate::specs::Spelled::manager_at, crate::specs::Reading::branch_at))]
fn take_manager(least: ManagerNumber, bytes: &[u8]) -> Option<(ManagerNumber, &[u8])>
    ensures value { taken result ≡ manager_at least bytes.now }
    ensures below { MatchOption result (Unit {0}) (λ x. x.0 < MAX_MANAGERS) }
{
    let (rm, rest) = take_rm(VersionNumber::Second, bytes)?;
    let (bqual, rest) = take_component(rest)?;
    if rm < least {
        return None;
    }
    if rm >= MAX_MANAGERS {
        return None;
    }
    if bqual.len() == 0 {
        return None;
    }
    Some((rm, rest))
}

/// What follows so many branches that a transaction may have.
fn after_branches(count: u8, bytes: &[u8]) -> Option<&[u8]>
    ensures { seen result ≡ after_branches 0 count bytes.now }
{
    let mut rest = bytes;
    let mut least = 0;
    for _ in 0..count {
        let (rm, after) = take_manager(least, rest)?;
        least = rm + 1;
        rest = after;
    }
    Some(rest)
}

/// What follows the transaction that is spelled at the front.
#[tactic(auto, unfolding(crate::specs::Spelled::after_tx))]
fn after_tx(bytes: &[u8]) -> Option<&[u8]>
    ensures { seen result ≡ after_tx bytes.now }
{
    let (format, rest) = take_number(bytes)?;
    if format >= FORMATS {
        return None;
    }
    let (gtrid, rest) = take_component(rest)?;
    if gtrid.len() == 0 {
        return None;
    }
    let (count, rest) = take_byte(rest)?;
    if count == 0 {
        return None;
    }
    if count as usize > MAX_BRANCHES {
        return None;
    }
    after_branches(count, rest)
}

/// Takes the first of branches: its resource manager, its bqual, and what follows it.
fn first_branch(bytes: &[u8]) -> (ManagerNumber, &[u8], &[u8])
    requires { IsTrue (is_some (branch_at version_2 bytes.now)) }
    ensures { branch_taken result ≡ branch_at version_2 bytes.now }
{
    let len = bytes[2] as usize;
    (
        BigEndian::read_u16(bytes),
        &bytes[3..3 + len],
        &bytes[3 + len..],
    )
}

impl<'a> SpelledTx<'a> {
    /// Takes a transaction from the front, whose spelling stands there, and answers it and what follows it. None where the bytes
    /// begin with no spelling of a transaction.
    pub fn take(bytes: &'a [u8]) -> Option<(SpelledTx<'a>, &'a [u8])>
        ensures { taken result ≡ tx_in version_2 bytes.now }
    {
        let rest = after_tx(bytes)?;
        let len = bytes.len() - rest.len();
        let tx = SpelledTx {
            bytes: &bytes[..len],
        };
        Some((tx, rest))
    }

    /// A transaction over its spelling, which is written into a buffer.
    pub fn of(tx: &Tx, buffer: &'a mut [u8; MAX_TX_BYTES]) -> SpelledTx<'a>
        ensures { result ≡ tx.now }
    {
        let _ = tx.count();
        let end = put_tx(tx, buffer, 0);
        SpelledTx {
            bytes: &buffer[..end],
        }
    }

    /// The same transaction.
    pub fn again(&self) -> SpelledTx<'a>
        ensures { result ≡ self.now }
    {
        SpelledTx { bytes: self.bytes }
    }

    /// Its spelling.
    pub fn as_bytes(&self) -> &'a [u8]
        ensures value { result.now ≡ tx_spelling version_2 self.now }
        ensures few { length result.now ≤ MAX_TX_BYTES }
        ensures valid { IsTx self.now }
    {
        self.bytes
    }

    /// Its format, 0 to 2^31-1.
    fn format(&self) -> u32
        ensures value { result ≡ self.now.format }
        ensures valid { IsTx self.now }
    {
        BigEndian::read_u32(self.bytes)
    }

    /// Its gtrid, 1 to 64 bytes.
    fn gtrid(&self) -> &'a [u8]
        ensures value { result.now ≡ self.now.gtrid }
        ensures valid { IsTx self.now }
    {
        let bytes = self.bytes;
        &bytes[5..5 + bytes[4] as usize]
    }

    /// Whether it stands below a floor.
    pub fn is_below(&self, floor: &Floor) -> bool
        ensures { result ≡ is_below (Some floor.now) self.now }
    {
        floor.is_above(self.format(), self.gtrid())
    }

    /// How many branches, and each.
    fn branches(&self) -> &'a [u8]
        ensures value { result.now ≡ branches_spelling version_2 self.now.branches }
        ensures valid { IsTx self.now }
    {
        let bytes = self.bytes;
        &bytes[5 + bytes[4] as usize..]
    }

    /// How many resource managers take part, 1 to `MAX_BRANCHES`.
    pub fn count(&self) -> usize
        ensures value { result ≡ length self.now.branches }
        ensures valid { IsTx self.now }
    {
        self.branches()[0] as usize
    }

    /// The branch of a place, where the branches from there on are spelled: its resource manager, its bqual, and the branches after it.
    fn branch_from(&self, i: usize, rest: &'a [u8]) -> (ManagerNumber, &'a [u8], &'a [u8])
        requires within { i < length self.now.branches }
        requires left { rest.now ≡ branches_from self.now.branches i }
        ensures rm { result.0 ≡ (nth_branch self.now i).rm }
        ensures bqual { result.1.now ≡ (nth_branch self.now i).bqual }
        ensures after { result.2.now ≡ branches_from self.now.branches (i + 1) }
        ensures valid { IsTx self.now }
    {
        let _ = &self.bytes;
        first_branch(rest)
    }

    /// The branch at a place, and the branches after it.
    fn nth(&self, i: usize) -> (ManagerNumber, &'a [u8], &'a [u8])
        requires { i < length self.now.branches }
        ensures rm { result.0 ≡ (nth_branch self.now i).rm }
        ensures bqual { result.1.now ≡ (nth_branch self.now i).bqual }
        ensures valid { IsTx self.now }
    {
        let mut branch = self.branch_from(0, &self.branches()[1..]);
        for place in 0..i {
            branch = self.branch_from(place + 1, branch.2);
        }
        branch
    }

    /// The number of the resource manager of a branch, by the branch's place.
    pub fn rm(&self, i: usize) -> ManagerNumber
        requires { i < length self.now.branches }
        ensures value { result ≡ slice_index (participants self.now) i }
        ensures branch { result ≡ (nth_branch self.now i).rm }
        ensures below { result < most_managers }
        ensures valid { IsTx self.now }
    {
        self.nth(i).0
    }

    /// The numbers of the resource managers that take part, by the places of their branches, in one walk.
    pub fn managers(&self) -> [ManagerNumber; MAX_BRANCHES]
        ensures value { (i : ℕ) → i < length self.now.branches → slice_index result i ≡ slice_index (participants self.now) i }
        ensures branch { (i : ℕ) → i < length self.now.branches → slice_index result i ≡ (nth_branch self.now i).rm }
        ensures valid { IsTx self.now }
    {
        let mut managers = [0; MAX_BRANCHES];
        let mut rest = &self.branches()[1..];
        for place in 0..self.count() {
            let branch = self.branch_from(place, rest);
            managers[place] = branch.0;
            rest = branch.2;
        }
        managers
    }

    /// The place of a resource manager's branch, or how many branches there are where it takes no part.
    pub fn place_of(&self, rm: ManagerNumber) -> usize
        ensures value { result ≡ position_or_len (is_at rm) self.now.branches }
        ensures valid { IsTx self.now }
    {
        let count = self.count();
        let mut rest = &self.branches()[1..];
        for place in 0..count {
            let branch = self.branch_from(place, rest);
            if branch.0 == rm {
                return place;
            }
            rest = branch.2;
        }
        count
    }

    /// Whether a resource manager takes part.
    #[tactic(auto, using(crate::proofs::Walks::any_place))]
    pub fn is_participant(&self, rm: ManagerNumber) -> bool
        ensures value { result ≡ is_participant self.now rm }
        ensures valid { IsTx self.now }
    {
        self.place_of(rm) < self.count()
    }

    /// Whether each resource manager that takes part has a number below this one.
    pub fn are_below(&self, managers: ManagerNumber) -> bool
        ensures value { result ≡ list_all (λ rm. nat_lt rm managers) (participants self.now) }
        ensures valid { IsTx self.now }
    {
        self.rm(self.count() - 1) < managers
    }

    /// The XID of a resource manager's branch, where it takes part; None where it doesn't.
    pub fn branch(&self, rm: ManagerNumber) -> Option<Xid>
        ensures value { result ≡ xid_at self.now rm }
        ensures valid { IsTx self.now }
    {
        let place = self.place_of(rm);
        if place >= self.count() {
            return None;
        }
        let bqual = self.nth(place).1;
        let Ok(xid) = Xid::new(i64::from(self.format()), self.gtrid(), bqual) else {
            unreachable!();
        };
        Some(xid)
    }

    /// The transaction with its parts in place, as it is kept and sent.
    pub fn to_tx(&self) -> Tx
        ensures value { result ≡ self.now }
        ensures valid { IsTx self.now }
    {
        let mut all = Branches::new();
        let mut rest = &self.branches()[1..];
        for i in 0..self.count() {
            let branch = self.branch_from(i, rest);
            all.push(branch.0, branch.1);
            rest = branch.2;
        }
        Tx::of_parts(self.format(), self.gtrid(), &all)
    }
}

/// A transaction, by the bytes that spell it, which are its own: it takes as much memory as it has bytes, and is moved without them.
#[derive(Debug, Drop)]
pub struct OwnedTx {
    bytes: Bytes,
}

impl Model for OwnedTx {
    ghost use Rattle.xid.specs.Transactions.{TxParts};
    ghost use Rattle.wire.specs.Spelled.{tx_spelled, IsSpelled};

    ghost Value = { TxParts };

    ghost view = { λ t. tx_spelled t.bytes };

    ghost invariant = { λ t. IsSpelled t.bytes };
}

impl OwnedTx {
    /// A transaction with its spelling, which is written anew. Refused: `NoMemory` alone.
    pub fn new(alloc: Global, tx: &Tx) -> Result<OwnedTx, Refusal>
        ensures ok { IfOk result (λ owned. owned ≡ tx.now) }
        ensures err { IfErr result (λ e. e ≡ NoMemory) }
    {
        let mut buffer = [0; MAX_TX_BYTES];
        OwnedTx::copy_of(alloc, &SpelledTx::of(tx, &mut buffer))
    }

    /// A transaction with a copy of its spelling. Refused: `NoMemory` alone.
    pub fn copy_of(alloc: Global, tx: &SpelledTx<'_>) -> Result<OwnedTx, Refusal>
        ensures ok { IfOk result (λ owned. owned ≡ tx.now) }
        ensures err { IfErr result (λ e. e ≡ NoMemory) }
    {
        Ok(OwnedTx {
            bytes: Bytes::copy_of(alloc, tx.bytes)?,
        })
    }

    /// The transaction over its spelling.
    pub fn get(&self) -> SpelledTx<'_>
        ensures { result ≡ self.now }
    {
        SpelledTx {
            bytes: self.bytes.as_slice(),
        }
    }
}

/// A transaction, by the bytes that spell it, or none, in a place that has room for the longest: to put another there takes no memory.
#[derive(Debug, Drop)]
pub struct PlacedTx {
    len: usize,
    bytes: [u8; MAX_TX_BYTES],
}

impl Model for PlacedTx {
    ghost use Rattle.std.specs.Prelude.{Option};
    ghost use Rattle.xid.specs.Transactions.{TxParts};
    ghost use Rattle.wire.specs.Spelled.{tx_placed, IsPlaced};

    ghost Value = { Option TxParts };

    ghost view = { λ p. tx_placed p.len p.bytes };

    ghost invariant = { λ p. IsPlaced p.len p.bytes };
}

impl PlacedTx {
    /// None.
    pub fn none() -> PlacedTx
        ensures { result ≡ None }
    {
        PlacedTx {
            len: 0,
            bytes: [0; MAX_TX_BYTES],
        }
    }

    /// A transaction, in place of another.
    pub fn put(&mut self, tx: &SpelledTx<'_>)
        ensures { self.new ≡ Some tx.now }
    {
        self.len = put_bytes(&mut self.bytes, 0, tx.as_bytes());
    }

    /// The transaction over its spelling, if there is one.
    pub fn get(&self) -> Option<SpelledTx<'_>>
        ensures { result ≡ self.now }
    {
        if self.len == 0 {
            return None;
        }
        Some(SpelledTx {
            bytes: &self.bytes[..self.len],
        })
    }
}
