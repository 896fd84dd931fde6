//! Names of branches, each under a number: of the client that started it, or of the second in which it was touched.

ghost use Rattle.std.specs.Prelude.{◌≡◌, ◌≤◌, ◌||◌, ℕ, true, false, OnOk, OnErr, IfOk};
ghost use Rattle.std.specs.List.{IsDistinct};
ghost use Rattle.std.specs.Set.{is_member};
ghost use Rattle.xid.specs.Names.{XidParts, xid_eq};
ghost use Rattle.serving.specs.ByNumber.{has, under, HasAll, HasApart, HasOthers, Leaves};

use hashing::WordKey;
use indexmap::IndexSet;
use std::alloc::{AllocError, Global};
use std::collections::BTreeMap;
use xid::Xid;

/// Names under numbers.
#[derive(Debug, Drop)]
pub(crate) struct ByNumber {
    alloc: Global,
    words: WordKey,
    numbers: BTreeMap<u64, IndexSet<Xid, WordKey>>,
}

/// Names go to others.
fn add_all(found: &mut IndexSet<Xid, WordKey>, names: &[Xid]) -> Result<(), AllocError>
    ensures { OnOk result ((x : XidParts) → is_member xid_eq found.new.keys x
        ≡ (is_member xid_eq found.old.keys x || is_member xid_eq names.now x)) }
{
    for xid in names {
        found.insert(*xid)?;
    }
    Ok(())
}

impl ByNumber {
    /// None.
    pub(crate) fn new(alloc: Global, words: WordKey) -> ByNumber
        ensures { (number : ℕ) (x : XidParts) → has result number x ≡ false }
    {
        ByNumber {
            alloc,
            words,
            numbers: BTreeMap::new(alloc),
        }
    }

    /// The names under a number, none twice.
    pub(crate) fn under(&self, number: u64) -> &[Xid]
        ensures names { result.now ≡ under self.now number }
        ensures unique { IsDistinct xid_eq result.now }
    {
        match self.numbers.get(&number) {
            Some(names) => names.as_slice(),
            None => &[],
        }
    }

    /// The names under all numbers up to one.
    pub(crate) fn up_to(&self, last: u64) -> Result<IndexSet<Xid, WordKey>, AllocError>
        ensures { IfOk result (λ found. (number : ℕ) (x : XidParts) → number ≤ last → has self.now number x ≡ true
            → is_member xid_eq found.keys x ≡ true) }
    {
        let mut found = IndexSet::with_hasher(self.alloc, self.words);
        for (_, names) in self.numbers.range(..=last) {
            add_all(&mut found, names.as_slice())?;
        }
        Ok(found)
    }

    /// A name goes under a number. Where memory runs out nothing changes.
    pub(crate) fn add(&mut self, number: u64, xid: &Xid) -> Result<(), AllocError>
        ensures added { OnOk result (has self.new number xid.now ≡ true) }
        ensures kept { HasAll self.old self.new }
    {
        if let Some(names) = self.numbers.get_mut(&number) {
            names.insert(*xid)?;
            return Ok(());
        }
        let mut names = IndexSet::with_hasher(self.alloc, self.words);
        names.insert(*xid)?;
        self.numbers.insert(number, names)?;
        Ok(())
    }

    /// A name is under a number no more.
    pub(crate) fn remove(&mut self, number: u64, xid: &Xid)
        ensures { HasOthers self.old self.new number xid.now }
    {
        let Some(names) = self.numbers.get_mut(&number) else {
            return;
        };
        let _ = names.swap_remove(xid);
        if names.is_empty() {
            let _ = self.numbers.remove(&number);
        }
    }

    /// A name that stands under a number is under another no more, if they differ.
    pub(crate) fn leave(&mut self, before: u64, number: u64, xid: &Xid)
        ensures { Leaves self.old self.new number xid.now }
    {
        if before != number {
            self.remove(before, xid);
        }
    }

    /// A name goes from under a number to another. Where they are the same, or memory runs out, nothing changes.
    pub(crate) fn shift(&mut self, before: u64, number: u64, xid: &Xid) -> Result<(), AllocError>
        ensures shifted { OnOk result (has self.old before xid.now ≡ true → has self.new number xid.now ≡ true) }
        ensures kept { HasApart self.old self.new xid.now }
        ensures err { OnErr result (HasAll self.old self.new) }
    {
        if before == number {
            return Ok(());
        }
        self.add(number, xid)?;
        self.remove(before, xid);
        Ok(())
    }
}
