ghost use Rattle.std.specs.Prelude.{◌≡◌};
ghost use Rattle.stable_record.specs.Entries.{IsEntry};

use crate::fact::FactKind;
use std::marker::Model;
use xid::{Bytes, Tx};

/// What a record holds, as plain data: facts; and, in a record that was made shorter, what stands for facts that it doesn't hold
/// any more.
#[derive(Debug, Drop, PartialEq, Eq)]
pub enum EntryKind {
    /// A fact.
    Fact(FactKind),
    /// The table begins empty: its rows follow.
    Snapshot,
    /// A row of the table.
    Row {
        /// Its key.
        key: Bytes,
        /// Its value.
        value: Bytes,
    },
    /// A transaction that was voted prepared and is committed.
    PastCommitted(Tx),
    /// A transaction that was voted prepared and is aborted.
    PastAborted(Tx),
}

/// An entry of a record: a kind of which all ranges and relations hold.
#[derive(Debug, Drop)]
pub struct Entry {
    kind: EntryKind,
}

impl Model for Entry {
    ghost use Rattle.stable_record.specs.declared.entry.EntryKind.{EntryKind};
    ghost use Rattle.stable_record.specs.Entries.{IsEntry};

    ghost Value = { EntryKind };

    ghost view = { λ entry. entry.kind };

    ghost invariant = { λ entry. IsEntry entry.kind };
}

impl Entry {
    /// The entry of a kind.
    pub fn new(kind: EntryKind) -> Entry
        requires { IsEntry kind }
        ensures { result ≡ kind }
    {
        Entry { kind }
    }

    /// What it says.
    pub fn kind(&self) -> &EntryKind
        ensures value { result.now ≡ self.now }
        ensures valid { IsEntry self.now }
    {
        &self.kind
    }

    /// What it says, and the entry is no more.
    pub fn into_kind(self) -> EntryKind
        ensures value { result ≡ self }
        ensures valid { IsEntry self }
    {
        self.kind
    }
}
