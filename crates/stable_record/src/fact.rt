ghost use Rattle.std.specs.Prelude.{◌≡◌};
ghost use Rattle.stable_record.specs.Facts.{IsFact};

use std::marker::Model;
use xid::{Ballot, Bytes, ManagerNumber, Sequence, Tx, Vote};

/// What a branch last did to a key that it has touched.
#[derive(Debug, Drop, PartialEq, Eq)]
pub enum Act {
    /// It only read the key.
    Read,
    /// It put this value.
    Put(Bytes),
    /// It deleted the key.
    Del,
}

/// A key that a branch has touched.
#[derive(Debug, Drop, PartialEq, Eq)]
pub struct Touched {
    /// The key.
    pub key: Bytes,
    /// The last act on it.
    pub act: Act,
}

/// What a fact says, as plain data. An instance is the number of a resource manager.
#[derive(Debug, Drop, PartialEq, Eq)]
pub enum FactKind {
    /// An acceptor takes part in a ballot of an instance.
    Promise {
        /// The transaction.
        tx: Tx,
        /// The instance.
        instance: ManagerNumber,
        /// The ballot.
        ballot: Ballot,
    },
    /// An acceptor accepts a value in a ballot of an instance.
    Accept {
        /// The transaction.
        tx: Tx,
        /// The instance.
        instance: ManagerNumber,
        /// The ballot.
        ballot: Ballot,
        /// The value.
        vote: Vote,
    },
    /// A leader begins a ballot.
    Ballot {
        /// The transaction.
        tx: Tx,
        /// The ballot, at least 1.
        ballot: Ballot,
    },
    /// A resource manager votes prepared.
    VotePrepared {
        /// The transaction.
        tx: Tx,
        /// The keys that its branch has touched, ascending.
        keys: Sequence<Touched>,
    },
    /// A resource manager votes aborted.
    VoteAborted(Tx),
    /// A resource manager has learned that the transaction is committed.
    Committed(Tx),
    /// A resource manager has learned that the transaction is aborted.
    Aborted(Tx),
    /// An acceptor takes part in a ballot of every instance that stands below it.
    PromiseAll {
        /// The transaction.
        tx: Tx,
        /// The ballot, at least 1.
        ballot: Ballot,
    },
}

impl FactKind {
    ghost use Rattle.stable_record.specs.Facts.{fact_tx};

    /// The transaction that it is about.
    pub fn tx(&self) -> &Tx
        ensures { result.now ≡ fact_tx self.now }
    {
        match self {
            FactKind::Promise { tx, .. } => tx,
            FactKind::Accept { tx, .. } => tx,
            FactKind::Ballot { tx, .. } => tx,
            FactKind::VotePrepared { tx, .. } => tx,
            FactKind::VoteAborted(tx) => tx,
            FactKind::Committed(tx) => tx,
            FactKind::Aborted(tx) => tx,
            FactKind::PromiseAll { tx, .. } => tx,
        }
    }
}

/// A fact: a kind of which all ranges and relations hold.
#[derive(Debug, Drop)]
pub struct Fact {
    kind: FactKind,
}

impl Model for Fact {
    ghost use Rattle.stable_record.specs.declared.fact.FactKind.{FactKind};
    ghost use Rattle.stable_record.specs.Facts.{IsFact};

    ghost Value = { FactKind };

    ghost view = { λ fact. fact.kind };

    ghost invariant = { λ fact. IsFact fact.kind };
}

impl Fact {
    /// The fact of a kind.
    pub fn new(kind: FactKind) -> Fact
        requires { IsFact kind }
        ensures { result ≡ kind }
    {
        Fact { kind }
    }

    /// What it says.
    pub fn kind(&self) -> &FactKind
        ensures value { result.now ≡ self.now }
        ensures valid { IsFact self.now }
    {
        &self.kind
    }

    /// What it says, and the fact is no more.
    pub fn into_kind(self) -> FactKind
        ensures value { result ≡ self }
        ensures valid { IsFact self }
    {
        self.kind
    }
}
