ghost use Rattle.std.specs.Prelude.{◌≡◌, ◌∷◌, ◌++◌, OnOk, IfErr, length};
ghost use Rattle.xid.specs.declared.refusals.Refusal.TheVariants.{NoMemory};
ghost use Rattle.xid.specs.Transactions.{IsTx};
ghost use Rattle.wire.specs.Grammar.{number_spelling, tx_spelling};
ghost use Rattle.wire.specs.Versions.{version_2};
ghost use Rattle.stable_record.specs.Entries.{IsEntry};
ghost use Rattle.stable_record.specs.declared.entry.EntryKind.{EntryKind};
ghost use Rattle.stable_record.specs.Facts.{IsFact, fact_tx};
ghost use Rattle.stable_record.specs.Grammar.{frame};
ghost use Rattle.stable_record.specs.Rests.{fact_of};
ghost use Rattle.stable_record.specs.Views.{entry_seen};

use crate::fact::{Fact, FactKind, Touched};
use crate::view_writing::{code_of, len_of, put_rest};
use crate::writing::put_number;
use std::marker::Model;
use wire::{MAX_TX_BYTES, SpelledTx, VERSION};
use xid::{Ballot, ManagerNumber, Refusal, Sequence, Tx, Vote};

/// What a fact says beside its transaction: as `FactKind` has it.
#[derive(Debug, Drop)]
pub enum FactRest {
    /// An acceptor takes part in a ballot of an instance.
    Promise {
        instance: ManagerNumber,
        ballot: Ballot,
    },
    /// An acceptor accepts a value in a ballot of an instance.
    Accept {
        instance: ManagerNumber,
        ballot: Ballot,
        vote: Vote,
    },
    /// A leader begins a ballot.
    Ballot {
        ballot: Ballot,
    },
    /// A resource manager votes prepared, with these keys.
    VotePrepared {
        keys: Sequence<Touched>,
    },
    /// A resource manager votes aborted.
    VoteAborted,
    /// A resource manager has learned that the transaction is committed.
    Committed,
    /// A resource manager has learned that the transaction is aborted.
    Aborted,
    /// An acceptor takes part in a ballot of every instance that stands below it.
    PromiseAll {
        ballot: Ballot,
    },
}

impl FactRest {
    /// The fact of a transaction, as plain data.
    pub(crate) fn with(self, tx: Tx) -> FactKind
        ensures { result ≡ fact_of tx self }
    {
        match self {
            FactRest::Promise { instance, ballot } => FactKind::Promise {
                tx,
                instance,
                ballot,
            },
            FactRest::Accept {
                instance,
                ballot,
                vote,
            } => FactKind::Accept {
                tx,
                instance,
                ballot,
                vote,
            },
            FactRest::Ballot { ballot } => FactKind::Ballot { tx, ballot },
            FactRest::VotePrepared { keys } => FactKind::VotePrepared { tx, keys },
            FactRest::VoteAborted => FactKind::VoteAborted(tx),
            FactRest::Committed => FactKind::Committed(tx),
            FactRest::Aborted => FactKind::Aborted(tx),
            FactRest::PromiseAll { ballot } => FactKind::PromiseAll { tx, ballot },
        }
    }
}

/// The transaction of a fact, and what it says beside that.
fn parted(kind: FactKind) -> (Tx, FactRest)
    ensures { fact_of result.0 result.1 ≡ kind }
{
    match kind {
        FactKind::Promise {
            tx,
            instance,
            ballot,
        } => (tx, FactRest::Promise { instance, ballot }),
        FactKind::Accept {
            tx,
            instance,
            ballot,
            vote,
        } => (
            tx,
            FactRest::Accept {
                instance,
                ballot,
                vote,
            },
        ),
        FactKind::Ballot { tx, ballot } => (tx, FactRest::Ballot { ballot }),
        FactKind::VotePrepared { tx, keys } => (tx, FactRest::VotePrepared { keys }),
        FactKind::VoteAborted(tx) => (tx, FactRest::VoteAborted),
        FactKind::Committed(tx) => (tx, FactRest::Committed),
        FactKind::Aborted(tx) => (tx, FactRest::Aborted),
        FactKind::PromiseAll { tx, ballot } => (tx, FactRest::PromiseAll { ballot }),
    }
}

/// A fact of any kind over the bytes of its transaction, which stand elsewhere: as it is decided, written, and read to be played.
#[derive(Debug, Drop)]
pub struct FactView<'a> {
    tx: SpelledTx<'a>,
    rest: FactRest,
}

impl<'a> Model for FactView<'a> {
    ghost use Rattle.stable_record.specs.declared.fact.FactKind.{FactKind};
    ghost use Rattle.stable_record.specs.Facts.{IsFact};
    ghost use Rattle.stable_record.specs.Rests.{fact_of};

    ghost Value = { FactKind };

    ghost view = { λ f. fact_of f.tx f.rest };

    ghost invariant = { λ f. IsFact (fact_of f.tx f.rest) };
}

impl<'a> FactView<'a> {
    /// The fact of a transaction.
    pub fn new(tx: SpelledTx<'a>, rest: FactRest) -> FactView<'a>
        requires { IsFact (fact_of tx rest) }
        ensures { result ≡ fact_of tx.entry rest }
    {
        FactView { tx, rest }
    }

    /// A fact that has its transaction in place, over a buffer, in which that is spelled.
    pub fn of(fact: Fact, buffer: &'a mut [u8; MAX_TX_BYTES]) -> FactView<'a>
        ensures { result ≡ fact }
    {
        let (tx, rest) = parted(fact.into_kind());
        FactView {
            tx: SpelledTx::of(&tx, buffer),
            rest,
        }
    }

    /// The transaction that it is about.
    pub fn tx(&self) -> &SpelledTx<'a>
        ensures value { result.now ≡ fact_tx self.now }
        ensures valid { IsFact self.now }
    {
        &self.tx
    }

    /// What it says beside that.
    pub fn rest(&self) -> &FactRest
        ensures value { fact_of (fact_tx self.now) result.now ≡ self.now }
        ensures valid { IsFact self.now }
    {
        &self.rest
    }

    /// Writes its frame, in version 2, at the end: that of the entry that it is. At `NoMemory`, the only refusal, the first bytes of it
    /// may stand there.
    pub fn write(&self, out: &mut Vec<u8>) -> Result<(), Refusal>
        ensures ok { OnOk result (out.new.items ≡ out.old.items ++ frame version_2 (EntryKind.Fact self.now)) }
        ensures err { IfErr result (λ e. e ≡ NoMemory) }
        ensures valid { IsFact self.now }
    {
        let tx = self.tx.as_bytes();
        put_number(out, (2 + tx.len() + len_of(&self.rest)) as u32)?;
        out.extend_from_slice(&[VERSION, code_of(&self.rest)])?;
        out.extend_from_slice(tx)?;
        Ok(put_rest(out, &self.rest)?)
    }
}

/// An entry about a transaction, over the bytes of that.
#[derive(Debug, Drop)]
pub enum EntryView<'a> {
    /// A fact.
    Fact(FactView<'a>),
    /// A transaction that was voted prepared and is committed.
    PastCommitted(SpelledTx<'a>),
    /// A transaction that was voted prepared and is aborted.
    PastAborted(SpelledTx<'a>),
}

impl<'a> EntryView<'a> {
    /// Writes its frame, in version 2, at the end. At `NoMemory`, the only refusal, the first bytes of it may stand there.
    pub fn write(&self, out: &mut Vec<u8>) -> Result<(), Refusal>
        ensures ok { OnOk result (out.new.items ≡ out.old.items ++ frame version_2 (entry_seen self.now)) }
        ensures err { IfErr result (λ e. e ≡ NoMemory) }
        ensures valid { IsEntry (entry_seen self.now) }
    {
        match self {
            EntryView::Fact(fact) => fact.write(out),
            EntryView::PastCommitted(tx) => write_past(out, 11, tx),
            EntryView::PastAborted(tx) => write_past(out, 12, tx),
        }
    }
}

/// Writes the frame of an entry that is a transaction alone, of which this is the number of its kind. At `NoMemory`, the only refusal, the
/// first bytes of it may stand there.
fn write_past(out: &mut Vec<u8>, code: u8, tx: &SpelledTx<'_>) -> Result<(), Refusal>
    ensures ok { OnOk result (out.new.items ≡ out.old.items
        ++ (number_spelling (length (version_2.byte ∷ code ∷ tx_spelling version_2 tx.now))
        ++ version_2.byte ∷ code ∷ tx_spelling version_2 tx.now)) }
    ensures err { IfErr result (λ e. e ≡ NoMemory) }
    ensures valid { IsTx tx.now }
{
    let tx = tx.as_bytes();
    put_number(out, (2 + tx.len()) as u32)?;
    out.extend_from_slice(&[VERSION, code])?;
    Ok(out.extend_from_slice(tx)?)
}
