//! The frames of a shorter record, written from the spelled bytes of its transactions.

ghost use Rattle.std.specs.Prelude.{◌≡◌, ◌∷◌, [], true, map, IfOk, IfErr, OnOk};
ghost use Rattle.std.specs.List.{cons_option};
ghost use Rattle.std.specs.Option.{option_map};
ghost use Rattle.xid.specs.Names.{IsBytes};
ghost use Rattle.xid.specs.declared.refusals.Refusal.TheVariants.{NoMemory};
ghost use Rattle.stable_record.specs.Facts.{AreKeys};
ghost use Rattle.stable_record.specs.Views.{entry_seen};
ghost use Rattle.stable_record.specs.Written.{AddsEntries, AreWritten};
ghost use Rattle.branch_table.specs.TableStates.{are_rows, is_row};
ghost use Rattle.resource_manager.specs.Compacted.{AreShorterFrames, entries_at, entry_at, keys_here, row_entry};

use crate::course::Course;
use crate::manager::ResourceManager;
use protocol::Row;
use stable_record::{Entry, EntryKind, EntryView, FactRest, FactView, Touched, write_row};
use std::alloc::Global;
use wire::SpelledTx;
use xid::{Refusal, Sequence};

impl ResourceManager {
    /// What its record may hold in place of all that it holds: the frames, in version 2, of a snapshot of its table, and then of the
    /// outcome or the vote of each transaction, in the order of their first facts. A resource manager that plays them stands for whatever
    /// this one stands for. Refused: `NoMemory` alone.
    pub fn shorter(&self, alloc: Global) -> Result<Vec<u8>, Refusal>
        ensures ok { IfOk result (λ frames. AreShorterFrames self.now frames.items) }
        ensures err { IfErr result (λ e. e ≡ NoMemory) }
    {
        self.frames(alloc)
    }

    /// The frames of the entries of its shorter record. Refused: `NoMemory` alone.
    fn frames(&self, alloc: Global) -> Result<Vec<u8>, Refusal>
        ensures ok { IfOk result (λ frames. AreWritten frames.items (entries_at self.now)) }
        ensures err { IfErr result (λ e. e ≡ NoMemory) }
    {
        let mut frames = Vec::new(alloc);
        Entry::new(EntryKind::Snapshot).write(alloc, &mut frames)?;
        write_rows(&mut frames, &self.table.rows()?)?;
        for number in self.courses.begun() {
            let Some(tx) = self.courses.view(*number) else {
                continue;
            };
            self.write_entry(alloc, &mut frames, tx, *number)?;
        }
        Ok(frames)
    }

    /// Writes the frame of what is written of a transaction, which is likely to have this number, if a fact of it is stored. Refused:
    /// `NoMemory` alone.
    fn write_entry(
        &self,
        alloc: Global,
        frames: &mut Vec<u8>,
        tx: SpelledTx<'_>,
        likely: usize,
    ) -> Result<(), Refusal>
        ensures ok { OnOk result (AddsEntries frames.old.items frames.new.items (cons_option (entry_at self.now tx.entry) [])) }
        ensures err { IfErr result (λ e. e ≡ NoMemory) }
    {
        match self.view_of(alloc, tx, likely)? {
            Some(entry) => entry.write(frames),
            None => Ok(()),
        }
    }

    /// What is written of a transaction, which is likely to have this number, if a fact of it is stored. Refused: `NoMemory` alone.
    fn view_of<'a>(
        &self,
        alloc: Global,
        tx: SpelledTx<'a>,
        likely: usize,
    ) -> Result<Option<EntryView<'a>>, Refusal>
        ensures ok { IfOk result (λ entry. option_map entry_seen entry ≡ entry_at self.now tx.entry) }
        ensures err { IfErr result (λ e. e ≡ NoMemory) }
    {
        // it has the parts of a transaction
        let _ = tx.count();
        let view = match self.courses.of_likely(&tx, likely) {
            Course::Working => return Ok(None),
            Course::Prepared => {
                let keys = self.keys_here(alloc, &tx)?;
                EntryView::Fact(FactView::new(tx, FactRest::VotePrepared { keys }))
            }
            Course::VotedAborted => EntryView::Fact(FactView::new(tx, FactRest::VoteAborted)),
            Course::Committed => EntryView::PastCommitted(tx),
            Course::RolledBack => EntryView::PastAborted(tx),
            Course::AbortedUnvoted => EntryView::Fact(FactView::new(tx, FactRest::Aborted)),
        };
        Ok(Some(view))
    }

    /// The touched keys of the branch that a transaction has here. Refused: `NoMemory` alone.
    fn keys_here(&self, alloc: Global, tx: &SpelledTx<'_>) -> Result<Sequence<Touched>, Refusal>
        ensures ok { IfOk result (λ keys. keys ≡ keys_here self.now tx.now) }
        ensures valid { IfOk result AreKeys }
        ensures err { IfErr result (λ e. e ≡ NoMemory) }
    {
        match tx.branch(self.number()) {
            Some(xid) => self.table.keys_of(&xid),
            None => Ok(Sequence::new(Vec::new(alloc))),
        }
    }
}

/// Writes the frames of rows, which are within the limits. Refused: `NoMemory` alone.
fn write_rows(frames: &mut Vec<u8>, rows: &[Row]) -> Result<(), Refusal>
    requires { are_rows rows.now ≡ true }
    ensures ok { OnOk result (AddsEntries frames.old.items frames.new.items (map row_entry rows.now)) }
    ensures err { IfErr result (λ e. e ≡ NoMemory) }
{
    for row in rows {
        write_one(frames, row)?;
    }
    Ok(())
}

/// Writes the frame of a row, which is within the limits. Refused: `NoMemory` alone.
fn write_one(frames: &mut Vec<u8>, row: &Row) -> Result<(), Refusal>
    requires { is_row row.now ≡ true }
    ensures ok { OnOk result (AddsEntries frames.old.items frames.new.items (row_entry row.now ∷ [])) }
    ensures err { IfErr result (λ e. e ≡ NoMemory) }
{
    let key = row.key.as_slice();
    let value = row.value.as_slice();
    are_bytes(key);
    are_bytes(value);
    write_row(key, value, frames)
}

/// What a sequence of bytes is made of are bytes: a contract doesn't know it of a sequence.
fn are_bytes(bytes: &[u8])
    ensures { IsBytes bytes.now }
{
    let _ = bytes;
}
