//! An auditor, who hears a trace line by line.

ghost use Rattle.std.specs.Prelude.{◌≡◌, List, false, [], ◌∷◌, ◌++◌, Option, None, Some, IfOk, IfErr, OnOk};
ghost use Rattle.xid.specs.declared.refusals.Refusal.TheVariants.{NoMemory};
ghost use Rattle.safety.specs.Vocabulary.{Row};
ghost use Rattle.net_script.specs.TraceReaders.{bare_step, with_now, begun_with};
ghost use Rattle.net_script.specs.declared.values.Entry.{Entry};
ghost use Rattle.net_script.specs.declared.values.Table.{Table};
ghost use Rattle.net_script.specs.declared.values.Trace.{Trace};
ghost use Rattle.audit.specs.Told.{step_of};
ghost use Rattle.audit.specs.Hearing.{Hears, HasHeard};

use crate::ledger::Ledger;
use hashing::HashKey;
use net_script::{Table, TraceLine};
use protocol::{Answer, Change, Event, Row};
use std::alloc::Global;
use xid::{Refusal, Sequence};

/// What the lines so far come to. Where one of them isn't right, no more is kept.
#[derive(Debug, Drop)]
pub struct Auditor {
    /// The first tables.
    pub(crate) tables: Vec<Table>,
    /// What the entries come to.
    pub(crate) ledger: Ledger,
    /// The last rows.
    pub(crate) finals: Vec<Sequence<Row>>,
    /// Whether each entry is right.
    pub(crate) is_right: bool,
}

impl Auditor {
    /// No line yet. Names are hashed under the key. Refused: `NoMemory` alone.
    pub fn new(alloc: Global, key: HashKey) -> Result<Auditor, Refusal>
        ensures ok { IfOk result (λ auditor. HasHeard auditor None) }
        ensures err { IfErr result (λ e. e ≡ NoMemory) }
    {
        Ok(Auditor {
            tables: Vec::new(alloc),
            ledger: Ledger::new(alloc, key, &[])?,
            finals: Vec::new(alloc),
            is_right: true,
        })
    }

    /// Hears one line more. Refused: `NoMemory` alone.
    pub fn take(&mut self, alloc: Global, said: TraceLine) -> Result<(), Refusal>
        ensures ok { OnOk result ((before : Option Trace) (after : Trace) → HasHeard self.old before
            → Some after ≡ begun_with before said → HasHeard self.new (Some after)) }
        ensures wrong { OnOk result (self.old.is_right ≡ false → self.new.is_right ≡ false) }
        ensures err { IfErr result (λ e. e ≡ NoMemory) }
    {
        match said {
            TraceLine::Cluster(_) => Ok(()),
            TraceLine::Contents(table) => self.take_table(alloc, table),
            TraceLine::Happened(event, answer) => self.take_event(alloc, &event, &answer),
            TraceLine::Served(..) => Ok(()),
            TraceLine::Changed(change) => self.take_change(alloc, change.get()),
            TraceLine::Datagram(_) => Ok(()),
            TraceLine::Notice(_) => Ok(()),
            TraceLine::Final(_, rows) => self.take_rows(rows),
        }
    }

    /// Hears of a first table. Refused: `NoMemory` alone.
    fn take_table(&mut self, alloc: Global, table: Table) -> Result<(), Refusal>
        ensures ok { OnOk result ((tables : List Table) → Hears self.old tables [] [] → Hears self.new (tables ++ table ∷ []) [] []) }
        ensures wrong { OnOk result (self.old.is_right ≡ false → self.new.is_right ≡ false) }
        ensures err { IfErr result (λ e. e ≡ NoMemory) }
    {
        self.ledger.take_table(alloc, &table)?;
        self.tables.push(table)?;
        Ok(())
    }

    /// Hears of an event and its answer. Refused: `NoMemory` alone.
    fn take_event(&mut self, alloc: Global, event: &Event, answer: &Answer) -> Result<(), Refusal>
        ensures ok { OnOk result ((tables : List Table) (entries : List Entry) (finals : List (List Row))
            → Hears self.old tables entries finals → Hears self.new tables (entries ++ bare_step event.now answer.now ∷ []) finals) }
        ensures wrong { OnOk result (self.old.is_right ≡ false → self.new.is_right ≡ false) }
        ensures err { IfErr result (λ e. e ≡ NoMemory) }
    {
        if !self.is_right {
            return Ok(());
        }
        self.is_right = self.ledger.take_event(alloc, event, answer)?;
        Ok(())
    }

    /// Hears of a changed view. Refused: `NoMemory` alone.
    fn take_change(&mut self, alloc: Global, change: &Change) -> Result<(), Refusal>
        ensures ok { OnOk result ((tables : List Table) (entries : List Entry) (finals : List (List Row)) (last : Entry)
            → (step_of last).now ≡ None
            → Hears self.old tables (entries ++ last ∷ []) finals
            → Hears self.new tables (entries ++ with_now change.now last ∷ []) finals) }
        ensures wrong { OnOk result (self.old.is_right ≡ false → self.new.is_right ≡ false) }
        ensures err { IfErr result (λ e. e ≡ NoMemory) }
    {
        if !self.is_right {
            return Ok(());
        }
        self.is_right = self.ledger.make_change(alloc, change)?;
        Ok(())
    }

    /// Hears of the last rows of the next resource manager. Refused: `NoMemory` alone.
    fn take_rows(&mut self, rows: Sequence<Row>) -> Result<(), Refusal>
        ensures ok { OnOk result ((tables : List Table) (entries : List Entry) (finals : List (List Row))
            → Hears self.old tables entries finals → Hears self.new tables entries (finals ++ rows ∷ [])) }
        ensures wrong { OnOk result (self.old.is_right ≡ false → self.new.is_right ≡ false) }
        ensures err { IfErr result (λ e. e ≡ NoMemory) }
    {
        if self.is_right {
            self.finals.push(rows)?;
        }
        Ok(())
    }
}
