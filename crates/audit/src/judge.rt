//! A judge, who hears a trace line by line, and keeps where a question isn't kept first.

ghost use Rattle.std.specs.Prelude.{◌≡◌, ℕ, ◌+◌, ◌-◌, ◌<◌, length, List, Option, Some, None, IfOk, IfErr, OnOk};
ghost use Rattle.xid.specs.declared.refusals.Refusal.TheVariants.{NoMemory};
ghost use Rattle.net_script.specs.declared.trace_lines.TraceLine.{TraceLine as LineParts};
ghost use Rattle.net_script.specs.Telling.{IsHeard};
ghost use Rattle.net_script.specs.TraceReaders.{begun_with};
ghost use Rattle.net_script.specs.declared.values.Trace.{Trace};
ghost use Rattle.audit.specs.ToldTables.{first_tables};
ghost use Rattle.audit.specs.Consistent.{is_order_kept};
ghost use Rattle.audit.specs.Books.{stretch_of, has_committed, Reaches};
ghost use Rattle.audit.specs.Faults.{Tells, IsFound};
ghost use Rattle.audit.specs.Noting.{HasNoted, or_fault};

use crate::auditor::Auditor;
use crate::faults::{Fault, Question, question_of};
use crate::floors::Floors;
use crate::serial::replayed;
use hashing::HashKey;
use net_script::{Heard, TraceLine, TraceReader};
use std::alloc::Global;
use xid::Refusal;

/// What the lines so far come to, and the first at which a change or a get isn't right or something is below a floor.
#[derive(Debug, Drop)]
pub struct Judge {
    auditor: Auditor,
    floors: Floors,
    fault: Option<Fault>,
}

impl Judge {
    /// No line yet. Names are hashed under the key. Refused: `NoMemory` alone.
    pub fn new(alloc: Global, key: HashKey) -> Result<Judge, Refusal>
        ensures ok { IfOk result (λ judge. (bytes : List ℕ) → HasNoted bytes judge 0 None) }
        ensures err { IfErr result (λ e. e ≡ NoMemory) }
    {
        Ok(Judge {
            auditor: Auditor::new(alloc, key)?,
            floors: Floors::new(alloc, key.words()),
            fault: None,
        })
    }

    /// Hears one line more, which has this number, and which the reader gave last; a datagram is no change, and no get. Refused: `NoMemory`
    /// alone.
    pub fn hear(
        &mut self,
        alloc: Global,
        line: usize,
        reader: &TraceReader<'_>,
        heard: Heard,
    ) -> Result<(), Refusal>
        ensures ok { OnOk result ((said : LineParts) (bytes : List ℕ) (count : ℕ) (before : Option Trace) (after : Trace)
            → IsHeard reader.now.known heard said → HasNoted bytes self.old count before → Some after ≡ begun_with before said
            → line ≡ count + 1 → Tells bytes line after → HasNoted bytes self.new line (Some after)) }
        ensures err { IfErr result (λ e. e ≡ NoMemory) }
    {
        match heard {
            Heard::Line(said) => self.take(alloc, line, said),
            Heard::Datagram(told) => {
                let Some(tx) = reader.tx() else {
                    return Ok(());
                };
                let above = !self.floors.is_below(told.sender(), tx);
                self.note(Question::Floors, line, above);
                Ok(())
            }
        }
    }

    /// Keeps a question as the first that isn't kept, if it isn't and none is so far.
    fn note(&mut self, question: Question, line: usize, kept: bool)
        ensures fault { self.new.fault ≡ or_fault self.old.fault kept (record { question = question; line = line }) }
        ensures rest { (self.new.auditor ≡ self.old.auditor) × (self.new.floors ≡ self.old.floors) }
    {
        if self.fault.is_none() && !kept {
            self.fault = Some(Fault { question, line });
        }
    }

    /// Hears what one line more says, which has this number. Refused: `NoMemory` alone.
    fn take(&mut self, alloc: Global, line: usize, said: TraceLine) -> Result<(), Refusal>
        ensures ok { OnOk result ((bytes : List ℕ) (count : ℕ) (before : Option Trace) (after : Trace)
            → HasNoted bytes self.old count before → Some after ≡ begun_with before said → line ≡ count + 1
            → Tells bytes line after → HasNoted bytes self.new line (Some after)) }
        ensures err { IfErr result (λ e. e ≡ NoMemory) }
    {
        let question = question_of(&said);
        let above = self.floors.take_line(alloc, &said)?;
        self.auditor.take(alloc, said)?;
        self.note(question, line, self.auditor.is_right);
        self.note(Question::Floors, line, above);
        Ok(())
    }

    /// How many of the last rows, from the first on, the order of first commits explains; none, where it doesn't explain the gets.
    /// Refused: `NoMemory` alone.
    fn explained(&self, alloc: Global) -> Result<usize, Refusal>
        ensures ok { IfOk result (λ count. Reaches (is_order_kept (first_tables self.now.auditor.tables.items)
            (stretch_of self.now.auditor.ledger.branches) (has_committed self.now.auditor.ledger.views) self.now.auditor.ledger.firsts)
            self.now.auditor.finals.items count) }
        ensures err { IfErr result (λ e. e ≡ NoMemory) }
    {
        let auditor = &self.auditor;
        match replayed(alloc, &auditor.ledger, &auditor.tables)? {
            Some(last) => Ok(last.count_right(&auditor.finals)),
            None => Ok(0),
        }
    }

    /// The first fault of the trace that was heard, in so many lines, if it has one. Refused: `NoMemory` alone.
    pub fn verdict(&self, alloc: Global, lines: usize) -> Result<Option<Fault>, Refusal>
        ensures ok { IfOk result (λ found. (bytes : List ℕ) (t : Trace) → HasNoted bytes self.now lines (Some t) → Tells bytes lines t
            → 0 < length t.finals → IsFound bytes t found) }
        ensures err { IfErr result (λ e. e ≡ NoMemory) }
    {
        if let Some(fault) = self.fault {
            return Ok(Some(fault));
        }
        let finals = self.auditor.finals.as_slice();
        let rows = finals.len();
        let told = self.auditor.ledger.tables.count_right(finals);
        let explained = self.explained(alloc)?;
        if told < rows && told <= explained {
            return Ok(Some(fault_in_row(Question::Tables, lines, rows - told)));
        }
        if explained < rows {
            return Ok(Some(fault_in_row(Question::Order, lines, rows - explained)));
        }
        Ok(None)
    }
}

/// A fault in the line from which on so many lines are left, of so many.
fn fault_in_row(question: Question, lines: usize, left: usize) -> Fault
    requires { 0 < left }
    ensures { result ≡ record { question = question; line = lines - (left - 1) } }
{
    Fault {
        question,
        line: lines.saturating_sub(left - 1),
    }
}
