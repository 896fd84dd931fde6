//! The tables of all resource managers.

ghost use Rattle.std.specs.Prelude.{◌≡◌, ℕ, [], ◌==◌, if◌then◌else◌, fold, IfOk, IfErr, OnOk};
ghost use Rattle.std.specs.Cmp.Lexicographic.{pointwise};
ghost use Rattle.xid.specs.declared.refusals.Refusal.TheVariants.{NoMemory};
ghost use Rattle.protocol.specs.Rows.{row_eq};
ghost use Rattle.protocol.specs.Tables.{put_row, with_writes};
ghost use Rattle.audit.specs.ToldTables.{first_tables, are_tables};
ghost use Rattle.audit.specs.Books.{rows_of, Reaches};

use crate::rows::Rows;
use net_script::Table;
use protocol::Row;
use stable_record::Touched;
use std::alloc::Global;
use std::marker::Model;
use xid::{Refusal, Sequence};

/// A table for each number that a resource manager may have.
#[derive(Debug, Drop)]
pub struct Tables {
    rows: Vec<Rows>,
}

impl Model for Tables {
    ghost use Rattle.std.specs.Prelude.{◌≡◌, List, length};
    ghost use Rattle.protocol.specs.declared.rows.Row.{Row};

    ghost Value = { List (List Row) };

    ghost view = { λ tables. tables.rows.items };

    ghost invariant = { λ tables. length tables.rows.items ≡ 256 };
}

impl Tables {
    /// Tables with no rows. Refused: `NoMemory` alone.
    fn empty(alloc: Global) -> Result<Tables, Refusal>
        ensures ok { IfOk result (λ tables. (rm : ℕ) → rows_of tables rm ≡ []) }
        ensures err { IfErr result (λ e. e ≡ NoMemory) }
    {
        let mut rows = Vec::new(alloc);
        for _rm in 0..256usize {
            rows.push(Rows::new(alloc))?;
        }
        Ok(Tables { rows })
    }

    /// The first contents. Refused: `NoMemory` alone.
    pub fn first(alloc: Global, tables: &[Table]) -> Result<Tables, Refusal>
        ensures ok { IfOk result (λ first. (rm : ℕ) → rows_of first rm ≡ first_tables tables.now rm) }
        ensures err { IfErr result (λ e. e ≡ NoMemory) }
    {
        let mut first = Tables::empty(alloc)?;
        for table in tables {
            first.put_all(alloc, table.rm, table.rows.as_slice())?;
        }
        Ok(first)
    }

    /// The rows of a resource manager.
    pub fn rows(&self, rm: u8) -> &Rows
        ensures { result.now ≡ rows_of self.now rm }
    {
        &self.rows[rm as usize]
    }

    /// A table has these rows alone; of two with one key the later counts. Refused: `NoMemory` alone.
    pub fn put_all(&mut self, alloc: Global, rm: u8, rows: &[Row]) -> Result<(), Refusal>
        ensures ok { OnOk result ((other : ℕ)
            → rows_of self.new other ≡ (if rm == other then fold put_row [] rows.now else rows_of self.old other)) }
        ensures err { IfErr result (λ e. e ≡ NoMemory) }
    {
        let mut table = Rows::new(alloc);
        for row in rows {
            table.put(alloc, row.key.as_slice(), row.value.as_slice())?;
        }
        self.rows[rm as usize] = table;
        Ok(())
    }

    /// Makes writes in a table, one after the other. Refused: `NoMemory` alone.
    pub fn write_all(&mut self, alloc: Global, rm: u8, writes: &[Touched]) -> Result<(), Refusal>
        ensures ok { OnOk result ((other : ℕ) → rows_of self.new other
            ≡ (if rm == other then with_writes (rows_of self.old rm) writes.now else rows_of self.old other)) }
        ensures err { IfErr result (λ e. e ≡ NoMemory) }
    {
        self.rows[rm as usize].write_all(alloc, writes)
    }

    /// How many of these, from the first on, are the rows of the first tables.
    pub fn count_right(&self, finals: &[Sequence<Row>]) -> usize
        ensures { Reaches (are_tables (rows_of self.now) 0) finals.now result }
    {
        for (rm, rows) in finals.iter().enumerate() {
            if !self.are_at(rm, rows.as_slice()) {
                return rm;
            }
        }
        finals.len()
    }

    /// Whether these are the rows of the first tables.
    pub fn are(&self, finals: &[Sequence<Row>]) -> bool
        ensures { result ≡ are_tables (rows_of self.now) 0 finals.now }
    {
        self.count_right(finals) == finals.len()
    }

    /// Whether these are the rows of a table.
    fn are_at(&self, rm: usize, rows: &[Row]) -> bool
        ensures { result ≡ pointwise row_eq rows.now (rows_of self.now rm) }
    {
        if rm < self.rows.len() {
            self.rows[rm].are(rows)
        } else {
            rows.is_empty()
        }
    }
}
