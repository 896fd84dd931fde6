//! The rows of a table, by their keys.

ghost use Rattle.std.specs.Prelude.{◌≡◌, [], None, Some, not, filter, IfErr, OnOk, MatchOption};
ghost use Rattle.std.specs.Cmp.Lexicographic.{pointwise};
ghost use Rattle.std.specs.Str.{bytes_eq};
ghost use Rattle.xid.specs.declared.refusals.Refusal.TheVariants.{NoMemory};
ghost use Rattle.protocol.specs.Branches.{row_at};
ghost use Rattle.protocol.specs.Rows.{row_eq};
ghost use Rattle.protocol.specs.Tables.{put_row, rows_after, with_writes};

use protocol::Row;
use stable_record::{Act, Touched};
use std::alloc::Global;
use std::collections::BTreeMap;
use std::marker::Model;
use xid::{Bytes, Refusal};

/// The rows of a table, by their keys.
#[derive(Debug, Drop)]
pub struct Rows {
    values: BTreeMap<Vec<u8>, Bytes>,
}

impl Model for Rows {
    ghost use Rattle.std.specs.Prelude.{List};
    ghost use Rattle.protocol.specs.declared.rows.Row.{Row};
    ghost use Rattle.audit.specs.Books.{rows_in};

    ghost Value = { List Row };

    ghost view = { λ rows. rows_in (λ key. key.items) rows.values.entries };
}

impl Rows {
    /// No row. It takes no memory.
    pub fn new(alloc: Global) -> Rows
        ensures { result ≡ [] }
    {
        Rows {
            values: BTreeMap::new(alloc),
        }
    }

    /// Puts a row in the place of its key. Refused: `NoMemory` alone.
    pub fn put(&mut self, alloc: Global, key: &[u8], value: &[u8]) -> Result<(), Refusal>
        ensures ok { OnOk result (self.new ≡ put_row self.old (record { key = key.now; value = value.now })) }
        ensures err { IfErr result (λ e. e ≡ NoMemory) }
    {
        let key = Vec::from_slice(alloc, key)?;
        let value = Bytes::copy_of(alloc, value)?;
        self.values.insert(key, value)?;
        Ok(())
    }

    /// Takes the row of a key out, if there is one.
    fn delete(&mut self, key: &[u8])
        ensures { self.new ≡ filter (λ row. not (bytes_eq row.key key.now)) self.old }
    {
        // the keys of a map ascend
        let _ = self.values.len();
        self.values.remove(key);
    }

    /// The value at a key, if there is a row of it.
    pub fn get(&self, key: &[u8]) -> Option<&[u8]>
        ensures { MatchOption result (row_at self.now key.now ≡ None) (λ value. row_at self.now key.now ≡ Some value.now) }
    {
        // the keys of a map ascend
        let _ = self.values.len();
        let Some(value) = self.values.get(key) else {
            return None;
        };
        Some(value.as_slice())
    }

    /// Makes one write. Refused: `NoMemory` alone.
    fn write(&mut self, alloc: Global, touched: &Touched) -> Result<(), Refusal>
        ensures ok { OnOk result (self.new ≡ rows_after self.old touched.now.key touched.now.act) }
        ensures err { IfErr result (λ e. e ≡ NoMemory) }
    {
        let key = touched.key.as_slice();
        match &touched.act {
            Act::Read => Ok(()),
            Act::Put(value) => self.put(alloc, key, value.as_slice()),
            Act::Del => {
                self.delete(key);
                Ok(())
            }
        }
    }

    /// Makes writes, one after the other. Refused: `NoMemory` alone.
    pub fn write_all(&mut self, alloc: Global, writes: &[Touched]) -> Result<(), Refusal>
        ensures ok { OnOk result (self.new ≡ with_writes self.old writes.now) }
        ensures err { IfErr result (λ e. e ≡ NoMemory) }
    {
        for touched in writes {
            self.write(alloc, touched)?;
        }
        Ok(())
    }

    /// Whether these are the rows, with their keys ascending.
    pub fn are(&self, rows: &[Row]) -> bool
        ensures { result ≡ pointwise row_eq rows.now self.now }
    {
        let mut rest = rows;
        for (key, value) in &self.values {
            let Some((row, after)) = rest.split_first() else {
                return false;
            };
            if row.key.as_slice() != key.as_slice() || row.value.as_slice() != value.as_slice() {
                return false;
            }
            rest = after;
        }
        rest.is_empty()
    }
}
