//! What is known of each key: its row, and how branches hold it.

ghost use Rattle.std.specs.Prelude.{◌≡◌, ◌+◌, ◌-◌, ◌*◌, ◌<◌, ◌≤◌, ◌^◌, Bool, ℕ, List, true, None, Some, IfOk, IfErr, OnOk, MatchOption};
ghost use Rattle.std.specs.Prelude.{length};
ghost use Rattle.xid.specs.declared.refusals.Refusal.TheVariants.{NoMemory};
ghost use Rattle.stable_record.specs.Facts.{AreAscending, AreKeys};
ghost use Rattle.protocol.specs.Branches.{row_at};
ghost use Rattle.protocol.specs.Managers.{has_key};
ghost use Rattle.protocol.specs.Tables.{put_row, rows_after, with_writes};
ghost use Rattle.branch_table.specs.Outcomes.{looks_after};
ghost use Rattle.branch_table.specs.Parts.{free, no_place, place_left, hold_at, uses_held, uses_by, AddsHolders, TakesHolders, CanLeave};
ghost use Rattle.branch_table.specs.Parts.{table_of};
ghost use Rattle.branch_table.specs.TableStates.{are_rows, first_table, is_row};

use crate::hold::Hold;
use crate::looks::Looks;
use crate::sorting::sorted_by_keys;
use hashing::WordKey;
use indexmap::IndexMap;
use protocol::Row;
use stable_record::{Act, Touched};
use std::alloc::Global;
use std::marker::Model;
use xid::{Bytes, Refusal};

/// What is known of a key.
#[derive(Debug, Drop)]
pub struct Place {
    /// The value of its row, if there is one.
    pub value: Option<Bytes>,
    /// How branches hold it.
    pub hold: Hold,
}

impl Place {
    /// It has some holders less, and the value that a last act leaves.
    fn leave(&mut self, act: Act, fewer: Hold)
        ensures { self.new ≡ place_left self.old act fewer }
    {
        self.hold = self.hold.without(fewer);
        match act {
            Act::Read => (),
            Act::Put(value) => self.value = Some(value),
            Act::Del => self.value = None,
        }
    }

    /// Whether there is no row of its key, and no branch holds it.
    fn is_empty(&self) -> bool
        ensures { result ≡ true → self.now ≡ no_place }
    {
        self.value.is_none() && self.hold.is_free()
    }
}

/// A list of so many rows, or fewer, is asked for at once.
const FEW_ROWS: usize = 15;

/// How much room a list of rows begins with. A list of few is one small block; one of many grows, since `malloc` joins all that it has
/// free before it gives a large block.
fn room_for(rows: usize) -> usize
    ensures { result ≤ rows }
{
    if rows <= FEW_ROWS { rows } else { 0 }
}

/// What is known of each key that has a row or is held. The rows are within the limits.
#[derive(Debug, Drop)]
pub struct Places {
    known: IndexMap<Vec<u8>, Place, WordKey>,
}

impl Model for Places {
    ghost use Rattle.std.specs.Prelude.{◌≡◌, true, List, ℕ, map};
    ghost use Rattle.branch_table.specs.Parts.{table_of};
    ghost use Rattle.branch_table.specs.TableStates.{are_rows};
    ghost use Rattle.branch_table.specs.declared.places.Place.{Place};

    ghost Value = { List (List ℕ × Place) };

    ghost view = { λ places. map (λ entry. (entry.0.items, entry.1)) places.known.entries };

    ghost invariant = { λ places. are_rows (table_of (map (λ entry. (entry.0.items, entry.1)) places.known.entries)) ≡ true };
}

impl Places {
    /// Rows in any order, of which no branch holds a key; of two with one key the later counts. Their keys are hashed under a key.
    /// Refused: `NoMemory` alone.
    pub fn new(alloc: Global, key: WordKey, rows: Vec<Row>) -> Result<Places, Refusal>
        requires { are_rows rows.items ≡ true }
        ensures rows { IfOk result (λ places. table_of places ≡ first_table rows.items) }
        ensures free { IfOk result (λ places. (key : List ℕ) → hold_at places key ≡ free) }
        ensures err { IfErr result (λ e. e ≡ NoMemory) }
    {
        let mut places = Places {
            known: IndexMap::with_capacity_and_hasher(alloc, rows.len(), key)?,
        };
        for row in rows {
            places.put(row)?;
        }
        Ok(places)
    }

    /// Puts a row whose key no branch holds. Refused: `NoMemory` alone.
    fn put(&mut self, row: Row) -> Result<(), Refusal>
        requires row { is_row row ≡ true }
        requires free { (key : List ℕ) → hold_at self.old key ≡ free }
        ensures rows { OnOk result (table_of self.new ≡ put_row (table_of self.old) row) }
        ensures free { OnOk result ((key : List ℕ) → hold_at self.new key ≡ free) }
        ensures err { IfErr result (λ e. e ≡ NoMemory) }
    {
        let place = Place {
            value: Some(row.value),
            hold: Hold::free(),
        };
        self.known.insert(row.key.into_vec(), place)?;
        Ok(())
    }

    /// The value at a key, if there is a row of it.
    pub fn value_at(&self, key: &[u8]) -> Option<&[u8]>
        ensures { MatchOption result (row_at (table_of self.now) key.now ≡ None)
            (λ value. row_at (table_of self.now) key.now ≡ Some value.now) }
    {
        let Some(place) = self.known.get(key) else {
            return None;
        };
        match &place.value {
            Some(value) => Some(value.as_slice()),
            None => None,
        }
    }

    /// How a key is held.
    pub fn hold_at(&self, key: &[u8]) -> Hold
        ensures { result ≡ hold_at self.now key.now }
    {
        match self.known.get(key) {
            Some(place) => place.hold,
            None => Hold::free(),
        }
    }

    /// A key has some holders more. At `NoMemory`, the only refusal, nothing changes.
    pub fn add(&mut self, alloc: Global, key: &[u8], more: Hold) -> Result<(), Refusal>
        requires fits { (writes : Bool) → uses_held writes (hold_at self.old key.now) + uses_held writes more < 2 ^ 64 }
        ensures holds { OnOk result (AddsHolders self.old self.new key.now more) }
        ensures rows { OnOk result (table_of self.new ≡ table_of self.old) }
        ensures err { IfErr result (λ e. (e ≡ NoMemory) × (self.new ≡ self.old)) }
    {
        if let Some(place) = self.known.get_mut(key) {
            place.hold = place.hold.and(more);
            return Ok(());
        }
        let key = Vec::from_slice(alloc, key)?;
        let place = Place {
            value: None,
            hold: more,
        };
        self.known.insert(key, place)?;
        Ok(())
    }

    /// A key has some holders less, and the value that a last act leaves. It is forgotten where no row and no holder is left. It takes
    /// no memory.
    pub fn leave(&mut self, key: &[u8], act: Act, fewer: Hold)
        requires { CanLeave self.old key.now act }
        ensures holds { TakesHolders self.old self.new key.now fewer }
        ensures rows { table_of self.new ≡ rows_after (table_of self.old) key.now act }
    {
        let Some(place) = self.known.get_mut(key) else {
            return;
        };
        place.leave(act, fewer);
        if !place.is_empty() {
            return;
        }
        self.known.swap_remove(key);
    }

    /// The keys of a branch are let go, and its writes forgotten: it looks at each and at its hold. It takes no memory.
    pub fn let_go(&mut self, keys: &[Touched], looks: &mut Looks)
        requires { AreAscending keys.now }
        ensures looks { looks.new ≡ looks_after looks.old (2 * length keys.now) }
        ensures rows { table_of self.new ≡ table_of self.old }
        ensures holds { (writes : Bool) (key : List ℕ) → uses_held writes (hold_at self.new key)
            ≡ uses_held writes (hold_at self.old key) - uses_by writes key keys.now }
    {
        // a count has 64 bits
        let _ = looks.count();
        for touched in keys {
            looks.add(2);
            self.leave(touched.key.as_slice(), Act::Read, Hold::by(&touched.act));
        }
    }

    /// The keys of a branch are let go, and its writes moved into the rows: it looks at each and at its hold. It takes no memory.
    pub fn settle(&mut self, keys: Vec<Touched>, looks: &mut Looks)
        requires keys { AreKeys keys.items }
        requires held { (key : List ℕ) → has_key key keys.items ≡ true → 0 < (hold_at self.old key).touched_by }
        ensures looks { looks.new ≡ looks_after looks.old (2 * length keys.items) }
        ensures rows { table_of self.new ≡ with_writes (table_of self.old) keys.items }
        ensures holds { (writes : Bool) (key : List ℕ) → uses_held writes (hold_at self.new key)
            ≡ uses_held writes (hold_at self.old key) - uses_by writes key keys.items }
    {
        // a count has 64 bits
        let _ = looks.count();
        for touched in keys {
            looks.add(2);
            let fewer = Hold::by(&touched.act);
            let Touched { key, act } = touched;
            self.leave(key.as_slice(), act, fewer);
        }
    }

    /// The keys of a branch are held. At `NoMemory`, the only refusal, each key is held as before. The rows are as they were.
    pub fn hold(&mut self, alloc: Global, keys: &[Touched]) -> Result<(), Refusal>
        requires ascending { AreAscending keys.now }
        requires fits { (writes : Bool) (key : List ℕ) → uses_held writes (hold_at self.old key) < 2 ^ 63 }
        ensures rows { table_of self.new ≡ table_of self.old }
        ensures ok { OnOk result ((writes : Bool) (key : List ℕ) → uses_held writes (hold_at self.new key)
            ≡ uses_held writes (hold_at self.old key) + uses_by writes key keys.now) }
        ensures err { IfErr result (λ e. (e ≡ NoMemory) × ((writes : Bool) (key : List ℕ)
            → uses_held writes (hold_at self.new key) ≡ uses_held writes (hold_at self.old key))) }
    {
        for at in 0..keys.len() {
            let touched = &keys[at];
            if self
                .add(alloc, touched.key.as_slice(), Hold::by(&touched.act))
                .is_err()
            {
                self.let_go(&keys[..at], &mut Looks::new());
                return Err(Refusal::NoMemory);
            }
        }
        Ok(())
    }

    /// The rows, copied, with their keys ascending. Refused: `NoMemory` alone.
    pub fn rows(&self, alloc: Global) -> Result<Vec<Row>, Refusal>
        ensures ok { IfOk result (λ rows. rows.items ≡ table_of self.now) }
        ensures err { IfErr result (λ e. e ≡ NoMemory) }
        ensures limits { are_rows (table_of self.now) ≡ true }
    {
        // no two places have one key
        let _ = self.known.len();
        let mut rows = Vec::with_capacity(alloc, room_for(self.known.len()))?;
        for (key, place) in &self.known {
            if let Some(value) = &place.value {
                let key = Bytes::copy_of(alloc, key)?;
                let value = Bytes::copy_of(alloc, value.as_slice())?;
                rows.push(Row { key, value })?;
            }
        }
        Ok(sorted_by_keys(alloc, rows))
    }
}
