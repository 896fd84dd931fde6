//! What was done in a branch since it was last started.

ghost use Rattle.std.specs.Prelude.{◌≡◌, IfOk, IfErr, OnOk};
ghost use Rattle.std.specs.Option.{option_copied};
ghost use Rattle.xid.specs.declared.refusals.Refusal.TheVariants.{NoMemory};
ghost use Rattle.protocol.specs.Branches.{value_after};
ghost use Rattle.audit.specs.Stretches.{own_act, with_write, with_get, just_started};
ghost use Rattle.audit.specs.Books.{act_or_read, agrees};

use stable_record::{Act, Touched};
use std::alloc::Global;
use std::collections::BTreeMap;
use std::marker::Model;
use xid::{Bytes, Refusal};

/// A get, and what it showed.
#[derive(Debug, Drop)]
pub struct Shown {
    /// Its key.
    pub key: Bytes,
    /// What its branch had last done to the key.
    pub own: Act,
    /// The value that it showed, if it showed one.
    pub found: Option<Bytes>,
}

/// What was done in a branch since it was last started: the puts and dels that were accepted, and what gets showed, in their order.
#[derive(Debug, Drop)]
pub struct Stretch {
    writes: Vec<Touched>,
    /// The place of the last write to each key.
    places: BTreeMap<Vec<u8>, usize>,
    gets: Vec<Shown>,
}

impl Model for Stretch {
    ghost use Rattle.audit.specs.Stretches.{StretchParts};
    ghost use Rattle.audit.specs.Books.{ArePlaces};

    ghost Value = { StretchParts };

    ghost view = { λ s. record { writes = s.writes.items; gets = s.gets.items } };

    ghost invariant = { λ s. ArePlaces (λ key. key.items) s.places.entries s.writes.items };
}

impl Stretch {
    /// Nothing was done yet. It takes no memory.
    pub fn new(alloc: Global) -> Stretch
        ensures { result ≡ just_started }
    {
        Stretch {
            writes: Vec::new(alloc),
            places: BTreeMap::new(alloc),
            gets: Vec::new(alloc),
        }
    }

    /// The writes, in their order.
    pub fn writes(&self) -> &[Touched]
        ensures { result.now ≡ self.now.writes }
    {
        &self.writes
    }

    /// The gets, in their order.
    pub fn gets(&self) -> &[Shown]
        ensures { result.now ≡ self.now.gets }
    {
        &self.gets
    }

    /// The last write to a key, if there is one.
    pub fn own_act(&self, key: &[u8]) -> Option<&Act>
        ensures { own_act self.now.writes key.now ≡ act_or_read (option_copied result) }
    {
        let Some(place) = self.places.get(key) else {
            return None;
        };
        Some(&self.writes[*place].act)
    }

    /// Adds a write. Refused: `NoMemory` alone.
    pub fn write(&mut self, alloc: Global, key: &[u8], act: Act) -> Result<(), Refusal>
        ensures ok { OnOk result (self.new ≡ with_write key.now act self.old) }
        ensures err { IfErr result (λ e. e ≡ NoMemory) }
    {
        let copy = Vec::from_slice(alloc, key)?;
        let key = Bytes::copy_of(alloc, key)?;
        self.writes.reserve(1)?;
        self.places.insert(copy, self.writes.len())?;
        self.writes.push_reserved(Touched { key, act });
        Ok(())
    }

    /// Adds a get. Refused: `NoMemory` alone.
    pub fn show(&mut self, alloc: Global, key: &[u8], found: Option<&[u8]>) -> Result<(), Refusal>
        ensures ok { OnOk result (self.new ≡ with_get key.now (option_copied found.entry) self.old) }
        ensures err { IfErr result (λ e. e ≡ NoMemory) }
    {
        let own = copied_act(alloc, self.own_act(key))?;
        let key = Bytes::copy_of(alloc, key)?;
        let found = copied_value(alloc, found)?;
        self.gets.push(Shown { key, own, found })?;
        Ok(())
    }
}

/// A copy of an act; to read, where there is none. Refused: `NoMemory` alone.
fn copied_act(alloc: Global, act: Option<&Act>) -> Result<Act, Refusal>
    ensures ok { IfOk result (λ copy. copy ≡ act_or_read (option_copied act.entry)) }
    ensures err { IfErr result (λ e. e ≡ NoMemory) }
{
    let Some(act) = act else {
        return Ok(Act::Read);
    };
    match act {
        Act::Read => Ok(Act::Read),
        Act::Put(value) => Ok(Act::Put(Bytes::copy_of(alloc, value.as_slice())?)),
        Act::Del => Ok(Act::Del),
    }
}

/// A copy of a value, if there is one. Refused: `NoMemory` alone.
fn copied_value(alloc: Global, value: Option<&[u8]>) -> Result<Option<Bytes>, Refusal>
    ensures ok { IfOk result (λ copy. copy ≡ option_copied value.entry) }
    ensures err { IfErr result (λ e. e ≡ NoMemory) }
{
    let Some(value) = value else {
        return Ok(None);
    };
    Ok(Some(Bytes::copy_of(alloc, value)?))
}

/// Whether two values that may be missing are the same.
fn agrees(found: Option<&[u8]>, other: Option<&[u8]>) -> bool
    ensures { result ≡ agrees (option_copied found.entry) (option_copied other.entry) }
{
    match found {
        None => other.is_none(),
        Some(found) => match other {
            None => false,
            Some(other) => found == other,
        },
    }
}

/// Whether a get showed the row of its key, with the own last act of its branch over it.
pub fn shows(row: Option<&[u8]>, own: Option<&Act>, found: Option<&[u8]>) -> bool
    ensures { result ≡ agrees (option_copied found.entry) (value_after (act_or_read (option_copied own.entry)) (option_copied row.entry)) }
{
    let Some(own) = own else {
        return agrees(found, row);
    };
    match own {
        Act::Read => agrees(found, row),
        Act::Put(value) => agrees(found, Some(value.as_slice())),
        Act::Del => found.is_none(),
    }
}
