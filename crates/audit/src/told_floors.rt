//! What one node was told of floors.

ghost use Rattle.std.specs.Prelude.{◌≡◌, ℕ, ◌+◌, ◌<◌, ◌^◌, ◌==◌, [], Some, map, if◌then◌else◌, IfErr, OnOk};
ghost use Rattle.std.specs.List.{range_with_len};
ghost use Rattle.xid.specs.declared.refusals.Refusal.TheVariants.{NoMemory};
ghost use Rattle.audit.specs.Floors.{higher, lower, least_of, least_told};
ghost use Rattle.audit.specs.FloorBooks.{entry_of};

use hashing::WordKey;
use indexmap::IndexMap;
use std::alloc::Global;
use std::marker::Model;
use xid::{Floor, Refusal};

/// What one node was told of the floors of resource managers: of each the highest.
#[derive(Debug, Drop)]
pub struct ToldFloors {
    floors: IndexMap<u32, Floor, WordKey>,
}

impl Model for ToldFloors {
    ghost use Rattle.std.specs.Prelude.{ℕ, List};
    ghost use Rattle.xid.specs.Places.{Place};

    ghost Value = { List (ℕ × Place) };

    ghost view = { λ told. told.floors.entries };
}

/// The higher of two floors.
pub(crate) fn higher(floor: &Option<Floor>, place: &Floor) -> Floor
    ensures { Some result ≡ higher floor.now (Some place.now) }
{
    let Some(floor) = floor else {
        return *place;
    };
    if place.is_higher_than(&Some(*floor)) {
        *place
    } else {
        *floor
    }
}

/// The lower of a floor and another, which is none where it wasn't told.
fn lower(floor: &Floor, other: &Option<Floor>) -> Option<Floor>
    ensures { result ≡ lower (Some floor.now) other.now }
{
    if floor.is_higher_than(other) {
        *other
    } else {
        Some(*floor)
    }
}

impl ToldFloors {
    /// Nothing was told. Numbers are hashed under the key. It takes no memory.
    pub fn new(alloc: Global, key: WordKey) -> ToldFloors
        ensures { result ≡ [] }
    {
        ToldFloors {
            floors: IndexMap::with_hasher(alloc, key),
        }
    }

    /// What was told of a resource manager's floor.
    fn get(&self, rm: u32) -> Option<Floor>
        ensures { result ≡ entry_of self.now rm }
    {
        self.floors.get(&rm).copied()
    }

    /// One more was told. Refused: `NoMemory` alone.
    pub fn hear(&mut self, rm: u32, floor: &Floor) -> Result<(), Refusal>
        ensures ok { OnOk result ((other : ℕ) → entry_of self.new other
            ≡ (if rm == other then higher (entry_of self.old other) (Some floor.now) else entry_of self.old other)) }
        ensures err { IfErr result (λ e. e ≡ NoMemory) }
    {
        let highest = higher(&self.get(rm), floor);
        self.floors.insert(rm, highest)?;
        Ok(())
    }

    /// The least that was told of so many resource managers; none, where one of them told none.
    pub fn least(&self, managers: u32) -> Option<Floor>
        ensures { result ≡ least_told managers (entry_of self.now) }
    {
        self.least_from(0, managers)
    }

    /// The same of so many, from one resource manager on.
    fn least_from(&self, rm: u32, count: u32) -> Option<Floor>
        requires { rm + count < 2 ^ 32 }
        ensures { result ≡ least_of (map (entry_of self.now) (range_with_len rm count)) }
    {
        if count == 0 {
            return None;
        }
        let Some(first) = self.get(rm) else {
            return None;
        };
        if count == 1 {
            return Some(first);
        }
        lower(&first, &self.least_from(rm + 1, count - 1))
    }
}
