//! What a node was told of the floors of resource managers.

ghost use Rattle.std.specs.Prelude.{◌≡◌, length, replicate, None, IfOk};
ghost use Rattle.protocol.specs.Effects.{Config};
ghost use Rattle.floors.specs.Worlds.{least_of, least_told, lower};
ghost use Rattle.floored.specs.Told.{HasHeard, told_at};

use std::alloc::{AllocError, Global};
use std::marker::Model;
use wire::Notice;
use xid::Floor;

/// What an acceptor or a leader was told of the floors of its cluster's resource managers since it was last started: of each the highest.
#[derive(Debug, Drop)]
pub struct ToldFloors {
    floors: Vec<Option<Floor>>,
}

impl Model for ToldFloors {
    ghost use Rattle.std.specs.Prelude.{List, Option};
    ghost use Rattle.xid.specs.Places.{Place};

    ghost Value = { List (Option Place) };

    ghost view = { λ t. t.floors.items };
}

/// The lower of two floors; none is the lowest.
fn lower_of(floor: &Option<Floor>, other: &Option<Floor>) -> Option<Floor>
    ensures { result ≡ lower floor.now other.now }
{
    let Some(lowest) = floor else {
        return None;
    };
    if lowest.is_higher_than(other) {
        *other
    } else {
        *floor
    }
}

impl ToldFloors {
    /// Nothing was told of so many resource managers. Refused: memory ran out.
    pub fn new(alloc: Global, managers: usize) -> Result<ToldFloors, AllocError>
        ensures { IfOk result (λ told. told ≡ replicate managers None) }
    {
        let mut floors = Vec::new(alloc);
        floors.resize(managers, None)?;
        Ok(ToldFloors { floors })
    }

    /// One more was told. That of a resource manager which the cluster doesn't have says nothing.
    pub fn hear(&mut self, notice: &Notice)
        ensures { HasHeard notice.now self.old self.new }
    {
        let at = usize::from(notice.manager);
        if at >= self.floors.len() {
            return;
        }
        if notice.floor.is_higher_than(&self.floors[at]) {
            self.floors[at] = Some(notice.floor);
        }
    }

    /// Nothing was told any more.
    pub fn forget(&mut self)
        ensures { self.new ≡ replicate (length self.old) None }
    {
        self.floors.fill(None);
    }

    /// The least that was told of all of them; none, where one of them told none.
    pub fn least(&self) -> Option<Floor>
        ensures least { result ≡ least_of self.now }
        ensures told { (config : Config) → config.managers ≡ length self.now → result ≡ least_told config (told_at self.now) }
    {
        let len = self.floors.len();
        let mut least = None;
        for i in 0..len {
            let at = len - 1 - i;
            least = if i == 0 {
                self.floors[at]
            } else {
                lower_of(&self.floors[at], &least)
            };
        }
        least
    }
}
