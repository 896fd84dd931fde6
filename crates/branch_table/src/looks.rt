//! How much the ends of branches have looked at.

ghost use Rattle.std.specs.Prelude.{◌≡◌};
ghost use Rattle.branch_table.specs.Outcomes.{looks_after};

use std::marker::Model;

/// A count of looks, which stays at its greatest value.
#[derive(Debug, Drop)]
pub struct Looks {
    count: u64,
}

impl Model for Looks {
    ghost use Rattle.std.specs.Prelude.{ℕ};

    ghost Value = { ℕ };

    ghost view = { λ looks. looks.count };
}

impl Looks {
    /// None yet.
    pub fn new() -> Looks
        ensures { result ≡ 0 }
    {
        Looks { count: 0 }
    }

    /// How many there are.
    pub fn count(&self) -> u64
        ensures { result ≡ self.now }
    {
        self.count
    }

    /// So many more.
    pub fn add(&mut self, more: u64)
        ensures { self.new ≡ looks_after self.old more }
    {
        self.count = self.count.saturating_add(more);
    }
}
