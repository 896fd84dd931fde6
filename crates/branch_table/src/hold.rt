//! How a key is held.

ghost use Rattle.std.specs.Prelude.{◌≡◌, ◌+◌, ◌-◌, ◌<◌, ◌^◌, ◌==◌, ◌&&◌};
ghost use Rattle.protocol.specs.Branches.{is_write as is_write_of};
ghost use Rattle.branch_table.specs.Parts.{free, hold_by, more_by};

use stable_record::Act;

/// How a key is held.
#[derive(Clone, Copy, Debug, PartialEq, Eq)]
pub struct Hold {
    /// How many branches have touched it.
    pub touched_by: u64,
    /// How many of them have put or deleted it.
    pub written_by: u64,
}

impl Hold {
    /// The hold of no branch.
    pub fn free() -> Hold
        ensures { result ≡ free }
    {
        Hold {
            touched_by: 0,
            written_by: 0,
        }
    }

    /// The hold of one branch whose last act on the key is this one.
    pub fn by(act: &Act) -> Hold
        ensures { result ≡ hold_by act.now }
    {
        Hold {
            touched_by: 1,
            written_by: u64::from(is_write(act)),
        }
    }

    /// What one more act on the key adds to the hold of one branch.
    pub fn more(self, act: &Act) -> Hold
        ensures { result ≡ more_by self act.now }
    {
        Hold {
            touched_by: u64::from(self.touched_by == 0),
            written_by: u64::from(is_write(act) && self.written_by == 0),
        }
    }

    /// With some holders more.
    pub fn and(self, more: Hold) -> Hold
        requires touched { self.touched_by + more.touched_by < 2 ^ 64 }
        requires written { self.written_by + more.written_by < 2 ^ 64 }
        ensures { result ≡ record { touched_by = self.touched_by + more.touched_by; written_by = self.written_by + more.written_by } }
    {
        Hold {
            touched_by: self.touched_by + more.touched_by,
            written_by: self.written_by + more.written_by,
        }
    }

    /// With some holders less.
    pub fn without(self, fewer: Hold) -> Hold
        ensures { result ≡ record { touched_by = self.touched_by - fewer.touched_by; written_by = self.written_by - fewer.written_by } }
    {
        Hold {
            touched_by: self.touched_by.saturating_sub(fewer.touched_by),
            written_by: self.written_by.saturating_sub(fewer.written_by),
        }
    }

    /// Whether no branch holds the key.
    pub fn is_free(self) -> bool
        ensures { result ≡ (self.touched_by == 0 && self.written_by == 0) }
    {
        self.touched_by == 0 && self.written_by == 0
    }
}

/// Whether an act writes.
fn is_write(act: &Act) -> bool
    ensures { result ≡ is_write_of act.now }
{
    matches!(act, Act::Put(_) | Act::Del)
}
