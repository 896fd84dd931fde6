ghost use Rattle.std.specs.Prelude.{◌≡◌, ◌⊎◌, ◌≤◌, true, false, Some, length, is_some};
ghost use Rattle.std.specs.List.{All};
ghost use Rattle.xid.specs.Limits.{most_component};
ghost use Rattle.xid.specs.Names.{XidParts};
ghost use Rattle.xid.specs.Places.{is_below, is_lower, is_xid_below};
ghost use Rattle.serving.specs.Noted.{known};
ghost use Rattle.serving.specs.Times.{floor_above, floor_of, is_ahead, is_timely, lower, place_of, time_of};
ghost use Rattle.serving.specs.Times.{IsOfBranch, IsOfTx};

use crate::branches::Branches;
use xid::{Floor, Tx, Xid};

/// Names that begin with their times: six bytes of milliseconds since 1970 at the front of each gtrid.
#[derive(Clone, Copy, Debug, PartialEq, Eq)]
pub struct Times {
    /// The format of all names.
    pub format: u32,
    /// How many milliseconds a name's time may be ahead of the clock.
    pub ahead: u64,
    /// For how many milliseconds what a name stands for is kept; none where no floor rises by itself.
    pub keep: Option<u64>,
}

/// The time at the front of a gtrid, in milliseconds since 1970. None where there are too few bytes.
pub fn time_of(gtrid: &[u8]) -> Option<u64>
    ensures { result ≡ time_of gtrid.now }
{
    let [a, b, c, d, e, f, ..] = gtrid else {
        return None;
    };
    Some(u64::from_be_bytes([0, 0, *a, *b, *c, *d, *e, *f]))
}

/// A floor, or the place of a name where that is lower.
pub(crate) fn lower(floor: Floor, format: u32, gtrid: &[u8]) -> Floor
    requires { length gtrid.now ≤ most_component }
    ensures { result ≡ lower floor (record { format = format; gtrid = gtrid.now }) }
{
    if floor.is_above(format, gtrid) {
        Floor::new(format, gtrid)
    } else {
        floor
    }
}

impl Times {
    /// Whether a name may be begun at a time: it has the format and a time, and that isn't too far ahead.
    pub fn is_timely(&self, xid: &Xid, now: u64) -> bool
        ensures { result ≡ is_timely self.now xid.now now }
    {
        match time_of(xid.gtrid()) {
            Some(time) => xid.format() == self.format && time <= now.saturating_add(self.ahead),
            None => false,
        }
    }

    /// The floor that all names from a time on stand at or above.
    fn floor_at(&self, time: u64) -> Floor
        ensures { result ≡ place_of self.now time }
    {
        let bytes = time.to_be_bytes();
        Floor::new(self.format, &bytes[2..])
    }

    /// Whether a floor stands above all names of a time or before.
    pub fn is_ahead(&self, floor: &Floor, now: u64) -> bool
        ensures { result ≡ is_ahead self.now floor.now now }
    {
        floor.is_higher_than(&Some(self.floor_at(now)))
    }

    /// The lowest floor above all names that may be begun at a time.
    pub fn floor_above(&self, now: u64) -> Floor
        ensures { result ≡ floor_above self.now now }
    {
        self.floor_at(now.saturating_add(self.ahead).saturating_add(1))
    }

    /// To which place a resource manager's floor is to rise: so long before the clock's time, and before the latest name that was begun,
    /// that no name from before is kept. A clock that is wrong so raises no floor above the names in use. Floors are rounded down to halves
    /// of the time for which names are kept, so that all managers come to the same. None where no floor rises by itself.
    pub fn floor(&self, now: u64, latest: u64) -> Option<Floor>
        ensures { result ≡ floor_of self.now now latest }
    {
        let Some(keep) = self.keep else {
            return None;
        };
        let time = now.min(latest).saturating_sub(keep);
        let half = (keep / 2).max(1);
        Some(self.floor_at(time - time % half))
    }
}

/// How far a floor may rise that is to rise to a place: not above a branch that clients have begun, or one that is prepared.
pub fn held_back(floor: Floor, begun: &Branches, prepared: &[Tx]) -> Floor
    ensures wanted { is_lower (Some floor) (Some result) ≡ false }
    ensures begun { (x : XidParts) → is_some (known begun.now x) ≡ true → is_xid_below (Some result) x ≡ false }
    ensures prepared { All (λ tx. is_below (Some result) tx ≡ false) prepared.now }
    ensures is_one { (result ≡ floor) ⊎ IsOfBranch begun.now result ⊎ IsOfTx prepared.now result }
{
    let mut lowest = begun.held_back(floor);
    for tx in prepared {
        lowest = lower(lowest, tx.format(), tx.gtrid());
    }
    lowest
}
