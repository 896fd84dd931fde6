//! On what terms the lines of clients are taken.

ghost use Rattle.std.specs.Prelude.{◌≡◌, false};
ghost use Rattle.std.specs.Option.{option_and_then, option_map_or};
ghost use Rattle.serving.specs.Times.{floor_of, is_ahead};
ghost use Rattle.serving.specs.Taking.{is_late, is_untimely};

use crate::proving::Lock;
use crate::times::Times;
use protocol::NodeId;
use xid::{Floor, Xid};

/// On what terms the lines of clients are taken.
#[derive(Debug, Drop)]
pub struct Terms {
    /// Whose clients they are.
    pub who: NodeId,
    /// What clients have to prove first, if they do.
    pub lock: Option<Lock>,
    /// How names stand in time, at a resource manager where they do.
    pub times: Option<Times>,
    /// Milliseconds since 1970 by the system's clock, where names stand in time.
    pub clock: u64,
    /// The latest time of a name that was begun here since the process began, 0 for none.
    pub latest: u64,
    /// Whether the node speaks for a database beside it, and so raises no floor by itself.
    pub is_beside: bool,
}

impl Terms {
    /// To where a floor is to rise by the clock and the latest name, where names stand in time.
    pub fn wanted_floor(&self) -> Option<Floor>
        ensures { result ≡ option_and_then (λ times. floor_of times self.now.clock self.now.latest) self.now.times }
    {
        match &self.times {
            Some(times) => times.floor(self.clock, self.latest),
            None => None,
        }
    }

    /// Whether a floor is higher than the clock's place, where names stand in time.
    pub fn is_ahead(&self, floor: &Floor) -> bool
        ensures { result ≡ option_map_or (λ times. is_ahead times floor.now self.now.clock) self.now.times false }
    {
        match &self.times {
            Some(times) => times.is_ahead(floor, self.clock),
            None => false,
        }
    }

    /// Whether a start is refused, of a name that isn't of its time.
    pub(crate) fn is_untimely(&self, xid: &Xid) -> bool
        ensures { result ≡ is_untimely self.now xid.now }
    {
        match &self.times {
            Some(times) => !times.is_timely(xid, self.clock),
            None => false,
        }
    }

    /// Whether a start is answered as below the floor: names stand in time, and this one is below the place that was promised.
    pub(crate) fn is_late(&self, promised: &Option<Floor>, xid: &Xid) -> bool
        ensures { result ≡ is_late self.now promised.now xid.now }
    {
        match (&self.times, promised) {
            (Some(_), Some(place)) => place.is_above_xid(xid),
            _ => false,
        }
    }
}

/// The higher of two places; none is the lowest.
pub(crate) fn higher(one: Option<Floor>, other: Option<Floor>) -> Option<Floor> {
    match other {
        Some(place) if place.is_higher_than(&one) => other,
        _ => one,
    }
}
