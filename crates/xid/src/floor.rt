ghost use Rattle.std.specs.Prelude.{◌≡◌, ◌≤◌, length, Some};
ghost use Rattle.xid.specs.Limits.{most_component};
ghost use Rattle.xid.specs.Places.{is_below, is_lower, is_xid_below};

use crate::branch_id::Xid;
use crate::component::Component;
use crate::transaction::Tx;
use std::marker::Model;

/// A place in the order of names, by format and then by gtrid. Where it is a node's floor, what stands below it is forgotten there.
#[derive(Clone, Copy, Debug)]
pub struct Floor {
    format: u32,
    gtrid: Component,
}

impl Model for Floor {
    ghost use Rattle.xid.specs.Places.{Place};

    ghost Value = { Place };

    ghost view = { λ f. record { format = f.format; gtrid = f.gtrid } };

    ghost inverse = { λ place. record { format = place.format; gtrid = place.gtrid } };
}

impl Floor {
    /// The place of a format and of at most 64 bytes, which may be none: all names of that format stand at or above it then.
    pub fn new(format: u32, gtrid: &[u8]) -> Floor
        requires { length gtrid.now ≤ most_component }
        ensures { result ≡ record { format = format; gtrid = gtrid.now } }
    {
        Floor {
            format,
            gtrid: Component::new(gtrid),
        }
    }

    /// Its format.
    pub fn format(&self) -> u32
        ensures { result ≡ self.now.format }
    {
        self.format
    }

    /// Its gtrid, at most 64 bytes.
    pub fn gtrid(&self) -> &[u8]
        ensures value { result.now ≡ self.now.gtrid }
        ensures few { length self.now.gtrid ≤ most_component }
    {
        self.gtrid.as_bytes()
    }

    /// Whether names of this format and this gtrid stand below it.
    pub fn is_above(&self, format: u32, gtrid: &[u8]) -> bool
        ensures { result ≡ is_lower (Some (record { format = format; gtrid = gtrid.now })) (Some self.now) }
    {
        format
            .cmp(&self.format)
            .then(gtrid.cmp(self.gtrid.as_bytes()))
            .is_lt()
    }

    /// Whether a transaction stands below it.
    pub fn is_above_tx(&self, tx: &Tx) -> bool
        ensures { result ≡ is_below (Some self.now) tx.now }
    {
        self.is_above(tx.format(), tx.gtrid())
    }

    /// Whether a branch stands below it.
    pub fn is_above_xid(&self, xid: &Xid) -> bool
        ensures { result ≡ is_xid_below (Some self.now) xid.now }
    {
        self.is_above(xid.format(), xid.gtrid())
    }

    /// Whether it is higher than another floor; any is higher than none.
    pub fn is_higher_than(&self, floor: &Option<Floor>) -> bool
        ensures { result ≡ is_lower floor.now (Some self.now) }
    {
        match floor {
            Some(floor) => self.is_above(floor.format(), floor.gtrid()),
            None => true,
        }
    }
}
