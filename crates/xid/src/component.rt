ghost use Rattle.std.specs.Prelude.{◌≡◌, ℕ, ◌≤◌, length, take, ◌==◌};
ghost use Rattle.std.specs.Cmp.Lexicographic.{slice_cmp, pointwise};
ghost use Rattle.std.specs.Cmp.{partial_order_from_own_ties};
ghost use Rattle.std.specs.Cmp.Rules.{comparing, hashing};
ghost use Rattle.std.specs.Ordering.{nat_cmp, as_partial_cmp};
ghost use Rattle.std.specs.Hash as fed;
ghost use Rattle.std.proofs.Common.{rules};
ghost use Rattle.xid.specs.Limits.{most_component};
ghost use Rattle.xid.specs.Padding.{Padded};

use crate::limits::MAX_COMPONENT;
use std::cmp::Ordering;
use std::hash::{Hash, Hasher};
use std::marker::Model;

/// A gtrid or a bqual, with its bytes in place. What is past its length is zero.
#[derive(Clone, Copy, Debug)]
pub struct Component {
    len: u8,
    bytes: [u8; MAX_COMPONENT],
}

impl Model for Component {
    ghost use Rattle.std.specs.Prelude.{List, ℕ, ◌++◌, ◌-◌, length, replicate, take};
    ghost use Rattle.xid.specs.Padding.{Padded, padded, length-shown, padded-shown};

    ghost Value = { List ℕ };

    ghost view = { λ c. take c.len c.bytes };

    ghost invariant = { λ c. Padded c.len c.bytes };

    ghost inverse = { λ xs. record { len = length xs; bytes = padded xs } };

    ghost inverse_ok = { λ c ok i. record { len = length-shown c.len c.bytes ok i; bytes = padded-shown c.len c.bytes ok i } };
}

impl Component {
    /// The bytes as a component.
    pub fn new(bytes: &[u8]) -> Component
        requires { length bytes.now ≤ most_component }
        ensures { result ≡ bytes.now }
    {
        let mut all = [0; MAX_COMPONENT];
        all[..bytes.len()].copy_from_slice(bytes);
        Component {
            len: bytes.len() as u8,
            bytes: all,
        }
    }

    /// The first bytes of an array as a component; the others are zero.
    pub(crate) fn of_padded(len: usize, bytes: [u8; MAX_COMPONENT]) -> Component
        requires { Padded len bytes }
        ensures { result ≡ take len bytes }
    {
        Component {
            len: len as u8,
            bytes,
        }
    }

    /// Its bytes.
    pub fn as_bytes(&self) -> &[u8]
        ensures bytes { result.now ≡ self.now }
        ensures few { length self.now ≤ most_component }
    {
        &self.bytes[..self.len as usize]
    }
}

impl PartialEq for Component {
    ghost eq = { pointwise ◌==◌ };

    ghost laws = { Prim.search (comparing, rules) };

    fn eq(&self, other: &Component) -> bool {
        self.as_bytes() == other.as_bytes()
    }
}

impl Eq for Component {
    ghost laws = { Prim.search (comparing, rules) };
}

impl Ord for Component {
    ghost cmp = { slice_cmp nat_cmp };

    ghost total = { Prim.search (comparing, rules) };

    ghost matches_partial_cmp = { Prim.search (comparing, rules) };

    ghost matches_eq = { Prim.search (comparing, rules) };

    fn cmp(&self, other: &Component) -> Ordering {
        self.as_bytes().cmp(other.as_bytes())
    }
}

impl PartialOrd for Component {
    ghost partial_cmp = { as_partial_cmp (slice_cmp nat_cmp) };

    ghost laws = { partial_order_from_own_ties (Prim.search (comparing, rules)) (Prim.search (comparing, rules)) };

    fn partial_cmp(&self, other: &Component) -> Option<Ordering> {
        Some(self.cmp(other))
    }
}

impl Hash for Component {
    ghost use Rattle.xid.specs.Names.{component_fed};
    ghost use Rattle.xid.specs.Comparing.{component_alike};

    ghost hash_input = { component_fed };

    ghost respects_eq = { component_alike.fed };

    fn hash<H: Hasher>(&self, state: &mut H) {
        state.write_usize(self.len as usize);
        state.write(self.as_bytes());
    }
}
