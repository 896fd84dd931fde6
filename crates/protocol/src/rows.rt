ghost use Rattle.std.specs.Cmp.{partial_order_from_own_ties};
ghost use Rattle.std.specs.Cmp.Rules.{comparing};
ghost use Rattle.std.specs.Ordering.{as_partial_cmp};
ghost use Rattle.std.proofs.Common.{rules};
ghost use Rattle.protocol.specs.Rows.{row_eq, row_cmp};

use std::cmp::Ordering;
use xid::Bytes;

/// A row of a table: its key and its value. Rows are in the order of their keys, byte by byte, and then of their values.
#[derive(Debug, Drop)]
pub struct Row {
    /// Its key.
    pub key: Bytes,
    /// Its value.
    pub value: Bytes,
}

impl PartialEq for Row {
    ghost eq = { row_eq };

    ghost laws = { Prim.search (comparing, rules) };

    fn eq(&self, other: &Row) -> bool {
        self.key.as_slice() == other.key.as_slice()
            && self.value.as_slice() == other.value.as_slice()
    }
}

impl Eq for Row {
    ghost laws = { Prim.search (comparing, rules) };
}

impl Ord for Row {
    ghost cmp = { row_cmp };

    ghost total = { Prim.search (comparing, rules) };

    ghost matches_partial_cmp = { Prim.search (comparing, rules) };

    ghost matches_eq = { Prim.search (comparing, rules) };

    fn cmp(&self, other: &Row) -> Ordering {
        self.key
            .as_slice()
            .cmp(other.key.as_slice())
            .then(self.value.as_slice().cmp(other.value.as_slice()))
    }
}

impl PartialOrd for Row {
    ghost partial_cmp = { as_partial_cmp row_cmp };

    ghost laws = { partial_order_from_own_ties (Prim.search (comparing, rules)) (Prim.search (comparing, rules)) };

    fn partial_cmp(&self, other: &Row) -> Option<Ordering> {
        Some(self.cmp(other))
    }
}
