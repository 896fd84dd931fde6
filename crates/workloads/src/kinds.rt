//! The kinds of scripts that are run, and how many transactions of each.
use crate::scripts::Shape;

/// Three acceptors, two leaders and three resource managers; eight transactions at a time, of a few keys each.
pub const COMMIT: Shape = Shape {
    acceptors: 3,
    leaders: 2,
    managers: 3,
    bundled: false,
    branches: 3,
    at_once: 8,
    calls: 3,
    accounts: 100_000,
    is_long: false,
};

/// The same, bundled, and of fewer keys, so that some calls find a key held.
pub const BUNDLED: Shape = Shape {
    bundled: true,
    accounts: 500,
    ..COMMIT
};

/// Sixteen branches at some of sixty-four resource managers, with long names.
pub const WIDE: Shape = Shape {
    acceptors: 5,
    leaders: 2,
    managers: 64,
    bundled: false,
    branches: 16,
    at_once: 4,
    calls: 2,
    accounts: 100_000,
    is_long: true,
};

/// One transaction at a time that touches sixty keys, most of them new.
pub const ROWS: Shape = Shape {
    acceptors: 1,
    leaders: 1,
    managers: 1,
    bundled: false,
    branches: 1,
    at_once: 1,
    calls: 60,
    accounts: 10_000_000,
    is_long: false,
};

/// Two resource managers, at which all branches are open at once.
pub const OPEN: Shape = Shape {
    acceptors: 3,
    leaders: 1,
    managers: 2,
    bundled: false,
    branches: 2,
    at_once: 1_000_000,
    calls: 3,
    accounts: 10_000_000,
    is_long: false,
};

/// Take-overs of eight transactions, whose nodes fail.
pub const FAILING: Shape = Shape {
    acceptors: 3,
    leaders: 2,
    managers: 3,
    bundled: false,
    branches: 3,
    at_once: 8,
    calls: 3,
    accounts: 1_000,
    is_long: false,
};

/// The same, bundled.
pub const FAILING_BUNDLED: Shape = Shape {
    bundled: true,
    ..FAILING
};

/// A kind of script whose transactions all go well, and how many it has.
#[derive(Clone, Copy)]
pub struct Steady {
    /// What its cluster is like.
    pub shape: Shape,
    /// How many transactions it has.
    pub transactions: u32,
}

/// The kinds of long scripts.
pub const STEADY: [Steady; 5] = [
    Steady {
        shape: COMMIT,
        transactions: 1_600,
    },
    Steady {
        shape: BUNDLED,
        transactions: 1_600,
    },
    Steady {
        shape: WIDE,
        transactions: 160,
    },
    Steady {
        shape: ROWS,
        transactions: 600,
    },
    Steady {
        shape: OPEN,
        transactions: 3_000,
    },
];

impl Steady {
    /// The same with fewer transactions, all of them open at once where they were.
    pub fn fewer(self, parts: u32) -> Steady {
        let transactions = (self.transactions / parts.max(1)).max(8);
        Steady {
            shape: Shape {
                at_once: self.shape.at_once.min(transactions),
                ..self.shape
            },
            transactions,
        }
    }
}
