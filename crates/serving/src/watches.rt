ghost use Rattle.std.specs.Prelude.{◌≡◌, vec_len};
ghost use Rattle.serving.specs.Watching.{AreKept, AreNamed, AreSpelled};

use crate::queue::Queue;
use crate::schedule::Schedule;
use crate::watched::Watch;
use hashing::WordKey;
use indexmap::IndexMap;
use slab::Slab;
use std::alloc::Global;
use xid::Tx;

/// Transactions that are to be asked after while they aren't final, again and again, after the delays of a schedule.
#[derive(Debug, Drop)]
pub struct Watches {
    pub(crate) alloc: Global,
    pub(crate) schedule: Schedule,
    pub(crate) watched: Slab<Watch>,
    pub(crate) keys: IndexMap<Vec<u8>, usize, WordKey>,
    // one for each turn, so that in each they stand by when they are due
    pub(crate) queues: Vec<Queue>,
    ghost turns: { vec_len queues ≡ 24 },
    ghost kept: { AreKept watched queues.items },
    ghost spelled: { AreSpelled watched },
    ghost named: { AreNamed watched keys.entries },
}

/// A transaction that is due, and at which turn.
#[derive(Clone, Copy, Debug)]
pub struct Due {
    /// The transaction.
    pub tx: Tx,
    /// The number of its turn.
    pub turn: usize,
}
