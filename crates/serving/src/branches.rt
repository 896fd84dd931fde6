ghost use Rattle.serving.specs.ByNumber.{AreFound, AreTimed};

use crate::by_number::ByNumber;
use hashing::WordKey;
use indexmap::IndexMap;
use std::alloc::Global;
use std::time::Instant;
use xid::Xid;

/// What is known of a branch.
#[derive(Clone, Copy, Debug)]
pub(crate) struct Branch {
    /// Which client started it.
    pub(crate) client: u64,
    /// Whether it is active: it was started, and not ended.
    pub(crate) is_active: bool,
    /// When a client last touched it.
    pub(crate) touched: Instant,
}

/// The branches that clients have started at a resource manager, and that are active or ended.
#[derive(Debug, Drop)]
pub struct Branches {
    pub(crate) alloc: Global,
    pub(crate) named: IndexMap<Xid, Branch, WordKey>,
    pub(crate) began: Instant,
    pub(crate) started: ByNumber,
    pub(crate) touched: ByNumber,
    ghost found: { AreFound named started },
    ghost timed: { AreTimed began named touched },
}
