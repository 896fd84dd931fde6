use crate::commands::Commands;
use protocol::{Answer, Change, Event, NodeId, Row, Sent, Step};
use xid::Sequence;

/// The first rows of a resource manager.
#[derive(Debug, Drop)]
pub struct Table {
    /// The number of the resource manager.
    pub rm: u8,
    /// Its rows, with distinct keys: in a script keys of 1 to 64 bytes, and values of at most 256.
    pub rows: Sequence<Row>,
}

/// How many nodes of each kind there are, and how they speak. A script may say any numbers of 32 bits.
#[derive(Clone, Copy, Debug, PartialEq, Eq)]
pub struct Sizes {
    /// Acceptors.
    pub acceptors: u32,
    /// Leaders.
    pub leaders: u32,
    /// Resource managers.
    pub rms: u32,
    /// Whether one datagram carries all instances of a transaction in phases 1a, 1b and 2b.
    pub bundled: bool,
}

/// What a script asks for.
#[derive(Debug, Drop)]
pub enum Command {
    /// An event.
    Do(Event),
    /// Deliveries, at most so many, each of the datagram of least number that isn't marked, until there is none.
    Flow(u32),
}

/// A cluster, what its tables hold at first, and what happens to it.
#[derive(Debug, Drop)]
pub struct Script {
    /// The cluster.
    pub sizes: Sizes,
    /// At most one table for a resource manager of the cluster.
    pub tables: Sequence<Table>,
    /// What is asked for, in order.
    pub commands: Commands,
}

/// What a trace tells of, and what came of it.
#[derive(Debug, Drop)]
pub enum Entry {
    /// An event.
    Step(Step),
    /// Over sockets: a node took a datagram that had come for it, or its socket failed.
    Serve {
        /// The node.
        node: NodeId,
        /// What came of it.
        answer: Answer,
        /// The view that it changed, if it changed one.
        now: Option<Change>,
        /// The datagrams that it sent, in order.
        sent: Sequence<Sent>,
    },
}

/// A run of a script.
#[derive(Debug, Drop)]
pub struct Trace {
    /// The cluster.
    pub sizes: Sizes,
    /// The first tables.
    pub tables: Sequence<Table>,
    /// What happened, in order, and what came of it.
    pub entries: Sequence<Entry>,
    /// What the table of each resource manager holds at the end, from resource manager 0 on.
    pub finals: Sequence<Sequence<Row>>,
}
