use xid::{MAX_BRANCHES, MAX_COMPONENT};

/// The version of the grammar of messages, the first byte of each.
pub const VERSION: u8 = 2;

/// A version of the formats, by its number. Messages have the second alone; records may hold what the first wrote.
#[derive(Clone, Copy, Debug, PartialEq, Eq)]
pub enum VersionNumber {
    /// The first, for 8 resource managers.
    First,
    /// The second, for 64.
    Second,
}

/// How many bytes the number of a resource manager has.
pub(crate) const RM_BYTES: usize = 2;

/// How many bytes a ballot or a format has.
pub(crate) const NUMBER_BYTES: usize = 4;

/// How many bytes a gtrid or a bqual has at most, with its length.
pub(crate) const MAX_COMPONENT_BYTES: usize = 1 + MAX_COMPONENT;

/// How many bytes a branch has at most: its resource manager and its bqual.
pub(crate) const MAX_BRANCH_BYTES: usize = RM_BYTES + MAX_COMPONENT_BYTES;

/// How many bytes branches have at most: how many there are, and each.
pub(crate) const MAX_BRANCHES_BYTES: usize = 1 + MAX_BRANCHES * MAX_BRANCH_BYTES;

/// How many bytes a transaction has at most: format, gtrid and branches.
pub const MAX_TX_BYTES: usize = NUMBER_BYTES + MAX_COMPONENT_BYTES + MAX_BRANCHES_BYTES;

/// How many bytes a report has: a ballot and a vote.
pub(crate) const REPORT_BYTES: usize = NUMBER_BYTES + 1;

/// How many bytes an item of a bundle has: an instance, and a ballot and a vote.
pub(crate) const ITEM_BYTES: usize = RM_BYTES + REPORT_BYTES;

/// How many bytes the items of a bundle have at most, with their count.
pub(crate) const MAX_ITEMS_BYTES: usize = 1 + MAX_BRANCHES * ITEM_BYTES;

/// How many bytes follow the transaction at most: those of a bundle of phase 1b, a ballot, an acceptor and items.
pub(crate) const MAX_REST_BYTES: usize = NUMBER_BYTES + 1 + MAX_ITEMS_BYTES;

/// How many bytes a message has at most: version, kind, transaction and what follows it.
pub const MAX_MESSAGE_BYTES: usize = 2 + MAX_TX_BYTES + MAX_REST_BYTES;

/// How many bytes a datagram has at most.
pub const MAX_DATAGRAM: usize = 1400;
