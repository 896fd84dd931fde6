//! The limits of the whole system, and the numbers that its parts are known by.

/// The number of a resource manager, and of the instance of consensus on its vote.
pub type ManagerNumber = u16;

/// The number of a ballot.
pub type Ballot = u32;

/// How many acceptors a cluster may have; their numbers are those below.
pub const MAX_ACCEPTORS: u8 = 7;

/// How many leaders a cluster may have; their numbers are those below.
pub const MAX_LEADERS: u8 = 4;

/// How many resource managers a cluster may have; their numbers are those below.
pub const MAX_MANAGERS: ManagerNumber = 64;

/// How many branches a transaction may have.
pub const MAX_BRANCHES: usize = 16;

/// How many bytes a gtrid or a bqual may have.
pub const MAX_COMPONENT: usize = 64;

/// How many formats there are; they are the numbers below.
pub const FORMATS: u32 = 1 << 31;

/// How many bytes a key may have.
pub const MAX_KEY: usize = 64;

/// How many bytes a value may have.
pub const MAX_VALUE: usize = 256;

/// How many keys a branch may touch.
pub const MAX_TOUCHED: usize = 64;
