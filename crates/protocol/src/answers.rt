use crate::states::Standing;
use xid::{Bytes, Refusal, Sequence, XaCode, Xid};

/// What an event is answered: one value for each text that is printed.
#[derive(Debug, Drop)]
pub enum Answer {
    /// Done, or nothing was to be done.
    Done,
    /// A return code of a client call.
    Code(XaCode),
    /// The value that a get found.
    Value(Bytes),
    /// A get found no row of its key.
    NoValue,
    /// The prepared branches.
    Xids(Sequence<Xid>),
    /// Where a transaction stands.
    Stands(Standing),
    /// A refusal.
    Refused(Refusal),
}
