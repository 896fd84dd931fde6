/// How far a branch has come, after X/Open XA (C193), chapter "State Tables".
#[derive(Clone, Copy, Debug, PartialEq, Eq)]
pub enum BranchState {
    /// It was started: calls on keys are done in it.
    Active,
    /// It was ended, and may be rolled back.
    Idle,
    /// It was ended as failed: it can only be rolled back.
    RollbackOnly,
    /// Its resource manager voted prepared: it waits for the outcome of its transaction.
    Prepared,
}

/// Where a resource manager stands in a transaction (Gray and Lamport, "Consensus on Transaction Commit", section 2).
#[derive(Clone, Copy, Debug, PartialEq, Eq)]
pub enum View {
    /// It has stored neither a vote nor an outcome.
    Working,
    /// It voted prepared, and has learned no outcome.
    Prepared,
    /// It has learned that the transaction is committed.
    Committed,
    /// It voted aborted, or has learned that the transaction is aborted.
    Aborted,
}

/// What a leader knows of a transaction.
#[derive(Clone, Copy, Debug, PartialEq, Eq)]
pub enum Status {
    /// It has not heard of it.
    Unknown,
    /// It has met it by a commit call, a timeout, a phase 2b message or a question, or has begun a ballot of it, and knows no decision.
    Undecided,
    /// All instances have decided prepared.
    Committed,
    /// Some instance has decided aborted.
    Aborted,
}

/// Where a transaction stands, as it is answered: by a leader one of its statuses, by a resource manager one of its views. Each is
/// printed as one word.
#[derive(Clone, Copy, Debug, PartialEq, Eq)]
pub enum Standing {
    /// `unknown`, of a leader.
    Unknown,
    /// `undecided`, of a leader.
    Undecided,
    /// `working`, of a resource manager.
    Working,
    /// `prepared`, of a resource manager.
    Prepared,
    /// `committed`, of either.
    Committed,
    /// `aborted`, of either.
    Aborted,
}
