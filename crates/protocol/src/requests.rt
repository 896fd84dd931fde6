use wire::OwnedTx;
use xid::{Bytes, Xid};

/// What a client asks of a branch. Start, end and rollback are those of X/Open XA (C193), chapter "The xa.h Header"; keys and
/// values, of any length here, are this project's own.
///
/// A call that isn't done changes nothing: neither one that is refused, nor one that is answered a code of an error. Each may be
/// refused or answered as it says, and as `Request::Call` says.
#[derive(Debug, Drop)]
pub enum Action {
    /// Start the branch. Codes: the name is in use or spent (`DupId`).
    Start,
    /// Write a row. Codes: a wrong length (`Inval`), no such branch (`Nota`), the branch isn't active (`Proto`). Refused: another branch
    /// has touched the key (`Busy`); this one has touched as many as it may (`Full`).
    Put {
        /// The row's key.
        key: Bytes,
        /// What the row is to hold.
        value: Bytes,
    },
    /// Delete a row. Codes and refusals are those of a put.
    Del {
        /// The row's key.
        key: Bytes,
    },
    /// Read a row. Codes and refusals are those of a put, but `Busy` only where another branch has put or deleted the key.
    Get {
        /// The row's key.
        key: Bytes,
    },
    /// End the work of the branch. Codes: no such branch (`Nota`), the branch isn't active (`Proto`).
    End,
    /// End it with a failure: it may only be rolled back (`RbRollback`, and it is done). Other codes are those of an end.
    EndFail,
    /// Roll the branch back. Codes: no such branch (`Nota`), the branch wasn't ended, or is prepared (`Proto`).
    Rollback,
}

/// What a node is asked by a client or by its clock. A request that is refused changes nothing, but where a line below says otherwise.
#[derive(Debug, Drop)]
pub enum Request {
    /// Of a resource manager: a call on a branch. Where it is down: the code `RmFail`.
    Call {
        /// The branch.
        xid: Xid,
        /// What is asked of it.
        action: Action,
    },
    /// Of a resource manager: its prepared branches (xa_recover). Where it is down: the code `RmFail`.
    Recover,
    /// Of a resource manager: where it stands in a transaction. Where it is down: the code `RmFail`. Refused: the transaction names a
    /// resource manager outside the cluster, or doesn't name this one (`BadTx`).
    View {
        /// The transaction.
        tx: OwnedTx,
    },
    /// Of a leader: commit a transaction. Refused: the leader is down (`Down`); the transaction names a resource manager outside the
    /// cluster (`BadTx`).
    Commit {
        /// The transaction.
        tx: OwnedTx,
    },
    /// Of a leader: what it knows of a transaction. Refused as a commit is.
    Status {
        /// The transaction.
        tx: OwnedTx,
    },
    /// Of a leader or a resource manager: nothing was heard of a transaction for too long. Refused as a commit is; and at a leader that
    /// has no greater ballot (`NoBallot`), or whose append fails (`RecordFault`): nothing is sent, and the leader is down, its ballot
    /// stored where the whole frame was kept.
    Timeout {
        /// The transaction.
        tx: OwnedTx,
    },
}
