use xid::{Ballot, ManagerNumber, Vote};

/// What a message says beside its transaction, seen over the bytes that spell it.
#[derive(Clone, Copy, Debug)]
pub enum Rest<'a> {
    /// As `Kind::Prepare`; each of these as the kind of its name.
    Prepare,
    P1a {
        instance: ManagerNumber,
        ballot: Ballot,
    },
    P1b {
        instance: ManagerNumber,
        ballot: Ballot,
        report: Option<(Ballot, Vote)>,
        acceptor: u8,
    },
    P2a {
        instance: ManagerNumber,
        ballot: Ballot,
        vote: Vote,
    },
    P2b {
        instance: ManagerNumber,
        ballot: Ballot,
        vote: Vote,
        acceptor: u8,
    },
    Commit,
    Abort,
    Ask {
        rm: ManagerNumber,
    },
    B1a {
        ballot: Ballot,
    },
    /// The items by the bytes that spell them.
    B1b {
        ballot: Ballot,
        acceptor: u8,
        reports: &'a [u8],
    },
    /// The items by the bytes that spell them.
    B2b {
        acceptor: u8,
        accepts: &'a [u8],
    },
}
