ghost use Rattle.std.specs.Prelude.{◌≡◌};
ghost use Rattle.xid.specs.Refusals.{number_of};
ghost use Rattle.xid.specs.declared.refusals.Refusal.TheVariants.{NoMemory};

use std::alloc::{AllocError, AllocFailed};
use thiserror::Error;

/// Why a call was refused. Each refusal has a number, which is what traces and the program print.
#[derive(Clone, Copy, Debug, PartialEq, Eq, Error)]
pub enum Refusal {
    /// 1: no XID has these parts, or this text.
    #[error("refused 1")]
    BadXid,
    /// 2: no transaction has these parts, or this text; or it names a resource manager that isn't there.
    #[error("refused 2")]
    BadTx,
    /// 3: the bytes spell no message.
    #[error("refused 3")]
    BadMessage,
    /// 4: a record holds something that is no list of facts, or facts that don't play. The node is down.
    #[error("refused 4")]
    Damaged,
    /// 5: a call of the record failed. The node is down; a fact is stored where its whole frame was kept.
    #[error("refused 5")]
    RecordFault,
    /// 6: the leader owns no greater ballot. Nothing changed.
    #[error("refused 6")]
    NoBallot,
    /// 7: the first line, counted from 1, that is not as a script or a trace has it. Nothing was run.
    #[error("refused 7 line {line}")]
    BadScript {
        /// The line at fault.
        line: usize,
    },
    /// 8: the node is down, and stays so until it is restarted.
    #[error("refused 8")]
    Down,
    /// 9: another branch holds the key: has put or deleted it, or, for a put or del, has touched it. Nothing changed.
    #[error("refused 9")]
    Busy,
    /// 10: the branch has touched as many keys as a branch may. Nothing changed.
    #[error("refused 10")]
    Full,
    /// 11: memory ran out. What was asked didn't happen; a node at which it ran out is down.
    #[error("refused 11")]
    NoMemory,
    /// 12: a socket failed.
    #[error("refused 12")]
    PortFault,
    /// 13: sizes or lengths outside the limits.
    #[error("refused 13")]
    BadConfig,
    /// 14: bytes given as noise spell a message.
    #[error("refused 14")]
    Forged,
    /// 15: there is no such node, no such datagram, or nothing of that kind at this node.
    #[error("refused 15")]
    NoSuch,
    /// 16: a file can't be opened, read or written.
    #[error("refused 16")]
    FileFault,
    /// 17: the transaction is below the node's floor, which knows nothing of it any more. Nothing changed.
    #[error("refused 17")]
    Forgotten,
    /// 18: the node has stored something about a name at or above the floor that was asked for. Nothing changed.
    #[error("refused 18")]
    InUse,
}

impl Refusal {
    /// The number that is printed, 1 to 18.
    pub fn number(self) -> u8
        ensures { result ≡ number_of self }
    {
        match self {
            Refusal::BadXid => 1,
            Refusal::BadTx => 2,
            Refusal::BadMessage => 3,
            Refusal::Damaged => 4,
            Refusal::RecordFault => 5,
            Refusal::NoBallot => 6,
            Refusal::BadScript { .. } => 7,
            Refusal::Down => 8,
            Refusal::Busy => 9,
            Refusal::Full => 10,
            Refusal::NoMemory => 11,
            Refusal::PortFault => 12,
            Refusal::BadConfig => 13,
            Refusal::Forged => 14,
            Refusal::NoSuch => 15,
            Refusal::FileFault => 16,
            Refusal::Forgotten => 17,
            Refusal::InUse => 18,
        }
    }
}

impl From<AllocError> for Refusal {
    ghost from_gives = { λ _ e. e ≡ NoMemory };

    fn from(_error: AllocError) -> Refusal {
        Refusal::NoMemory
    }
}

impl<T: Drop> From<AllocFailed<T>> for Refusal {
    ghost from_gives = { λ _ e. e ≡ NoMemory };

    fn from(_error: AllocFailed<T>) -> Refusal {
        Refusal::NoMemory
    }
}
