//! Why a line isn't answered.

use hex::FromHexError;
use std::alloc::{AllocError, AllocFailed};
use std::io;
use xid::Refusal;

/// Why a line isn't answered.
#[derive(Debug, Drop)]
pub enum Stop {
    /// The part was refused memory, and stands as before the line.
    Wanted,
    /// The line is no call of the part.
    Unread,
    /// The part can't begin, which the page says.
    Refused,
    /// This program was refused memory, or couldn't read or write.
    Ended,
}

impl From<AllocError> for Stop {
    fn from(_error: AllocError) -> Stop {
        Stop::Ended
    }
}

impl<T: Drop> From<AllocFailed<T>> for Stop {
    fn from(_error: AllocFailed<T>) -> Stop {
        Stop::Ended
    }
}

impl From<io::Error> for Stop {
    fn from(_error: io::Error) -> Stop {
        Stop::Ended
    }
}

impl From<Refusal> for Stop {
    fn from(refusal: Refusal) -> Stop {
        match refusal {
            Refusal::NoMemory => Stop::Ended,
            _ => Stop::Unread,
        }
    }
}

impl From<FromHexError> for Stop {
    fn from(error: FromHexError) -> Stop {
        match error {
            FromHexError::OutOfMemory => Stop::Ended,
            _ => Stop::Unread,
        }
    }
}

/// What a part gave that may be refused memory alone.
pub fn wanted<T>(given: Result<T, Refusal>) -> Result<T, Stop> {
    match given {
        Ok(value) => Ok(value),
        Err(_) => Err(Stop::Wanted),
    }
}
