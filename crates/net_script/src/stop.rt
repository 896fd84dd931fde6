//! Why a text is not read.

ghost use Rattle.std.specs.Prelude.{◌≡◌};
ghost use Rattle.net_script.specs.Basics.{Memory};
ghost use Rattle.net_script.specs.Spelling.{or_none, at_line};

use std::alloc::{AllocError, AllocFailed};
use xid::Refusal;

/// Why nothing was read.
#[derive(Drop)]
pub enum Stop {
    /// No value has this text.
    Wrong,
    /// Memory ran out.
    Memory,
}

impl From<AllocError> for Stop {
    ghost from_gives = { λ _ e. e ≡ Memory };

    fn from(_error: AllocError) -> Stop {
        Stop::Memory
    }
}

impl<T: Drop> From<AllocFailed<T>> for Stop {
    ghost from_gives = { λ _ e. e ≡ Memory };

    fn from(_error: AllocFailed<T>) -> Stop {
        Stop::Memory
    }
}

/// What was found, or none where no value has the text.
pub(crate) fn or_none<X: Drop>(found: Result<X, Stop>) -> Result<Option<X>, Refusal>
    ensures { result ≡ or_none found }
{
    match found {
        Ok(value) => Ok(Some(value)),
        Err(Stop::Wrong) => Ok(None),
        Err(Stop::Memory) => Err(Refusal::NoMemory),
    }
}

/// What was found in the line of this number, or why the text is refused.
pub(crate) fn at_line<X: Drop>(line: usize, found: Result<X, Stop>) -> Result<X, Refusal>
    ensures { result ≡ at_line line found }
{
    match found {
        Ok(value) => Ok(value),
        Err(Stop::Wrong) => Err(Refusal::BadScript { line }),
        Err(Stop::Memory) => Err(Refusal::NoMemory),
    }
}
