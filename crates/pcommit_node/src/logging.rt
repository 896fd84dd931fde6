//! Where the program's log goes.

use log::sink::Console;
use log::{LevelFilter, Logged};

/// The runtime, with a log on the standard error.
pub(crate) type Logger = Logged<HostRuntime, Console<HostRuntime>>;

/// A log of records up to a level.
pub(crate) fn logger(rt: HostRuntime, level: LevelFilter) -> Logger {
    Logged::new(rt, level, Console(rt))
}
