//! The command line, read by clap.

ghost use Rattle.std.specs.Prelude.{◌≡◌, false, map, IfOk, IfErr, IfSome, IfNone};
ghost use Rattle.clap.specs.Words.{app_of, found_of, rows_of, rule_of};
ghost use Rattle.udp_edge.specs.CommandLines.{AsksFor, RejectsLine, RejectsBy, Says, SaysNothing};
ghost use Rattle.udp_edge.specs.CommandLines.{command_line, position_rule};
ghost use Rattle.udp_edge.specs.declared.command.Rejected.TheVariants.{NoMemory};

use clap::error::ErrorKind;
use clap::{Arg, ArgAction, ArgMatches, Command};
use std::alloc::{AllocError, AllocFailed, Global};
use std::convert::AsStr;
use std::io;

/// What a command line asks for.
#[derive(Clone, Copy, Debug, PartialEq, Eq)]
pub enum Subcommand<'a> {
    /// Run a script and print its trace.
    Run {
        /// The script's path.
        file: &'a str,
    },
    /// Run a script over sockets, its nodes over the records in a folder, and print its trace.
    Udp {
        /// The script's path.
        file: &'a str,
        /// The folder's path.
        folder: &'a str,
    },
    /// Say whether a trace keeps what was promised.
    Audit {
        /// The trace's path.
        file: &'a str,
    },
}

/// Why a command line isn't carried out.
#[derive(Clone, Copy, Debug, PartialEq, Eq)]
pub enum Rejected {
    /// It is none of the program's, it asks for help, or a word of it is no text.
    Usage,
    /// Memory ran out.
    NoMemory,
}

impl From<AllocError> for Rejected {
    ghost from_gives = { λ _ e. e ≡ NoMemory };

    fn from(_error: AllocError) -> Rejected {
        Rejected::NoMemory
    }
}

impl<T: Drop> From<AllocFailed<T>> for Rejected {
    ghost from_gives = { λ _ e. e ≡ NoMemory };

    fn from(_error: AllocFailed<T>) -> Rejected {
        Rejected::NoMemory
    }
}

impl From<io::Error> for Rejected {
    ghost from_gives = { RejectsBy };

    fn from(error: io::Error) -> Rejected {
        match error.kind() {
            io::ErrorKind::OutOfMemory => Rejected::NoMemory,
            _ => Rejected::Usage,
        }
    }
}

/// Reads a command line, the program's own name first: `run FILE`, `udp FILE DIR` or `audit FILE`, as a command of `clap`. Refused for
/// want of memory, and where the words are none of the program's.
pub fn action<'a, S: AsStr>(alloc: Global, words: &'a [S]) -> Result<Subcommand<'a>, Rejected>
    ensures ok { IfOk result (AsksFor (map S.text words.entry.now)) }
    ensures err { IfErr result (RejectsLine (map S.text words.entry.now)) }
{
    let matches = match program_command(alloc)?.try_get_matches_from(words) {
        Ok(matches) => matches,
        Err(error) => {
            return Err(match error.kind() {
                ErrorKind::OutOfMemory => Rejected::NoMemory,
                _ => Rejected::Usage,
            });
        }
    };
    let Some((name, positions)) = matches.subcommand() else {
        return Err(Rejected::Usage);
    };
    let wanted = asked(name, positions);
    match wanted {
        Some(subcommand) => Ok(subcommand),
        None => Err(Rejected::Usage),
    }
}

/// What a subcommand of this name asks for, by its positions.
fn asked<'a>(name: &str, positions: &ArgMatches<'a>) -> Option<Subcommand<'a>>
    ensures some { IfSome result (Says name.now (rows_of (found_of positions.now))) }
    ensures none { IfNone result (SaysNothing name.now (rows_of (found_of positions.now))) }
{
    let file = positions.get_str("FILE")?;
    match name {
        "run" => Some(Subcommand::Run { file }),
        "udp" => Some(Subcommand::Udp {
            file,
            folder: positions.get_str("DIR")?,
        }),
        "audit" => Some(Subcommand::Audit { file }),
        _ => None,
    }
}

/// A position that must be given.
fn position<'a>(alloc: Global, name: &'a str) -> Arg<'a>
    ensures rule { rule_of result ≡ position_rule name.entry.now }
    ensures local { result.global ≡ false }
{
    Arg::new(alloc, name).required(true).action(ArgAction::Set)
}

/// The program's command lines.
fn program_command<'a>(alloc: Global) -> Result<Command<'a>, Rejected>
    ensures ok { IfOk result (λ command. app_of command ≡ command_line) }
    ensures err { IfErr result (λ e. e ≡ NoMemory) }
{
    let first = Command::new(alloc, "run").arg(position(alloc, "FILE"))?;
    let with_file = Command::new(alloc, "udp").arg(position(alloc, "FILE"))?;
    let second = with_file.arg(position(alloc, "DIR"))?;
    let third = Command::new(alloc, "audit").arg(position(alloc, "FILE"))?;
    let named = Command::new(alloc, "pcommit").subcommand_required(true);
    let with_first = named.subcommand(first)?;
    let with_second = with_first.subcommand(second)?;
    let command = with_second.subcommand(third)?;
    Ok(command)
}
