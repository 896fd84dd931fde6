//! The command line, read by clap.

use crate::failure::Failure;
use clap::error::ErrorKind;
use clap::{Arg, ArgAction, ArgMatches, Command};
use log::LevelFilter;
use std::alloc::{AllocError, Global};
use std::convert::AsStr;

/// From which place on in the order of names a blank node takes part that stands in for a lost one.
#[derive(Clone, Copy, Debug)]
pub enum Replacement<'a> {
    /// From this one on, FORMAT:GTRID.
    From(&'a str),
    /// From the first one on that is too far ahead of the clock to be begun now.
    Ahead,
}

/// What the command line says.
#[derive(Clone, Copy, Debug)]
pub struct Options<'a> {
    /// The path of the cluster's file.
    pub(crate) file: &'a str,
    /// The name of the node.
    pub name: &'a str,
    /// The folder of its record.
    pub(crate) folder: &'a str,
    /// What is logged.
    pub level: LevelFilter,
    /// Where a blank record is to begin that stands in for a lost one, if it is to be made.
    pub replacement: Option<Replacement<'a>>,
}

/// A position that must be given.
fn position<'a>(alloc: Global, name: &'a str) -> Arg<'a> {
    Arg::new(alloc, name).required(true).action(ArgAction::Set)
}

/// The program's command lines.
fn program_command<'a>(alloc: Global) -> Result<Command<'a>, AllocError> {
    let level = Arg::new(alloc, "log").long("log").action(ArgAction::Set);
    let ahead = Arg::new(alloc, "replace")
        .long("replace")
        .action(ArgAction::SetTrue);
    let from = Arg::new(alloc, "replace-from")
        .long("replace-from")
        .action(ArgAction::Set);
    let named = Command::new(alloc, "pcommit_node").arg(level)?;
    let replacing = named.arg(ahead)?.arg(from)?;
    let with_file = replacing.arg(position(alloc, "CLUSTER"))?;
    let with_name = with_file.arg(position(alloc, "NAME"))?;
    with_name.arg(position(alloc, "DIR"))
}

/// The level of a word.
fn level_named(word: &str) -> Option<LevelFilter> {
    match word {
        "error" => Some(LevelFilter::Error),
        "warn" => Some(LevelFilter::Warn),
        "info" => Some(LevelFilter::Info),
        "debug" => Some(LevelFilter::Debug),
        _ => None,
    }
}

/// The replacement that is asked for, if one is.
fn replacement_of<'a>(matches: &ArgMatches<'a>) -> Result<Option<Replacement<'a>>, Failure> {
    match (matches.get_str("replace-from"), matches.get_flag("replace")) {
        (None, false) => Ok(None),
        (Some(place), false) => Ok(Some(Replacement::From(place))),
        (None, true) => Ok(Some(Replacement::Ahead)),
        (Some(_), true) => Err(Failure::Usage),
    }
}

/// Reads a command line, the program's own name first. Refused: it is none of the program's, or memory ran out.
pub fn read_options<'a, S: AsStr>(alloc: Global, words: &'a [S]) -> Result<Options<'a>, Failure> {
    let matches = match program_command(alloc)?.try_get_matches_from(words) {
        Ok(matches) => matches,
        Err(error) => {
            return Err(match error.kind() {
                ErrorKind::OutOfMemory => Failure::Memory,
                _ => Failure::Usage,
            });
        }
    };
    let (Some(file), Some(name), Some(folder)) = (
        matches.get_str("CLUSTER"),
        matches.get_str("NAME"),
        matches.get_str("DIR"),
    ) else {
        return Err(Failure::Usage);
    };
    let Some(level) = level_named(matches.get_str("log").unwrap_or("info")) else {
        return Err(Failure::Usage);
    };
    let replacement = match replacement_of(&matches) {
        Ok(replacement) => replacement,
        Err(failure) => return Err(failure),
    };
    Ok(Options {
        file,
        name,
        folder,
        level,
        replacement,
    })
}
