//! The edge of the program: its command line, its file, and what it prints.

ghost use Rattle.std.specs.Prelude.{◌≡◌, ◌≢◌, ◌≤◌, map, IfErr, MatchOption, OnOk};
ghost use Rattle.std.specs.Io.KnownBytes.{Keeps};
ghost use Rattle.net_script.specs.Writing.{TriesToAppend, WritesText};
ghost use Rattle.pcommit_picture.specs.Printing.{Draws, DrawsFile, IsMisuse, IsRefused, Names, RefusesFile, refusal_line, usage_line};

use net_script::{file_refusal, write_number, write_text};
use picture::picture;
use std::convert::AsStr;
use std::fs;
use std::io::Write;
use xid::Refusal;

/// The line for a command line that is refused.
const USAGE: &str = "pcommit_picture: usage: pcommit_picture FILE\n";

/// The exit status where the picture is written.
const DONE: u8 = 0;
/// The exit status where the command line is refused.
const MISUSED: u8 = 2;
/// The exit status for any refusal.
const REFUSED: u8 = 3;

/// Draws the trace in the file that the words name, the program's own name first, and gives the exit status: 0; 2 where they aren't a
/// name and a file, after the usage line on `err`; 3 for any refusal, after its line on `err`. `out` has the whole picture with 0, nothing
/// new with 2, and with 3 a beginning of the picture at most, where it couldn't be written. `err` has nothing new with 0; of a line that it
/// couldn't take it has a beginning.
pub fn program<S: AsStr, W: Write, E: Write>(
    rt: HostRuntime,
    words: &[S],
    out: &mut W,
    err: &mut E,
) -> u8
    ensures status { result ≤ 3 }
    ensures known { result ≢ 1 }
    ensures done { result ≡ 0 → Draws (map S.text words.now) (W.contents out.old) (W.contents out.new)
        × Keeps (E.contents err.old) (E.contents err.new) }
    ensures misused { result ≡ 2 → IsMisuse (map S.text words.now)
        × Keeps (W.contents out.old) (W.contents out.new) × TriesToAppend (E.contents err.old) (E.contents err.new) usage_line }
    ensures refused { result ≡ 3 → IsRefused (map S.text words.now)
        (W.contents out.old) (W.contents out.new) (E.contents err.old) (E.contents err.new) }
{
    let Some(path) = file_of(words) else {
        return misused(err);
    };
    match draw_file(rt, path, out) {
        Ok(()) => DONE,
        Err(refusal) => refused(refusal, err),
    }
}

/// Says how the program is called, and gives the exit status.
pub fn misused<E: Write>(err: &mut E) -> u8
    ensures status { result ≡ 2 }
    ensures line { TriesToAppend (E.contents err.old) (E.contents err.new) usage_line }
{
    let _ = write_text(USAGE.as_bytes(), err);
    MISUSED
}

/// Says why nothing is drawn, as `pcommit_picture: refused 16`, and gives the exit status.
pub fn refused<E: Write>(refusal: Refusal, err: &mut E) -> u8
    ensures status { result ≡ 3 }
    ensures line { TriesToAppend (E.contents err.old) (E.contents err.new) (refusal_line refusal) }
{
    let _ = report(refusal, err);
    REFUSED
}

/// The file that the words name, the program's own name first.
fn file_of<S: AsStr>(words: &[S]) -> Option<&str>
    ensures { MatchOption result (IsMisuse (map S.text words.now)) (λ path. Names (map S.text words.now) path.now) }
{
    let [_, path] = words else {
        return None;
    };
    Some(path.as_str())
}

/// Draws the trace in a file.
fn draw_file<W: Write>(rt: HostRuntime, path: &str, out: &mut W) -> Result<(), Refusal>
    ensures ok { OnOk result (DrawsFile path.now (W.contents out.old) (W.contents out.new)) }
    ensures err { IfErr result (λ e. RefusesFile path.now e (W.contents out.old) (W.contents out.new)) }
{
    let bytes = match fs::read(&rt, path) {
        Ok(bytes) => bytes,
        Err(error) => return Err(file_refusal(error)),
    };
    let text = match picture(rt.alloc(), path.as_bytes(), &bytes) {
        Ok(text) => text,
        Err(refusal) => return Err(refusal),
    };
    match write_text(&text, out) {
        Ok(()) => Ok(()),
        Err(refusal) => Err(refusal),
    }
}

/// Writes the line of a refusal.
fn report<E: Write>(refusal: Refusal, err: &mut E) -> Result<(), Refusal>
    ensures { WritesText (E.contents err.old) (E.contents err.new) result (refusal_line refusal) }
{
    match refusal {
        Refusal::BadScript { line } => write_number("pcommit_picture: refused 7 line ", line, err),
        other => write_number(
            "pcommit_picture: refused ",
            usize::from(other.number()),
            err,
        ),
    }
}
