ghost use Rattle.std.specs.Prelude.{◌≡◌, ◌≤◌, map, None, IfOk, IfErr};
ghost use Rattle.std.specs.Io.KnownBytes.{Keeps};
ghost use Rattle.net_script.specs.Writing.{TriesToAppend, WritesText};
ghost use Rattle.udp_edge.specs.Printing.{PrintsOf, Refuses, PrintsFile, RefusesFile, CarriesOut, FindsFault, IsRefused};
ghost use Rattle.udp_edge.specs.Printing.{verdict_text, question_text, fault_line, refusal_line, rejection_line, usage_line};
ghost use Rattle.udp_edge.specs.CommandLines.{IsMisuse, exit_status};

use crate::command::{Rejected, Subcommand, action};
use audit::{Fault, Question, audit_text_with_hash_key};
use cluster_run::run_to_with_hash_key;
use hashing::HashKey;
use net_script::{file_refusal, write_number, write_text};
use std::alloc::Global;
use std::convert::AsStr;
use std::fs;
use std::io::Write;
use udp_run::udp;
use xid::Refusal;

/// The line for a command line that is refused.
const USAGE: &str = "pcommit: usage: pcommit run FILE | udp FILE DIR | audit FILE\n";

/// The exit status where a command line is carried out.
pub const DONE: u8 = 0;
/// The exit status where a trace was audited that doesn't keep what was promised.
pub const INCONSISTENT: u8 = 1;
/// The exit status where the command line is refused.
pub const MISUSED: u8 = 2;
/// The exit status for any refusal.
pub const REFUSED: u8 = 3;

/// Carries out a command line, the program's own name first, and gives the exit status: 0, and 1 where a trace was audited that keeps not
/// what was promised, after the line of its first fault on `err`; 2 where the command line is refused, after the usage line on `err`; 3 for
/// any refusal, after its line on `err`. `out` has the whole text with 0 and 1, nothing new with 2, and with 3 a beginning of the text at
/// most, where it couldn't be written. `err` has nothing new with 0; of a line that it couldn't take it has a beginning.
pub fn program<S: AsStr, W: Write, E: Write>(
    rt: HostRuntime,
    words: &[S],
    out: &mut W,
    err: &mut E,
) -> u8
    ensures status { result ≤ 3 }
    ensures done { result ≡ 0 → CarriesOut (map S.text words.now) None (W.contents out.old) (W.contents out.new)
        × Keeps (E.contents err.old) (E.contents err.new) }
    ensures inconsistent { result ≡ 1 → FindsFault (map S.text words.now)
        (W.contents out.old) (W.contents out.new) (E.contents err.old) (E.contents err.new) }
    ensures misused { result ≡ 2 → IsMisuse (map S.text words.now)
        × Keeps (W.contents out.old) (W.contents out.new) × TriesToAppend (E.contents err.old) (E.contents err.new) usage_line }
    ensures refused { result ≡ 3 → IsRefused (map S.text words.now)
        (W.contents out.old) (W.contents out.new) (E.contents err.old) (E.contents err.new) }
{
    let outcome = match action(rt.alloc(), words) {
        Ok(subcommand) => answer_file(rt, subcommand, out),
        Err(rejected) => return reject(rejected, err),
    };
    match outcome {
        Ok(None) => DONE,
        Ok(Some(fault)) => {
            let _ = report_fault(fault, err);
            INCONSISTENT
        }
        Err(refusal) => {
            let _ = report(refusal, err);
            REFUSED
        }
    }
}

/// Says why a command line isn't carried out, by the usage line or the line of the refusal, and gives the exit status. Where `err` fails it
/// has a beginning of that line.
pub fn reject<E: Write>(rejected: Rejected, err: &mut E) -> u8
    ensures status { result ≡ exit_status rejected }
    ensures line { TriesToAppend (E.contents err.old) (E.contents err.new) (rejection_line rejected) }
{
    match rejected {
        Rejected::Usage => {
            let _ = write_text(USAGE.as_bytes(), err);
            MISUSED
        }
        Rejected::NoMemory => {
            let _ = report(Refusal::NoMemory, err);
            REFUSED
        }
    }
}

/// Writes the line of a refusal, as `pcommit: refused 16`.
fn report<E: Write>(refusal: Refusal, err: &mut E) -> Result<(), Refusal>
    ensures { WritesText (E.contents err.old) (E.contents err.new) result (refusal_line refusal) }
{
    // the text that `thiserror` makes of a refusal has no contract
    match refusal {
        Refusal::BadScript { line } => write_number("pcommit: refused 7 line ", line, err),
        other => write_number("pcommit: refused ", usize::from(other.number()), err),
    }
}

/// Writes the line of a trace's first fault, as `pcommit: audit: a get shows another table, line 5`.
fn report_fault<E: Write>(fault: Fault, err: &mut E) -> Result<(), Refusal>
    ensures { WritesText (E.contents err.old) (E.contents err.new) result (fault_line fault) }
{
    write_number(question_text(fault.question), fault.line, err)
}

/// The line of a question that a trace doesn't keep, before the number of the trace's line.
fn question_text(question: Question) -> &'static str
    ensures { result.now ≡ question_text question }
{
    match question {
        Question::Changes => "pcommit: audit: a change is no step of TCommit, line ",
        Question::Gets => "pcommit: audit: a get shows another table, line ",
        Question::Tables => "pcommit: audit: last rows are another table, line ",
        Question::Order => "pcommit: audit: the order of first commits doesn't explain it, line ",
        Question::Floors => "pcommit: audit: a step takes part below a floor, line ",
    }
}

/// The file of a subcommand.
fn file_of<'a>(subcommand: Subcommand<'a>) -> &'a str {
    match subcommand {
        Subcommand::Run { file } => file,
        Subcommand::Udp { file, .. } => file,
        Subcommand::Audit { file } => file,
    }
}

/// Carries out a subcommand over its file, and gives the first fault of an audited trace, if it has one.
fn answer_file<W: Write>(
    rt: HostRuntime,
    subcommand: Subcommand,
    out: &mut W,
) -> Result<Option<Fault>, Refusal>
    ensures ok { IfOk result (λ found. PrintsFile subcommand.entry found (W.contents out.old) (W.contents out.new)) }
    ensures err { IfErr result (λ e. RefusesFile subcommand.entry e (W.contents out.old) (W.contents out.new)) }
{
    match fs::read(&rt, file_of(subcommand)) {
        Ok(bytes) => answer(rt, subcommand, &bytes, out),
        Err(error) => Err(file_refusal(error)),
    }
}

/// Carries out a subcommand over the bytes of its file, and gives the first fault of an audited trace, if it has one. Refused as the run or
/// the audit is, with nothing printed; and `FileFault`, or want of memory, where the output can't be written, or a run is out of memory
/// once its first piece was: a beginning of the text, and nothing else, stands then.
pub fn answer<W: Write>(
    rt: HostRuntime,
    subcommand: Subcommand,
    bytes: &[u8],
    out: &mut W,
) -> Result<Option<Fault>, Refusal>
    ensures ok { IfOk result (λ found. PrintsOf subcommand.entry bytes.now found (W.contents out.old) (W.contents out.new)) }
    ensures err { IfErr result (λ e. Refuses subcommand.entry bytes.now e (W.contents out.old) (W.contents out.new)) }
{
    let key = HashKey::draw(&rt);
    match subcommand {
        Subcommand::Run { .. } => match run_to_with_hash_key(rt.alloc(), key, bytes, out) {
            Ok(()) => Ok(None),
            Err(refusal) => Err(refusal),
        },
        Subcommand::Udp { folder, .. } => match udp(rt, bytes, folder) {
            Ok(text) => print_whole(&text, None, out),
            Err(refusal) => Err(refusal),
        },
        Subcommand::Audit { .. } => match audit_text_with_hash_key(rt.alloc(), key, bytes) {
            Ok(found) => print_whole(verdict_text(found), found, out),
            Err(refusal) => Err(refusal),
        },
    }
}

/// Prints a text, and passes on what was found.
fn print_whole<W: Write>(
    text: &[u8],
    found: Option<Fault>,
    out: &mut W,
) -> Result<Option<Fault>, Refusal>
    ensures found { IfOk result (λ given. given ≡ found) }
    ensures text { WritesText (W.contents out.old) (W.contents out.new) result text.now }
{
    match write_text(text, out) {
        Ok(()) => Ok(found),
        Err(refusal) => Err(refusal),
    }
}

/// What the auditor says of a trace with this first fault.
fn verdict_text(found: Option<Fault>) -> &'static [u8]
    ensures { result.now ≡ verdict_text found }
{
    match found {
        None => b"consistent\n".as_slice(),
        Some(_) => b"inconsistent\n".as_slice(),
    }
}
