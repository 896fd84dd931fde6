ghost use Rattle.std.specs.Prelude.{◌≡◌, is_some};
ghost use Rattle.std.specs.List.{list_any, list_all};
ghost use Rattle.ballot.specs.Choice.{pick, top_of, says_prepared};

use crate::slot::Report;
use xid::Vote;

/// The value that a take-over proposes after the reports of a majority: prepared where some acceptor accepted a value
/// and those that accepted one in the greatest ballot all accepted prepared, else aborted.
pub fn choose(reports: &[Report]) -> Vote
    ensures { result ≡ pick reports.now }
{
    if is_any_reported(reports) && do_all_say_prepared(top(reports), reports) {
        Vote::Prepared
    } else {
        Vote::Aborted
    }
}

/// Whether some acceptor accepted a value.
fn is_any_reported(reports: &[Report]) -> bool
    ensures { result ≡ list_any is_some reports.now }
{
    reports.iter().any(|report| report.is_some())
}

/// Whether all reports of this ballot say prepared.
fn do_all_say_prepared(ballot: u32, reports: &[Report]) -> bool
    ensures { result ≡ list_all (says_prepared ballot) reports.now }
{
    reports.iter().all(|report| says_prepared(ballot, report))
}

/// The greatest ballot reported, 0 where there is none.
fn top(reports: &[Report]) -> u32
    ensures { result ≡ top_of reports.now }
{
    let mut top = 0;
    for report in reports {
        if let Some((ballot, _)) = *report {
            top = top.max(ballot);
        }
    }
    top
}

/// Whether a report of this ballot, if it is one, says prepared.
fn says_prepared(ballot: u32, report: &Report) -> bool
    ensures { result ≡ says_prepared ballot report.now }
{
    match *report {
        Some((reported, vote)) => reported != ballot || vote == Vote::Prepared,
        None => true,
    }
}
