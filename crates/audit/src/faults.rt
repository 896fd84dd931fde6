//! What the auditor asks of a trace, and where it doesn't hold.

ghost use Rattle.std.specs.Prelude.{◌≡◌};
ghost use Rattle.audit.specs.Faults.{question_of};

use net_script::TraceLine;

/// What the auditor asks of a trace.
#[derive(Clone, Copy, Debug, PartialEq, Eq)]
pub enum Question {
    /// Each change of a view is a step of TCommit.
    Changes,
    /// Each get shows the table so far, with the writes of its branch over it.
    Gets,
    /// The last rows are the tables that the trace leads to.
    Tables,
    /// One serial order explains the last rows and the gets of committed transactions.
    Order,
    /// No step takes part below a floor.
    Floors,
}

/// Where a question isn't kept first.
#[derive(Clone, Copy, Debug, PartialEq, Eq)]
pub struct Fault {
    /// The question.
    pub question: Question,
    /// The line of the trace's text, from 1.
    pub line: usize,
}

/// The question, floors aside, that is asked where a line tells of something that happened.
pub(crate) fn question_of(said: &TraceLine) -> Question
    ensures { result ≡ question_of said.now }
{
    match said {
        TraceLine::Changed(_) => Question::Changes,
        _ => Question::Gets,
    }
}
