ghost use Rattle.std.specs.Prelude.{◌≡◌};
ghost use Rattle.protocol.specs.Facts.{is_open_view, is_prepared_view};
ghost use Rattle.resource_manager.specs.Courses.{is_new_course, vote_of, view_of};

use protocol::View;
use xid::Vote;

/// How far a transaction has come at a resource manager: which of its facts are stored.
#[derive(Clone, Copy, Debug, PartialEq, Eq)]
pub enum Course {
    /// None.
    Working,
    /// The vote prepared alone.
    Prepared,
    /// The vote aborted.
    VotedAborted,
    /// The vote prepared, and then that the transaction is committed.
    Committed,
    /// The vote prepared, and then that the transaction is aborted.
    RolledBack,
    /// That the transaction is aborted, without a vote.
    AbortedUnvoted,
}

impl Course {
    /// The stored vote, if there is one.
    pub fn vote(self) -> Option<Vote>
        ensures { result ≡ vote_of self }
    {
        match self {
            Course::Prepared | Course::Committed | Course::RolledBack => Some(Vote::Prepared),
            Course::VotedAborted => Some(Vote::Aborted),
            Course::Working | Course::AbortedUnvoted => None,
        }
    }

    /// Where the resource manager stands.
    pub fn view(self) -> View
        ensures { result ≡ view_of self }
    {
        match self {
            Course::Working => View::Working,
            Course::Prepared => View::Prepared,
            Course::Committed => View::Committed,
            Course::VotedAborted | Course::RolledBack | Course::AbortedUnvoted => View::Aborted,
        }
    }

    /// Whether neither a vote nor an outcome is stored.
    pub fn is_working(self) -> bool
        ensures { result ≡ is_new_course self }
    {
        matches!(self, Course::Working)
    }

    /// Whether the resource manager is prepared.
    pub fn is_prepared(self) -> bool
        ensures { result ≡ is_prepared_view (view_of self) }
    {
        matches!(self, Course::Prepared)
    }

    /// Whether the resource manager is working or prepared.
    pub fn is_open(self) -> bool
        ensures { result ≡ is_open_view (view_of self) }
    {
        matches!(self, Course::Working | Course::Prepared)
    }
}
