//! What the definitions come to.
ghost use Rattle.std.specs.Prelude.{ℕ, Bool, List};
ghost use Rattle.ballot.specs.Choice.{Report, pick, IsPick};
ghost use Rattle.ballot.specs.Majority.{IsMajority, IsShared};

/// Two majorities of the same acceptors have one in common.
pub fn majorities_meet()
    ensures { (n : ℕ) (p q : ℕ → Bool) → IsMajority n p → IsMajority n q → IsShared n p q }
{}

/// The value that is computed from reports is the one that the paper takes.
pub fn pick_is_the_papers()
    ensures { (reports : List Report) → IsPick reports (pick reports) }
{}
