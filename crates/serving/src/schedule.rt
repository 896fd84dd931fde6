ghost use Rattle.std.specs.Prelude.{◌≡◌, ◌≤◌, ◌<◌, ◌*◌, ◌^◌, ◌-◌, min};
ghost use Rattle.serving.specs.declared.schedule.Turn.TheVariants.{Again, Ballot};

/// The longest delay, in milliseconds.
pub const MOST_DELAY: u64 = 60_000;

/// What a leader does about a transaction of which nothing was heard.
#[derive(Clone, Copy, Debug, PartialEq, Eq)]
pub enum Turn {
    /// It asks to prepare once more.
    Again,
    /// It begins a ballot.
    Ballot,
}

/// How long is waited before a transaction is asked after, turn after turn.
#[derive(Clone, Copy, Debug, PartialEq, Eq)]
pub struct Schedule {
    /// The first delay, in milliseconds.
    pub first: u64,
}

impl Schedule {
    /// How many milliseconds are waited before the turn of a number. The first two turns come after one and two first delays, the next
    /// after four, and so on; no delay is longer than `MOST_DELAY`.
    pub fn delay(&self, turn: usize) -> u64
        ensures { result ≡ min (self.now.first * 2 ^ min (turn - 1) 16) MOST_DELAY }
    {
        let doublings = turn.saturating_sub(1).min(16);
        self.first.saturating_mul(1 << doublings).min(MOST_DELAY)
    }

    /// What a leader does at the turn of a number: it asks to prepare twice more, and then begins ballots.
    pub fn turn(&self, turn: usize) -> Turn
        ensures early { turn < 2 → result ≡ Again }
        ensures late { 2 ≤ turn → result ≡ Ballot }
    {
        if turn < 2 { Turn::Again } else { Turn::Ballot }
    }
}
