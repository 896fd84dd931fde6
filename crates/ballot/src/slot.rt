ghost use Rattle.std.specs.Prelude.{◌≡◌, ◌<◌, ◌≤◌, ◌↔◌, IsTrue, Some, None};
ghost use Rattle.ballot.specs.Slots.{empty_slot, promised, accepted_in};

use xid::Vote;

/// The last ballot in which an acceptor accepted a value, and the value; nothing where it accepted none.
pub type Report = Option<(u32, Vote)>;

/// What an acceptor keeps of one instance (Gray and Lamport, "Consensus on Transaction Commit", section 4.1).
#[derive(Clone, Copy, Debug, PartialEq, Eq)]
pub struct Slot {
    /// The greatest ballot that it took part in; 0 at first.
    pub mbal: u32,
    /// What it accepted last.
    pub report: Report,
}

impl Slot {
    /// A slot at first.
    pub fn new() -> Slot
        ensures { result ≡ empty_slot }
    {
        Slot {
            mbal: 0,
            report: None,
        }
    }

    /// Phase 1b: takes part in a ballot that is greater than every one before, and says whether it did. Else nothing
    /// changes.
    pub fn promise(&mut self, ballot: u32) -> bool
        ensures can { IsTrue result ↔ (self.old.mbal < ballot) }
        ensures new { self.new ≡ promised ballot self.old }
    {
        if ballot <= self.mbal {
            return false;
        }
        self.mbal = ballot;
        true
    }

    /// Phase 2b: accepts a value in a ballot that is no less than every one before, and says whether it did. Else nothing
    /// changes.
    pub fn accept(&mut self, ballot: u32, vote: Vote) -> bool
        ensures can { IsTrue result ↔ (self.old.mbal ≤ ballot) }
        ensures new { self.new ≡ accepted_in ballot vote self.old }
    {
        if ballot < self.mbal {
            return false;
        }
        self.mbal = ballot;
        self.report = Some((ballot, vote));
        true
    }
}
