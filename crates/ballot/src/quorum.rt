ghost use Rattle.std.specs.Prelude.{◌≡◌, ℕ, ◌<◌, ◌≤◌, ◌↔◌, IsTrue, true, false, ◌||◌, ◌==◌, replicate};
ghost use Rattle.std.specs.List.{slice_set};
ghost use Rattle.xid.specs.Limits.{most_acceptors};
ghost use Rattle.ballot.specs.Majority.{has, IsMajority, is_majority};

use std::marker::Model;

/// How many acceptors there may be; they are the numbers below.
pub const MAX_ACCEPTORS: usize = xid::MAX_ACCEPTORS as usize;

/// A set of acceptors. Contracts see for each number whether it is in.
#[derive(Clone, Copy, Debug, PartialEq, Eq)]
pub struct Quorum {
    members: [bool; MAX_ACCEPTORS],
}

impl Model for Quorum {
    ghost use Rattle.std.specs.Prelude.{Bool, List};

    ghost Value = { List Bool };

    ghost view = { λ q. q.members };

    ghost inverse = { λ members. record { members = members } };
}

impl Quorum {
    /// The set without members.
    pub fn new() -> Quorum
        ensures each { (a : ℕ) → has result a ≡ false }
        ensures list { result ≡ replicate most_acceptors false }
    {
        Quorum {
            members: [false; MAX_ACCEPTORS],
        }
    }

    /// Takes an acceptor in; one that is in already counts once.
    pub fn add(&mut self, acceptor: u8)
        requires { acceptor < most_acceptors }
        ensures each { (a : ℕ) → has self.new a ≡ ((a == acceptor) || has self.old a) }
        ensures list { self.new ≡ slice_set self.old acceptor true }
    {
        self.members[acceptor as usize] = true;
    }

    /// Whether an acceptor is in.
    pub fn has(&self, acceptor: u8) -> bool
        requires { acceptor < most_acceptors }
        ensures { result ≡ has self.now acceptor }
    {
        self.members[acceptor as usize]
    }

    /// Whether it has more than half of the acceptors, which are the numbers below `acceptors`.
    pub fn majority(&self, acceptors: u8) -> bool
        requires { acceptors ≤ most_acceptors }
        ensures means { IsTrue result ↔ IsMajority acceptors (has self.now) }
        ensures value { result ≡ is_majority acceptors (has self.now) }
    {
        let mut members: usize = 0;
        for acceptor in 0..acceptors as usize {
            if self.members[acceptor] {
                members += 1;
            }
        }
        (acceptors as usize) < 2 * members
    }
}
