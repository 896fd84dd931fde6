ghost use Rattle.std.specs.Prelude.{◌≡◌, ◌<◌, ◌≤◌, ◌++◌, ◌∷◌, [], length};
ghost use Rattle.xid.specs.Limits.{most_branches};

use std::marker::Model;
use xid::{MAX_BRANCHES, ManagerNumber, Vote};

/// A value proposed for an instance.
#[derive(Clone, Copy, Debug, PartialEq, Eq)]
pub struct Proposal {
    pub instance: ManagerNumber,
    pub vote: Vote,
}

/// What is proposed for some instances, in order. They are kept in place.
#[derive(Debug, Drop)]
pub struct Proposals {
    count: usize,
    array: [Proposal; MAX_BRANCHES],
}

impl Model for Proposals {
    ghost use Rattle.std.specs.Prelude.{List, take, length, ◌≤◌};
    ghost use Rattle.xid.specs.Limits.{most_branches};
    ghost use Rattle.leader.specs.declared.proposals.Proposal.{Proposal};

    ghost Value = { List Proposal };

    ghost view = { λ p. take p.count p.array };

    ghost invariant = { λ p. p.count ≤ most_branches };
}

impl Proposals {
    /// Nothing is proposed.
    pub fn new() -> Proposals
        ensures { result ≡ [] }
    {
        let nothing = Proposal {
            instance: 0,
            vote: Vote::Aborted,
        };
        Proposals {
            count: 0,
            array: [nothing; MAX_BRANCHES],
        }
    }

    /// One proposal more.
    pub fn push(&mut self, proposal: Proposal)
        requires { length self.old < most_branches }
        ensures { self.new ≡ self.old ++ proposal ∷ [] }
    {
        self.array[self.count] = proposal;
        self.count += 1;
    }

    /// The proposals.
    pub fn as_slice(&self) -> &[Proposal]
        ensures items { result.now ≡ self.now }
        ensures few { length result.now ≤ most_branches }
    {
        &self.array[..self.count]
    }
}
