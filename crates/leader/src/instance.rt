ghost use Rattle.std.specs.Prelude.{◌≡◌, ◌<◌, ◌≤◌, ◌==◌, [], ◌∷◌, true};
ghost use Rattle.std.specs.List.{list_any};
ghost use Rattle.xid.specs.Limits.{most_acceptors};
ghost use Rattle.ballot.specs.Majority.{has};
ghost use Rattle.leader.specs.Choices.{both, merged};
ghost use Rattle.leader.specs.Courses.{fresh_instance, with_said, with_reports, instance_proposal, with_proposals, with_decided};
ghost use Rattle.leader.specs.Courses.{first_report as first_report_of};
ghost use Rattle.leader.specs.Courses.{with_nothing_reported, is_place_of, first_told, with_teller, completes};

use crate::proposals::Proposal;
use ballot::{Quorum, Report};
use wire::{InstanceAccept, InstanceReport};
use xid::{Ballot, ManagerNumber, Vote};

fn both(a: Vote, b: Vote) -> Vote
    ensures { result ≡ both a b }
{
    match a {
        Vote::Prepared => b,
        Vote::Aborted => Vote::Aborted,
    }
}

/// Of two reports the one of the greater ballot; of one ballot, prepared where both are.
fn merge(new: Report, before: Report) -> Report
    ensures { result ≡ merged new before }
{
    match (new, before) {
        (None, before) => before,
        (new, None) => new,
        (Some((b, v)), Some((c, w))) => {
            if c < b {
                Some((b, v))
            } else if b < c {
                Some((c, w))
            } else {
                Some((c, both(v, w)))
            }
        }
    }
}

/// The first of some reports of an instance.
fn first_report(items: &[InstanceReport], instance: ManagerNumber) -> Option<Report>
    ensures { result ≡ first_report_of instance items.now }
{
    for item in items {
        if item.instance == instance {
            return Some(item.report);
        }
    }
    None
}

/// Whether there is a proposal of an instance.
fn is_proposed(proposals: &[Proposal], instance: ManagerNumber) -> bool
    ensures { result ≡ list_any (λ proposal. proposal.instance == instance) proposals.now }
{
    proposals
        .iter()
        .any(|proposal| proposal.instance == instance)
}

/// One instance of a transaction. What was reported and proposed is of the current ballot.
#[derive(Clone, Copy, Debug)]
pub struct InstanceCourse {
    pub instance: ManagerNumber,
    /// Who reported in phase 1b.
    pub reporters: Quorum,
    /// The greatest ballot reported; prepared where all reports of it say so.
    pub best: Report,
    /// Whether a value was proposed.
    pub proposed: bool,
    /// Whether it has decided prepared.
    pub prepared: bool,
    /// Whether it has decided aborted.
    pub aborted: bool,
}

impl InstanceCourse {
    /// Nothing was heard of it.
    pub fn new(instance: ManagerNumber) -> InstanceCourse
        ensures { result ≡ fresh_instance instance }
    {
        InstanceCourse {
            instance,
            reporters: Quorum::new(),
            best: None,
            proposed: false,
            prepared: false,
            aborted: false,
        }
    }

    /// A report of this instance; it counts once for an acceptor.
    fn hear_report(&mut self, acceptor: u8, report: Report)
        requires { acceptor < most_acceptors }
        ensures now { self.new ≡ with_said acceptor report self.old }
        ensures heard { has self.new.reporters acceptor ≡ true }
    {
        if self.reporters.has(acceptor) {
            return;
        }
        self.reporters.add(acceptor);
        self.best = merge(report, self.best);
    }

    /// A report, where it is of this instance.
    pub fn hear_single(&mut self, acceptor: u8, item: &InstanceReport)
        requires { acceptor < most_acceptors }
        ensures { self.new ≡ with_reports acceptor (item.now ∷ []) self.old }
    {
        if self.instance == item.instance {
            self.hear_report(acceptor, item.report);
        }
    }

    /// Those of some reports that are of this instance; only the first counts.
    pub fn hear_reports(&mut self, acceptor: u8, items: &[InstanceReport])
        requires { acceptor < most_acceptors }
        ensures { self.new ≡ with_reports acceptor items.now self.old }
    {
        if let Some(report) = first_report(items, self.instance) {
            self.hear_report(acceptor, report);
        }
    }

    /// What it proposes, once a majority has reported and while nothing was proposed.
    pub fn proposal(&self, acceptors: u8) -> Option<Proposal>
        requires { acceptors ≤ most_acceptors }
        ensures { result ≡ instance_proposal acceptors self.now }
    {
        if self.proposed || !self.reporters.majority(acceptors) {
            return None;
        }
        let vote = match self.best {
            Some((_, vote)) => vote,
            None => Vote::Aborted,
        };
        Some(Proposal {
            instance: self.instance,
            vote,
        })
    }

    /// It was proposed, where it is among these.
    pub fn mark_proposed(&mut self, proposals: &[Proposal])
        ensures { self.new ≡ with_proposals proposals.now self.old }
    {
        if is_proposed(proposals, self.instance) {
            self.proposed = true;
        }
    }

    /// A value was decided, where it is of this instance.
    pub fn mark_decided(&mut self, instance: ManagerNumber, vote: Vote)
        ensures { self.new ≡ with_decided instance vote self.old }
    {
        if self.instance == instance {
            match vote {
                Vote::Prepared => self.prepared = true,
                Vote::Aborted => self.aborted = true,
            }
        }
    }

    /// What was reported and proposed doesn't count any more.
    pub fn forget_reports(&mut self)
        ensures { self.new ≡ with_nothing_reported self.old }
    {
        self.reporters = Quorum::new();
        self.best = None;
        self.proposed = false;
    }
}

/// Who told in phase 2b of a ballot and value of an instance.
#[derive(Clone, Copy, Debug)]
pub struct Told {
    pub instance: ManagerNumber,
    pub ballot: Ballot,
    pub vote: Vote,
    pub members: Quorum,
}

impl Told {
    /// Whether it is the place of what is told.
    pub fn is_of(&self, item: &InstanceAccept) -> bool
        ensures { result ≡ is_place_of item.now.instance item.now.ballot item.now.vote self.now }
    {
        item.ballot == self.ballot && item.vote == self.vote && item.instance == self.instance
    }

    /// What an acceptor is the first to tell.
    pub fn first(acceptor: u8, item: &InstanceAccept) -> Told
        requires { acceptor < most_acceptors }
        ensures { result ≡ first_told item.now.instance item.now.ballot item.now.vote acceptor }
    {
        let mut members = Quorum::new();
        members.add(acceptor);
        Told {
            instance: item.instance,
            ballot: item.ballot,
            vote: item.vote,
            members,
        }
    }

    /// An acceptor tells. Whether it makes those that told this a majority.
    pub fn tell(&mut self, acceptors: u8, acceptor: u8) -> bool
        requires acceptors { acceptors ≤ most_acceptors }
        requires acceptor { acceptor < most_acceptors }
        ensures row { self.new ≡ with_teller acceptor self.old }
        ensures result { result ≡ completes acceptors acceptor self.old }
    {
        if self.members.has(acceptor) {
            return false;
        }
        self.members.add(acceptor);
        self.members.majority(acceptors)
    }
}
