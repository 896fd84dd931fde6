ghost use Rattle.std.specs.Prelude.{◌≡◌, ◌+◌, ◌<◌, ◌≤◌, [], ◌∷◌, length, map, position, OnOk, IfOk, IfErr, vec_len};
ghost use Rattle.std.specs.List.{list_any, list_all};
ghost use Rattle.std.specs.Vec.{vec_capacity};
ghost use Rattle.xid.specs.Limits.{most_acceptors, most_branches};
ghost use Rattle.xid.specs.Transactions.{participants};
ghost use Rattle.xid.specs.declared.refusals.Refusal.TheVariants.{NoMemory};
ghost use Rattle.protocol.specs.Leaders.{is_final as is_final_of};
ghost use Rattle.leader.specs.Courses.{fresh, fresh_instance, proposals_of as proposals_for, proposal_at as proposal_for, after_accept};
ghost use Rattle.leader.specs.Courses.{after_each_accept, after_accepts, after_meeting, after_beginning, after_ballot, status_in};
ghost use Rattle.leader.specs.Courses.{status_by as status_by_rows, counts_report, proposals_after_1b, after_1b, after_2b, status_after_2b};
ghost use Rattle.leader.specs.Courses.{is_place_of, told_once, makes_majority, with_decided, with_nothing_reported, with_reports};
ghost use Rattle.leader.specs.Courses.{with_proposals};

use crate::instance::{InstanceCourse, Told};
use crate::proposals::{Proposal, Proposals};
use ballot::Quorum;
use protocol::Status;
use std::alloc::Global;
use std::marker::Model;
use wire::{InstanceAccept, InstanceReport, SpelledTx};
use xid::{Ballot, ManagerNumber, Refusal, Vote};

/// One transaction at a leader.
#[derive(Debug, Drop)]
pub struct Course {
    known: bool,
    greatest: Ballot,
    current: Option<Ballot>,
    instances: Vec<InstanceCourse>,
    told: Vec<Told>,
}

impl Model for Course {
    ghost use Rattle.leader.specs.Courses.{CourseParts};

    ghost Value = { CourseParts };

    ghost view = { λ c. record {
      known = c.known;
      greatest = c.greatest;
      current = c.current;
      instances = c.instances.items;
      told = c.told.items;
    } };
}

fn instances_of(alloc: Global, tx: &SpelledTx<'_>) -> Result<Vec<InstanceCourse>, Refusal>
    ensures ok { IfOk result (λ rows. rows.items ≡ map fresh_instance (participants tx.now)) }
    ensures err { IfErr result (λ e. e ≡ NoMemory) }
{
    let mut instances = Vec::with_capacity(alloc, tx.count())?;
    for i in 0..tx.count() {
        instances.push(InstanceCourse::new(tx.rm(i)))?;
    }
    Ok(instances)
}

impl Course {
    /// A transaction that the leader doesn't know.
    pub fn new(alloc: Global, tx: &SpelledTx<'_>) -> Result<Course, Refusal>
        ensures ok { IfOk result (λ c. c ≡ fresh tx.now) }
        ensures err { IfErr result (λ e. e ≡ NoMemory) }
    {
        let instances = instances_of(alloc, tx)?;
        Ok(Course {
            known: false,
            greatest: 0,
            current: None,
            instances,
            told: Vec::new(alloc),
        })
    }

    /// The greatest ballot stored, 0 where there is none.
    pub fn greatest(&self) -> Ballot
        ensures { result ≡ self.now.greatest }
    {
        self.greatest
    }

    /// Its status.
    pub fn status(&self) -> Status
        ensures { result ≡ status_in self.now }
    {
        status_by(self.known, &self.instances)
    }

    /// The leader knows it.
    pub fn meet(&mut self)
        ensures { self.new ≡ after_meeting self.old }
    {
        self.known = true;
    }

    /// A greater ballot was stored.
    pub fn store(&mut self, ballot: Ballot)
        ensures { self.new ≡ after_ballot ballot self.old }
    {
        self.known = true;
        self.greatest = ballot;
    }

    /// A ballot begins: it is current, and nothing was reported or proposed in it.
    pub fn begin(&mut self, ballot: Ballot)
        ensures { self.new ≡ after_beginning ballot self.old }
    {
        self.current = Some(ballot);
        forget_all_reports(&mut self.instances);
    }

    /// Whether phase 1b of a ballot counts.
    fn counts_report(&self, ballot: Ballot) -> bool
        ensures { result ≡ counts_report ballot self.now }
    {
        match self.current {
            Some(current) => current == ballot && !is_final(self.status()),
            None => false,
        }
    }

    /// Phase 1b of an acceptor for some instances. It gives what is proposed then.
    pub fn on_1b(
        &mut self,
        acceptors: u8,
        ballot: Ballot,
        acceptor: u8,
        items: &[InstanceReport],
    ) -> Proposals
        requires acceptors { acceptors ≤ most_acceptors }
        requires acceptor { acceptor < most_acceptors }
        requires few { length items.now ≤ most_branches }
        ensures result { result ≡ proposals_after_1b acceptors ballot acceptor items.now self.old }
        ensures now { self.new ≡ after_1b acceptors ballot acceptor items.now self.old }
    {
        if !self.counts_report(ballot) {
            return Proposals::new();
        }
        hear_all_reports(&mut self.instances, acceptor, items);
        let proposals = proposals_of(&self.instances, acceptors, items);
        mark_all_proposed(&mut self.instances, proposals.as_slice());
        proposals
    }

    /// Phase 2b of an acceptor for some instances. At `NoMemory`, the only refusal, nothing changes.
    fn hear_accepts(
        &mut self,
        acceptors: u8,
        acceptor: u8,
        items: &[InstanceAccept],
    ) -> Result<(), Refusal>
        requires acceptors { acceptors ≤ most_acceptors }
        requires acceptor { acceptor < most_acceptors }
        ensures ok { OnOk result (self.new ≡ after_accepts acceptors acceptor items.now (after_meeting self.old)) }
        ensures err { IfErr result (λ e. (e ≡ NoMemory) × (self.new ≡ self.old)) }
    {
        self.told.reserve(items.len())?;
        self.known = true;
        hear_each_accept(
            &mut self.instances,
            &mut self.told,
            acceptors,
            acceptor,
            items,
        );
        Ok(())
    }

    /// Phase 2b of an acceptor for some instances. It gives the status to tell of. At `NoMemory`, the only refusal, nothing changes.
    pub fn on_2b(
        &mut self,
        acceptors: u8,
        acceptor: u8,
        items: &[InstanceAccept],
    ) -> Result<Status, Refusal>
        requires acceptors { acceptors ≤ most_acceptors }
        requires acceptor { acceptor < most_acceptors }
        ensures ok { IfOk result (λ status. status ≡ status_after_2b acceptors acceptor items.now self.old) }
        ensures now { OnOk result (self.new ≡ after_2b acceptors acceptor items.now self.old) }
        ensures err { IfErr result (λ e. (e ≡ NoMemory) × (self.new ≡ self.old)) }
    {
        if is_final(self.status()) {
            self.meet();
            return Ok(Status::Undecided);
        }
        match self.hear_accepts(acceptors, acceptor, items) {
            Ok(()) => Ok(self.status()),
            Err(refusal) => Err(refusal),
        }
    }
}

fn is_some_aborted(rows: &[InstanceCourse]) -> bool
    ensures { result ≡ list_any (λ row. row.aborted) rows.now }
{
    rows.iter().any(|row| row.aborted)
}

fn are_all_prepared(rows: &[InstanceCourse]) -> bool
    ensures { result ≡ list_all (λ row. row.prepared) rows.now }
{
    rows.iter().all(|row| row.prepared)
}

fn status_by(known: bool, rows: &[InstanceCourse]) -> Status
    ensures { result ≡ status_by_rows known rows.now }
{
    if is_some_aborted(rows) {
        return Status::Aborted;
    }
    if are_all_prepared(rows) {
        return Status::Committed;
    }
    if known {
        return Status::Undecided;
    }
    Status::Unknown
}

/// Whether an outcome is known.
pub fn is_final(status: Status) -> bool
    ensures { result ≡ is_final_of status }
{
    matches!(status, Status::Committed | Status::Aborted)
}

/// What the instances of some reports propose.
fn proposals_of(rows: &[InstanceCourse], acceptors: u8, items: &[InstanceReport]) -> Proposals
    requires acceptors { acceptors ≤ most_acceptors }
    requires few { length items.now ≤ most_branches }
    ensures { result ≡ proposals_for acceptors rows.now items.now }
{
    let mut proposals = Proposals::new();
    for item in items {
        if let Some(proposal) = proposal_at(rows, acceptors, item.instance) {
            proposals.push(proposal);
        }
    }
    proposals
}

fn forget_all_reports(rows: &mut [InstanceCourse])
    ensures { rows.new ≡ map with_nothing_reported rows.old }
{
    for row in rows.iter_mut() {
        row.forget_reports();
    }
}

fn hear_all_reports(rows: &mut [InstanceCourse], acceptor: u8, items: &[InstanceReport])
    requires { acceptor < most_acceptors }
    ensures { rows.new ≡ map (with_reports acceptor items.now) rows.old }
{
    if let [item] = items {
        hear_one_report(rows, acceptor, item);
        return;
    }
    for row in rows.iter_mut() {
        row.hear_reports(acceptor, items);
    }
}

/// The same of a single report.
fn hear_one_report(rows: &mut [InstanceCourse], acceptor: u8, item: &InstanceReport)
    requires { acceptor < most_acceptors }
    ensures { rows.new ≡ map (with_reports acceptor (item.now ∷ [])) rows.old }
{
    for row in rows.iter_mut() {
        row.hear_single(acceptor, item);
    }
}

fn mark_all_proposed(rows: &mut [InstanceCourse], proposals: &[Proposal])
    ensures { rows.new ≡ map (with_proposals proposals.now) rows.old }
{
    if proposals.is_empty() {
        return;
    }
    for row in rows.iter_mut() {
        row.mark_proposed(proposals);
    }
}

fn mark_all_decided(rows: &mut [InstanceCourse], instance: ManagerNumber, vote: Vote)
    ensures { rows.new ≡ map (with_decided instance vote) rows.old }
{
    for row in rows.iter_mut() {
        row.mark_decided(instance, vote);
    }
}

/// What an instance proposes.
fn proposal_at(rows: &[InstanceCourse], acceptors: u8, instance: ManagerNumber) -> Option<Proposal>
    requires { acceptors ≤ most_acceptors }
    ensures { result ≡ proposal_for acceptors rows.now instance }
{
    for row in rows {
        if row.instance == instance {
            return row.proposal(acceptors);
        }
    }
    None
}

/// The place of what is told, where there is one.
fn place_of(rows: &[Told], item: &InstanceAccept) -> Option<usize>
    ensures { result ≡ position (is_place_of item.now.instance item.now.ballot item.now.vote) rows.now }
{
    rows.iter().position(|row| row.is_of(item))
}

/// An acceptor tells. Whether it makes those that told the same a majority. There is room for a place more.
fn tell(rows: &mut Vec<Told>, acceptors: u8, acceptor: u8, item: &InstanceAccept) -> bool
    requires acceptors { acceptors ≤ most_acceptors }
    requires acceptor { acceptor < most_acceptors }
    requires room { vec_len rows.old < vec_capacity rows.old }
    ensures result { result ≡ makes_majority acceptors acceptor item.now rows.old.items }
    ensures items { rows.new.items ≡ told_once acceptor item.now rows.old.items }
    ensures len { vec_len rows.new ≤ vec_len rows.old + 1 }
    ensures capacity { vec_capacity rows.new ≡ vec_capacity rows.old }
{
    if let Some(place) = place_of(rows, item) {
        return rows[place].tell(acceptors, acceptor);
    }
    let row = Told::first(acceptor, item);
    rows.push_reserved(row);
    row.members.majority(acceptors)
}

/// An acceptor told of an instance. There is room for a place more.
fn hear_accept(
    instances: &mut [InstanceCourse],
    told: &mut Vec<Told>,
    acceptors: u8,
    acceptor: u8,
    item: &InstanceAccept,
)
    requires acceptors { acceptors ≤ most_acceptors }
    requires acceptor { acceptor < most_acceptors }
    requires room { vec_len told.old < vec_capacity told.old }
    ensures now { record { instances = instances.new; told = told.new.items }
        ≡ after_accept acceptors acceptor item.now (record { instances = instances.old; told = told.old.items }) }
    ensures len { vec_len told.new ≤ vec_len told.old + 1 }
    ensures capacity { vec_capacity told.new ≡ vec_capacity told.old }
{
    if tell(told, acceptors, acceptor, item) {
        mark_all_decided(instances, item.instance, item.vote);
    }
}

/// An acceptor told of some instances. There is room for as many places more.
fn hear_each_accept(
    instances: &mut [InstanceCourse],
    told: &mut Vec<Told>,
    acceptors: u8,
    acceptor: u8,
    items: &[InstanceAccept],
)
    requires acceptors { acceptors ≤ most_acceptors }
    requires acceptor { acceptor < most_acceptors }
    requires room { vec_len told.old + length items.now ≤ vec_capacity told.old }
    ensures { record { instances = instances.new; told = told.new.items }
        ≡ after_each_accept acceptors acceptor items.now (record { instances = instances.old; told = told.old.items }) }
{
    for item in items {
        hear_accept(instances, told, acceptors, acceptor, item);
    }
}
