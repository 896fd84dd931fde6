//! Floors as a trace tells them, and what takes part below one.

ghost use Rattle.std.specs.Prelude.{◌≡◌, ℕ, ◌==◌, ◌&&◌, Option, Some, None, if◌then◌else◌, IfOk, IfErr, OnOk, fold, List, [], ◌∷◌, true};
ghost use Rattle.std.specs.List.{list_all};
ghost use Rattle.std.specs.Option.{option_map_or};
ghost use Rattle.xid.specs.Places.{is_below};
ghost use Rattle.xid.specs.declared.refusals.Refusal.TheVariants.{NoMemory};
ghost use Rattle.protocol.specs.declared.events.Told.{Told};
ghost use Rattle.protocol.specs.declared.nodes.NodeId.{NodeId};
ghost use Rattle.safety.specs.Vocabulary.{Step};
ghost use Rattle.net_script.specs.declared.values.Trace.{Trace};
ghost use Rattle.audit.specs.Floors.{FloorsTold, no_floors, higher, is_refused, is_call_refused, is_request_above, is_event_above};
ghost use Rattle.audit.specs.Floors.{is_done, is_no_such, least_told, told_with};
ghost use Rattle.audit.specs.Floors.{is_change_above, is_sent_above, with_heard, floors_by, or_newer, stays_above};
ghost use Rattle.audit.specs.FloorBooks.{place_of, entry_of, floor_at, told_in, notice_at, floor_before, Keeps, HadBefore};
ghost use Rattle.audit.specs.FloorBooks.{FollowsFloors, HasHeardFloors, are_above};
ghost use Rattle.audit.specs.Told.{step_of};
ghost use Rattle.net_script.specs.TraceReaders.{begun_with};

use crate::told_floors::{ToldFloors, higher};
use hashing::WordKey;
use indexmap::IndexMap;
use net_script::{Entry, TraceLine};
use protocol::{Action, Answer, Change, Event, NodeId, Request, Sent, Step, Told};
use std::alloc::Global;
use xid::{Floor, Refusal, Tx, XaCode};

/// The floor that a node had before the last that happened.
#[derive(Clone, Copy, Debug)]
pub struct Earlier {
    /// The number of the node.
    pub place: u32,
    /// Its floor.
    pub floor: Option<Floor>,
}

/// What the lines so far tell of floors, by the numbers of nodes.
#[derive(Debug, Drop)]
pub struct Floors {
    /// How many resource managers the cluster has.
    pub(crate) managers: u32,
    /// The floors of nodes.
    pub(crate) floors: IndexMap<u32, Floor, WordKey>,
    /// What nodes were told since they were last restarted or replaced.
    pub(crate) told: IndexMap<u32, ToldFloors, WordKey>,
    /// The notices by their own numbers, of one number the last.
    pub(crate) notices: IndexMap<u32, Told, WordKey>,
    /// Where the last that happened may have raised a floor.
    pub(crate) before: Option<Earlier>,
    key: WordKey,
}

/// A number for each node.
fn place_of(node: NodeId) -> u32
    ensures { result ≡ place_of node }
{
    match node {
        NodeId::A(number) => 3 * u32::from(number),
        NodeId::L(number) => 3 * u32::from(number) + 1,
        NodeId::R(number) => 3 * u32::from(number) + 2,
    }
}

/// Whether an answer is a refusal.
fn is_refused(answer: &Answer) -> bool
    ensures { result ≡ is_refused answer.now }
{
    matches!(answer, Answer::Refused(_) | Answer::Code(XaCode::RmFail))
}

/// Whether an event was done.
fn is_done(answer: &Answer) -> bool
    ensures { result ≡ is_done answer.now }
{
    matches!(answer, Answer::Done)
}

/// Whether there was no such node.
fn is_no_such(answer: &Answer) -> bool
    ensures { result ≡ is_no_such answer.now }
{
    match answer {
        Answer::Refused(refusal) => matches!(refusal, Refusal::NoSuch),
        _ => false,
    }
}

/// Whether three facts hold.
fn all_hold(first: bool, second: bool, third: bool) -> bool
    ensures { result ≡ ((first && second) && third) }
{
    first && second && third
}

/// Whether a call on a branch below a floor may be answered so.
fn is_call_refused(action: &Action, answer: &Answer) -> bool
    ensures { result ≡ is_call_refused action.now answer.now }
{
    match (action, answer) {
        (Action::Start, Answer::Code(XaCode::DupId)) => true,
        (Action::Start, _) => is_refused(answer),
        (_, Answer::Code(XaCode::Nota)) => true,
        _ => is_refused(answer),
    }
}

/// Whether a request may be answered so by a node with this floor.
fn is_request_above(floor: &Floor, request: &Request, answer: &Answer) -> bool
    ensures { result ≡ is_request_above (Some floor.now) request.now answer.now }
{
    match request {
        Request::Call { xid, action } => {
            if !floor.is_above_xid(xid) {
                return true;
            }
            is_call_refused(action, answer)
        }
        Request::Recover => true,
        Request::View { tx }
        | Request::Commit { tx }
        | Request::Status { tx }
        | Request::Timeout { tx } => {
            if !tx.get().is_below(floor) {
                return true;
            }
            is_refused(answer)
        }
    }
}

impl Floors {
    /// Nothing is told. Numbers are hashed under the key. It takes no memory.
    pub fn new(alloc: Global, key: WordKey) -> Floors
        ensures kept { Keeps result no_floors }
        ensures before { HadBefore result (λ who. None) }
    {
        Floors {
            managers: 0,
            floors: IndexMap::with_hasher(alloc, key),
            told: IndexMap::with_hasher(alloc, key),
            notices: IndexMap::with_hasher(alloc, key),
            before: None,
            key,
        }
    }

    /// The same in a cluster of so many resource managers.
    pub fn of(alloc: Global, key: WordKey, managers: u32) -> Floors
        ensures { FollowsFloors result managers [] }
    {
        let mut floors = Floors::new(alloc, key);
        floors.managers = managers;
        floors
    }

    /// The floor at a place.
    fn get(&self, place: u32) -> Option<Floor>
        ensures { result ≡ entry_of self.now.floors.entries place }
    {
        // most traces tell of no floor
        if self.floors.is_empty() {
            return None;
        }
        self.floors.get(&place).copied()
    }

    /// The floor that a node had before the last that happened.
    fn before(&self, node: NodeId) -> Option<Floor>
        ensures { result ≡ floor_before self.now node }
    {
        let place = place_of(node);
        if let Some(earlier) = &self.before {
            if earlier.place == place {
                return earlier.floor;
            }
        }
        self.get(place)
    }

    /// Whether an event may be answered so.
    fn allow_event(&self, event: &Event, answer: &Answer) -> bool
        ensures { result ≡ is_event_above (floor_at self.now) event.now answer.now }
    {
        let Event::Ask { node, request } = event else {
            return true;
        };
        let Some(floor) = self.get(place_of(*node)) else {
            return true;
        };
        is_request_above(&floor, request, answer)
    }

    /// Whether the last that happened may change a view so.
    fn allow_change(&self, change: &Change) -> bool
        ensures { result ≡ is_change_above (floor_before self.now) change.now }
    {
        !self.is_below(NodeId::R(change.rm), &change.tx)
    }

    /// Whether the last that happened may change a view so, if it changed one.
    fn allow_now(&self, now: &Option<Change>) -> bool
        ensures { result ≡ option_map_or (is_change_above (floor_before self.now)) now.now true }
    {
        match now {
            Some(change) => self.allow_change(change),
            None => true,
        }
    }

    /// Whether the last that happened may send a datagram.
    fn allow_sent(&self, sent: &Sent) -> bool
        ensures { result ≡ is_sent_above (floor_before self.now) sent.now }
    {
        !self.is_below(sent.sender, sent.message.kind().tx())
    }

    /// Whether the last that happened may send datagrams.
    fn allow_all_sent(&self, all: &[Sent]) -> bool
        ensures { result ≡ list_all (is_sent_above (floor_before self.now)) all.now }
    {
        all.iter().all(|sent| self.allow_sent(sent))
    }

    /// Whether a transaction is below the floor that a node had before the last that happened.
    pub fn is_below(&self, node: NodeId, tx: &Tx) -> bool
        ensures { result ≡ is_below (floor_before self.now node) tx.now }
    {
        match self.before(node) {
            Some(floor) => floor.is_above_tx(tx),
            None => false,
        }
    }

    /// Takes what an event makes of floors that was answered so. Refused: `NoMemory` alone.
    fn take_event(&mut self, alloc: Global, event: &Event, answer: &Answer) -> Result<(), Refusal>
        ensures ok { OnOk result ((told : FloorsTold) → Keeps self.old told
            → Keeps self.new (floors_by self.old.managers event.now answer.now told) × HadBefore self.new told.floor) }
        ensures managers { self.new.managers ≡ self.old.managers }
        ensures err { IfErr result (λ e. e ≡ NoMemory) }
    {
        self.before = None;
        match event {
            Event::Raise { rm, floor } => {
                if !is_done(answer) {
                    return Ok(());
                }
                self.raise(NodeId::R(*rm), floor)
            }
            Event::Hear { number } => {
                if !is_done(answer) {
                    return Ok(());
                }
                self.hear(alloc, *number)
            }
            Event::Restart { node } => {
                if is_no_such(answer) {
                    return Ok(());
                }
                self.forget(*node);
                Ok(())
            }
            Event::Replace { node, floor } => {
                if !is_done(answer) {
                    return Ok(());
                }
                self.forget(*node);
                self.raise(*node, floor)
            }
            _ => Ok(()),
        }
    }

    /// Takes a notice that the last event told. Refused: `NoMemory` alone.
    fn take_notice(&mut self, told: &Told) -> Result<(), Refusal>
        ensures ok { OnOk result ((number : ℕ) → notice_at self.new number
            ≡ (if told.now.number == number then Some told.now else notice_at self.old number)) }
        ensures rest { (self.new.managers ≡ self.old.managers) × (self.new.floors ≡ self.old.floors)
            × (self.new.told ≡ self.old.told) × (self.new.before ≡ self.old.before) }
        ensures err { IfErr result (λ e. e ≡ NoMemory) }
    {
        self.notices.insert(told.number, *told)?;
        Ok(())
    }

    /// Takes the notices that the last event told. Refused: `NoMemory` alone.
    fn take_notices(&mut self, all: &[Told]) -> Result<(), Refusal>
        ensures ok { OnOk result ((number : ℕ) → notice_at self.new number ≡ fold (or_newer number) (notice_at self.old number) all.now) }
        ensures rest { (self.new.managers ≡ self.old.managers) × (self.new.floors ≡ self.old.floors)
            × (self.new.told ≡ self.old.told) × (self.new.before ≡ self.old.before) }
        ensures err { IfErr result (λ e. e ≡ NoMemory) }
    {
        for told in all {
            self.take_notice(told)?;
        }
        Ok(())
    }

    /// Whether an entry takes no part below a floor after those before it, and if so adds it. Refused: `NoMemory` alone.
    pub fn take_entry(&mut self, alloc: Global, entry: &Entry) -> Result<bool, Refusal>
        ensures ok { IfOk result (λ yes. (managers : ℕ) (before : List Step) → FollowsFloors self.old managers before
            → (yes ≡ stays_above managers before (step_of entry.now))
            × (yes ≡ true → FollowsFloors self.new managers (step_of entry.now ∷ before))) }
        ensures err { IfErr result (λ e. e ≡ NoMemory) }
    {
        match entry {
            Entry::Step(step) => self.take_step(alloc, step),
            Entry::Serve { now, sent, .. } => {
                self.before = None;
                let changes = self.allow_now(now);
                let sends = self.allow_all_sent(sent.as_slice());
                Ok(all_hold(true, changes, sends))
            }
        }
    }

    /// The same of a step. Refused: `NoMemory` alone.
    fn take_step(&mut self, alloc: Global, step: &Step) -> Result<bool, Refusal>
        ensures ok { IfOk result (λ yes. (managers : ℕ) (before : List Step) → FollowsFloors self.old managers before
            → (yes ≡ stays_above managers before step.entry.now)
            × (yes ≡ true → FollowsFloors self.new managers (step.entry.now ∷ before))) }
        ensures err { IfErr result (λ e. e ≡ NoMemory) }
    {
        let above = self.allow_event(&step.event, &step.answer);
        self.take_event(alloc, &step.event, &step.answer)?;
        let changes = self.allow_now(&step.now);
        let sends = self.allow_all_sent(step.sent.as_slice());
        self.take_notices(step.told.as_slice())?;
        Ok(all_hold(above, changes, sends))
    }

    /// Whether the last that happened takes no part below a floor by what one line more says, which it then adds. Refused: `NoMemory`
    /// alone.
    pub fn take_line(&mut self, alloc: Global, said: &TraceLine) -> Result<bool, Refusal>
        ensures ok { IfOk result (λ above. (before : Option Trace) (after : Trace) → HasHeardFloors self.old before
            → Some after ≡ begun_with before said.now
            → HasHeardFloors self.new (Some after) × (are_above (Some after) ≡ (are_above before && above))) }
        ensures err { IfErr result (λ e. e ≡ NoMemory) }
    {
        match said {
            TraceLine::Cluster(sizes) => {
                self.managers = sizes.rms;
                Ok(true)
            }
            TraceLine::Contents(_) => Ok(true),
            TraceLine::Happened(event, answer) => {
                let above = self.allow_event(event, answer);
                self.take_event(alloc, event, answer)?;
                Ok(above)
            }
            TraceLine::Served(..) => {
                self.before = None;
                Ok(true)
            }
            TraceLine::Changed(change) => Ok(self.allow_change(change.get())),
            TraceLine::Datagram(sent) => Ok(self.allow_sent(sent.get())),
            TraceLine::Notice(told) => {
                self.take_notice(told)?;
                Ok(true)
            }
            TraceLine::Final(..) => Ok(true),
        }
    }

    /// Raises a node's floor to a place, where that is higher. Refused: `NoMemory` alone.
    fn raise(&mut self, node: NodeId, floor: &Floor) -> Result<(), Refusal>
        ensures ok { OnOk result ((place : ℕ) → entry_of self.new.floors.entries place
            ≡ (if place_of node == place then higher (entry_of self.old.floors.entries place) (Some floor.now)
            else entry_of self.old.floors.entries place)) }
        ensures before { self.new.before
            ≡ Some (record { place = place_of node; floor = entry_of self.old.floors.entries (place_of node) }) }
        ensures rest { (self.new.managers ≡ self.old.managers) × (self.new.told ≡ self.old.told)
            × (self.new.notices ≡ self.old.notices) }
        ensures err { IfErr result (λ e. e ≡ NoMemory) }
    {
        let place = place_of(node);
        let was = self.get(place);
        self.before = Some(Earlier { place, floor: was });
        self.floors.insert(place, higher(&was, floor))?;
        Ok(())
    }

    /// Takes out what a node was told.
    fn take_told(&mut self, alloc: Global, place: u32) -> ToldFloors
        ensures value { (rm : ℕ) → entry_of result rm ≡ told_in (entry_of self.old.told.entries place) rm }
        ensures taken { (other : ℕ) → entry_of self.new.told.entries other
            ≡ (if place == other then None else entry_of self.old.told.entries other) }
        ensures rest { (self.new.managers ≡ self.old.managers) × (self.new.floors ≡ self.old.floors)
            × (self.new.notices ≡ self.old.notices) × (self.new.before ≡ self.old.before) }
    {
        match self.told.swap_remove(&place) {
            Some(told) => told,
            None => ToldFloors::new(alloc, self.key),
        }
    }

    /// A node forgets what it was told.
    fn forget(&mut self, node: NodeId)
        ensures taken { (other : ℕ) → entry_of self.new.told.entries other
            ≡ (if place_of node == other then None else entry_of self.old.told.entries other) }
        ensures rest { (self.new.managers ≡ self.old.managers) × (self.new.floors ≡ self.old.floors)
            × (self.new.notices ≡ self.old.notices) × (self.new.before ≡ self.old.before) }
    {
        self.told.swap_remove(&place_of(node));
    }

    /// A notice was handed to its receiver, if there is one of this number. Refused: `NoMemory` alone.
    fn hear(&mut self, alloc: Global, number: u32) -> Result<(), Refusal>
        requires { self.now.before ≡ None }
        ensures ok { OnOk result ((told : FloorsTold) → Keeps self.old told
            → Keeps self.new (option_map_or (with_heard self.old.managers told) (told.notice number) told)
            × HadBefore self.new told.floor) }
        ensures managers { self.new.managers ≡ self.old.managers }
        ensures err { IfErr result (λ e. e ≡ NoMemory) }
    {
        let Some(notice) = self.notices.get(&number).copied() else {
            return Ok(());
        };
        match self.tell(alloc, &notice)? {
            Some(floor) => self.raise(notice.receiver, &floor),
            None => Ok(()),
        }
    }

    /// Tells the receiver of a notice its floor. Gives the least that it was told by all resource managers; none, where one of them told
    /// it none. Refused: `NoMemory` alone.
    fn tell(&mut self, alloc: Global, notice: &Told) -> Result<Option<Floor>, Refusal>
        ensures least { IfOk result (λ least. least ≡ least_told self.old.managers
            (told_with (told_in (entry_of self.old.told.entries (place_of notice.now.receiver))) notice.now)) }
        ensures kept { OnOk result ((place rm : ℕ) → told_in (entry_of self.new.told.entries place) rm
            ≡ (if place_of notice.now.receiver == place then told_with (told_in (entry_of self.old.told.entries place)) notice.now rm
            else told_in (entry_of self.old.told.entries place) rm)) }
        ensures rest { (self.new.managers ≡ self.old.managers) × (self.new.floors ≡ self.old.floors)
            × (self.new.notices ≡ self.old.notices) × (self.new.before ≡ self.old.before) }
        ensures err { IfErr result (λ e. e ≡ NoMemory) }
    {
        let place = place_of(notice.receiver);
        let mut told = self.take_told(alloc, place);
        told.hear(u32::from(notice.manager), &notice.floor)?;
        let least = told.least(self.managers);
        self.told.insert(place, told)?;
        Ok(least)
    }
}
