ghost use Rattle.std.specs.Prelude.{◌≡◌, ◌<◌, ◌≤◌, true, false, not, if◌then◌else◌, [], ◌∷◌, ◌++◌, length, map, filter, slice_get, Some};
ghost use Rattle.std.specs.Prelude.{IfOk, OnOk, IfErr, OnErr};
ghost use Rattle.std.specs.List.{IsDistinct, list_all, slice_index_or};
ghost use Rattle.xid.specs.Limits.{most_acceptors, most_branches};
ghost use Rattle.xid.specs.declared.refusals.Refusal.TheVariants.{NoMemory};
ghost use Rattle.xid.specs.Places.{is_below};
ghost use Rattle.xid.specs.Transactions.{TxParts, tx_eq};
ghost use Rattle.stable_record.specs.declared.entry.EntryKind.TheVariants as kinds;
ghost use Rattle.stable_record.specs.Written.{AreWritten};
ghost use Rattle.transactions.specs.Seen.{AreInside, at_places, place_in};
ghost use Rattle.protocol.specs.Leaders.{is_final};
ghost use Rattle.leader.specs.Courses.{fresh, after_meeting, after_ballot, after_beginning, after_1b, proposals_after_1b, after_2b};
ghost use Rattle.leader.specs.Courses.{status_after_2b, status_in};
ghost use Rattle.leader.specs.Places.{course_in, is_placed_in, is_ready_in, with_beginning, with_room, IsPlaceOf, IsChanged, IsKept};
ghost use Rattle.leader.specs.Places.{IsLeft};
ghost use Rattle.leader.specs.Compaction.{compacted};

use crate::course::Course;
use crate::proposals::Proposals;
use crate::shorter::frames_of;
use hashing::HashKey;
use protocol::Status;
use std::alloc::Global;
use std::marker::Model;
use transactions::{Order, Transactions};
use wire::{InstanceAccept, InstanceReport, SpelledTx};
use xid::{Ballot, Floor, Refusal};

/// The transactions that a leader has to do with, in the order of first sight, and the course of each. A transaction's place is its
/// number in that order, and stays.
#[derive(Debug, Drop)]
pub struct Courses {
    alloc: Global,
    transactions: Transactions,
    rows: Vec<Course>,
    /// The places of those of which a ballot is stored, in the order of the first.
    begun: Order,
    /// The place that was found last: most often that of the next event, or the one before it.
    near: usize,
}

impl Model for Courses {
    ghost use Rattle.std.specs.Prelude.{◌≡◌, length};
    ghost use Rattle.transactions.specs.Seen.{AreInside, at_places};
    ghost use Rattle.leader.specs.Places.{CoursesParts};

    ghost Value = { CoursesParts };

    ghost view = { λ c. record {
      transactions = c.transactions;
      rows = c.rows.items;
      begun = at_places c.transactions c.begun.numbers;
      room = c.begun.room;
    } };

    ghost invariant = { λ c. (length c.rows.items ≡ length c.transactions)
        × AreInside (length c.transactions) c.begun.numbers };
}

impl Courses {
    /// No transaction. They are hashed under the key. It takes no memory.
    pub fn new(alloc: Global, key: HashKey) -> Courses
        ensures { result ≡ record { transactions = []; rows = []; begun = []; room = result.room } }
    {
        Courses {
            alloc,
            transactions: Transactions::with_hash_key(alloc, key),
            rows: Vec::new(alloc),
            begun: Order::new(alloc),
            near: 0,
        }
    }

    /// How many transactions there are.
    pub fn len(&self) -> usize
        ensures { result ≡ length self.now.transactions }
    {
        self.transactions.len()
    }

    /// The place of a transaction, where it has one.
    pub fn place_of(&self, tx: &SpelledTx<'_>) -> Option<usize>
        ensures { IsPlaceOf self.now tx.now result }
    {
        self.transactions.number_of_view(tx, self.near)
    }

    /// A place for a transaction that has none. At `NoMemory`, the only refusal, nothing changes.
    fn add_place(&mut self, tx: &SpelledTx<'_>) -> Result<usize, Refusal>
        requires { place_in self.old.transactions tx.now ≡ length self.old.transactions }
        ensures there { IfOk result (λ place. IsPlaceOf self.new tx.now (Some place)) }
        ensures kept { IsKept self.old self.new }
        ensures room { self.new.room ≡ self.old.room }
        ensures err { IfErr result (λ e. e ≡ NoMemory) }
    {
        let Ok(course) = Course::new(self.alloc, tx) else {
            return Err(Refusal::NoMemory);
        };
        if self.rows.reserve(1).is_err() {
            return Err(Refusal::NoMemory);
        }
        let Ok(place) = self.transactions.insert_view(tx) else {
            return Err(Refusal::NoMemory);
        };
        self.rows.push_reserved(course);
        self.near = place;
        Ok(place)
    }

    /// A place for a transaction. At `NoMemory`, the only refusal, it has none, and nothing changes.
    pub fn make_place(&mut self, tx: &SpelledTx<'_>) -> Result<usize, Refusal>
        ensures there { IfOk result (λ place. IsPlaceOf self.new tx.now (Some place)) }
        ensures kept { IsKept self.old self.new }
        ensures room { self.new.room ≡ self.old.room }
        ensures err { IfErr result (λ e. e ≡ NoMemory) }
        ensures absent { OnErr result (is_placed_in self.old tx.now ≡ false) }
    {
        let place = self.place_of(tx);
        self.place_or_new(tx, place)
    }

    /// A place for a transaction whose place was looked up. At `NoMemory`, the only refusal, it has none, and nothing changes.
    fn place_or_new(&mut self, tx: &SpelledTx<'_>, place: Option<usize>) -> Result<usize, Refusal>
        requires { IsPlaceOf self.old tx.now place }
        ensures there { IfOk result (λ place. IsPlaceOf self.new tx.now (Some place)) }
        ensures kept { IsKept self.old self.new }
        ensures room { self.new.room ≡ self.old.room }
        ensures err { IfErr result (λ e. e ≡ NoMemory) }
        ensures absent { OnErr result (is_placed_in self.old tx.now ≡ false) }
    {
        match place {
            Some(place) => {
                self.near = place;
                Ok(place)
            }
            None => self.add_place(tx),
        }
    }

    /// The status of a transaction whose place was looked up.
    pub fn status_at(&self, tx: &SpelledTx<'_>, place: Option<usize>) -> Status
        requires { IsPlaceOf self.now tx.now place }
        ensures { result ≡ status_in (course_in self.now tx.now) }
    {
        let _ = tx.count();
        match place {
            Some(place) => self.rows[place].status(),
            None => Status::Unknown,
        }
    }

    /// The greatest stored ballot of a transaction whose place was looked up, 0 where there is none.
    pub fn greatest_at(&self, tx: &SpelledTx<'_>, place: Option<usize>) -> Ballot
        requires { IsPlaceOf self.now tx.now place }
        ensures { result ≡ (course_in self.now tx.now).greatest }
    {
        match place {
            Some(place) => self.rows[place].greatest(),
            None => 0,
        }
    }

    /// The leader knows a transaction. It gives the status then. At `NoMemory`, the only refusal, nothing changes.
    pub fn meet(&mut self, tx: &SpelledTx<'_>) -> Result<Status, Refusal>
        ensures status { IfOk result (λ status. status ≡ status_in (after_meeting (course_in self.old tx.now))) }
        ensures now { OnOk result (IsChanged self.old self.new tx.now (after_meeting (course_in self.old tx.now))) }
        ensures err { IfErr result (λ e. e ≡ NoMemory) }
        ensures kept { OnErr result (IsKept self.old self.new) }
    {
        let place = match self.make_place(tx) {
            Ok(place) => place,
            Err(refusal) => return Err(refusal),
        };
        let course = &mut self.rows[place];
        course.meet();
        Ok(course.status())
    }

    /// The leader knows a transaction that has an outcome, and whose place was looked up.
    pub fn mark_known(&mut self, tx: &SpelledTx<'_>, place: Option<usize>)
        requires { IsPlaceOf self.old tx.now place }
        ensures { is_final (status_in (course_in self.old tx.now)) ≡ true
            → IsChanged self.old self.new tx.now (after_meeting (course_in self.old tx.now)) }
    {
        let _ = tx.count();
        if let Some(place) = place {
            self.rows[place].meet();
        }
    }

    /// Puts a transaction among those that begin, unless it is there. At `NoMemory`, the only refusal, there was no room for it, and
    /// nothing else changes.
    fn list(&mut self, tx: &SpelledTx<'_>, place: usize) -> Result<(), Refusal>
        requires { IsPlaceOf self.old tx.now (Some place) }
        ensures ok { OnOk result (self.new ≡ with_room (with_beginning self.old tx.now) self.new.room) }
        ensures err { IfErr result (λ e. (e ≡ NoMemory) × (¬ (0 < self.old.room))) }
        ensures kept { OnErr result (self.new ≡ with_room self.old self.new.room) }
    {
        let _ = self.transactions.len();
        self.begun.add(place)
    }

    /// Makes room for one transaction more among those that begin. At `NoMemory`, the only refusal, and else too, nothing else changes.
    fn reserve(&mut self) -> Result<(), Refusal>
        ensures room { OnOk result (0 < self.new.room) }
        ensures same { self.new ≡ with_room self.old self.new.room }
        ensures err { IfErr result (λ e. e ≡ NoMemory) }
    {
        self.begun.reserve()
    }

    /// A place for a transaction, and room for it among those that begin. At `NoMemory`, the only refusal, it may have a place. Each course
    /// stays, and those that begin.
    pub fn make_ready(&mut self, tx: &SpelledTx<'_>) -> Result<(), Refusal>
        ensures ready { OnOk result (is_ready_in self.new tx.now ≡ true) }
        ensures kept { IsKept self.old self.new }
        ensures err { IfErr result (λ e. e ≡ NoMemory) }
    {
        match self.make_place(tx) {
            Ok(_) => self.reserve(),
            Err(refusal) => Err(refusal),
        }
    }

    /// A greater ballot of a transaction was stored, whose place was looked up. At `NoMemory`, the only refusal, it wasn't ready, and
    /// its course stays.
    pub fn store(
        &mut self,
        tx: &SpelledTx<'_>,
        place: Option<usize>,
        ballot: Ballot,
    ) -> Result<(), Refusal>
        requires { IsPlaceOf self.old tx.now place }
        ensures now { OnOk result (IsChanged (with_beginning self.old tx.now) self.new tx.now
            (after_ballot ballot (course_in self.old tx.now))) }
        ensures err { IfErr result (λ e. e ≡ NoMemory) }
        ensures kept { OnErr result (IsKept self.old self.new) }
        ensures absent { OnErr result (is_ready_in self.old tx.now ≡ false) }
    {
        let place = match self.place_or_new(tx, place) {
            Ok(place) => place,
            Err(refusal) => return Err(refusal),
        };
        let Ok(()) = self.list(tx, place) else {
            return Err(Refusal::NoMemory);
        };
        self.rows[place].store(ballot);
        Ok(())
    }

    /// A ballot of a transaction begins, after it was stored.
    pub fn begin(&mut self, tx: &SpelledTx<'_>, ballot: Ballot)
        ensures { 0 < (course_in self.old tx.now).greatest
            → IsChanged self.old self.new tx.now (after_beginning ballot (course_in self.old tx.now)) }
    {
        if let Some(place) = self.place_of(tx) {
            self.rows[place].begin(ballot);
        }
    }

    /// Phase 1b of an acceptor for some instances of a transaction. It gives what is proposed then.
    pub fn hear_1b(
        &mut self,
        tx: &SpelledTx<'_>,
        acceptors: u8,
        ballot: Ballot,
        acceptor: u8,
        items: &[InstanceReport],
    ) -> Proposals
        requires acceptors { acceptors ≤ most_acceptors }
        requires acceptor { acceptor < most_acceptors }
        requires few { length items.now ≤ most_branches }
        ensures result { result ≡ proposals_after_1b acceptors ballot acceptor items.now (course_in self.old tx.now) }
        ensures now { IsChanged self.old self.new tx.now (after_1b acceptors ballot acceptor items.now (course_in self.old tx.now)) }
    {
        let Some(place) = self.place_of(tx) else {
            return Proposals::new();
        };
        self.near = place;
        self.rows[place].on_1b(acceptors, ballot, acceptor, items)
    }

    /// Phase 2b of an acceptor for some instances of a transaction. It gives the status to tell of. At `NoMemory`, the only refusal,
    /// nothing changes.
    pub fn hear_2b(
        &mut self,
        tx: &SpelledTx<'_>,
        acceptors: u8,
        acceptor: u8,
        items: &[InstanceAccept],
    ) -> Result<Status, Refusal>
        requires acceptors { acceptors ≤ most_acceptors }
        requires acceptor { acceptor < most_acceptors }
        ensures status { IfOk result (λ status. status ≡ status_after_2b acceptors acceptor items.now (course_in self.old tx.now)) }
        ensures now { OnOk result (IsChanged self.old self.new tx.now (after_2b acceptors acceptor items.now (course_in self.old tx.now))) }
        ensures err { IfErr result (λ e. e ≡ NoMemory) }
        ensures kept { OnErr result (IsKept self.old self.new) }
    {
        let place = match self.make_place(tx) {
            Ok(place) => place,
            Err(refusal) => return Err(refusal),
        };
        self.rows[place].on_2b(acceptors, acceptor, items)
    }

    /// How many begin. No two are the same.
    pub fn begun_count(&self) -> usize
        ensures value { result ≡ length self.now.begun }
        ensures distinct { IsDistinct tx_eq self.now.begun }
    {
        let _ = self.transactions.len();
        self.begun.len()
    }

    /// The transaction at a place among those that begin, where there is one, over its spelled bytes.
    pub fn begun_view(&self, i: usize) -> Option<SpelledTx<'_>>
        ensures { result ≡ slice_get self.now.begun i }
    {
        self.transactions.view_at(&self.begun, i)
    }

    /// Whether each of those that begin is below a floor. It takes no memory.
    pub fn are_below(&self, floor: &Floor) -> bool
        ensures { result ≡ list_all (is_below (Some floor.now)) self.now.begun }
    {
        self.transactions.are_below(&self.begun, floor)
    }

    /// The greatest stored ballot of a transaction, 0 where there is none: it is likely to be the one at a place among those that begin.
    pub fn begun_greatest(&self, i: usize, tx: &SpelledTx<'_>) -> Ballot
        ensures { result ≡ (course_in self.now tx.now).greatest }
    {
        let likely = self.begun.get(i).unwrap_or(self.near);
        self.greatest_at(tx, self.transactions.number_of_view(tx, likely))
    }

    /// The frames of the greatest ballot of each transaction that has one, one after the other, in the order of those that begin.
    /// `NoMemory` is the only refusal.
    pub fn frames(&self) -> Result<Vec<u8>, Refusal>
        ensures ok { IfOk result (λ frames. AreWritten frames.items
            (map kinds.Fact (compacted self.now.begun (λ tx. (course_in self.now tx).greatest)))) }
        ensures err { IfErr result (λ e. e ≡ NoMemory) }
    {
        frames_of(self.alloc, self)
    }

    /// Puts a transaction that has no place after the others, with its course. `NoMemory` is the only refusal.
    fn put(&mut self, tx: &SpelledTx<'_>, course: Course) -> Result<(), Refusal>
        requires { place_in self.old.transactions tx.now ≡ length self.old.transactions }
        ensures now { OnOk result (self.new ≡ record self.old {
          transactions = self.old.transactions ++ tx.now ∷ [];
          rows = self.old.rows ++ course ∷ [];
        }) }
        ensures err { IfErr result (λ e. e ≡ NoMemory) }
    {
        self.rows.reserve(1)?;
        let place = self.transactions.insert_view(tx)?;
        self.rows.push_reserved(course);
        self.near = place;
        Ok(())
    }

    /// Puts transactions that aren't below a floor, in their order, each with its course. `NoMemory` is the only refusal.
    fn put_above(
        &mut self,
        transactions: &Transactions,
        rows: Vec<Course>,
        floor: &Floor,
    ) -> Result<(), Refusal>
        requires empty { (self.old.transactions ≡ []) × (self.old.rows ≡ []) }
        requires each { length rows.items ≡ length transactions.now }
        ensures courses { OnOk result ((tx : TxParts) → course_in self.new tx ≡ (if is_below (Some floor.now) tx then fresh tx
            else slice_index_or rows.items (place_in transactions.now tx) (fresh tx))) }
        ensures begun { OnOk result (self.new.begun ≡ self.old.begun) }
        ensures err { IfErr result (λ e. e ≡ NoMemory) }
    {
        // no two of them are the same
        let _ = transactions.len();
        let mut place = 0;
        for course in rows {
            let Some(tx) = transactions.view(place) else {
                unreachable!();
            };
            place += 1;
            if tx.is_below(floor) {
                continue;
            }
            self.put(&tx, course)?;
        }
        Ok(())
    }

    /// Puts the transactions of an order that aren't below a floor among those that begin. `NoMemory` is the only refusal.
    fn begin_above(
        &mut self,
        transactions: &Transactions,
        begun: &Order,
        floor: &Floor,
    ) -> Result<(), Refusal>
        requires empty { self.old.begun ≡ [] }
        requires inside { AreInside (length transactions.now) begun.now.numbers }
        ensures courses { OnOk result ((tx : TxParts) → course_in self.new tx ≡ course_in self.old tx) }
        ensures begun { OnOk result (self.new.begun
            ≡ filter (λ tx. not (is_below (Some floor.now) tx)) (at_places transactions.now begun.now.numbers)) }
        ensures err { IfErr result (λ e. e ≡ NoMemory) }
    {
        // no two of them are the same
        let _ = transactions.len();
        for i in 0..begun.len() {
            let Some(tx) = transactions.view_at(begun, i) else {
                unreachable!();
            };
            if tx.is_below(floor) {
                continue;
            }
            let place = self.make_place(&tx)?;
            self.list(&tx, place)?;
        }
        Ok(())
    }

    /// The courses of those that aren't below a floor, and of these those of which a ballot is stored in their order. Refused: `NoMemory`
    /// alone.
    pub fn above(self, key: HashKey, floor: &Floor) -> Result<Courses, Refusal>
        ensures ok { IfOk result (λ left. IsLeft floor.now self left) }
        ensures err { IfErr result (λ e. e ≡ NoMemory) }
    {
        let Courses {
            alloc,
            transactions,
            rows,
            begun,
            near: _,
        } = self;
        let mut left = Courses::new(alloc, key);
        left.put_above(&transactions, rows, floor)?;
        left.begin_above(&transactions, &begun, floor)?;
        Ok(left)
    }
}
