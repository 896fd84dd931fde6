ghost use Rattle.std.specs.Prelude.{◌≡◌, ◌<◌, [], true, IfOk, IfErr, OnOk, MatchOption, length, nat_lt, filter_map, slice_get};
ghost use Rattle.std.specs.List.{list_all, slice_index_or};
ghost use Rattle.xid.specs.Transactions.{TxParts};
ghost use Rattle.xid.specs.declared.refusals.Refusal.TheVariants.{NoMemory};
ghost use Rattle.transactions.specs.Seen.{place_in};
ghost use Rattle.resource_manager.specs.Courses.{IsSeen, begun_with, course_in, Sets};
ghost use Rattle.resource_manager.specs.declared.course.Course.TheVariants as courses;

use crate::course::Course;
use hashing::HashKey;
use std::alloc::Global;
use std::marker::Model;
use transactions::Transactions;
use wire::SpelledTx;
use xid::Refusal;

/// The transactions that a resource manager has seen, and how far each has come. One that wasn't seen is working. The others stand in
/// the order of their first facts too, by their numbers.
#[derive(Debug, Drop)]
pub struct Courses {
    transactions: Transactions,
    courses: Vec<Course>,
    begun: Vec<usize>,
    /// The number of the transaction that was seen last: most often that of the next event, or the one before it.
    near: usize,
}

impl Model for Courses {
    ghost use Rattle.std.specs.Prelude.{◌≡◌, ◌-◌, true, nat_lt, length, filter_map, slice_get};
    ghost use Rattle.std.specs.List.{list_all};
    ghost use Rattle.std.specs.Vec.{vec_len, vec_capacity};
    ghost use Rattle.resource_manager.specs.Courses.{CoursesParts};

    ghost Value = { CoursesParts };

    ghost view = { λ c. record {
      transactions = c.transactions;
      courses = c.courses.items;
      begun = filter_map (slice_get c.transactions) c.begun.items;
      room = vec_capacity c.begun - vec_len c.begun;
    } };

    ghost invariant = { λ c. (length c.courses.items ≡ length c.transactions)
        × (list_all (λ number. nat_lt number (length c.transactions)) c.begun.items ≡ true) };
}

impl Courses {
    /// No transaction is seen. They are hashed under the key. It takes no memory.
    pub fn new(alloc: Global, key: HashKey) -> Courses
        ensures transactions { result.transactions ≡ [] }
        ensures courses { result.courses ≡ [] }
        ensures begun { result.begun ≡ [] }
    {
        Courses {
            transactions: Transactions::with_hash_key(alloc, key),
            courses: Vec::new(alloc),
            begun: Vec::new(alloc),
            near: 0,
        }
    }

    /// How many transactions are seen.
    pub fn len(&self) -> usize
        ensures { result ≡ length self.now.transactions }
    {
        self.transactions.len()
    }

    /// The number of a transaction, where it was seen. It takes no memory.
    pub fn number_of(&self, tx: &SpelledTx<'_>) -> Option<usize>
        ensures { MatchOption result (course_in self.now tx.now ≡ courses.Working)
            (λ number. (number ≡ place_in self.now.transactions tx.now) × IsSeen self.now tx.now × (number < length self.now.courses)) }
    {
        self.transactions.number_of_view(tx, self.near)
    }

    /// How far the transaction of a number has come.
    pub fn at(&self, number: usize) -> Course
        requires { number < length self.now.courses }
        ensures { result ≡ slice_index_or self.now.courses number courses.Working }
    {
        self.courses[number]
    }

    /// How far a transaction has come. It takes no memory.
    pub fn of(&self, tx: &SpelledTx<'_>) -> Course
        ensures { result ≡ course_in self.now tx.now }
    {
        self.of_likely(tx, self.near)
    }

    /// How far a transaction has come, which is likely to have this number. It takes no memory.
    pub fn of_likely(&self, tx: &SpelledTx<'_>, likely: usize) -> Course
        ensures { result ≡ course_in self.now tx.now }
    {
        match self.transactions.number_of_view(tx, likely) {
            Some(number) => self.courses[number],
            None => Course::Working,
        }
    }

    /// Sees a transaction, which is working then unless it was seen, and answers its number. At `NoMemory`, the only refusal, it wasn't
    /// seen; then, and else too, each has come as far as before.
    pub fn see(&mut self, tx: &SpelledTx<'_>) -> Result<usize, Refusal>
        ensures number { IfOk result (λ number. (number ≡ place_in self.new.transactions tx.now) × IsSeen self.new tx.now) }
        ensures same { (other : TxParts) → course_in self.new other ≡ course_in self.old other }
        ensures begun { self.new.begun ≡ self.old.begun }
        ensures room { self.new.room ≡ self.old.room }
        ensures err { IfErr result (λ e. (e ≡ NoMemory) × (¬ IsSeen self.old tx.now)) }
    {
        if let Some(number) = self.transactions.number_of_view(tx, self.near) {
            self.near = number;
            return Ok(number);
        }
        if self.courses.reserve(1).is_err() {
            return Err(Refusal::NoMemory);
        }
        let Ok(number) = self.transactions.insert_view(tx) else {
            return Err(Refusal::NoMemory);
        };
        self.courses.push_reserved(Course::Working);
        self.near = number;
        Ok(number)
    }

    /// Makes room for one transaction more of which a fact is stored. At `NoMemory`, the only refusal, there was none; then, and else
    /// too, each has come as far as before.
    pub fn reserve(&mut self) -> Result<(), Refusal>
        ensures room { OnOk result (0 < self.new.room) }
        ensures transactions { self.new.transactions ≡ self.old.transactions }
        ensures courses { self.new.courses ≡ self.old.courses }
        ensures begun { self.new.begun ≡ self.old.begun }
        ensures err { IfErr result (λ e. (e ≡ NoMemory) × (¬ (0 < self.old.room))) }
    {
        match self.begun.reserve(1) {
            Ok(()) => Ok(()),
            Err(_) => Err(Refusal::NoMemory),
        }
    }

    /// Sets how far the transaction of a number has come. One that was working is the last then of which a fact is stored: there is room
    /// for it.
    pub fn set(&mut self, tx: &SpelledTx<'_>, number: usize, course: Course)
        requires number { number ≡ place_in self.old.transactions tx.now }
        requires seen { IsSeen self.old tx.now }
        requires room { course_in self.old tx.now ≡ courses.Working → 0 < self.old.room }
        ensures courses { Sets self.old self.new tx.now course }
        ensures begun { self.new.begun ≡ begun_with self.old tx.now }
    {
        if !self.at(number).is_working() {
            self.courses[number] = course;
            return;
        }
        self.begun.push_reserved(number);
        self.courses[number] = course;
    }

    /// The numbers of the transactions of which a fact is stored, in the order of their first facts.
    pub fn begun(&self) -> &[usize]
        ensures below { list_all (λ number. nat_lt number (length self.now.transactions)) result.now ≡ true }
        ensures found { filter_map (slice_get self.now.transactions) result.now ≡ self.now.begun }
    {
        &self.begun
    }

    /// The transaction of a number over its spelled bytes, where there is one. It takes no memory.
    pub fn view(&self, number: usize) -> Option<SpelledTx<'_>>
        ensures { result ≡ slice_get self.now.transactions number }
    {
        self.transactions.view(number)
    }
}
