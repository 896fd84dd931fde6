ghost use Rattle.std.specs.Prelude.{◌≡◌, ◌==◌, ◌<◌, [], IfErr, OnOk, OnErr, length, slice_get, nat_eq, false};
ghost use Rattle.std.specs.List.{IsDistinct, list_any};
ghost use Rattle.xid.specs.declared.refusals.Refusal.TheVariants.{NoMemory};
ghost use Rattle.transactions.specs.Seen.{numbered_with};

use hashing::WordHasher;
use indexmap::IndexSet;
use std::alloc::Global;
use std::hash::BuildHasherDefault;
use std::marker::Model;
use xid::Refusal;

/// Numbers of transactions in an order of their own, each once.
#[derive(Debug, Drop)]
pub struct Order {
    numbers: IndexSet<usize, BuildHasherDefault<WordHasher>>,
}

impl Model for Order {
    ghost use Rattle.indexmap.specs.IndexSet.{spare};
    ghost use Rattle.transactions.specs.Seen.{OrderParts};

    ghost Value = { OrderParts };

    ghost view = { λ o. record { numbers = o.numbers.keys; room = spare o.numbers } };
}

impl Order {
    /// No number. It takes no memory.
    pub fn new(alloc: Global) -> Order
        ensures { result.numbers ≡ [] }
    {
        Order {
            numbers: IndexSet::with_hasher(alloc, BuildHasherDefault::new()),
        }
    }

    /// How many there are. No two are the same.
    pub fn len(&self) -> usize
        ensures value { result ≡ length self.now.numbers }
        ensures distinct { IsDistinct nat_eq self.now.numbers }
    {
        self.numbers.len()
    }

    /// The number of a place, where there is one. It takes no memory.
    pub fn get(&self, place: usize) -> Option<usize>
        ensures { result ≡ slice_get self.now.numbers place }
    {
        match self.numbers.get_index(place) {
            Some(number) => Some(*number),
            None => None,
        }
    }

    /// Makes room for one number more, so that `add` of it takes no memory. At `NoMemory`, the only refusal, there was none. The numbers
    /// stay.
    pub fn reserve(&mut self) -> Result<(), Refusal>
        ensures room { OnOk result (0 < self.new.room) }
        ensures numbers { self.new.numbers ≡ self.old.numbers }
        ensures err { IfErr result (λ e. (e ≡ NoMemory) × (¬ (0 < self.old.room))) }
    {
        match self.numbers.reserve(1) {
            Ok(()) => Ok(()),
            Err(_) => Err(Refusal::NoMemory),
        }
    }

    /// Puts a number after the others, unless it is there. At `NoMemory`, the only refusal, it isn't there, there was no room for it, and
    /// the numbers stay.
    pub fn add(&mut self, number: usize) -> Result<(), Refusal>
        ensures ok { OnOk result (self.new.numbers ≡ numbered_with self.old.numbers number) }
        ensures err { IfErr result (λ e. (e ≡ NoMemory) × (¬ (0 < self.old.room))) }
        ensures absent { OnErr result (list_any (λ m. number == m) self.old.numbers ≡ false) }
        ensures kept { OnErr result (self.new.numbers ≡ self.old.numbers) }
    {
        let Ok(_) = self.numbers.insert_full(number) else {
            return Err(Refusal::NoMemory);
        };
        Ok(())
    }
}
