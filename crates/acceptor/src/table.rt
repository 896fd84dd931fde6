ghost use Rattle.std.specs.Prelude.{◌≡◌, ℕ, ◌<◌, true, [], ◌∷◌, ◌++◌, Some, IfSome, IfOk, IfErr, OnOk, length, map, replicate, slice_get};
ghost use Rattle.std.specs.List.{slice_index_or, All, IsDistinct, list_all};
ghost use Rattle.xid.specs.Places.{is_below};
ghost use Rattle.xid.specs.Transactions.{TxParts, IsTx, tx_eq};
ghost use Rattle.xid.specs.declared.refusals.Refusal.TheVariants.{NoMemory};
ghost use Rattle.ballot.specs.Slots.{empty_slot};
ghost use Rattle.stable_record.specs.declared.entry.EntryKind.TheVariants as kinds;
ghost use Rattle.stable_record.specs.Facts.{fact_tx};
ghost use Rattle.stable_record.specs.Written.{AreWritten};
ghost use Rattle.transactions.specs.Seen.{AreInside, at_places, place_in, seen_with};
ghost use Rattle.protocol.specs.Acceptors.{plays_at_acceptor};
ghost use Rattle.acceptor.specs.Slots.{after_fact};
ghost use Rattle.acceptor.specs.SlotTables.{IsLeft, IsSeen, IsTable, slots_in, slot_in};
ghost use Rattle.acceptor.specs.Compaction.{compacted};

use crate::shorter::frames_of;
use crate::slots::{KeptSlot, change};
use hashing::HashKey;
use stable_record::FactView;
use std::alloc::{AllocError, Global};
use std::marker::Model;
use transactions::{Order, Transactions};
use wire::SpelledTx;
use xid::{Floor, Refusal};

/// The slots of all transactions that an acceptor has seen: for each one for each of its branches.
#[derive(Debug, Drop)]
pub struct Table {
    alloc: Global,
    transactions: Transactions,
    slots: Vec<Vec<KeptSlot>>,
    // the number of the one that changed last, which is likely to be the next one asked for
    near: usize,
}

impl Model for Table {
    ghost use Rattle.std.specs.Prelude.{map};
    ghost use Rattle.acceptor.specs.SlotTables.{TableParts, IsTable};

    ghost Value = { TableParts };

    ghost view = { λ t. record { transactions = t.transactions; slots = map (λ slots. slots.items) t.slots.items } };

    ghost invariant = { λ t. IsTable (record { transactions = t.transactions; slots = map (λ slots. slots.items) t.slots.items }) };
}

impl Table {
    /// No transaction is seen. They are hashed under the key.
    pub fn new(alloc: Global, key: HashKey) -> Table
        ensures transactions { result.transactions ≡ [] }
        ensures slots { result.slots ≡ [] }
    {
        Table {
            alloc,
            transactions: Transactions::with_hash_key(alloc, key),
            slots: Vec::new(alloc),
            near: 0,
        }
    }

    /// The number of a transaction, where it was seen.
    pub fn number_of(&self, tx: &SpelledTx<'_>) -> Option<usize>
        ensures { IfSome result (λ number. (number ≡ place_in self.now.transactions tx.now) × IsSeen self.now tx.now
            × (number < length self.now.slots)) }
    {
        // a use of a field, by which it is known that each number has slots
        let _slots = &self.slots;
        self.transactions.number_of_view(tx, self.near)
    }

    /// The slots of the transaction of a number.
    pub fn slots(&self, number: usize) -> &[KeptSlot]
        requires { number < length self.now.slots }
        ensures { result.now ≡ slice_index_or self.now.slots number [] }
    {
        &self.slots[number]
    }

    /// The slots of a transaction, none where it wasn't seen.
    pub fn slots_of(&self, tx: &SpelledTx<'_>) -> &[KeptSlot]
        ensures { result.now ≡ slots_in self.now tx.now }
    {
        match self.transactions.number_of_view(tx, self.near) {
            Some(number) => &self.slots[number],
            None => &[],
        }
    }

    /// Sees a transaction: its slots are those at first, unless it was seen. It answers the transaction's number. At `NoMemory`, the
    /// only refusal, it wasn't seen, and all is as before.
    pub fn see(&mut self, tx: &SpelledTx<'_>) -> Result<usize, Refusal>
        ensures number { IfOk result (λ number. number ≡ place_in self.new.transactions tx.now) }
        ensures seen { IfOk result (λ _. IsSeen self.new tx.now) }
        ensures transactions { OnOk result (self.new.transactions ≡ seen_with self.old.transactions tx.now) }
        ensures same { (other : TxParts) (i : ℕ) → slot_in self.new other i ≡ slot_in self.old other i }
        ensures err { IfErr result (λ e. (e ≡ NoMemory) × (¬ IsSeen self.old tx.now) × (self.new ≡ self.old)) }
    {
        if let Some(number) = self.transactions.number_of_view(tx, self.near) {
            return Ok(number);
        }
        let Ok(slots) = first_slots(self.alloc, tx) else {
            return Err(Refusal::NoMemory);
        };
        if self.slots.reserve(1).is_err() {
            return Err(Refusal::NoMemory);
        }
        let Ok(number) = self.transactions.insert_view(tx) else {
            return Err(Refusal::NoMemory);
        };
        self.slots.push_reserved(slots);
        Ok(number)
    }

    /// Sees a transaction that wasn't seen, which has these slots. It answers the transaction's number. At `NoMemory`, the only refusal,
    /// all is as before.
    fn put(&mut self, tx: &SpelledTx<'_>, slots: &[KeptSlot]) -> Result<usize, Refusal>
        requires new { ¬ IsSeen self.old tx.now }
        requires whole { length slots.now ≡ length tx.now.branches }
        ensures ok { IfOk result (λ number. (number ≡ length self.old.transactions) × (self.new ≡ record {
          transactions = self.old.transactions ++ tx.now ∷ [];
          slots = self.old.slots ++ slots.now ∷ [];
        })) }
        ensures err { IfErr result (λ e. (e ≡ NoMemory) × (self.new ≡ self.old)) }
    {
        let Ok(slots) = Vec::from_slice(self.alloc, slots) else {
            return Err(Refusal::NoMemory);
        };
        if self.slots.reserve(1).is_err() {
            return Err(Refusal::NoMemory);
        }
        let Ok(added) = self.transactions.insert_view(tx) else {
            return Err(Refusal::NoMemory);
        };
        self.slots.push_reserved(slots);
        Ok(added)
    }

    /// The slots of those transactions of an order that aren't below a floor, and these in their order. Refused: `NoMemory` alone.
    pub fn above(
        &self,
        key: HashKey,
        begun: &Order,
        floor: &Floor,
    ) -> Result<(Table, Order), Refusal>
        requires { AreInside (length self.now.transactions) begun.now.numbers }
        ensures ok { IfOk result (λ left. IsLeft floor.now self.now (at_places self.now.transactions begun.now.numbers) left.0
            left.1.numbers) }
        ensures err { IfErr result (λ e. e ≡ NoMemory) }
    {
        // no transaction is seen twice, and none begins twice
        let _ = self.transactions.len();
        let mut left = Table::new(self.alloc, key);
        let mut order = Order::new(self.alloc);
        for i in 0..begun.len() {
            let Some(tx) = self.begun_view(begun, i) else {
                unreachable!();
            };
            if tx.is_below(floor) {
                continue;
            }
            let number = left.put(&tx, self.begun_slots(begun, i, &tx))?;
            order.add(number)?;
        }
        Ok((left, order))
    }

    /// Changes the slots of the transaction of a number by a fact that plays.
    pub fn change(&mut self, number: usize, fact: &FactView<'_>)
        requires number { number ≡ place_in self.old.transactions (fact_tx fact.now) }
        requires seen { IsSeen self.old (fact_tx fact.now) }
        requires plays { plays_at_acceptor (slot_in self.old) fact.now ≡ true }
        ensures transactions { self.new.transactions ≡ self.old.transactions }
        ensures slots { (other : TxParts) (i : ℕ) → slot_in self.new other i ≡ after_fact other i (slot_in self.old other i) fact.now }
    {
        self.near = number;
        change(&mut self.slots[number], fact);
    }

    /// How many transactions are seen. No two are the same.
    pub fn len(&self) -> usize
        ensures value { result ≡ length self.now.transactions }
        ensures distinct { IsDistinct tx_eq self.now.transactions }
    {
        self.transactions.len()
    }

    /// How many transactions an order has.
    pub fn begun_count(&self, begun: &Order) -> usize
        ensures { result ≡ length (at_places self.now.transactions begun.now.numbers) }
    {
        begun.len()
    }

    /// The transaction at a place of an order, where there is one, over its spelled bytes.
    pub fn begun_view(&self, begun: &Order, i: usize) -> Option<SpelledTx<'_>>
        requires { AreInside (length self.now.transactions) begun.now.numbers }
        ensures { result ≡ slice_get (at_places self.now.transactions begun.now.numbers) i }
    {
        self.transactions.view_at(begun, i)
    }

    /// Whether each transaction of an order is below a floor. It takes no memory.
    pub fn are_below(&self, begun: &Order, floor: &Floor) -> bool
        requires { AreInside (length self.now.transactions) begun.now.numbers }
        ensures { result ≡ list_all (is_below (Some floor.now)) (at_places self.now.transactions begun.now.numbers) }
    {
        self.transactions.are_below(begun, floor)
    }

    /// The slots of a transaction, none where it wasn't seen: it is likely to be the one at a place of an order.
    pub fn begun_slots(&self, begun: &Order, i: usize, tx: &SpelledTx<'_>) -> &[KeptSlot]
        ensures { result.now ≡ slots_in self.now tx.now }
    {
        let likely = begun.get(i).unwrap_or(self.near);
        match self.transactions.number_of_view(tx, likely) {
            Some(number) => &self.slots[number],
            None => &[],
        }
    }

    /// The frames of the facts that lead to its slots, one after the other: for each transaction that has begun, in this order, what each
    /// instance accepted last, then one promise for all, and then single ones above it. `NoMemory` is the only refusal.
    pub fn frames(&self, begun: &Order) -> Result<Vec<u8>, Refusal>
        requires { AreInside (length self.now.transactions) begun.now.numbers }
        ensures ok { IfOk result (λ frames. AreWritten frames.items
            (map kinds.Fact (compacted (at_places self.now.transactions begun.now.numbers) (slot_in self.now)))) }
        ensures err { IfErr result (λ e. e ≡ NoMemory) }
        ensures table { IsTable self.now }
        ensures valid { All IsTx self.now.transactions }
    {
        let _ = self.transactions.len();
        frames_of(self.alloc, self, begun)
    }
}

/// Puts a transaction that was seen, by its number, after those that have begun, unless it is there. At `NoMemory`, the only refusal, there
/// was no room for it, and all is as before.
pub fn begin(
    begun: &mut Order,
    table: &Table,
    number: usize,
    tx: &SpelledTx<'_>,
) -> Result<(), Refusal>
    requires number { number ≡ place_in table.now.transactions tx.now }
    requires seen { IsSeen table.now tx.now }
    requires inside { AreInside (length table.now.transactions) begun.old.numbers }
    ensures inside { AreInside (length table.now.transactions) begun.new.numbers }
    ensures ok { OnOk result (at_places table.now.transactions begun.new.numbers
        ≡ seen_with (at_places table.now.transactions begun.old.numbers) tx.now) }
    ensures err { IfErr result (λ e. (e ≡ NoMemory) × (¬ (0 < begun.old.room)) × (begun.new.numbers ≡ begun.old.numbers)) }
{
    let _ = table.len();
    let _ = tx.count();
    begun.add(number)
}

/// The slots of a transaction at first.
fn first_slots(alloc: Global, tx: &SpelledTx<'_>) -> Result<Vec<KeptSlot>, AllocError>
    ensures { IfOk result (λ slots. slots.items ≡ replicate (length tx.now.branches) empty_slot) }
{
    let count = tx.count();
    let mut slots = Vec::with_capacity(alloc, count)?;
    slots.resize(count, KeptSlot::new())?;
    Ok(slots)
}
