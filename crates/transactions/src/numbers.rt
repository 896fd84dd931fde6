ghost use Rattle.std.specs.Prelude.{◌≡◌, ◌<◌, [], IfOk, IfErr, IsTrue, MatchOption, Some, length, position, slice_get, false};
ghost use Rattle.std.specs.List.{All, IsDistinct, list_all, list_any, position_or_len};
ghost use Rattle.std.specs.Str.{bytes_eq};
ghost use Rattle.xid.specs.Places.{is_below};
ghost use Rattle.xid.specs.Transactions.{IsTx, tx_eq};
ghost use Rattle.xid.specs.declared.refusals.Refusal.TheVariants.{NoMemory};
ghost use Rattle.wire.specs.Grammar.{tx_spelling};
ghost use Rattle.wire.specs.Versions.{version_2};
ghost use Rattle.transactions.specs.Seen.{AreInside, at_places, place_in, seen_with};

use crate::hashed::{HashedPlaces, stand_at};
use crate::order::Order;
use crate::spellings::Spellings;
use hashing::{HashKey, WordKey, hash_of};
use std::alloc::Global;
use std::marker::Model;
use wire::{MAX_TX_BYTES, SpelledTx, VersionNumber, take_tx};
use xid::{Floor, Refusal, Tx};

/// Transactions in the order of first sight. The number of a transaction is its place in that order, and stays. Each is kept by its
/// spelled bytes, and is found by a hash of them under a key.
#[derive(Debug, Drop)]
pub struct Transactions {
    alloc: Global,
    words: WordKey,
    spelled: Spellings,
    places: HashedPlaces,
}

impl Model for Transactions {
    ghost use Rattle.std.specs.Prelude.{List, map};
    ghost use Rattle.std.specs.List.{All};
    ghost use Rattle.xid.specs.Transactions.{TxParts};
    ghost use Rattle.wire.specs.Spelled.{tx_spelled, IsSpelled};
    ghost use Rattle.transactions.specs.Found.{IsIndex, hint_of, other_of};

    ghost Value = { List TxParts };

    ghost view = { λ t. map tx_spelled t.spelled };

    ghost invariant = { λ t. record {
      spelled : All (λ key. IsSpelled key) t.spelled;
      found : IsIndex (λ key. key) t.words t.spelled (hint_of t.places) (other_of t.places);
    } };
}

impl Transactions {
    /// No transaction, under the key of those that draw none. It takes no memory.
    pub fn new(alloc: Global) -> Transactions
        ensures { result ≡ [] }
    {
        Transactions::with_hash_key(alloc, HashKey::fixed())
    }

    /// No transaction, under a key of hashes, which nothing that is answered depends on. It takes no memory.
    pub fn with_hash_key(alloc: Global, key: HashKey) -> Transactions
        ensures { result ≡ [] }
    {
        Transactions {
            alloc,
            words: key.words(),
            spelled: Spellings::new(alloc),
            places: HashedPlaces::new(alloc, key.sip()),
        }
    }

    /// How many there are. No two are the same.
    pub fn len(&self) -> usize
        ensures value { result ≡ length self.now }
        ensures distinct { IsDistinct tx_eq self.now }
        ensures valid { All IsTx self.now }
    {
        self.spelled.len()
    }

    /// The number of the transaction that these bytes spell, where it was seen. It takes no memory.
    pub fn number_of_spelled(&self, spelled: &[u8]) -> Option<usize>
        ensures value { result ≡ position (λ tx. bytes_eq spelled.now (tx_spelling version_2 tx)) self.now }
        ensures valid { All IsTx self.now }
    {
        self.places
            .find(&self.spelled, hash_of(self.words, spelled), spelled)
    }

    /// The number of a transaction, where it was seen. It takes no memory.
    pub fn number_of(&self, tx: &Tx) -> Option<usize>
        ensures value { result ≡ position (tx_eq tx.now) self.now }
        ensures place { MatchOption result (place_in self.now tx.now ≡ length self.now)
            (λ number. (number ≡ place_in self.now tx.now) × (number < length self.now)) }
    {
        let mut buffer = [0; MAX_TX_BYTES];
        self.number_of_spelled(SpelledTx::of(tx, &mut buffer).as_bytes())
    }

    /// The transaction of a number, where there is one. It takes no memory.
    pub fn get(&self, number: usize) -> Option<Tx>
        ensures { result ≡ slice_get self.now number }
    {
        let Some(spelled) = self.spelled.get(number) else {
            return None;
        };
        let Some(taken) = take_tx(VersionNumber::Second, spelled) else {
            return None;
        };
        let tx = taken.0;
        Some(tx)
    }

    /// The transaction of a number over its spelled bytes, where there is one. It takes no memory.
    pub fn view(&self, number: usize) -> Option<SpelledTx<'_>>
        ensures { result ≡ slice_get self.now number }
    {
        let spelled = self.spelled.get(number)?;
        let (tx, _) = SpelledTx::take(spelled)?;
        Some(tx)
    }

    /// The transaction at a place of an order over its spelled bytes, where there is one. It takes no memory.
    pub fn view_at(&self, order: &Order, i: usize) -> Option<SpelledTx<'_>>
        requires { AreInside (length self.now) order.now.numbers }
        ensures { result ≡ slice_get (at_places self.now order.now.numbers) i }
    {
        match order.get(i) {
            Some(number) => self.view(number),
            None => None,
        }
    }

    /// Whether each transaction of an order is below a floor. It takes no memory.
    pub fn are_below(&self, order: &Order, floor: &Floor) -> bool
        requires { AreInside (length self.now) order.now.numbers }
        ensures { result ≡ list_all (is_below (Some floor.now)) (at_places self.now order.now.numbers) }
    {
        for i in 0..order.len() {
            let Some(tx) = self.view_at(order, i) else {
                unreachable!();
            };
            if !tx.is_below(floor) {
                return false;
            }
        }
        true
    }

    /// Whether the transaction of a number is the one that these bytes spell.
    fn is_at(&self, number: usize, spelled: &[u8]) -> bool
        ensures place { IsTrue result → (number ≡ position_or_len (λ tx. bytes_eq spelled.now (tx_spelling version_2 tx)) self.now)
            × (number < length self.now) }
        ensures valid { All IsTx self.now }
    {
        stand_at(&self.spelled, spelled, number)
    }

    /// The number of a transaction, where it was seen, as `number_of` gives it. A number that is likely, and the one after it, are
    /// tried before the bytes are hashed. It takes no memory.
    pub fn number_of_view(&self, tx: &SpelledTx<'_>, likely: usize) -> Option<usize>
        ensures { MatchOption result (place_in self.now tx.now ≡ length self.now)
            (λ number. (number ≡ place_in self.now tx.now) × (number < length self.now)) }
    {
        let spelled = tx.as_bytes();
        if self.is_at(likely, spelled) {
            return Some(likely);
        }
        let next = likely.wrapping_add(1);
        if self.is_at(next, spelled) {
            return Some(next);
        }
        self.number_of_spelled(spelled)
    }

    /// Puts a transaction after the others, unless it was seen, and answers its number. At `NoMemory`, the only refusal, all is as
    /// before.
    pub fn insert_view(&mut self, tx: &SpelledTx<'_>) -> Result<usize, Refusal>
        ensures valid { IsTx tx.now }
        ensures ok { IfOk result (λ number. (number ≡ place_in self.old tx.now) × (self.new ≡ seen_with self.old tx.now)) }
        ensures err { IfErr result (λ e. (e ≡ NoMemory) × (self.new ≡ self.old)) }
    {
        let spelled = tx.as_bytes();
        let hash = hash_of(self.words, spelled);
        if let Some(number) = self.places.find(&self.spelled, hash, spelled) {
            return Ok(number);
        }
        let number = self.spelled.len();
        self.spelled.push(spelled)?;
        if let Err(refusal) = self.places.add(self.alloc, hash, spelled, number) {
            self.spelled.pop();
            return Err(refusal);
        }
        Ok(number)
    }

    /// Puts a transaction after the others, unless it was seen, and answers its number. At `NoMemory`, the only refusal, it wasn't
    /// seen, and all is as before.
    pub fn add(&mut self, tx: &Tx) -> Result<usize, Refusal>
        ensures valid { IsTx tx.now }
        ensures ok { IfOk result (λ number. (number ≡ place_in self.old tx.now) × (self.new ≡ seen_with self.old tx.now)) }
        ensures err { IfErr result (λ e. (e ≡ NoMemory) × (list_any (tx_eq tx.now) self.old ≡ false) × (self.new ≡ self.old)) }
    {
        let mut buffer = [0; MAX_TX_BYTES];
        let view = SpelledTx::of(tx, &mut buffer);
        match self.number_of_spelled(view.as_bytes()) {
            Some(number) => Ok(number),
            None => self.insert_view(&view),
        }
    }
}
