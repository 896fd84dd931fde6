ghost use Rattle.std.specs.Prelude.{◌≡◌, [], true, None, is_some, IfErr, OnOk, OnErr};
ghost use Rattle.xid.specs.declared.refusals.Refusal.TheVariants.{NoMemory};
ghost use Rattle.transactions.specs.Found.{is_at, found, hint_of, other_of, IsFound, IsPlaced};

use crate::spellings::Spellings;
use hashing::{SipKey, WordHasher};
use indexmap::IndexMap;
use std::alloc::Global;
use std::hash::BuildHasherDefault;
use xid::Refusal;

/// Where spelled bytes stand in a list, by their hashes.
#[derive(Debug, Drop)]
pub struct HashedPlaces {
    /// For a hash, the place of the first bytes that have it. Hashes are keyed, so nobody chooses what is looked up here.
    hints: IndexMap<u64, usize, BuildHasherDefault<WordHasher>>,
    /// The places of other bytes, whose hash was taken.
    others: IndexMap<Vec<u8>, usize, SipKey>,
}

/// Whether bytes stand at a place among keys.
pub fn stand_at(keys: &Spellings, bytes: &[u8], place: usize) -> bool
    ensures { result ≡ is_at (λ key. key) keys.now bytes.now place }
{
    match keys.get(place) {
        Some(key) => bytes == key,
        None => false,
    }
}

impl HashedPlaces {
    /// No place. Bytes whose hash was taken are hashed under the key. It takes no memory.
    pub fn new(alloc: Global, key: SipKey) -> HashedPlaces
        ensures hints { result.hints.entries ≡ [] }
        ensures others { result.others.entries ≡ [] }
    {
        HashedPlaces {
            hints: IndexMap::with_hasher(alloc, BuildHasherDefault::new()),
            others: IndexMap::with_hasher(alloc, key),
        }
    }

    /// The place of bytes among keys, of which this is the hash. What a hint says counts where they stand there. It takes no memory.
    fn find_by_hint(&self, keys: &Spellings, hash: u64, bytes: &[u8]) -> Option<usize>
        ensures { result ≡ found (λ key. key) keys.now bytes.now (hint_of self.now hash) (other_of self.now bytes.now) }
    {
        let place = *self.hints.get(&hash)?;
        if stand_at(keys, bytes, place) {
            return Some(place);
        }
        if self.others.is_empty() {
            return None;
        }
        self.others.get(bytes).copied()
    }

    /// The same place, or another where the bytes stand. While no hash was taken twice a hint's index is its place, and so its value
    /// isn't looked at. It takes no memory.
    pub fn find(&self, keys: &Spellings, hash: u64, bytes: &[u8]) -> Option<usize>
        ensures { IsFound (λ key. key) keys.now bytes.now
            (found (λ key. key) keys.now bytes.now (hint_of self.now hash) (other_of self.now bytes.now)) result }
    {
        let index = self.hints.get_index_of(&hash)?;
        if self.others.is_empty() && stand_at(keys, bytes, index) {
            return Some(index);
        }
        self.find_by_hint(keys, hash, bytes)
    }

    /// Notes the place of bytes, of which this is the hash and which weren't found. Where it is refused, all is as before.
    pub fn add(
        &mut self,
        alloc: Global,
        hash: u64,
        bytes: &[u8],
        place: usize,
    ) -> Result<(), Refusal>
        requires { is_some (hint_of self.old hash) ≡ true → other_of self.old bytes.now ≡ None }
        ensures ok { OnOk result (IsPlaced self.old self.new hash bytes.now place) }
        ensures err { IfErr result (λ e. e ≡ NoMemory) }
        ensures hints { OnErr result (self.new.hints.entries ≡ self.old.hints.entries) }
        ensures others { OnErr result (self.new.others.entries ≡ self.old.others.entries) }
    {
        if self.hints.contains_key(&hash) {
            let key = Vec::from_slice(alloc, bytes)?;
            self.others.insert(key, place)?;
        } else {
            self.hints.insert(hash, place)?;
        }
        Ok(())
    }
}
