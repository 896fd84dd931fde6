ghost use Rattle.std.specs.Prelude.{◌≡◌, ◌⊎◌, suc, ◌+◌, ◌<◌, ◌≤◌, ◌==◌, false, List, [], ◌∷◌, ◌++◌, length, map, is_some, slice_index_or};
ghost use Rattle.std.specs.Prelude.{IfSome, IfNone, OnOk, IfErr, IsOk};
ghost use Rattle.std.specs.Option.{option_map};
ghost use Rattle.std.specs.Vec.{vec_len, vec_capacity};
ghost use Rattle.xid.specs.declared.refusals.Refusal.TheVariants.{NoMemory};
ghost use Rattle.wire.specs.declared.message.Kind.{Kind};
ghost use Rattle.wire.specs.Grammar.{Spells};
ghost use Rattle.protocol.specs.Worlds.{Datagram, datagram_at, mark_at, datagram_to};
ghost use Rattle.network.specs.Networks.{StandsFor, Finds, most_datagrams, least_unmarked, shown};

use crate::entry::{Entry, KeptDatagram, marked_front};
use protocol::NodeId;
use std::alloc::Global;
use std::marker::Model;
use wire::MAX_MESSAGE_BYTES;
use xid::Refusal;

/// How many datagrams there may be: each has a number of 32 bits.
const MAX_DATAGRAMS: usize = u32::MAX as usize;

/// Every datagram that was ever sent in a cluster. The bytes of all stand one after another.
#[derive(Debug, Drop)]
pub struct Network {
    bytes: Vec<u8>,
    entries: Vec<Entry>,
    // how many at the front are marked
    front: usize,
}

impl Model for Network {
    ghost use Rattle.std.specs.Prelude.{◌-◌, min, map};
    ghost use Rattle.std.specs.Vec.{vec_len, vec_capacity};
    ghost use Rattle.network.specs.Networks.{NetworkParts, most_datagrams};
    ghost use Rattle.network.specs.Entries.{kept_in, IsNetwork};

    ghost Value = { NetworkParts };

    ghost view = { λ n. record {
      datagrams = map (kept_in n.bytes.items) n.entries.items;
      spare = min (vec_capacity n.entries) most_datagrams - vec_len n.entries;
      spare_bytes = vec_capacity n.bytes - vec_len n.bytes;
    } };

    ghost invariant = { λ n. IsNetwork n.bytes.items n.entries.items n.front };
}

/// The place of a number, where there are so many.
fn place_of(number: u32, count: usize) -> Option<usize>
    ensures some { IfSome result (λ place. (place < count) × (number ≡ suc place)) }
    ensures none { IfNone result ((number ≡ 0) ⊎ (count < number)) }
{
    if number == 0 {
        return None;
    }
    let place = number as usize - 1;
    if place < count { Some(place) } else { None }
}

/// Puts a spelling after the bytes, where there is room for it.
fn put(bytes: &mut Vec<u8>, spelled: &[u8])
    requires { vec_len bytes.old + length spelled.now ≤ vec_capacity bytes.old }
    ensures items { bytes.new.items ≡ bytes.old.items ++ spelled.now }
    ensures capacity { vec_capacity bytes.old ≤ vec_capacity bytes.new }
{
    bytes.extend_from_slice(spelled).unwrap();
}

impl Network {
    /// No datagram. It takes no memory.
    pub fn new(alloc: Global) -> Network
        ensures { StandsFor result [] }
    {
        Network {
            bytes: Vec::new(alloc),
            entries: Vec::new(alloc),
            front: 0,
        }
    }

    /// How many there are, which is the number of the last.
    pub fn len(&self) -> u32
        ensures count { result ≡ length self.now.datagrams }
        ensures stands { (net : List Datagram) → StandsFor self.now net → result ≡ length net }
    {
        self.entries.len() as u32
    }

    /// Whether there is none.
    pub fn is_empty(&self) -> bool
        ensures { (net : List Datagram) → StandsFor self.now net → result ≡ (length net == 0) }
    {
        self.entries.is_empty()
    }

    /// Makes room for so many more datagrams, and for so many more bytes of the messages that they carry, of which each counts as
    /// `MAX_MESSAGE_BYTES`. Refused where there wasn't that room: `NoMemory`, also where the numbers of the datagrams would pass 32
    /// bits. The datagrams stay as they are.
    pub fn reserve(&mut self, datagrams: usize, bytes: usize) -> Result<(), Refusal>
        ensures same { (net : List Datagram) → StandsFor self.old net → StandsFor self.new net }
        ensures ok { OnOk result ((datagrams ≤ self.new.spare) × (bytes ≤ self.new.spare_bytes)) }
        ensures numbers { OnOk result (length self.new.datagrams + datagrams ≤ most_datagrams) }
        ensures grows { (self.old.spare ≤ self.new.spare) × (self.old.spare_bytes ≤ self.new.spare_bytes) }
        ensures succeeds { datagrams ≤ self.old.spare → bytes ≤ self.old.spare_bytes → IsOk result }
        ensures err { IfErr result (λ e. e ≡ NoMemory) }
    {
        if datagrams > MAX_DATAGRAMS - self.entries.len() {
            return Err(Refusal::NoMemory);
        }
        if self.entries.reserve(datagrams).is_err() {
            return Err(Refusal::NoMemory);
        }
        if self.bytes.reserve(bytes).is_err() {
            return Err(Refusal::NoMemory);
        }
        Ok(())
    }

    /// Puts a datagram after the others, unmarked, by the bytes that spell its message, which are kept as they stand, and answers its
    /// number. There is room for it and for a message, so it takes no memory.
    pub fn push(&mut self, sender: NodeId, receiver: NodeId, bytes: &[u8]) -> u32
        requires datagram { 0 < self.old.spare }
        requires few { length bytes.now ≤ MAX_MESSAGE_BYTES }
        requires bytes { MAX_MESSAGE_BYTES ≤ self.old.spare_bytes }
        ensures stands { (net : List Datagram) (message : Kind) → Spells message bytes.now → StandsFor self.old net
            → StandsFor self.new (net ++ datagram_to sender message receiver ∷ []) }
        ensures number { (net : List Datagram) → StandsFor self.old net → result ≡ suc (length net) }
        ensures some { 0 < length self.new.datagrams }
        ensures spare { self.old.spare ≤ self.new.spare + 1 }
        ensures spare_bytes { self.old.spare_bytes ≤ self.new.spare_bytes + MAX_MESSAGE_BYTES }
    {
        let start = self.bytes.len();
        put(&mut self.bytes, bytes);
        self.entries.push_reserved(Entry {
            start,
            len: bytes.len() as u16,
            sender,
            receiver,
            marked: false,
        });
        self.entries.len() as u32
    }

    /// Puts the last datagram after the others once more, unmarked and for another receiver, and answers its number. There is room for
    /// it, so it takes no memory; its bytes aren't kept a second time.
    pub fn push_again(&mut self, other: NodeId) -> u32
        requires datagram { 0 < self.old.spare }
        requires some { 0 < length self.old.datagrams }
        ensures stands { (net : List Datagram) (last : Datagram) → StandsFor self.old (net ++ last ∷ [])
            → StandsFor self.new (net ++ last ∷ [] ++ datagram_to last.sender last.message other ∷ []) }
        ensures number { (net : List Datagram) → StandsFor self.old net → result ≡ suc (length net) }
        ensures some { 0 < length self.new.datagrams }
        ensures spare { self.old.spare ≤ self.new.spare + 1 }
        ensures spare_bytes { self.new.spare_bytes ≡ self.old.spare_bytes }
    {
        let last = self.entries[self.entries.len() - 1];
        self.entries.push_reserved(Entry {
            receiver: other,
            marked: false,
            ..last
        });
        self.entries.len() as u32
    }

    /// The datagram of a place, which is one less than its number.
    pub fn at(&self, place: u32) -> KeptDatagram<'_>
        requires { place < length self.now.datagrams }
        ensures { shown result ≡ slice_index_or self.now.datagrams place (shown result) }
    {
        self.entries[place as usize].datagram(&self.bytes)
    }

    /// The datagram of a number, if there is one.
    pub fn get(&self, number: u32) -> Option<KeptDatagram<'_>>
        ensures { (net : List Datagram) → StandsFor self.now net → Finds net number (option_map shown result) }
    {
        let count = self.entries.len();
        let Some(place) = place_of(number, count) else {
            return None;
        };
        Some(self.entries[place].datagram(&self.bytes))
    }

    /// Marks the datagram of a number; false where there is none, and then all is as before.
    pub fn mark(&mut self, number: u32) -> bool
        ensures stands { (net : List Datagram) → StandsFor self.old net → StandsFor self.new (mark_at net number) }
        ensures found { (net : List Datagram) → StandsFor self.old net → result ≡ is_some (datagram_at net number) }
        ensures spare { self.new.spare ≡ self.old.spare }
        ensures spare_bytes { self.new.spare_bytes ≡ self.old.spare_bytes }
    {
        let Some(place) = place_of(number, self.entries.len()) else {
            return false;
        };
        self.entries[place].marked = true;
        if place == self.front {
            self.front = marked_front(&self.entries, place);
        }
        true
    }

    /// The least number of a datagram that isn't marked, if there is one.
    pub fn least_unmarked(&self) -> Option<u32>
        ensures { (net : List Datagram) → StandsFor self.now net → result ≡ least_unmarked net }
    {
        if self.front < self.entries.len() {
            Some(self.front as u32 + 1)
        } else {
            None
        }
    }
}
