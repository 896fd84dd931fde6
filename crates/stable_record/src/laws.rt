//! What a stopped append leaves, and what bytes hold. Each of these functions is there for its laws, which the check proves; calling
//! it does nothing.
ghost use Rattle.std.specs.Prelude.{◌≡◌, ℕ, ◌-◌, ◌<◌, ◌≤◌, [], ◌∷◌, ◌++◌, length, take, List, Some};
ghost use Rattle.wire.specs.Versions.{version_2, version_of};
ghost use Rattle.wire.specs.declared.grammar.VersionNumber.{VersionNumber};
ghost use Rattle.stable_record.specs.declared.fact.FactKind.{FactKind};
ghost use Rattle.stable_record.specs.declared.entry.EntryKind.{EntryKind};
ghost use Rattle.stable_record.specs.Frames.{torn, Begins, frame_length, frame_length_in};
ghost use Rattle.stable_record.specs.Entries.{IsEntry, IsEntryIn};
ghost use Rattle.xid.specs.Names.{IsBytes};
ghost use Rattle.xid.specs.Places.{IsPlace, Place};
ghost use Rattle.stable_record.specs.Floors.{IsFloored, floor_at, floor_frame};
ghost use Rattle.stable_record.specs.Grammar.{frame, IsTail, IsFramed, IsStored, IsDamaged, HasNoFrame};

/// A stopped append leaves the bytes that stood and a beginning of the frame, which may be the whole.
pub fn torn_append_is_a_beginning()
    ensures beginning { (bytes frame : List ℕ) (n : ℕ) → Begins (bytes ++ torn frame n) (bytes ++ frame) }
    ensures kept { (bytes frame : List ℕ) (n : ℕ) → Begins bytes (bytes ++ torn frame n) }
    ensures whole { (frame : List ℕ) (n : ℕ) → length frame ≤ n → torn frame n ≡ frame }
{}

/// Bytes hold one list of entries and one tail.
pub fn stored_in_one_way()
    ensures { (bytes : List ℕ) (entries others : List EntryKind) (tail end : List ℕ) → IsStored bytes entries tail
        → IsStored bytes others end
        → (entries ≡ others) × (tail ≡ end) }
{}

/// Whole frames, and after them what other bytes hold, are the entries one after the other; a frame is a list of one; no bytes are an
/// empty list.
pub fn frames_are_joined()
    ensures none { IsStored [] [] [] }
    ensures one { (v : VersionNumber) (entry : EntryKind) → IsEntryIn (version_of v) entry
        → IsStored (frame (version_of v) entry) (entry ∷ []) [] }
    ensures joined { (bytes more tail : List ℕ) (entries others : List EntryKind) → IsStored bytes entries [] → IsStored more others tail
        → IsStored (bytes ++ more) (entries ++ others) tail }
{}

/// Bytes are read one frame after the other: the entry in front comes before those that follow, a tail has none, and bytes are damaged
/// where no frame stands in front, or where those that follow are damaged.
pub fn entries_are_read_in_turn()
    ensures first { (bytes rest tail : List ℕ) (entry : EntryKind) (entries : List EntryKind) → IsFramed entry bytes rest
        → IsStored rest entries tail → IsStored bytes (entry ∷ entries) tail }
    ensures tail { (bytes : List ℕ) → IsTail bytes → IsStored bytes [] bytes }
    ensures none { (bytes : List ℕ) → HasNoFrame bytes → IsDamaged bytes }
    ensures later { (bytes rest : List ℕ) (entry : EntryKind) → IsFramed entry bytes rest → IsDamaged rest → IsDamaged bytes }
{}

/// A frame of which a proper beginning was kept is no entry: it is a tail after the entries that stood. One that was kept whole is one
/// more entry.
pub fn torn_frame_is_a_tail()
    ensures tail { (v : VersionNumber) (entry : EntryKind) (n : ℕ) → IsEntryIn (version_of v) entry
        → n < length (frame (version_of v) entry)
        → IsTail (torn (frame (version_of v) entry) n) }
    ensures torn { (v : VersionNumber) (bytes : List ℕ) (entries : List EntryKind) (entry : EntryKind) (n : ℕ) → IsStored bytes entries []
        → IsEntryIn (version_of v) entry → n < length (frame (version_of v) entry)
        → IsStored (bytes ++ torn (frame (version_of v) entry) n) entries (torn (frame (version_of v) entry) n) }
    ensures whole { (v : VersionNumber) (bytes : List ℕ) (entries : List EntryKind) (entry : EntryKind) (n : ℕ) → IsStored bytes entries []
        → IsEntryIn (version_of v) entry → length (frame (version_of v) entry) ≤ n
        → IsStored (bytes ++ torn (frame (version_of v) entry) n) (entries ++ entry ∷ []) [] }
{}

/// The bytes without their tail hold the same entries and no tail.
pub fn cut_keeps_the_entries()
    ensures { (bytes tail : List ℕ) (entries : List EntryKind) → IsStored bytes entries tail
        → IsStored (take (length bytes - length tail) bytes) entries [] }
{}

/// The length of a fact's frame, counted field by field, is that of the frame; and each entry is one of version 2.
pub fn frame_length_is_exact()
    ensures length { (v : VersionNumber) (fact : FactKind)
        → length (frame (version_of v) (EntryKind.Fact fact)) ≡ frame_length_in (version_of v) fact }
    ensures today { (fact : FactKind) → length (frame version_2 (EntryKind.Fact fact)) ≡ frame_length fact }
    ensures written { (entry : EntryKind) → IsEntry entry → IsEntryIn version_2 entry }
{}

/// A floor is found at the front of bytes exactly where its frame stands there. So bytes begin with one floor at most.
pub fn floor_at_is_exact()
    ensures found { (place : Place) (bytes rest : List ℕ) → IsFloored place bytes rest → floor_at bytes ≡ Some (place, rest) }
    ensures framed { (place : Place) (bytes rest : List ℕ) → IsBytes bytes → floor_at bytes ≡ Some (place, rest)
        → IsFloored place bytes rest }
{}

/// A floor's frame is no entry's, and no tail: a node that reads its record from there, or comes to it behind others, finds it damaged.
pub fn floors_are_no_entries()
    ensures { (place : Place) (rest : List ℕ) → IsPlace place → HasNoFrame (floor_frame place ++ rest) }
{}
