ghost use Rattle.std.specs.Prelude.{◌≡◌, ℕ, ◌≤◌, ◌++◌, ◌∷◌, [], List, true, nat_le, IfSome, OnOk, OnErr, MatchOption};
ghost use Rattle.std.specs.Time.{instant_nanos};
ghost use Rattle.serving.specs.Queues.{are_before, are_by, due_at, AreLater, IsFirst};

use std::alloc::{AllocError, Global};
use std::collections::VecDeque;
use std::marker::Model;
use std::time::Instant;

/// A place among the watches, and when the one there is to be asked after.
#[derive(Clone, Copy, Debug)]
pub(crate) struct Place {
    /// The number of the place.
    pub(crate) key: usize,
    /// When it is due.
    pub(crate) due: Instant,
}

/// Places by when they are due.
#[derive(Debug, Drop)]
pub(crate) struct Queue {
    places: VecDeque<Place>,
}

impl Model for Queue {
    ghost use Rattle.std.specs.Prelude.{◌≡◌, true, List};
    ghost use Rattle.serving.specs.declared.queue.Place.{Place};
    ghost use Rattle.serving.specs.Queues.{are_sorted};

    ghost Value = { List Place };

    ghost view = { λ queue. queue.places.items };

    ghost invariant = { λ queue. are_sorted queue.places.items ≡ true };
}

/// Whether a time isn't later than another.
pub(crate) fn is_by(time: Instant, other: Instant) -> bool
    ensures { result ≡ nat_le (instant_nanos time) (instant_nanos other) }
{
    other.checked_duration_since(time).is_some()
}

impl Queue {
    /// No place.
    pub(crate) fn new(alloc: Global) -> Queue
        ensures { result ≡ [] }
    {
        Queue {
            places: VecDeque::new(alloc),
        }
    }

    /// A place goes behind the others, none of which is due later. Where memory runs out all stays.
    #[tactic(auto, using(crate::proofs::QueueLemmas::sorted_push))]
    pub(crate) fn push(&mut self, place: Place) -> Result<(), AllocError>
        requires { are_before place self.old ≡ true }
        ensures ok { OnOk result (self.new ≡ self.old ++ place ∷ []) }
        ensures err { OnErr result (self.new ≡ self.old) }
    {
        self.places.push_back(place)?;
        Ok(())
    }

    /// The first place: none is due before it.
    pub(crate) fn first(&self) -> Option<Place>
        ensures order { IsFirst result self.now }
        ensures front { IfSome result (λ first. (rest : List Place) × (self.now ≡ first ∷ rest)) }
    {
        self.places.front().copied()
    }

    /// When the last place is due, or at that time, if that is later.
    pub(crate) fn later(&self, due: Instant) -> Instant
        ensures behind { (key : ℕ) → are_before (record { key = key; due = result }) self.now ≡ true }
        ensures after { instant_nanos due ≤ instant_nanos result }
        ensures exact { (key : ℕ) → are_before (record { key = key; due = due }) self.now ≡ true → result ≡ due }
        ensures within { (bound : ℕ) → instant_nanos due ≤ bound → are_by bound self.now ≡ true → instant_nanos result ≤ bound }
    {
        match self.places.back() {
            Some(last) if !is_by(last.due, due) => last.due,
            _ => due,
        }
    }

    /// Takes the first place out, if it is due. Where none is, none of them is.
    #[tactic(auto, using(crate::proofs::QueueLemmas::sorted_rest, crate::proofs::QueueLemmas::later_sorted))]
    pub(crate) fn take_due(&mut self, now: Instant) -> Option<Place>
        ensures { MatchOption result (AreLater now self.old × (self.new ≡ self.old))
            (λ place. (self.old ≡ place ∷ self.new) × (due_at place ≤ instant_nanos now)) }
    {
        match self.places.front() {
            Some(place) if is_by(place.due, now) => self.places.pop_front(),
            _ => None,
        }
    }
}
