ghost use Rattle.std.specs.Prelude.{◌≡◌, ◌≢◌, ◌⊎◌, ◌↔◌, ◌==◌, ℕ, ◌+◌, ◌/◌, ◌-◌, ◌^◌, ◌<◌, ◌≤◌, ◌++◌, ◌∷◌, [], length, get_or, set, true};
ghost use Rattle.std.specs.Prelude.{false, Some, None, min, IfOk, IfSome, IfNone, OnOk, OnErr, MatchOption, IsSomeAnd, IsTrue, List};
ghost use Rattle.std.specs.Prelude.{vec_len};
ghost use Rattle.std.specs.Duration.{as_nanos};
ghost use Rattle.std.specs.Time.{instant_nanos, FitsClock};
ghost use Rattle.slab.specs.Slab.{get};
ghost use Rattle.wire.specs.Grammar.{tx_spelling};
ghost use Rattle.wire.specs.Spelled.{tx_spelled, IsSpelled};
ghost use Rattle.wire.specs.Versions.{version_2};
ghost use Rattle.serving.specs.Queues.{are_before, are_by, due_at, AreLater, EndsAt};
ghost use Rattle.serving.specs.Watching.{key_of, turn_end, waits_for, AreKept, AreOnTime, AreSpelled, AreAllLater, AreWithin, HandsOut};
ghost use Rattle.serving.specs.Watching.{HandsOutAt, IsNoWatchOf, PutsOff};
ghost use Rattle.serving.specs.Named.{age_of, seen, AreAsBefore, IsAdded, IsHandedOut, IsListed, IsNothingDue, IsPutOff, SetsOnly};

use crate::queue::{Place, Queue, is_by};
use crate::schedule::Schedule;
use crate::watched::Watch;
use crate::watches::{Due, Watches};
use hashing::HashKey;
use indexmap::IndexMap;
use slab::Slab;
use std::alloc::{AllocError, Global};
use std::time::{Duration, Instant};
use wire::{MAX_TX_BYTES, VersionNumber, put_tx, take_tx};
use xid::Tx;

/// How many queues there are: at the last one's turn the delay is the longest.
const QUEUES: usize = 24;

/// The spelled bytes of a transaction.
fn spell<'b>(tx: &Tx, buffer: &'b mut [u8; MAX_TX_BYTES]) -> &'b [u8]
    ensures spelled { result.now ≡ tx_spelling version_2 tx.now }
    ensures whole { IsSpelled result.now }
{
    let _ = tx.count();
    let end = put_tx(tx, buffer, 0);
    &buffer[..end]
}

/// The transaction that bytes spell.
fn unspelled(spelled: &[u8]) -> Option<Tx>
    ensures { IsSpelled spelled.now → result ≡ Some (tx_spelled spelled.now) }
{
    let Some(taken) = take_tx(VersionNumber::Second, spelled) else {
        return None;
    };
    let tx = taken.0;
    Some(tx)
}

/// A place goes into a queue, behind the others there. It is due at a time, or with the last of them, where that is later: when it is.
fn push(queues: &mut Vec<Queue>, at: usize, key: usize, due: Instant) -> Result<Instant, AllocError>
    requires { at < vec_len queues.old }
    ensures ok { IfOk result (λ later. queues.new.items
        ≡ set queues.old.items at (get_or queues.old.items at [] ++ record { key = key; due = later } ∷ [])) }
    ensures err { OnErr result (queues.new.items ≡ queues.old.items) }
    ensures after { IfOk result (λ later. instant_nanos due ≤ instant_nanos later) }
    ensures exact { IfOk result (λ later.
        are_before (record { key = key; due = due }) (get_or queues.old.items at []) ≡ true → later ≡ due) }
    ensures within { IfOk result (λ later. (bound : ℕ) → instant_nanos due ≤ bound → are_by bound (get_or queues.old.items at []) ≡ true
        → instant_nanos later ≤ bound) }
    ensures many { vec_len queues.new ≡ vec_len queues.old }
{
    let queue = &mut queues[at];
    let later = queue.later(due);
    queue.push(Place { key, due: later })?;
    Ok(later)
}

/// Takes the first place of a queue out, if it is due. Where none is, none of that queue is.
fn take_place(queues: &mut Vec<Queue>, at: usize, now: Instant) -> Option<Place>
    requires { at < vec_len queues.old }
    ensures none { IfNone result (AreLater now (get_or queues.old.items at []) × (queues.new.items ≡ queues.old.items)) }
    ensures some { IfSome result (λ place. (due_at place ≤ instant_nanos now)
        × (get_or queues.old.items at [] ≡ place ∷ get_or queues.new.items at [])
        × (queues.new.items ≡ set queues.old.items at (get_or queues.new.items at []))) }
    ensures many { vec_len queues.new ≡ vec_len queues.old }
{
    let queue = &mut queues[at];
    queue.take_due(now)
}

/// Whether two times are one.
fn is_at(time: Instant, other: Instant) -> bool
    ensures { result ≡ (instant_nanos time == instant_nanos other) }
{
    is_by(time, other) && is_by(other, time)
}

/// Whether what is watched at a place waits for the place's time.
fn waits_for(watched: &Slab<Watch>, place: Place) -> bool
    ensures { result ≡ waits_for place (get watched.now place.key) }
{
    match watched.get(place.key) {
        Some(watch) => watch.waits && is_at(place.due, watch.due),
        None => false,
    }
}

/// The transaction of a place that is due, if it waits for that, and its turn. It waits no more.
fn hand_out(watched: &mut Slab<Watch>, place: Place) -> Option<Due>
    requires { AreSpelled watched.old }
    ensures spelled { AreSpelled watched.new }
    ensures none { IfNone result (IsNoWatchOf place watched.old × (watched.new ≡ watched.old)) }
    ensures some { IfSome result (λ due. HandsOutAt place watched.old watched.new due.tx due.turn) }
{
    if !waits_for(watched, place) {
        return None;
    }
    let Some(watch) = watched.get_mut(place.key) else {
        return None;
    };
    watch.waits = false;
    let turn = watch.turn;
    match unspelled(&watch.spelled) {
        Some(tx) => Some(Due { tx, turn }),
        None => None,
    }
}

/// The next transaction of a queue that is due and waits for that, and its turn. It waits no more.
fn take_next(
    watched: &mut Slab<Watch>,
    queues: &mut Vec<Queue>,
    at: usize,
    now: Instant,
) -> Option<Due>
    requires at { at < vec_len queues.old }
    requires kept { AreKept watched.old queues.old.items }
    requires spelled { AreSpelled watched.old }
    ensures kept { AreKept watched.new queues.new.items }
    ensures spelled { AreSpelled watched.new }
    ensures many { vec_len queues.new ≡ vec_len queues.old }
    ensures within { (limit : ℕ → ℕ) → AreWithin limit queues.old.items → AreWithin limit queues.new.items }
    ensures none { IfNone result (AreLater now (get_or queues.new.items at []) × (watched.new ≡ watched.old)) }
    ensures some { IfSome result (λ due. HandsOut watched.old watched.new now due.tx due.turn) }
    ensures others { (other : ℕ) → other ≢ at → get_or queues.new.items other [] ≡ get_or queues.old.items other [] }
{
    while let Some(place) = take_place(queues, at, now) {
        if let Some(due) = hand_out(watched, place) {
            return Some(due);
        }
    }
    None
}

/// The next transaction of all queues that is due and waits for that, and its turn. It waits no more.
fn take_first(watched: &mut Slab<Watch>, queues: &mut Vec<Queue>, now: Instant) -> Option<Due>
    requires turns { vec_len queues.old ≡ 24 }
    requires kept { AreKept watched.old queues.old.items }
    requires spelled { AreSpelled watched.old }
    ensures turns { vec_len queues.new ≡ 24 }
    ensures kept { AreKept watched.new queues.new.items }
    ensures spelled { AreSpelled watched.new }
    ensures within { (limit : ℕ → ℕ) → AreWithin limit queues.old.items → AreWithin limit queues.new.items }
    ensures none { IfNone result (AreAllLater watched.new now × (watched.new ≡ watched.old)) }
    ensures some { IfSome result (λ due. HandsOut watched.old watched.new now due.tx due.turn) }
{
    for at in 0..QUEUES {
        if let Some(due) = take_next(watched, queues, at, now) {
            return Some(due);
        }
    }
    None
}

/// What is watched under a key waits from now on for a turn, in a queue, until a time, or until the last time of that queue, where that is
/// later.
fn put_off(
    watched: &mut Slab<Watch>,
    queues: &mut Vec<Queue>,
    key: usize,
    turn: usize,
    at: usize,
    due: Instant,
) -> Result<(), AllocError>
    requires at { at < vec_len queues.old }
    requires kept { AreKept watched.old queues.old.items }
    requires spelled { AreSpelled watched.old }
    ensures kept { AreKept watched.new queues.new.items }
    ensures spelled { AreSpelled watched.new }
    ensures many { vec_len queues.new ≡ vec_len queues.old }
    ensures within { (limit : ℕ → ℕ) → instant_nanos due ≤ limit at → AreWithin limit queues.old.items → AreWithin limit queues.new.items }
    ensures ok { OnOk result (PutsOff key turn due (get_or queues.old.items at []) watched.old watched.new) }
    ensures err { OnErr result (watched.new ≡ watched.old) }
{
    let later = push(queues, at, key, due)?;
    if let Some(watch) = watched.get_mut(key) {
        watch.turn = turn;
        watch.due = later;
        watch.waits = true;
    }
    Ok(())
}

/// No place, for each turn.
fn no_queues(alloc: Global) -> Result<Vec<Queue>, AllocError>
    ensures turns { IfOk result (λ queues. vec_len queues ≡ 24) }
    ensures none { IfOk result (λ queues. (at : ℕ) → get_or queues.items at [] ≡ []) }
{
    let mut queues = Vec::new(alloc);
    for _ in 0..QUEUES {
        queues.push(Queue::new(alloc))?;
    }
    Ok(queues)
}

/// The shorter of two times, of which the first may be missing.
fn sooner(least: Option<Duration>, wait: Duration) -> Duration
    ensures which { (result ≡ wait) ⊎ (least ≡ Some result) }
    ensures one { as_nanos result ≤ as_nanos wait }
    ensures other { IfSome least (λ least. as_nanos result ≤ as_nanos least) }
{
    match least {
        Some(other) if other < wait => other,
        _ => wait,
    }
}

impl Watches {
    /// None yet. Refused where memory runs out.
    pub fn new(alloc: Global, schedule: Schedule) -> Result<Watches, AllocError>
        ensures none { IfOk result (λ watches. (spelled : List ℕ) → seen watches spelled ≡ None) }
        ensures on_time { IfOk result (λ watches. (now : Instant) → AreOnTime watches.schedule watches.queues.items now) }
        ensures schedule { IfOk result (λ watches. watches.schedule ≡ schedule) }
    {
        Watches::with_hash_key(alloc, HashKey::fixed(), schedule)
    }

    /// None yet, and transactions are hashed under a key. Refused where memory runs out.
    pub fn with_hash_key(
        alloc: Global,
        key: HashKey,
        schedule: Schedule,
    ) -> Result<Watches, AllocError>
        ensures none { IfOk result (λ watches. (spelled : List ℕ) → seen watches spelled ≡ None) }
        ensures on_time { IfOk result (λ watches. (now : Instant) → AreOnTime watches.schedule watches.queues.items now) }
        ensures schedule { IfOk result (λ watches. watches.schedule ≡ schedule) }
    {
        let queues = no_queues(alloc)?;
        Ok(Watches {
            alloc,
            schedule,
            watched: Slab::new(alloc),
            keys: IndexMap::with_hasher(alloc, key.words()),
            queues,
        })
    }

    /// When the turn of a number is, counted from now.
    fn due_at(&self, turn: usize, now: Instant) -> Instant
        ensures exact { FitsClock (turn_end self.now.schedule now turn) → instant_nanos result ≡ turn_end self.now.schedule now turn }
        ensures most { instant_nanos result ≤ turn_end self.now.schedule now turn }
    {
        let delay = Duration::from_millis(self.schedule.delay(turn));
        now.checked_add(delay).unwrap_or(now)
    }

    /// From now on a transaction is watched, first at this turn, unless it is already: then all is as it was. Where memory runs out the
    /// others are as they were, and it is watched without waiting for a turn, or not at all.
    pub fn add(&mut self, tx: &Tx, turn: usize, now: Instant) -> Result<(), AllocError>
        ensures ok { OnOk result (MatchOption (seen self.old (tx_spelling version_2 tx.now))
            (IsAdded (seen self.old) (seen self.new) (tx_spelling version_2 tx.now) self.old.schedule self.old.queues.items turn now)
            (λ watch. AreAsBefore (seen self.old) (seen self.new))) }
        ensures others { (other : List ℕ) → other ≢ tx_spelling version_2 tx.now → seen self.new other ≡ seen self.old other }
        ensures on_time { AreOnTime self.old.schedule self.old.queues.items now → AreOnTime self.new.schedule self.new.queues.items now }
        ensures schedule { self.new.schedule ≡ self.old.schedule }
    {
        let mut buffer = [0; MAX_TX_BYTES];
        let spelled = spell(tx, &mut buffer);
        if self.keys.contains_key(spelled) {
            return Ok(());
        }
        let key = self.begin(spelled, now)?;
        self.wait_for(key, turn, now)
    }

    /// A transaction is watched from now on, by its spelled bytes, and waits for nothing yet.
    fn begin(&mut self, spelled: &[u8], now: Instant) -> Result<usize, AllocError>
        requires whole { IsSpelled spelled.now }
        requires absent { key_of self.old.keys.entries spelled.now ≡ None }
        ensures key { IfOk result (λ key. key_of self.new.keys.entries spelled.now ≡ Some key) }
        ensures watch { IfOk result (λ key. IsSomeAnd (get self.new.watched key)
            (λ watch. (watch.spelled.items ≡ spelled.now) × (watch.since ≡ now))) }
        ensures others { (other : List ℕ) → other ≢ spelled.now → seen self.new other ≡ seen self.old other }
        ensures queues { self.new.queues ≡ self.old.queues }
        ensures schedule { self.new.schedule ≡ self.old.schedule }
    {
        let name = Vec::from_slice(self.alloc, spelled)?;
        let watch = Watch {
            spelled: Vec::from_slice(self.alloc, spelled)?,
            since: now,
            turn: 0,
            due: now,
            waits: false,
        };
        let key = self.watched.insert(watch)?;
        self.keys.insert(name, key)?;
        Ok(key)
    }

    /// What is watched under a key waits from now on for the turn of a number.
    fn wait_for(&mut self, key: usize, turn: usize, now: Instant) -> Result<(), AllocError>
        requires { IsSomeAnd (get self.old.watched key) (λ watch. key_of self.old.keys.entries watch.spelled.items ≡ Some key) }
        ensures ok { OnOk result (IsSomeAnd (get self.old.watched key) (λ watch.
            IsPutOff (seen self.old) (seen self.new) watch.spelled.items watch self.old.schedule self.old.queues.items turn now)) }
        ensures err { OnErr result (self.new.watched ≡ self.old.watched) }
        ensures keys { self.new.keys ≡ self.old.keys }
        ensures on_time { AreOnTime self.old.schedule self.old.queues.items now → AreOnTime self.new.schedule self.new.queues.items now }
        ensures schedule { self.new.schedule ≡ self.old.schedule }
    {
        let due = self.due_at(turn, now);
        let at = turn.min(QUEUES - 1);
        put_off(&mut self.watched, &mut self.queues, key, turn, at, due)
    }

    /// A transaction that was due is watched on, to the next turn. One that isn't watched is passed over. Where memory runs out all is as
    /// it was.
    pub fn again(&mut self, due: &Due, now: Instant) -> Result<(), AllocError>
        ensures ok { OnOk result (MatchOption (seen self.old (tx_spelling version_2 due.now.tx))
            (AreAsBefore (seen self.old) (seen self.new))
            (λ watch. IsPutOff (seen self.old) (seen self.new) (tx_spelling version_2 due.now.tx) watch self.old.schedule
            self.old.queues.items (min (due.now.turn + 1) (2 ^ 64 - 1)) now)) }
        ensures err { OnErr result (AreAsBefore (seen self.old) (seen self.new)) }
        ensures on_time { AreOnTime self.old.schedule self.old.queues.items now → AreOnTime self.new.schedule self.new.queues.items now }
        ensures schedule { self.new.schedule ≡ self.old.schedule }
    {
        let mut buffer = [0; MAX_TX_BYTES];
        let spelled = spell(&due.tx, &mut buffer);
        let Some(key) = self.keys.get(spelled) else {
            return Ok(());
        };
        let key = *key;
        self.wait_for(key, due.turn.saturating_add(1), now)
    }

    /// A transaction is final: it is watched no longer.
    pub fn settle(&mut self, tx: &Tx)
        ensures only { SetsOnly (seen self.old) (seen self.new) (tx_spelling version_2 tx.now) None }
        ensures queues { self.new.queues ≡ self.old.queues }
        ensures schedule { self.new.schedule ≡ self.old.schedule }
    {
        let mut buffer = [0; MAX_TX_BYTES];
        let spelled = spell(tx, &mut buffer);
        if let Some(key) = self.keys.swap_remove(spelled) {
            let _ = self.watched.try_remove(key);
        }
    }

    /// How long it is until the first is due, if there is one: nothing that waits is due before, and a place in a queue is due then, of
    /// what waits, or of what waited for that time and has ended.
    pub fn wait(&self, now: Instant) -> Option<Duration>
        ensures none { IfNone result ((spelled : List ℕ) (watch : Watch) → seen self.now spelled ≡ Some watch → watch.waits ≡ false) }
        ensures some { IfSome result (λ wait. (spelled : List ℕ) (watch : Watch) → seen self.now spelled ≡ Some watch
            → watch.waits ≡ true → as_nanos wait ≤ instant_nanos watch.due - instant_nanos now) }
        ensures ends { IfSome result (λ wait. EndsAt wait now self.now.queues.items) }
    {
        let mut least = None;
        for queue in &self.queues {
            if let Some(place) = queue.first() {
                least = Some(sooner(least, place.due.saturating_duration_since(now)));
            }
        }
        least
    }

    /// The next that is due and its turn: of those that are watched, none is before it comes to this. It stays watched, but is due no more
    /// before `again`.
    pub fn next_due(&mut self, now: Instant) -> Option<Due>
        ensures none { IfNone result (IsNothingDue (seen self.old) now × AreAsBefore (seen self.old) (seen self.new)) }
        ensures some { IfSome result (λ due. IsHandedOut (seen self.old) (seen self.new) now (tx_spelling version_2 due.tx) due.turn) }
        ensures on_time { (time : Instant) → AreOnTime self.old.schedule self.old.queues.items time
            → AreOnTime self.new.schedule self.new.queues.items time }
        ensures schedule { self.new.schedule ≡ self.old.schedule }
    {
        take_first(&mut self.watched, &mut self.queues, now)
    }

    /// How long a transaction is watched, in milliseconds; 0 where it isn't.
    pub fn age(&self, tx: &Tx, now: Instant) -> u64
        ensures { result ≡ age_of (seen self.now (tx_spelling version_2 tx.now)) now }
    {
        let mut buffer = [0; MAX_TX_BYTES];
        let spelled = spell(tx, &mut buffer);
        let Some(key) = self.keys.get(spelled) else {
            return 0;
        };
        match self.watched.get(*key) {
            Some(watch) => millis(now.saturating_duration_since(watch.since)),
            None => 0,
        }
    }

    /// How many are watched.
    pub fn len(&self) -> usize
        ensures { result ≡ length self.now.keys.entries }
    {
        self.keys.len()
    }

    /// Whether none is.
    pub fn is_empty(&self) -> bool
        ensures { IsTrue result ↔ (length self.now.keys.entries ≡ 0) }
    {
        self.keys.is_empty()
    }

    /// The transaction of a place, from 0 on: there are as many places as are watched.
    pub fn get(&self, place: usize) -> Option<Tx>
        ensures { IsListed self.now place result }
    {
        match self.keys.get_index(place) {
            Some((spelled, _)) => unspelled(spelled),
            None => None,
        }
    }
}

/// A time in whole milliseconds.
fn millis(time: Duration) -> u64
    ensures { result ≡ min (as_nanos time / 1000000) (2 ^ 64 - 1) }
{
    u64::try_from(time.as_millis()).unwrap_or(u64::MAX)
}
