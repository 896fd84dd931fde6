//! What a process keeps beside its node and its port.

ghost use Rattle.std.specs.Prelude.{◌≡◌, ◌⊎◌, ◌++◌, ◌∷◌, [], None, true, false, IfSome, OnOk};
ghost use Rattle.slab.specs.Slab.{Updates, get};
ghost use Rattle.serving.specs.Shortenings.{IsMarked};
ghost use Rattle.node_process.specs.Going.{IsGone, RollsBackIdle, RollsBackOf, roll_back_all, rolls_back};

use crate::notes::Notes;
use hashing::HashKey;
use protocol::{Action, Request};
use serving::{Clients, Counts, Schedule, Shortening, Terms, Times};
use std::alloc::{AllocError, Global};
use std::collections::VecDeque;
use std::time::{Duration, Instant};
use xid::{Floor, Xid};

/// How many clients there are at most.
pub const MAX_CLIENTS: usize = 1024;
/// How often the branches that nobody touches are looked for, in milliseconds.
const IDLE_LOOKS: u64 = 1000;
/// How many milliseconds are waited at most where there are clients: lines that were begun and ends that are awaited have their times too.
const CLIENT_LOOKS: u64 = 250;
/// How often a resource manager tells its floor again, in seconds.
const TELLS: u64 = 60;

/// What a process keeps beside its node and its port.
#[derive(Drop)]
pub struct Desk {
    /// Where memory comes from.
    pub alloc: Global,
    /// On what terms the lines of clients are taken.
    pub terms: Terms,
    /// Who is there, and what each wrote and is told.
    pub clients: Clients,
    /// When is asked after a transaction.
    pub schedule: Schedule,
    /// What is known of transactions and branches.
    pub notes: Notes,
    /// When the record is made shorter.
    pub shortening: Shortening,
    /// What was counted.
    pub counts: Counts,
    /// How long a branch is left that nobody touches; none where it is for ever.
    pub idle: Option<Duration>,
    /// Whether datagrams may be there to be taken.
    pub has_datagrams: bool,
    /// Below which place no branch is begun any more, where it was asked to where the floor may rise: not above that.
    pub promised: Option<Floor>,
    /// Requests that nobody is answered for, which come into the next group.
    pub pending: VecDeque<Request>,
    /// When all ends that are awaited are asked after next, whatever came to be known.
    pub next_ask: Instant,
    /// When branches that nobody touches are looked for next.
    pub next_look: Instant,
    /// When its floor may rise by itself next.
    pub next_rise: Instant,
    /// When a resource manager tells its floor next.
    pub next_tell: Instant,
}

/// A branch is to be ended, if it is active, and rolled back.
fn roll_back(pending: &mut VecDeque<Request>, xid: Xid) -> Result<(), AllocError>
    ensures { OnOk result (pending.new.items ≡ pending.old.items ++ rolls_back xid) }
{
    pending.push_back(Request::Call {
        xid,
        action: Action::End,
    })?;
    pending.push_back(Request::Call {
        xid,
        action: Action::Rollback,
    })?;
    Ok(())
}

/// Branches are to be ended, if they are active, and rolled back.
fn roll_back_all(pending: &mut VecDeque<Request>, names: &[Xid]) -> Result<(), AllocError>
    ensures { OnOk result (pending.new.items ≡ pending.old.items ++ roll_back_all names.now) }
{
    for xid in names {
        roll_back(pending, *xid)?;
    }
    Ok(())
}

/// A time so much later, or the same where there is none.
fn later(now: Instant, wait: Duration) -> Instant {
    now.checked_add(wait).unwrap_or(now)
}

impl Desk {
    /// That of a process that begins now.
    pub fn new(
        alloc: Global,
        hash_key: HashKey,
        terms: Terms,
        schedule: Schedule,
        idle: Option<Duration>,
        now: Instant,
    ) -> Result<Desk, AllocError> {
        Ok(Desk {
            alloc,
            notes: Notes::new(alloc, hash_key, terms.who, schedule, now)?,
            terms,
            clients: Clients::new(alloc),
            schedule,
            shortening: Shortening::new(),
            counts: Counts::default(),
            idle,
            has_datagrams: true,
            promised: None,
            pending: VecDeque::new(alloc),
            next_ask: now,
            next_look: now,
            next_rise: now,
            next_tell: now,
        })
    }

    /// How long the system may be waited for.
    pub fn timeout(&self, now: Instant) -> Duration {
        if self.has_datagrams || !self.pending.is_empty() || self.clients.are_waiting() {
            return Duration::ZERO;
        }
        let most = Duration::from_millis(if self.clients.seats.is_empty() {
            IDLE_LOOKS
        } else {
            CLIENT_LOOKS
        });
        match self.notes.watches.wait(now) {
            Some(wait) if wait < most => wait,
            _ => most,
        }
    }

    /// The client at a key is let go, if one is there: the branches that it started and left active are to be rolled back, and no others.
    /// Where memory runs out some may be left, and the process is to end.
    pub fn let_go(&mut self, key: usize) -> Result<(), AllocError>
        ensures gone { Updates self.old.clients.seats self.new.clients.seats key None }
        ensures pending { OnOk result (RollsBackOf self.old.notes.branches (get self.old.clients.seats key)
            self.old.pending.items self.new.pending.items) }
        ensures same { self.new ≡ record self.old { clients = self.new.clients; pending = self.new.pending } }
        ensures count { self.new.clients.count ≡ self.old.clients.count }
    {
        match self.clients.seats.try_remove(key) {
            Some(client) => {
                let names = self.notes.branches.active_of(client.number())?;
                roll_back_all(&mut self.pending, &names)
            }
            None => Ok(()),
        }
    }

    /// Whether the client at a key has gone, or is too slow.
    pub fn is_gone(&self, key: usize, now: Instant) -> bool
        ensures gone { result ≡ true → IsGone now (get self.now.clients.seats key) }
        ensures broken { IfSome (get self.now.clients.seats key) (λ client. client.is_broken ≡ true → result ≡ true) }
    {
        match self.clients.seats.get(key) {
            Some(client) => client.is_over() || client.is_slow(now),
            None => false,
        }
    }

    /// Whether its floor may rise by itself: half of the time has passed for which names are kept, or the record is to be made shorter. If
    /// so, it may not before as long has passed again.
    pub(crate) fn may_rise(&mut self, now: Instant) -> bool
        ensures beside { self.old.terms.is_beside ≡ true → result ≡ false }
        ensures same { self.new ≡ record self.old { next_rise = self.new.next_rise } }
    {
        if self.terms.is_beside {
            return false;
        }
        let Some(
            Times {
                keep: Some(keep),
                ..
            },
        ) = self.terms.times
        else {
            return false;
        };
        if now < self.next_rise && !self.shortening.is_due(self.counts.record) {
            return false;
        }
        self.next_rise = later(now, Duration::from_millis(keep / 2));
        true
    }

    /// Whether a floor is to be told again. If so, it isn't before some time has passed.
    pub(crate) fn is_to_tell(&mut self, now: Instant) -> bool
        ensures { self.new ≡ record self.old { next_tell = self.new.next_tell } }
    {
        if now < self.next_tell {
            return false;
        }
        self.next_tell = later(now, Duration::from_secs(TELLS));
        true
    }

    /// Whether all ends that are awaited are to be asked after. If so, they aren't before some time has passed.
    pub(crate) fn is_to_ask(&mut self, now: Instant) -> bool
        ensures { self.new ≡ record self.old { next_ask = self.new.next_ask } }
    {
        if now < self.next_ask {
            return false;
        }
        self.next_ask = later(now, Duration::from_millis(CLIENT_LOOKS));
        true
    }

    /// The branches that nobody touches are rolled back.
    pub fn look_for_idle(&mut self, now: Instant) -> Result<(), AllocError>
        ensures idle { OnOk result ((self.new.pending ≡ self.old.pending)
            ⊎ RollsBackIdle now self.old.idle self.old.notes.branches self.old.pending.items self.new.pending.items) }
        ensures same { self.new ≡ record self.old { pending = self.new.pending; next_look = self.new.next_look } }
    {
        let Some(idle) = self.idle else {
            return Ok(());
        };
        if now < self.next_look {
            return Ok(());
        }
        self.next_look = later(now, Duration::from_millis(IDLE_LOOKS));
        let Some(then) = now.checked_sub(idle) else {
            return Ok(());
        };
        let names = self.notes.branches.untouched_since(then)?;
        roll_back_all(&mut self.pending, &names)
    }

    /// The record has another length than it was known to have: its floor rose, or it was made shorter.
    pub(crate) fn note_shorter(&mut self, len: u64)
        ensures marked { IsMarked self.old.counts.record len self.new.shortening.mark }
        ensures known { self.new.counts.record ≡ len }
        ensures same { self.new ≡ record self.old {
          counts = record self.old.counts { «record» = len };
          shortening = self.new.shortening;
        } }
    {
        self.shortening.note(self.counts.record, len);
        self.counts.record = len;
    }

    /// A group was handed to the node, after which the record has so many bytes.
    pub(crate) fn count_group(&mut self, len: u64)
        ensures { self.new ≡ record self.old { counts = self.new.counts; shortening = self.new.shortening } }
    {
        self.counts.groups = self.counts.groups.saturating_add(1);
        if len < self.counts.record {
            // its floor rose
            self.shortening.note(self.counts.record, len);
        }
        if len != self.counts.record {
            self.counts.appends = self.counts.appends.saturating_add(1);
            self.counts.record = len;
        }
    }
}
