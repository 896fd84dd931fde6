//! What is known of branches, and what calls on them change of that.

ghost use Rattle.std.specs.Prelude.{◌≡◌, ◌⊎◌, true, false, is_some, None, Some, IfOk, OnOk};
ghost use Rattle.std.specs.Option.{option_map};
ghost use Rattle.xid.specs.Names.{XidParts};
ghost use Rattle.xid.specs.Places.{is_lower, is_xid_below};
ghost use Rattle.serving.specs.Noted.{after_touch, is_active_of, is_nota, is_ok, is_rolled_back, is_untouched, known, noted};
ghost use Rattle.serving.specs.Noted.{is_known_as, AreNames, NotesOnly};
ghost use Rattle.serving.specs.ByNumber.{second_of};
ghost use Rattle.serving.specs.Times.{IsOfBranch};

use crate::branches::{Branch, Branches};
use crate::by_number::ByNumber;
use crate::queue::is_by;
use crate::times::lower;
use hashing::HashKey;
use indexmap::IndexMap;
use protocol::{Action, Answer};
use std::alloc::{AllocError, Global};
use std::time::Instant;
use xid::{Floor, XaCode, Xid};

impl Branch {
    /// A client has touched it, and ended it if so it has.
    fn touch(&mut self, has_ended: bool, now: Instant)
        ensures { self.new ≡ after_touch has_ended now self.old }
    {
        self.touched = now;
        if has_ended {
            self.is_active = false;
        }
    }
}

/// Whether a call was answered with XA_OK.
fn is_ok(answer: &Answer) -> bool
    ensures { result ≡ is_ok answer.now }
{
    matches!(answer, Answer::Code(XaCode::Ok))
}

/// Whether there is no such branch.
fn is_nota(answer: &Answer) -> bool
    ensures { result ≡ is_nota answer.now }
{
    matches!(answer, Answer::Code(XaCode::Nota))
}

/// Whether the branch may only be rolled back.
fn is_rolled_back(answer: &Answer) -> bool
    ensures { result ≡ is_rolled_back answer.now }
{
    matches!(answer, Answer::Code(XaCode::RbRollback))
}

/// In which second of these a time is, the first for those before them.
fn second_of(began: Instant, time: Instant) -> u64
    ensures { result ≡ second_of began time }
{
    time.duration_since(began).as_secs()
}

impl Branches {
    /// None.
    pub fn new(alloc: Global, now: Instant) -> Branches
        ensures { (x : XidParts) → known result x ≡ None }
    {
        Branches::with_hash_key(alloc, HashKey::fixed(), now)
    }

    /// None, and names are hashed under a key.
    pub fn with_hash_key(alloc: Global, key: HashKey, now: Instant) -> Branches
        ensures { (x : XidParts) → known result x ≡ None }
    {
        Branches {
            alloc,
            named: IndexMap::with_hasher(alloc, key.words()),
            began: now,
            started: ByNumber::new(alloc, key.words()),
            touched: ByNumber::new(alloc, key.words()),
        }
    }

    /// A client has made a call on a branch, and was answered: what is known of that branch changes, and nothing else. Where memory runs
    /// out nothing changes.
    pub fn note(
        &mut self,
        client: u64,
        xid: &Xid,
        action: &Action,
        answer: &Answer,
        now: Instant,
    ) -> Result<(), AllocError>
        ensures { OnOk result (NotesOnly self.old self.new xid.now (noted action.now answer.now client now (known self.old xid.now))) }
    {
        if is_nota(answer) {
            self.forget(xid);
            return Ok(());
        }
        let is_ok = is_ok(answer);
        match action {
            Action::Start if is_ok => self.begin(client, xid, now),
            Action::Rollback if is_ok => {
                self.forget(xid);
                Ok(())
            }
            Action::End | Action::EndFail => {
                self.touch(xid, is_ok || is_rolled_back(answer), now)
            }
            _ => self.touch(xid, false, now),
        }
    }

    /// A client has started a branch.
    fn begin(&mut self, client: u64, xid: &Xid, now: Instant) -> Result<(), AllocError>
        ensures { OnOk result (NotesOnly self.old self.new xid.now (Some (record { client = client; is_active = true; touched = now }))) }
    {
        let second = second_of(self.began, now);
        self.started.add(client, xid)?;
        self.touched.add(second, xid)?;
        let branch = Branch {
            client,
            is_active: true,
            touched: now,
        };
        let old = self.named.insert(*xid, branch)?;
        if let Some(old) = old {
            self.started.leave(old.client, client, xid);
            let before = second_of(self.began, old.touched);
            self.touched.leave(before, second, xid);
        }
        Ok(())
    }

    /// A branch was touched, and ended if so it is.
    fn touch(&mut self, xid: &Xid, has_ended: bool, now: Instant) -> Result<(), AllocError>
        ensures { OnOk result (NotesOnly self.old self.new xid.now (option_map (after_touch has_ended now) (known self.old xid.now))) }
    {
        let Some(branch) = self.named.get_mut(xid) else {
            return Ok(());
        };
        let before = second_of(self.began, branch.touched);
        let second = second_of(self.began, now);
        self.touched.shift(before, second, xid)?;
        branch.touch(has_ended, now);
        if has_ended {
            let client = branch.client;
            self.started.remove(client, xid);
        }
        Ok(())
    }

    /// A branch is prepared, or is no more.
    pub fn forget(&mut self, xid: &Xid)
        ensures { NotesOnly self.old self.new xid.now None }
    {
        if let Some(branch) = self.named.swap_remove(xid) {
            self.started.remove(branch.client, xid);
            let second = second_of(self.began, branch.touched);
            self.touched.remove(second, xid);
        }
    }

    /// Whether a branch is active, and a client has started it.
    fn is_active_of(&self, client: u64, xid: &Xid) -> bool
        ensures { result ≡ is_known_as (is_active_of client) self.now xid.now }
    {
        match self.named.get(xid) {
            Some(branch) => branch.client == client && branch.is_active,
            None => false,
        }
    }

    /// The active branches that a client has started: these, and no others, and none twice.
    pub fn active_of(&self, client: u64) -> Result<Vec<Xid>, AllocError>
        ensures { IfOk result (λ found. AreNames (is_known_as (is_active_of client) self.now) found.items) }
    {
        let mut found = Vec::new(self.alloc);
        let names = self.started.under(client);
        for xid in names {
            if self.is_active_of(client, xid) {
                found.push(*xid)?;
            }
        }
        Ok(found)
    }

    /// How far a floor may rise that is to rise to a place: not above one of these branches.
    pub fn held_back(&self, floor: Floor) -> Floor
        ensures wanted { is_lower (Some floor) (Some result) ≡ false }
        ensures begun { (x : XidParts) → is_some (known self.now x) ≡ true → is_xid_below (Some result) x ≡ false }
        ensures is_one { (result ≡ floor) ⊎ IsOfBranch self.now result }
    {
        let mut lowest = floor;
        for (xid, _) in self.named.iter() {
            lowest = lower(lowest, xid.format(), xid.gtrid());
        }
        lowest
    }

    /// Whether a branch is known, and nobody has touched it since then.
    fn is_untouched(&self, since: Instant, xid: &Xid) -> bool
        ensures { result ≡ is_known_as (is_untouched since) self.now xid.now }
    {
        match self.named.get(xid) {
            Some(branch) => is_by(branch.touched, since),
            None => false,
        }
    }

    /// The branches that nobody has touched since then: these, and no others, and none twice.
    pub fn untouched_since(&self, since: Instant) -> Result<Vec<Xid>, AllocError>
        ensures { IfOk result (λ found. AreNames (is_known_as (is_untouched since) self.now) found.items) }
    {
        let mut found = Vec::new(self.alloc);
        let reached = self.touched.up_to(second_of(self.began, since))?;
        let names = reached.as_slice();
        for xid in names {
            if self.is_untouched(since, xid) {
                found.push(*xid)?;
            }
        }
        Ok(found)
    }
}
