//! A trace, read entry by entry from the first on.

ghost use Rattle.std.specs.Prelude.{◌≡◌, ℕ, List, [], ◌∷◌, ◌++◌, Some, None, true, ◌==◌, if◌then◌else◌, IfOk, IfErr, OnOk};
ghost use Rattle.std.specs.Option.{option_copied, option_map, option_map_or};
ghost use Rattle.xid.specs.declared.refusals.Refusal.TheVariants.{NoMemory};
ghost use Rattle.transactions.specs.Seen.{seen_with};
ghost use Rattle.safety.specs.Vocabulary.{Row, Step};
ghost use Rattle.protocol.specs.Tables.{with_writes};
ghost use Rattle.net_script.specs.declared.values.Table.{Table};
ghost use Rattle.audit.specs.Told.{step_of};
ghost use Rattle.audit.specs.Stretches.{own_act, with_get, writes_in, writes_at};
ghost use Rattle.audit.specs.ToldTables.{first_tables, shows, is_call_right, is_event_right};
ghost use Rattle.audit.specs.Books.{rows_of, stretch_of, Called, Sets, is_move_from};
ghost use Rattle.audit.specs.Following.{Follows, IsChanged, IsChangedBy, IsHappened, Takes};

use crate::branches::Branches;
use crate::stretch::shows;
use crate::tables::Tables;
use crate::views::Views;
use hashing::HashKey;
use net_script::{Entry, Table};
use protocol::{Action, Answer, Change, Event, NodeId, Request, View};
use stable_record::Act;
use std::alloc::Global;
use transactions::Transactions;
use xid::{Bytes, Refusal, XaCode, Xid};

/// What the entries so far come to.
#[derive(Debug)]
pub struct Ledger {
    pub(crate) tables: Tables,
    pub(crate) branches: Branches,
    pub(crate) views: Views,
    /// The transactions that some resource manager committed, in the order of their first commits.
    pub(crate) firsts: Transactions,
}

// written once: a derived one would stand in each function that lets a ledger go
impl Drop for Ledger {
    fn drop(self) {
        let Ledger {
            tables: _,
            branches: _,
            views: _,
            firsts: _,
        } = self;
    }
}

impl Ledger {
    /// No entry yet. Names are hashed under the key. Refused: `NoMemory` alone.
    pub fn new(alloc: Global, key: HashKey, tables: &[Table]) -> Result<Ledger, Refusal>
        ensures ok { IfOk result (λ ledger. Follows (first_tables tables.now) [] ledger) }
        ensures err { IfErr result (λ e. e ≡ NoMemory) }
    {
        let tables = Tables::first(alloc, tables)?;
        let branches = Branches::new(alloc, key.words());
        let views = Views::new(alloc, key);
        let firsts = Transactions::with_hash_key(alloc, key);
        Ok(Ledger {
            tables,
            branches,
            views,
            firsts,
        })
    }

    /// Whether an entry is right after those before it, and if so adds it. Refused: `NoMemory` alone.
    pub fn take(&mut self, alloc: Global, entry: &Entry) -> Result<bool, Refusal>
        ensures ok { IfOk result (λ yes. (first : ℕ → List Row) (before : List Step) → Follows first before self.old
            → Takes first before (step_of entry.now) yes self.new) }
        ensures err { IfErr result (λ e. e ≡ NoMemory) }
    {
        match entry {
            Entry::Step(step) => {
                if !self.take_event(alloc, &step.event, &step.answer)? {
                    return Ok(false);
                }
                self.take_change(alloc, &step.now)
            }
            Entry::Serve { now, .. } => self.take_change(alloc, now),
        }
    }

    /// A first table more, where no entry was taken. Refused: `NoMemory` alone.
    pub fn take_table(&mut self, alloc: Global, table: &Table) -> Result<(), Refusal>
        ensures ok { OnOk result ((tables : List Table) → Follows (first_tables tables) [] self.old
            → Follows (first_tables (tables ++ table.now ∷ [])) [] self.new) }
        ensures err { IfErr result (λ e. e ≡ NoMemory) }
    {
        self.tables.put_all(alloc, table.rm, table.rows.as_slice())
    }

    /// Whether an event was rightly answered, and if so adds it. Refused: `NoMemory` alone.
    pub fn take_event(
        &mut self,
        alloc: Global,
        event: &Event,
        answer: &Answer,
    ) -> Result<bool, Refusal>
        ensures ok { IfOk result (λ yes.
            (yes ≡ is_event_right (rows_of self.old.tables) (stretch_of self.old.branches) event.now answer.now)
            × (yes ≡ true → IsHappened self.old self.new event.now answer.now)) }
        ensures err { IfErr result (λ e. e ≡ NoMemory) }
    {
        let Event::Ask { node, request } = event else {
            return Ok(true);
        };
        let NodeId::R(rm) = node else {
            return Ok(true);
        };
        let Request::Call { xid, action } = request else {
            return Ok(true);
        };
        self.take_call(alloc, *rm, xid, action, answer)
    }

    /// Whether a call was rightly answered, and if so adds it. Refused: `NoMemory` alone.
    fn take_call(
        &mut self,
        alloc: Global,
        rm: u8,
        xid: &Xid,
        action: &Action,
        answer: &Answer,
    ) -> Result<bool, Refusal>
        ensures ok { IfOk result (λ yes.
            (yes ≡ is_call_right (rows_of self.old.tables rm) (stretch_of self.old.branches rm xid.now) action.now answer.now)
            × (yes ≡ true → Called self.old.branches self.new.branches rm xid.now action.now answer.now)) }
        ensures rest { OnOk result ((self.new.tables ≡ self.old.tables) × (self.new.views ≡ self.old.views)
            × (self.new.firsts ≡ self.old.firsts)) }
        ensures err { IfErr result (λ e. e ≡ NoMemory) }
    {
        match (action, answer) {
            (Action::Start, Answer::Code(XaCode::Ok)) => self.branches.start(alloc, rm, xid)?,
            (Action::Put { key, value }, Answer::Code(XaCode::Ok)) => {
                let act = Act::Put(Bytes::copy_of(alloc, value.as_slice())?);
                self.branches.write(alloc, rm, xid, key.as_slice(), act)?;
            }
            (Action::Del { key }, Answer::Code(XaCode::Ok)) => {
                self.branches
                    .write(alloc, rm, xid, key.as_slice(), Act::Del)?;
            }
            (Action::Get { key }, Answer::Value(value)) => {
                return self.take_get(alloc, rm, xid, key.as_slice(), Some(value.as_slice()));
            }
            (Action::Get { key }, Answer::NoValue) => {
                return self.take_get(alloc, rm, xid, key.as_slice(), None);
            }
            _ => (),
        }
        Ok(true)
    }

    /// Whether a get showed the table so far, with the writes of its branch over it, and if so adds it. Refused: `NoMemory` alone.
    fn take_get(
        &mut self,
        alloc: Global,
        rm: u8,
        xid: &Xid,
        key: &[u8],
        found: Option<&[u8]>,
    ) -> Result<bool, Refusal>
        ensures ok { IfOk result (λ yes.
            (yes ≡ shows (rows_of self.old.tables rm) key.now (own_act (writes_in (stretch_of self.old.branches rm xid.now)) key.now)
            (option_copied found.entry))
            × (yes ≡ true → Sets self.old.branches self.new.branches rm xid.now
            (option_map (with_get key.now (option_copied found.entry)) (stretch_of self.old.branches rm xid.now)))) }
        ensures rest { OnOk result ((self.new.tables ≡ self.old.tables) × (self.new.views ≡ self.old.views)
            × (self.new.firsts ≡ self.old.firsts)) }
        ensures err { IfErr result (λ e. e ≡ NoMemory) }
    {
        let own = match self.branches.get(rm, xid) {
            Some(stretch) => stretch.own_act(key),
            None => None,
        };
        if !shows(self.tables.rows(rm).get(key), own, found) {
            return Ok(false);
        }
        self.branches.show(alloc, rm, xid, key, found)?;
        Ok(true)
    }

    /// Whether a change, if there is one, is a step of TCommit, and if so adds it. Refused: `NoMemory` alone.
    fn take_change(&mut self, alloc: Global, now: &Option<Change>) -> Result<bool, Refusal>
        ensures ok { IfOk result (λ yes. (yes ≡ option_map_or (is_move_from self.old.views) now.now true)
            × (yes ≡ true → IsChangedBy self.old self.new now.now)) }
        ensures err { IfErr result (λ e. e ≡ NoMemory) }
    {
        match now {
            Some(change) => self.make_change(alloc, change),
            None => Ok(true),
        }
    }

    /// Whether a change is a step of TCommit, and if so adds it. Refused: `NoMemory` alone.
    pub fn make_change(&mut self, alloc: Global, change: &Change) -> Result<bool, Refusal>
        ensures ok { IfOk result (λ yes. (yes ≡ is_move_from self.old.views change.now)
            × (yes ≡ true → IsChanged self.old self.new change.now)) }
        ensures err { IfErr result (λ e. e ≡ NoMemory) }
    {
        if !self.views.change(alloc, change)? {
            return Ok(false);
        }
        if matches!(change.view, View::Committed) {
            self.commit(alloc, change)?;
        }
        Ok(true)
    }

    /// Adds a commit. Refused: `NoMemory` alone.
    fn commit(&mut self, alloc: Global, change: &Change) -> Result<(), Refusal>
        ensures tables { OnOk result ((rm : ℕ) → rows_of self.new.tables rm ≡ (if change.now.rm == rm
            then with_writes (rows_of self.old.tables rm) (writes_at (stretch_of self.old.branches) rm change.now.tx)
            else rows_of self.old.tables rm)) }
        ensures firsts { OnOk result (self.new.firsts ≡ seen_with self.old.firsts change.now.tx) }
        ensures rest { OnOk result ((self.new.branches ≡ self.old.branches) × (self.new.views ≡ self.old.views)) }
        ensures err { IfErr result (λ e. e ≡ NoMemory) }
    {
        self.firsts.add(&change.tx)?;
        let Some(xid) = change.tx.branch(u16::from(change.rm)) else {
            return Ok(());
        };
        let Some(stretch) = self.branches.get(change.rm, &xid) else {
            return Ok(());
        };
        self.tables.write_all(alloc, change.rm, stretch.writes())
    }
}
