//! How a resource manager makes itself ready for a fact, and plays it.

ghost use Rattle.std.specs.Prelude.{◌≡◌, ℕ, IfOk, IfErr, OnOk, OnErr, List, None, false};
ghost use Rattle.xid.specs.declared.refusals.Refusal.TheVariants.{NoMemory};
ghost use Rattle.stable_record.specs.declared.fact.FactKind.TheVariants as facts;
ghost use Rattle.stable_record.specs.Facts.{AreKeys};
ghost use Rattle.transactions.specs.Seen.{place_in};
ghost use Rattle.protocol.specs.Effects.{Config};
ghost use Rattle.protocol.specs.Managers.{Branch};
ghost use Rattle.stable_record.specs.Parts.{IsMadeReady, IsPlayed};
ghost use Rattle.branch_table.specs.TableStates.{branch_named};
ghost use Rattle.resource_manager.specs.Managers.{HasPlaces, IsPlayable, StandsForSame, manager_part, placed_part};
ghost use Rattle.resource_manager.specs.Playing.{IsThere, MeansSame, Plays, PlaysEnd, PlaysVote, Stores};

use crate::course::Course;
use crate::manager::ResourceManager;
use stable_record::{FactRest, FactView, Touched};
use wire::SpelledTx;
use xid::{Refusal, Xid};

impl ResourceManager {
    /// Makes itself ready for a fact that it decided, so that `play` of it takes no memory: its transaction is seen, and there is room for
    /// a spent name; a commit takes none. At `NoMemory`, the only refusal, and else too, it stands for what it stood for. A vote prepared
    /// of a branch that doesn't exist, which none that it decided is, takes memory when it is played.
    pub fn ready(&mut self, fact: &FactView<'_>) -> Result<(), Refusal>
        ensures { (config : Config) (number : ℕ) (branches : List Branch)
            → IsMadeReady (placed_part config number branches) self.old self.new fact.now result }
    {
        let tx = fact.tx();
        match fact.rest() {
            FactRest::VotePrepared { .. } => self.ready_places(tx),
            FactRest::VoteAborted => self.ready_places(tx),
            FactRest::Aborted => self.ready_places(tx),
            _ => Ok(()),
        }
    }

    /// Plays a fact that is stored: one that was decided, or one of a record that is replayed, when there are none but prepared branches.
    /// Refused (`Damaged`) where its condition doesn't hold, and (`NoMemory`) where it wasn't made ready for it; then it stands for what
    /// it stood for.
    pub fn play(&mut self, fact: &FactView<'_>) -> Result<(), Refusal>
        ensures plays { (config : Config) (number : ℕ) (branches : List Branch) → IsPlayable number branches fact.now
            → IsPlayed (manager_part config number branches) self.old self.new fact.now result }
        ensures refused { OnErr result (StandsForSame self.old self.new) }
    {
        self.play_kind(fact)
    }

    /// Plays a fact by its kind.
    fn play_kind(&mut self, fact: &FactView<'_>) -> Result<(), Refusal>
        ensures { Plays self.old self.new fact.now result }
    {
        let tx = fact.tx();
        match fact.rest() {
            FactRest::VotePrepared { keys } => self.play_prepared(tx, keys.as_slice()),
            FactRest::VoteAborted => self.play_refused(tx),
            FactRest::Committed => self.play_committed(tx),
            FactRest::Aborted => self.play_aborted(tx),
            FactRest::Promise { .. } => Err(Refusal::Damaged),
            FactRest::PromiseAll { .. } => Err(Refusal::Damaged),
            FactRest::Accept { .. } => Err(Refusal::Damaged),
            FactRest::Ballot { .. } => Err(Refusal::Damaged),
        }
    }

    /// Makes a place for a transaction, room for it in the order of first facts, and room for a name to spend. It answers the
    /// transaction's number. At `NoMemory`, the only refusal, and else too, all means what it meant.
    fn make_places(&mut self, tx: &SpelledTx<'_>) -> Result<usize, Refusal>
        ensures ok { IfOk result (λ number. (number ≡ place_in self.new.courses.transactions tx.now) × HasPlaces self.new tx.now) }
        ensures same { MeansSame self.old self.new }
        ensures err { IfErr result (λ e. (e ≡ NoMemory) × (¬ HasPlaces self.old tx.now)) }
    {
        let number = match self.courses.see(tx) {
            Ok(number) => number,
            Err(refusal) => return Err(refusal),
        };
        match self.courses.reserve() {
            Ok(()) => {}
            Err(refusal) => return Err(refusal),
        }
        match self.spent.reserve() {
            Ok(()) => Ok(number),
            Err(refusal) => Err(refusal),
        }
    }

    /// Makes ready for a vote, or an abort.
    fn ready_places(&mut self, tx: &SpelledTx<'_>) -> Result<(), Refusal>
        ensures ok { OnOk result (HasPlaces self.new tx.now) }
        ensures same { MeansSame self.old self.new }
        ensures err { IfErr result (λ e. e ≡ NoMemory) }
    {
        match self.make_places(tx) {
            Ok(_) => Ok(()),
            Err(refusal) => Err(refusal),
        }
    }

    /// Notes how far a transaction has come that has places, and that its name is spent.
    fn store(&mut self, tx: &SpelledTx<'_>, number: usize, xid: &Xid, course: Course)
        requires places { HasPlaces self.old tx.now }
        requires number { number ≡ place_in self.old.courses.transactions tx.now }
        ensures { Stores self.old self.new tx.now xid.now course }
    {
        self.spent.spend(xid);
        self.courses.set(tx, number, course);
    }

    /// Plays a vote prepared.
    fn play_prepared(&mut self, tx: &SpelledTx<'_>, keys: &[Touched]) -> Result<(), Refusal>
        requires { AreKeys keys.now }
        ensures { Plays self.old self.new (facts.VotePrepared tx.now keys.now) result }
    {
        let Some(xid) = self.name_here(tx) else {
            return Err(Refusal::Damaged);
        };
        if !self.courses.of(tx).is_working() {
            return Err(Refusal::Damaged);
        }
        if self.spent.contains(&xid) {
            return Err(Refusal::Damaged);
        }
        if self.table.has_branch(&xid) {
            return self.play_idle(tx, &xid, keys);
        }
        self.play_new(tx, &xid, keys)
    }

    /// Plays a vote prepared of a branch that exists.
    fn play_idle(&mut self, tx: &SpelledTx<'_>, xid: &Xid, keys: &[Touched]) -> Result<(), Refusal>
        requires keys { AreKeys keys.now }
        requires there { IsThere self.old xid.now }
        ensures { PlaysVote self.old self.new tx.now xid.now keys.now result }
    {
        let number = match self.make_places(tx) {
            Ok(number) => number,
            Err(refusal) => return Err(refusal),
        };
        match self.table.restore(xid, keys) {
            Ok(()) => {
                self.store(tx, number, xid, Course::Prepared);
                Ok(())
            }
            Err(refusal) => Err(refusal),
        }
    }

    /// Plays a vote prepared of a branch that doesn't exist, as in a replay.
    fn play_new(&mut self, tx: &SpelledTx<'_>, xid: &Xid, keys: &[Touched]) -> Result<(), Refusal>
        requires keys { AreKeys keys.now }
        requires none { branch_named self.old.table.branches xid.now ≡ None }
        ensures { PlaysVote self.old self.new tx.now xid.now keys.now result }
    {
        match self.table.restore(xid, keys) {
            Ok(()) => {}
            Err(refusal) => return Err(refusal),
        }
        match self.make_places(tx) {
            Ok(number) => {
                self.store(tx, number, xid, Course::Prepared);
                Ok(())
            }
            Err(refusal) => {
                self.table.undo(xid);
                Err(refusal)
            }
        }
    }

    /// Plays a vote aborted.
    fn play_refused(&mut self, tx: &SpelledTx<'_>) -> Result<(), Refusal>
        ensures { Plays self.old self.new (facts.VoteAborted tx.now) result }
    {
        let Some(xid) = self.name_here(tx) else {
            return Err(Refusal::Damaged);
        };
        if !self.courses.of(tx).is_working() {
            return Err(Refusal::Damaged);
        }
        let is_spent = self.spent.contains(&xid);
        self.end_branch(tx, &xid, is_spent, Course::VotedAborted)
    }

    /// Plays an abort.
    fn play_aborted(&mut self, tx: &SpelledTx<'_>) -> Result<(), Refusal>
        ensures { Plays self.old self.new (facts.Aborted tx.now) result }
    {
        let Some(xid) = self.name_here(tx) else {
            return Err(Refusal::Damaged);
        };
        let course = self.courses.of(tx);
        if !course.is_open() {
            return Err(Refusal::Damaged);
        }
        if course.is_prepared() {
            return self.end_branch(tx, &xid, false, Course::RolledBack);
        }
        let is_spent = self.spent.contains(&xid);
        self.end_branch(tx, &xid, is_spent, Course::AbortedUnvoted)
    }

    /// Ends a branch without effect, unless it is another transaction's, and notes the course of its transaction.
    fn end_branch(
        &mut self,
        tx: &SpelledTx<'_>,
        xid: &Xid,
        is_anothers: bool,
        course: Course,
    ) -> Result<(), Refusal>
        ensures { PlaysEnd self.old self.new tx.now xid.now is_anothers course result }
    {
        let number = match self.make_places(tx) {
            Ok(number) => number,
            Err(refusal) => return Err(refusal),
        };
        if !is_anothers {
            self.table.undo(xid);
        }
        self.store(tx, number, xid, course);
        Ok(())
    }

    /// Plays a commit.
    fn play_committed(&mut self, tx: &SpelledTx<'_>) -> Result<(), Refusal>
        ensures { Plays self.old self.new (facts.Committed tx.now) result }
    {
        let Some(xid) = self.name_here(tx) else {
            return Err(Refusal::Damaged);
        };
        let Some(number) = self.courses.number_of(tx) else {
            return Err(Refusal::Damaged);
        };
        if !self.courses.at(number).is_prepared() {
            return Err(Refusal::Damaged);
        }
        self.table.commit(&xid);
        self.courses.set(tx, number, Course::Committed);
        Ok(())
    }
}
