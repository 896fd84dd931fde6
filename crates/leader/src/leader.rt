ghost use Rattle.std.specs.Prelude.{◌≡◌, ℕ, ◌<◌, ◌≤◌, true, List, [], length, None, Some, IfSome, IfNone, IfOk, IfErr};
ghost use Rattle.std.specs.List.{list_all};
ghost use Rattle.xid.specs.Limits.{most_acceptors, most_branches};
ghost use Rattle.xid.specs.Places.{is_below};
ghost use Rattle.xid.specs.Transactions.{participants};
ghost use Rattle.xid.specs.declared.refusals.Refusal.TheVariants.{NoMemory};
ghost use Rattle.wire.specs.Messages.{IsMessage};
ghost use Rattle.wire.specs.declared.message.Kind.TheVariants.{B1b};
ghost use Rattle.protocol.specs.Effects.{Config, decision_of};
ghost use Rattle.protocol.specs.Kept.{kept_facts, kept_leader};
ghost use Rattle.stable_record.specs.declared.fact.FactKind.{FactKind as FactOf};
ghost use Rattle.protocol.specs.LeaderMemory.{LeaderMemory, StoredBallots, nothing_heard, with_begun, with_met};
ghost use Rattle.protocol.specs.Leaders as rules;
ghost use Rattle.stable_record.specs.Facts.{fact_tx};
ghost use Rattle.stable_record.specs.Parts.{IsMadeReady, IsPlayed};
ghost use Rattle.stable_record.specs.declared.fact.FactKind.TheVariants as facts;
ghost use Rattle.leader.specs.Leaders.{are_below, decided, taken_over, StandsFor, StandsForBallots, Follows};
ghost use Rattle.leader.specs.Leaders.{FollowsOrRefuses, leader_part};
ghost use Rattle.leader.specs.Compaction.{AreShorterFrames};
ghost use Rattle.leader.specs.Decisions.{shown};
ghost use Rattle.protocol.specs.declared.decisions.Address.TheVariants.{Managers};

use crate::course::is_final;
use crate::courses::Courses;
use crate::decision::LeaderDecision;
use ballot::{next_owned, owner};
use hashing::HashKey;
use protocol::{Address, NodeId};
use stable_record::{FactRest, FactView};
use std::alloc::Global;
use std::marker::Model;
use wire::{InstanceAccept, InstanceReport, MessageView, Rest, SpelledTx, accepts_of, reports_of};
use xid::{Ballot, Floor, ManagerNumber, Refusal};

/// A leader: its number, the sizes of its cluster, and the transactions that it has to do with. Contracts say which stored ballots, and
/// which memory since the last restart, it stands for.
#[derive(Debug, Drop)]
pub struct Leader {
    number: u8,
    acceptors: u8,
    leaders: u8,
    managers: u8,
    bundled: bool,
    courses: Courses,
}

impl Model for Leader {
    ghost use Rattle.std.specs.Prelude.{◌<◌, ◌≤◌};
    ghost use Rattle.xid.specs.Limits.{most_acceptors};
    ghost use Rattle.leader.specs.Leaders.{LeaderParts};

    ghost Value = { LeaderParts };

    ghost view = { λ l. record {
      number = l.number;
      acceptors = l.acceptors;
      leaders = l.leaders;
      managers = l.managers;
      bundled = l.bundled;
      courses = l.courses;
    } };

    ghost invariant = { λ l. (l.number < l.leaders) × (l.acceptors ≤ most_acceptors) };
}

impl Leader {
    /// A leader that has played nothing and met no transaction. Phases 1a, 1b and 2b go in bundles in a bundled cluster.
    pub fn new(
        alloc: Global,
        number: u8,
        acceptors: u8,
        leaders: u8,
        managers: u8,
        bundled: bool,
    ) -> Leader
        requires number { number < leaders }
        requires acceptors { acceptors ≤ most_acceptors }
        ensures { (config : Config) → acceptors ≡ config.acceptors → leaders ≡ config.leaders → managers ≡ config.managers
            → bundled ≡ config.bundled → StandsFor config number result [] nothing_heard }
    {
        Leader::with_hash_key(
            alloc,
            HashKey::fixed(),
            number,
            acceptors,
            leaders,
            managers,
            bundled,
        )
    }

    /// The same under a key of hashes, which nothing that is answered depends on.
    pub fn with_hash_key(
        alloc: Global,
        key: HashKey,
        number: u8,
        acceptors: u8,
        leaders: u8,
        managers: u8,
        bundled: bool,
    ) -> Leader
        requires number { number < leaders }
        requires acceptors { acceptors ≤ most_acceptors }
        ensures { (config : Config) → acceptors ≡ config.acceptors → leaders ≡ config.leaders → managers ≡ config.managers
            → bundled ≡ config.bundled → StandsFor config number result [] nothing_heard }
    {
        Leader {
            number,
            acceptors,
            leaders,
            managers,
            bundled,
            courses: Courses::new(alloc, key),
        }
    }

    /// Whether it has stored nothing about a name at or above a floor: each ballot is of a transaction that is below. It takes no memory.
    pub fn is_unused_above(&self, floor: &Floor) -> bool
        ensures { (config : Config) (number : ℕ) (stored : List FactOf) (memory : LeaderMemory)
            → StandsFor config number self.now stored memory
            → result ≡ list_all (λ fact. is_below (Some floor.now) (fact_tx fact)) stored }
    {
        self.courses.are_below(floor)
    }

    /// Of how many transactions it keeps something in memory.
    pub fn transaction_count(&self) -> usize
        ensures { result ≡ length self.now.courses.transactions }
    {
        self.courses.len()
    }

    /// What is left of it where it forgets what is below a floor: of stored ballots and memory what is about the transactions that aren't
    /// below. Refused: `NoMemory` alone.
    pub fn above(self, key: HashKey, floor: &Floor) -> Result<Leader, Refusal>
        ensures ok { IfOk result (λ left. (config : Config) (number : ℕ) (stored : List FactOf) (memory : LeaderMemory)
            → StandsFor config number self stored memory
            → StandsFor config number left (kept_facts (Some floor.now) stored) (kept_leader (Some floor.now) memory)) }
        ensures err { IfErr result (λ e. e ≡ NoMemory) }
    {
        let Leader {
            number,
            acceptors,
            leaders,
            managers,
            bundled,
            courses,
        } = self;
        let courses = courses.above(key, floor)?;
        Ok(Leader {
            number,
            acceptors,
            leaders,
            managers,
            bundled,
            courses,
        })
    }

    /// A client asks for a commit, which makes the leader know the transaction: undecided, each resource manager is asked to prepare;
    /// decided, it is told the outcome again. The answer is the status, or that the transaction names a resource manager outside the
    /// cluster (`BadTx`); then nothing changes. At `NoMemory`, the only refusal, it stands for what it stood for. It decides in place of
    /// what was decided before, which is no decision after a refusal.
    pub fn commit(
        &mut self,
        tx: &SpelledTx<'_>,
        decision: &mut LeaderDecision,
    ) -> Result<(), Refusal>
        ensures { (config : Config) (number : ℕ) → FollowsOrRefuses config number self.old self.new (decided decision.new result)
            (λ stored memory. rules.on_commit_call config stored memory tx.now) }
    {
        if !is_inside(self.managers, tx) {
            decision.refuse(Refusal::BadTx);
            return Ok(());
        }
        let status = match self.courses.meet(tx) {
            Ok(status) => status,
            Err(refusal) => return Err(refusal),
        };
        decision.commit(tx, status);
        Ok(())
    }

    /// A timeout: undecided, the leader takes over in its next ballot, which is to be stored, and phase 1a goes out; after `play` of the
    /// ballot, `begin` makes it current. Decided, each resource manager is told the outcome again. The answer is ok, or `NoBallot`
    /// where no ballot of its own is left, or `BadTx` where the transaction names a resource manager outside the cluster. It decides in
    /// place of what was decided before, and takes no memory.
    pub fn timeout(&mut self, tx: &SpelledTx<'_>, decision: &mut LeaderDecision)
        ensures decides { (config : Config) (number : ℕ) (stored : StoredBallots) (memory : LeaderMemory)
            → StandsForBallots config number self.old stored memory
            → shown decision.new ≡ decision_of (rules.on_leader_timeout config number stored memory tx.now) }
        ensures plays { (config : Config) (number : ℕ) (stored : StoredBallots) (memory : LeaderMemory)
            → StandsForBallots config number self.old stored memory
            → IfSome decision.new.fact (λ fact. rules.plays_at_leader config.leaders number stored fact ≡ true) }
        ensures waits { IfSome decision.new.fact (λ fact. self.new ≡ self.old) }
        ensures begun { self.new.courses.begun ≡ self.old.courses.begun }
        ensures stands { IfNone decision.new.fact ((config : Config) (number : ℕ) (stored : StoredBallots) (memory : LeaderMemory)
            → StandsForBallots config number self.old stored memory
            → StandsForBallots config number self.new stored (rules.on_leader_timeout config number stored memory tx.now).memory) }
    {
        if !is_inside(self.managers, tx) {
            decision.refuse(Refusal::BadTx);
            return;
        }
        let place = self.courses.place_of(tx);
        let status = self.courses.status_at(tx, place);
        if is_final(status) {
            self.courses.mark_known(tx, place);
            decision.tell(tx, status, Address::Managers);
            return;
        }
        let last = self.courses.greatest_at(tx, place);
        take_over(self.number, self.leaders, self.bundled, tx, last, decision);
    }

    /// Makes a ballot current, right after `play` of it: what was reported and proposed before doesn't count any more. It takes no memory.
    pub fn begin(&mut self, tx: &SpelledTx<'_>, ballot: Ballot)
        ensures { (config : Config) (number : ℕ) (stored : StoredBallots) (memory : LeaderMemory)
            → StandsForBallots config number self.old stored memory → 0 < stored tx.now
            → StandsForBallots config number self.new stored (with_begun tx.now ballot (with_met tx.now memory))
            × (self.new.courses.begun ≡ self.old.courses.begun) }
    {
        self.courses.begin(tx, ballot);
    }

    /// Phase 1b of an acceptor for some instances: it counts in the current ballot while undecided, all items at once; then each instance
    /// of which a majority has reported, and nothing was proposed, is proposed. It decides in place of what was decided before, and takes
    /// no memory.
    pub fn on_1b(
        &mut self,
        tx: &SpelledTx<'_>,
        ballot: Ballot,
        acceptor: u8,
        reports: &[InstanceReport],
        decision: &mut LeaderDecision,
    )
        requires message { IsMessage (B1b tx.now ballot acceptor reports.now) }
        requires few { length reports.now ≤ most_branches }
        ensures { (config : Config) (number : ℕ) → Follows config number self.old self.new decision.new
            (λ stored memory. rules.on_1b config stored memory tx.now ballot acceptor reports.now) }
    {
        let acceptors = self.acceptors;
        let proposals = self
            .courses
            .hear_1b(tx, acceptors, ballot, acceptor, reports);
        decision.propose(tx, ballot, proposals);
    }

    /// Phase 2b of an acceptor for some instances, which makes the leader know the transaction: it counts while undecided, all items at
    /// once; where there is an outcome then, each resource manager is told. At `NoMemory`, the only refusal, it stands for what it stood
    /// for. It decides in place of what was decided before, which is no decision after a refusal.
    pub fn on_2b(
        &mut self,
        tx: &SpelledTx<'_>,
        acceptor: u8,
        accepts: &[InstanceAccept],
        decision: &mut LeaderDecision,
    ) -> Result<(), Refusal>
        requires { acceptor < most_acceptors }
        ensures { (config : Config) (number : ℕ) → FollowsOrRefuses config number self.old self.new (decided decision.new result)
            (λ stored memory. rules.on_2b config stored memory tx.now acceptor accepts.now) }
    {
        let acceptors = self.acceptors;
        let status = match self.courses.hear_2b(tx, acceptors, acceptor, accepts) {
            Ok(status) => status,
            Err(refusal) => return Err(refusal),
        };
        decision.tell(tx, status, Address::Managers);
        Ok(())
    }

    /// A resource manager asks, which makes the leader know the transaction: it is told the outcome, where there is one. At `NoMemory`,
    /// the only refusal, it stands for what it stood for. It decides in place of what was decided before, which is no decision after a
    /// refusal.
    pub fn on_ask(
        &mut self,
        tx: &SpelledTx<'_>,
        rm: ManagerNumber,
        decision: &mut LeaderDecision,
    ) -> Result<(), Refusal>
        requires { rm < 256 }
        ensures { (config : Config) (number : ℕ) → FollowsOrRefuses config number self.old self.new (decided decision.new result)
            (λ stored memory. rules.on_ask config stored memory tx.now rm) }
    {
        let asker = Address::Node(NodeId::R(rm as u8));
        let status = match self.courses.meet(tx) {
            Ok(status) => status,
            Err(refusal) => return Err(refusal),
        };
        decision.tell(tx, status, asker);
        Ok(())
    }

    /// What a client is told of a transaction: its status, or `BadTx` where it names a resource manager outside the cluster. It decides in
    /// place of what was decided before, and takes no memory.
    pub fn status(&self, tx: &SpelledTx<'_>, decision: &mut LeaderDecision)
        ensures { (config : Config) (number : ℕ) → Follows config number self.now self.now decision.new
            (λ stored memory. rules.on_status_call config stored memory tx.now) }
    {
        if !is_inside(self.managers, tx) {
            decision.refuse(Refusal::BadTx);
            return;
        }
        let place = self.courses.place_of(tx);
        let status = self.courses.status_at(tx, place);
        decision.stand(status);
    }

    /// What it does on a message: on phase 1b and 2b, single or in bundles, and on a question, what `on_1b`, `on_2b` and `on_ask` say, on
    /// every other nothing. A single one is a bundle of one. That the message names none but nodes of the cluster, and has the form that
    /// goes there, is asked before, by the node. It decides in place of what was decided before, so that no transaction is copied but one
    /// that is sent. At `NoMemory`, the only refusal, it stands for what it stood for, and what stands there is no decision.
    pub fn on_message(
        &mut self,
        message: &MessageView<'_>,
        decision: &mut LeaderDecision,
    ) -> Result<(), Refusal>
        ensures { (config : Config) (number : ℕ) → FollowsOrRefuses config number self.old self.new (decided decision.new result)
            (λ stored memory. rules.on_leader_message config stored memory message.now) }
    {
        let tx = message.tx();
        match message.rest() {
            Rest::P1b {
                instance,
                ballot,
                report,
                acceptor,
            } => {
                let item = InstanceReport { instance, report };
                self.on_1b(tx, ballot, acceptor, &[item], decision);
                Ok(())
            }
            Rest::B1b {
                ballot,
                acceptor,
                reports,
            } => {
                let reports = reports_of(reports);
                self.on_1b(tx, ballot, acceptor, reports.as_slice(), decision);
                Ok(())
            }
            Rest::P2b {
                instance,
                ballot,
                vote,
                acceptor,
            } => {
                let item = InstanceAccept {
                    instance,
                    ballot,
                    vote,
                };
                self.on_2b(tx, acceptor, &[item], decision)
            }
            Rest::B2b { acceptor, accepts } => {
                let accepts = accepts_of(accepts);
                self.on_2b(tx, acceptor, accepts.as_slice(), decision)
            }
            Rest::Ask { rm } => self.on_ask(tx, rm, decision),
            _ => {
                decision.clear();
                Ok(())
            }
        }
    }

    /// Makes a place for the transaction of a ballot, and room for it to begin, so that `play` of it right afterwards takes no memory. At
    /// `NoMemory`, the only refusal, and else too, it stands for what it stood for.
    pub fn ready(&mut self, fact: &FactView<'_>) -> Result<(), Refusal>
        ensures { (config : Config) (number : ℕ) (memory : LeaderMemory)
            → IsMadeReady (leader_part config number memory) self.old self.new fact.now result }
    {
        let FactRest::Ballot { .. } = fact.rest() else {
            return Ok(());
        };
        self.courses.make_ready(fact.tx())
    }

    /// Plays a ballot that is stored: it is the transaction's greatest, but isn't current before `begin`. Refused (`Damaged`) where it
    /// isn't this leader's own, or no greater than one before, or is no ballot, and (`NoMemory`) where it wasn't made ready for it;
    /// then it stands for what it stood for.
    pub fn play(&mut self, fact: &FactView<'_>) -> Result<(), Refusal>
        ensures { (config : Config) (number : ℕ) (memory : LeaderMemory)
            → IsPlayed (leader_part config number memory) self.old self.new fact.now result }
    {
        let FactRest::Ballot { ballot } = fact.rest() else {
            return Err(Refusal::Damaged);
        };
        self.play_ballot(fact.tx(), *ballot)
    }

    /// Plays a ballot.
    fn play_ballot(&mut self, tx: &SpelledTx<'_>, ballot: Ballot) -> Result<(), Refusal>
        ensures { (config : Config) (number : ℕ) (memory : LeaderMemory)
            → IsPlayed (leader_part config number memory) self.old self.new (facts.Ballot tx.now ballot) result }
    {
        let place = self.courses.place_of(tx);
        if ballot <= self.courses.greatest_at(tx, place) {
            return Err(Refusal::Damaged);
        }
        if owner(ballot, self.leaders) != self.number {
            return Err(Refusal::Damaged);
        }
        self.courses.store(tx, place, ballot)
    }

    /// A shorter record that says the same: the frames, in version 2, of the greatest ballot of each transaction that has one, in the order
    /// of the first ballots. `NoMemory` is the only refusal.
    pub fn shorter(&self) -> Result<Vec<u8>, Refusal>
        ensures ok { IfOk result (λ frames. AreShorterFrames self.now frames.items) }
        ensures err { IfErr result (λ e. e ≡ NoMemory) }
    {
        self.courses.frames()
    }
}

/// Whether a transaction names only resource managers of the cluster.
fn is_inside(managers: u8, tx: &SpelledTx<'_>) -> bool
    ensures { result ≡ are_below managers (participants tx.now) }
{
    tx.are_below(u16::from(managers))
}

/// The leader's next ballot after the last, to be stored, and its phase 1a; or that there is none. It stands in place of what was decided
/// before.
fn take_over(
    number: u8,
    leaders: u8,
    bundled: bool,
    tx: &SpelledTx<'_>,
    last: Ballot,
    decision: &mut LeaderDecision,
)
    requires { number < leaders }
    ensures decides { shown decision.new ≡ taken_over number leaders bundled tx.now last }
    ensures plays { IfSome decision.new.fact (λ fact. rules.plays_at_leader leaders number (λ x. last) fact ≡ true) }
{
    match next_owned(number, leaders, last) {
        Ok(ballot) => decision.begin(tx, ballot, bundled),
        Err(_) => decision.refuse(Refusal::NoBallot),
    }
}
