ghost use Rattle.std.specs.Prelude.{◌≡◌, ℕ, ◌<◌, [], List, length, Some, IfOk, IfErr};
ghost use Rattle.std.specs.List.{list_all};
ghost use Rattle.xid.specs.Limits.{most_acceptors};
ghost use Rattle.xid.specs.Places.{is_below};
ghost use Rattle.xid.specs.declared.refusals.Refusal.TheVariants.{NoMemory};
ghost use Rattle.wire.specs.Messages.{IsMessage};
ghost use Rattle.wire.specs.declared.message.Kind.TheVariants.{P1a, P2a, B1a};
ghost use Rattle.stable_record.specs.declared.fact.FactKind.{FactKind};
ghost use Rattle.stable_record.specs.Facts.{fact_tx};
ghost use Rattle.protocol.specs.Acceptors.{on_1a, on_b1a, on_2a, on_acceptor_message};
ghost use Rattle.protocol.specs.Decisions.{shown};
ghost use Rattle.protocol.specs.Effects.{Config};
ghost use Rattle.protocol.specs.Kept.{kept_facts};
ghost use Rattle.stable_record.specs.Parts.{IsMadeReady, IsPlayed};
ghost use Rattle.acceptor.specs.Acceptors.{acceptor_part, StandsFor, Decides};
ghost use Rattle.acceptor.specs.Compaction.{AreShorterFrames};

use crate::bundles::Accepted;
use crate::rules::{Seat, on_1a, on_2a, on_b1a};
use crate::slots::plays;
use crate::table::{Table, begin};
use hashing::HashKey;
use protocol::MessageDecision;
use stable_record::FactView;
use std::alloc::Global;
use std::marker::Model;
use transactions::Order;
use wire::{MessageView, Rest, SpelledTx};
use xid::{Ballot, Floor, ManagerNumber, Refusal, Vote};

/// An acceptor: its number, how many leaders there are, whether the cluster is bundled, a slot for each instance of each transaction that
/// it has seen, and those of which a fact was played, in the order of their first facts.
#[derive(Debug, Drop)]
pub struct Acceptor {
    seat: Seat,
    table: Table,
    begun: Order,
}

impl Model for Acceptor {
    ghost use Rattle.std.specs.Prelude.{◌<◌, length};
    ghost use Rattle.xid.specs.Limits.{most_acceptors};
    ghost use Rattle.transactions.specs.Seen.{AreInside, at_places};
    ghost use Rattle.acceptor.specs.Acceptors.{AcceptorParts};

    ghost Value = { AcceptorParts };

    ghost view = { λ a. record {
      number = a.seat.number;
      leaders = a.seat.leaders;
      bundled = a.seat.bundled;
      table = a.table;
      begun = at_places a.table.transactions a.begun.numbers;
      room = a.begun.room;
    } };

    ghost invariant = { λ a. (a.seat.number < most_acceptors) × (0 < a.seat.leaders)
        × AreInside (length a.table.transactions) a.begun.numbers };
}

impl Acceptor {
    /// An acceptor that has played nothing. It takes no memory.
    pub fn new(alloc: Global, number: u8, leaders: u8, bundled: bool) -> Acceptor
        requires number { number < most_acceptors }
        requires leaders { 0 < leaders }
        ensures { (config : Config) → leaders ≡ config.leaders → bundled ≡ config.bundled → StandsFor config number result [] }
    {
        Acceptor::with_hash_key(alloc, HashKey::fixed(), number, leaders, bundled)
    }

    /// The same under a key of hashes, which nothing that is answered depends on.
    pub fn with_hash_key(
        alloc: Global,
        key: HashKey,
        number: u8,
        leaders: u8,
        bundled: bool,
    ) -> Acceptor
        requires number { number < most_acceptors }
        requires leaders { 0 < leaders }
        ensures { (config : Config) → leaders ≡ config.leaders → bundled ≡ config.bundled → StandsFor config number result [] }
    {
        Acceptor {
            seat: Seat {
                number,
                leaders,
                bundled,
            },
            table: Table::new(alloc, key),
            begun: Order::new(alloc),
        }
    }

    /// Phase 1a: above every ballot before, the promise is to be stored, and what was accepted last goes to the ballot's
    /// owner. Else nothing. It takes no memory.
    pub fn on_1a<'a>(
        &self,
        tx: &SpelledTx<'a>,
        instance: ManagerNumber,
        ballot: Ballot,
    ) -> MessageDecision<'a>
        requires { IsMessage (P1a tx.now instance ballot) }
        ensures { Decides self.now (shown result) (λ config a slots. on_1a config a slots tx.now instance ballot) }
    {
        on_1a(self.seat, tx, self.table.slots_of(tx), instance, ballot)
    }

    /// Phase 1a of all instances: where some stands below the ballot, one promise for all of these is to be stored, and they are
    /// reported to the ballot's owner. Else nothing. It takes no memory.
    pub fn on_b1a<'a>(&self, tx: &SpelledTx<'a>, ballot: Ballot) -> MessageDecision<'a>
        requires { IsMessage (B1a tx.now ballot) }
        ensures { Decides self.now (shown result) (λ config a slots. on_b1a config a slots tx.now ballot) }
    {
        on_b1a(self.seat, tx, self.table.slots_of(tx), ballot)
    }

    /// Phase 2a: no lower than any ballot before, the value is accepted, and all leaders are told, in a bundled cluster of every
    /// instance that has a value, once all have one or this one is aborted; the accept is to be stored where it isn't what stands.
    /// Else nothing. It takes no memory.
    pub fn on_2a<'a>(
        &self,
        tx: &SpelledTx<'a>,
        instance: ManagerNumber,
        ballot: Ballot,
        vote: Vote,
    ) -> MessageDecision<'a>
        requires { IsMessage (P2a tx.now instance ballot vote) }
        ensures { Decides self.now (shown result) (λ config a slots. on_2a config a slots tx.now instance ballot vote) }
    {
        let accepted = Accepted {
            instance,
            ballot,
            vote,
        };
        on_2a(self.seat, tx, self.table.slots_of(tx), accepted)
    }

    /// What it does on a message: on phases 1a and 2a what `on_1a`, `on_b1a` and `on_2a` say, on every other nothing. That the message
    /// is of this kind of cluster and names none but nodes of it is asked before, by the node.
    pub fn on_message<'a>(&self, message: &MessageView<'a>) -> MessageDecision<'a>
        ensures { Decides self.now (shown result) (λ config a slots. on_acceptor_message config a slots message.now) }
    {
        match message.rest() {
            Rest::P1a { instance, ballot } => self.on_1a(message.tx(), instance, ballot),
            Rest::B1a { ballot } => self.on_b1a(message.tx(), ballot),
            Rest::P2a {
                instance,
                ballot,
                vote,
            } => self.on_2a(message.tx(), instance, ballot, vote),
            _ => MessageDecision::nothing(),
        }
    }

    /// Makes itself ready for a fact of a transaction: that is seen, and there is room for it to begin, so that `play` of the fact takes
    /// no memory. At `NoMemory`, the only refusal, and else too, it stands for what it stood for.
    pub fn ready(&mut self, tx: &SpelledTx<'_>) -> Result<(), Refusal>
        ensures { (config : Config) (number : ℕ) (fact : FactKind) → tx.now ≡ fact_tx fact
            → IsMadeReady (acceptor_part config number) self.old self.new fact result }
    {
        match self.table.see(tx) {
            Ok(_) => self.begun.reserve(),
            Err(_) => Err(Refusal::NoMemory),
        }
    }

    /// Plays a fact that is stored: one that was decided, or one of a record. Refused (`Damaged`) where its condition on the slots doesn't
    /// hold, as that of one that is no acceptor's, and (`NoMemory`) where it wasn't made ready for it; then it stands for what it stood
    /// for.
    pub fn play(&mut self, fact: &FactView<'_>) -> Result<(), Refusal>
        ensures { (config : Config) (number : ℕ) → IsPlayed (acceptor_part config number) self.old self.new fact.now result }
    {
        let tx = fact.tx();
        let Some(number) = self.table.number_of(tx) else {
            return self.play_first(tx, fact);
        };
        if !plays(self.table.slots(number), fact) {
            return Err(Refusal::Damaged);
        }
        let Ok(()) = begin(&mut self.begun, &self.table, number, tx) else {
            return Err(Refusal::NoMemory);
        };
        self.table.change(number, fact);
        Ok(())
    }

    /// Plays a fact of a transaction that may not have been seen.
    fn play_first(&mut self, tx: &SpelledTx<'_>, fact: &FactView<'_>) -> Result<(), Refusal>
        requires { tx.now ≡ fact_tx fact.now }
        ensures { (config : Config) (number : ℕ) → IsPlayed (acceptor_part config number) self.old self.new fact.now result }
    {
        if !plays(self.table.slots_of(tx), fact) {
            return Err(Refusal::Damaged);
        }
        let Ok(number) = self.table.see(tx) else {
            return Err(Refusal::NoMemory);
        };
        let Ok(()) = begin(&mut self.begun, &self.table, number, tx) else {
            return Err(Refusal::NoMemory);
        };
        self.table.change(number, fact);
        Ok(())
    }

    /// A shorter record that says the same, and whose frames are together no longer: the frames, in version 2, for each transaction in the
    /// order of its first fact, of what each instance accepted last, ascending, then of one promise for all, where an instance that took
    /// part in the least ballot accepted only below it, and then of a promise of each that took part in a greater one. `NoMemory` is the
    /// only refusal.
    pub fn shorter(&self) -> Result<Vec<u8>, Refusal>
        ensures ok { IfOk result (λ frames. AreShorterFrames self.now frames.items) }
        ensures err { IfErr result (λ e. e ≡ NoMemory) }
    {
        self.table.frames(&self.begun)
    }

    /// Whether it has stored nothing about a name at or above a floor: each fact is about a transaction that is below. It takes no memory.
    pub fn is_unused_above(&self, floor: &Floor) -> bool
        ensures { (config : Config) (number : ℕ) (facts : List FactKind) → StandsFor config number self.now facts
            → result ≡ list_all (λ fact. is_below (Some floor.now) (fact_tx fact)) facts }
    {
        self.table.are_below(&self.begun, floor)
    }

    /// Of how many transactions it keeps something in memory.
    pub fn transaction_count(&self) -> usize
        ensures { result ≡ length self.now.table.transactions }
    {
        self.table.len()
    }

    /// What is left of it where it forgets what is below a floor: the slots of the transactions that aren't below, in the order of their
    /// first facts. Refused: `NoMemory` alone.
    pub fn above(self, key: HashKey, floor: &Floor) -> Result<Acceptor, Refusal>
        ensures ok { IfOk result (λ left. (config : Config) (number : ℕ) (facts : List FactKind) → StandsFor config number self facts
            → StandsFor config number left (kept_facts (Some floor.now) facts)) }
        ensures err { IfErr result (λ e. e ≡ NoMemory) }
    {
        let (table, begun) = self.table.above(key, &self.begun, floor)?;
        Ok(Acceptor {
            seat: self.seat,
            table,
            begun,
        })
    }
}
