//! The process of a node.

ghost use Rattle.std.specs.Prelude.{◌≡◌, ◌⊎◌, ◌≤◌, List, [], true, false, Result as ResultParts, Ok, IfOk, OnOk, OnErr, MatchOption};
ghost use Rattle.std.specs.Prelude.{take, length};
ghost use Rattle.std.specs.List.{AllByRecursion};
ghost use Rattle.xid.specs.declared.refusals.Refusal.{Refusal as RefusalParts};
ghost use Rattle.floors.specs.Worlds.{is_manager};
ghost use Rattle.port.specs.Members.{CompactsMember};
ghost use Rattle.serving.specs.Clients.{AreUntold};
ghost use Rattle.serving.specs.Shortenings.{IsDue, IsMarked};
ghost use Rattle.node_process.specs.Awaiting.{HearStandings, Waiting};
ghost use Rattle.node_process.specs.Due.{AsksAfterOpen, IsWatched};
ghost use Rattle.node_process.specs.Rising.{MayRise, MayTell};
ghost use Rattle.node_process.specs.Working.{Answers, AnswersSome, EndsWork, Works};

use crate::awaiting::{answer_awaited, awaited_until, begin_awaits};
use crate::desk::Desk;
use crate::gathering::gather;
use crate::gauges::Gauges;
use crate::handing::{hand, replies_of};
use crate::rising::{Rising, rise, tell_again};
use crate::saying::say_all;
use letter_port::LetterPort;
use node_core::Output;
use port::{Member, Port};
use protocol::NodeId;
use serving::{Item, Watches};
use stable_record::Record;
use std::alloc::AllocError;
use std::time::Instant;
use xid::{Refusal, Tx};

/// The process of a node: its node, its port, and what it keeps beside them. Where a call of it is refused, it is to end, and nothing more
/// is sent to its clients.
#[derive(Drop)]
pub struct Process<R: Record, P> {
    /// Its node.
    pub node: Member<R>,
    /// Its port.
    pub port: LetterPort<P>,
    /// What it keeps beside them.
    pub desk: Desk,
    /// Places for what comes of a group, as many as the largest had inputs.
    pub outs: Vec<Output>,
}

/// Whether there is no item.
fn is_nothing(items: &[Item]) -> bool
    ensures none { result ≡ true → items.now ≡ [] }
    ensures some { result ≡ false → items.now ≡ [] → ⊥ }
{
    match items {
        [] => true,
        _ => false,
    }
}

/// Transactions are asked after from now on.
fn watch_all(watches: &mut Watches, txs: &[Tx], now: Instant) -> Result<(), AllocError>
    ensures { OnOk result (AllByRecursion (IsWatched watches.new) txs.now) }
{
    for tx in txs {
        watches.add(tx, 0, now)?;
    }
    Ok(())
}

impl<R: Record, P: Port> Process<R, P> {
    /// That of a node at a port.
    pub fn new(node: Member<R>, port: LetterPort<P>, desk: Desk) -> Process<R, P> {
        let outs = Vec::new(desk.alloc);
        Process {
            node,
            port,
            desk,
            outs,
        }
    }

    /// It begins: how long its record is becomes known, and a resource manager asks after all that its record has prepared and not ended.
    pub fn begin<G: Gauges<P>>(&mut self, gauges: &G, now: Instant) -> Result<(), Refusal>
        ensures node { self.new.node ≡ self.old.node }
        ensures port { self.new.port ≡ self.old.port }
        ensures desk { self.new.desk ≡ record self.old.desk {
          counts = record self.old.desk.counts { «record» = self.new.desk.counts.record };
          notes = record self.old.desk.notes { watches = self.new.desk.notes.watches };
        } }
        ensures open { OnOk result (is_manager self.old.desk.terms.who ≡ true
            → AsksAfterOpen self.old.node.floored.node self.new.desk.notes.watches) }
    {
        self.desk.counts.record = gauges.record_len()?;
        let NodeId::R(_) = self.desk.terms.who else {
            return Ok(());
        };
        let open = self.node.open_transactions()?;
        watch_all(&mut self.desk.notes.watches, open.as_slice(), now)?;
        Ok(())
    }

    /// What came of the items of a group, of which so many were inputs, is noted, and each client is told what its own are answered, in
    /// order. Refused: memory ran out or the record failed, and clients were told the first of these answers at most.
    fn answer_all<G: Gauges<P>>(
        &mut self,
        gauges: &G,
        items: &[Item],
        count: usize,
        now: Instant,
    ) -> Result<(), Refusal>
        requires { count ≤ length self.old.outs.items }
        ensures answers { OnOk result (Answers P.sent now items.now (take count self.old.outs.items) self.old.desk self.new.desk
            self.old.node self.new.node self.old.port self.new.port) }
        ensures pending { self.new.desk.pending ≡ self.old.desk.pending }
        ensures count { self.new.desk.clients.count ≡ self.old.desk.clients.count }
        ensures ends { OnErr result (AreUntold self.old.desk.clients.seats self.new.desk.clients.seats
            ⊎ AnswersSome P.sent self.old.desk.terms items.now (take count self.old.outs.items) self.old.desk.clients.seats
            self.new.desk.clients.seats self.old.node self.new.node self.old.port self.new.port) }
    {
        let outs = &self.outs[..count];
        self.desk.notes.has_clients = !self.desk.clients.seats.is_empty();
        self.desk.notes.note_all(items, outs, now)?;
        let said = say_all(
            &mut self.node,
            &mut self.port,
            &self.desk,
            gauges,
            items,
            now,
        )?;
        let replies = replies_of(self.desk.alloc, outs)?;
        self.desk.clients.tell_all(items, &replies, &said)?;
        begin_awaits(
            self.desk.alloc,
            self.desk.terms.who,
            &mut self.desk.clients,
            items,
            awaited_until(now),
        )?;
        self.desk.terms.latest = self.desk.notes.latest;
        Ok(())
    }

    /// What waits is done, in one group: requests that nobody is answered for, what is due, messages, and clients' lines. Refused: memory
    /// ran out, the group wasn't stored, or what came of it could be answered in part alone. Nobody was told anything that wasn't stored.
    pub fn work<G: Gauges<P>>(&mut self, gauges: &G, now: Instant) -> Result<(), Refusal>
        ensures works { OnOk result (Works P.received P.sent now self.old.desk self.new.desk self.old.node self.new.node
            self.old.port self.new.port) }
        ensures ends { OnErr result (EndsWork P.received P.sent now self.old.desk self.new.desk self.old.node self.new.node
            self.old.port self.new.port) }
        ensures count { self.new.desk.clients.count ≡ self.old.desk.clients.count }
    {
        let items = gather(&mut self.node, &mut self.port, &mut self.desk, now)?;
        if is_nothing(&items) {
            return Ok(());
        }
        let count = hand(
            self.desk.alloc,
            &mut self.node,
            &mut self.port,
            &items,
            &mut self.outs,
        )?;
        self.desk.count_group(gauges.record_len()?);
        self.answer_all(gauges, &items, count, now)
    }

    /// The awaits whose time has come are answered, and the lines behind them are looked at again. All are asked from time to time, since a
    /// floor that rises ends some too.
    pub fn answer_awaited(&mut self, now: Instant) -> Result<(), Refusal>
        ensures hear { OnOk result ((heard : List Waiting) × HearStandings now heard self.old.node self.new.node
            self.old.desk.clients.seats self.new.desk.clients.seats) }
        ensures port { self.new.port ≡ self.old.port }
        ensures desk { self.new.desk ≡ record self.old.desk {
          clients = self.new.desk.clients;
          notes = record self.old.desk.notes { ended = self.new.desk.notes.ended };
          next_ask = self.new.desk.next_ask;
        } }
        ensures count { self.new.desk.clients.count ≡ self.old.desk.clients.count }
    {
        let are_all = self.desk.is_to_ask(now);
        answer_awaited(
            &mut self.node,
            &mut self.desk.clients,
            &self.desk.notes.ended,
            are_all,
            now,
        )?;
        self.desk.notes.ended.clear();
        Ok(())
    }

    /// The floor of a resource manager whose names stand in time rises by itself, if it is time.
    pub fn rise<G: Gauges<P>>(&mut self, gauges: &G, now: Instant) -> Result<Rising, Refusal>
        ensures rises { IfOk result (λ rising. MayRise P.sent self.old.desk.terms self.old.desk.notes.branches rising.has_risen
            self.old.node self.new.node self.old.port self.new.port) }
        ensures desk { self.new.desk ≡ record self.old.desk {
          counts = record self.old.desk.counts { «record» = self.new.desk.counts.record };
          shortening = self.new.desk.shortening;
          next_rise = self.new.desk.next_rise;
        } }
    {
        let rising = rise(&mut self.node, &mut self.port, &mut self.desk, now)?;
        if rising.has_risen {
            self.desk.note_shorter(gauges.record_len()?);
        }
        Ok(rising)
    }

    /// A resource manager that has a floor tells it again, if it is time.
    pub fn tell_again(&mut self, now: Instant) -> Result<(), Refusal>
        ensures tells { OnOk result (MayTell P.sent self.old.node self.new.node self.old.port self.new.port) }
        ensures desk { self.new.desk ≡ record self.old.desk { next_tell = self.new.desk.next_tell } }
    {
        tell_again(&mut self.node, &mut self.port, &mut self.desk, now)
    }

    /// The record is made shorter, if it is time: of so many bytes as it is known to have. How many these were, if so.
    pub fn shorten<G: Gauges<P>>(&mut self, gauges: &G) -> Result<Option<u64>, Refusal>
        ensures made { OnOk result (IsDue self.old.desk.shortening.mark self.old.desk.counts.record
            → CompactsMember self.old.node self.new.node (Ok tt)) }
        ensures refused { OnErr result ((done : ResultParts (Unit {0}) RefusalParts) × CompactsMember self.old.node self.new.node done) }
        ensures told { IfOk result (λ told. MatchOption told (IsDue self.old.desk.shortening.mark self.old.desk.counts.record → ⊥)
            (λ before. IsDue self.old.desk.shortening.mark self.old.desk.counts.record × (before ≡ self.old.desk.counts.record))) }
        ensures desk { self.new.desk ≡ record self.old.desk {
          counts = record self.old.desk.counts { «record» = self.new.desk.counts.record };
          shortening = self.new.desk.shortening;
        } }
        ensures port { self.new.port ≡ self.old.port }
        ensures due { OnOk result (IsDue self.old.desk.shortening.mark self.old.desk.counts.record
            → IsMarked self.old.desk.counts.record self.new.desk.counts.record self.new.desk.shortening.mark) }
        ensures early { OnOk result ((IsDue self.old.desk.shortening.mark self.old.desk.counts.record → ⊥)
            → (self.new.desk ≡ self.old.desk) × (self.new.node ≡ self.old.node)) }
    {
        let before = self.desk.counts.record;
        if !self.desk.shortening.is_due(before) {
            return Ok(None);
        }
        self.node.compact()?;
        self.desk.note_shorter(gauges.record_len()?);
        Ok(Some(before))
    }
}
