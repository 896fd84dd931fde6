ghost use Rattle.std.specs.Prelude.{◌≡◌, ◌<◌, ◌≤◌, ◌+◌, [], length, map, slice_index_or, IfOk, IfErr};
ghost use Rattle.std.specs.Vec.{vec_capacity};
ghost use Rattle.protocol.specs.Effects.{Config as Settings};
ghost use Rattle.floors.specs.Worlds.{FlooredWorld};
ghost use Rattle.network.specs.Networks.{least_unmarked, shown};
ghost use Rattle.cluster.specs.Asking.{ViewsIn, TablesIn};
ghost use Rattle.cluster.specs.Clusters.{ClusterParts, ClusterStands, Happens, Occurs, sent_after, step_by, told_after};
ghost use Rattle.cluster.specs.Headlines.{MovesSafely};
ghost use Rattle.cluster.specs.Notices.{notice_in};
ghost use Rattle.cluster.specs.Opening.{IsMade, IsUnmade};

use crate::asking::{table, view};
use crate::handing::{Answered, happen};
use crate::notices::Notices;
use crate::opening::open_all;
use crate::room::{most_sent, most_told};
use floored::Floored;
use network::{KeptDatagram, Network};
use node_core::{Config, Output, Sizes, node_count};
use protocol::{Answer, Event, Row, Sent, Step, Told, View};
use stable_record::{Record, Tear};
use std::alloc::Global;
use std::marker::Model;
use wire::decode;
use xid::{Refusal, Sequence, Tx};

/// A whole cluster: its nodes, each with a floor over a record, every datagram that they sent, and every notice of a floor that they told.
#[derive(Drop)]
pub struct Cluster<R: Record> {
    alloc: Global,
    sizes: Sizes,
    nodes: Vec<Floored<R>>,
    network: Network,
    notices: Notices,
    // what came of an input last, in whose place goes what comes of the next
    out: Output,
}

impl<R: Record> Model for Cluster<R> {
    ghost use Rattle.cluster.specs.Clusters.{ClusterParts, IsSound, cluster_of};

    ghost Value = { ClusterParts };

    ghost view = { λ c. cluster_of c.sizes c.nodes.items c.network c.notices };

    ghost invariant = { λ c. IsSound (cluster_of c.sizes c.nodes.items c.network c.notices) };
}

/// The step of an event for whose datagrams or notices there is no memory: nothing happened.
fn unmade(alloc: Global, event: Event) -> Step
    ensures { (cluster : ClusterParts) → Occurs event cluster cluster result }
{
    Step {
        event,
        answer: Answer::Refused(Refusal::NoMemory),
        now: None,
        sent: Sequence::new(Vec::new(alloc)),
        told: Sequence::new(Vec::new(alloc)),
    }
}

/// Lists the datagrams after so many, each with its number. There is room for that.
fn list_sent(network: &Network, before: u32, sent: &mut Vec<Sent>)
    requires empty { sent.old.items ≡ [] }
    requires room { length network.now.datagrams ≤ before + vec_capacity sent.old }
    ensures { sent.new.items ≡ sent_after before network.now }
{
    for place in before..network.len() {
        let kept = network.at(place);
        if let Ok(message) = decode(kept.bytes) {
            sent.push_reserved(Sent {
                number: place + 1,
                sender: kept.sender,
                receiver: kept.receiver,
                message,
            });
        }
    }
}

/// Lists the notices after so many, each with its number. There is room for that.
fn list_told(notices: &Notices, before: u32, told: &mut Vec<Told>)
    requires empty { told.old.items ≡ [] }
    requires room { length notices.now.all ≤ before + vec_capacity told.old }
    ensures { told.new.items ≡ told_after before notices.now }
{
    for place in before..notices.len() {
        told.push_reserved(notices.listed(place));
    }
}

/// A list in the room that it needs, if there is memory for that, else the list as it is.
fn fitted<T: Copy>(alloc: Global, listed: Vec<T>) -> Vec<T>
    ensures { result.items ≡ listed.items }
{
    match Vec::from_slice(alloc, &listed) {
        Ok(copy) => copy,
        Err(_) => listed,
    }
}

impl<R: Record + Drop> Cluster<R> {
    /// The cluster of a configuration over records, one empty one for each node: the acceptors', then the leaders', then the resource
    /// managers'. All nodes are up, none has a floor, and nothing was sent or told; tears that are armed on records stay; the world that
    /// it stands for is one that events lead to, so what `step` says holds from here on. Refused, and the records are let go: another
    /// number of records, or one that isn't empty (`BadConfig`); one of them failed, which it may, and counted it (`RecordFault`);
    /// `NoMemory`.
    pub fn new(alloc: Global, config: &Config, records: Vec<R>) -> Result<Cluster<R>, Refusal>
        ensures ok { IfOk result (λ cluster. IsMade config.now (map R.Record.held records.items) cluster) }
        ensures err { IfErr result (λ e. IsUnmade config.now (map R.Record.held records.items) e) }
    {
        let sizes = config.sizes();
        if records.len() != node_count(sizes) {
            return Err(Refusal::BadConfig);
        }
        let nodes = open_all(alloc, config, sizes, records)?;
        let Ok(notices) = Notices::new(alloc, sizes) else {
            return Err(Refusal::NoMemory);
        };
        Ok(Cluster {
            alloc,
            sizes,
            nodes,
            network: Network::new(alloc),
            notices,
            out: Output::nothing(),
        })
    }
}

impl<R: Tear> Cluster<R> {
    /// One event, and what came of it: what `Event` says of each. Where there is no room for the datagrams that the event's node may
    /// send, or for the notices that it may tell, it is refused (`NoMemory`) before the node is reached, and nothing has changed.
    ///
    /// Whoever has no more than the cluster learns this. It stood for a world with floors that events lead to; the step is the one that
    /// is made there, under a fault that is true to what befell the record of the node that the event reached; and it stands now for
    /// the world to which that led. In that one, each transaction has moved by at most one step of the specification, so nobody
    /// is committed beside one that is aborted; a commit found each participant prepared; a table has changed only where a view became
    /// committed, by what its branch had kept; nothing came to be kept but what this event wrote, if it is a put or a delete that was
    /// answered ok; and no restart would be refused as damaged. All nodes but the one that the event reached are as they were.
    pub fn step(&mut self, event: Event) -> Step
        ensures occurs { Occurs event self.old self.new result }
        ensures safe { MovesSafely event self.old self.new result }
    {
        let mut answered = Answered::nothing();
        let mut sent = Vec::new(self.alloc);
        match sent.reserve(most_sent(self.sizes, &self.network, &event)) {
            Ok(()) => {}
            Err(_) => return unmade(self.alloc, event),
        }
        let mut told = Vec::new(self.alloc);
        match told.reserve(most_told(self.sizes, &event)) {
            Ok(()) => {}
            Err(_) => return unmade(self.alloc, event),
        }
        let before = self.network.len();
        let told_before = self.notices.len();
        self.step_into(&event, &mut answered);
        list_sent(&self.network, before, &mut sent);
        list_told(&self.notices, told_before, &mut told);
        Step {
            event,
            answer: answered.answer,
            now: answered.now,
            sent: Sequence::new(fitted(self.alloc, sent)),
            told: Sequence::new(fitted(self.alloc, told)),
        }
    }

    /// One event as by `step`, and what it is answered in the place of another answer. The datagrams that it sent, and the notices that it
    /// told, are those after the ones before it, so that no list of them is made. What is learned of it is what `step` says.
    pub fn step_into(&mut self, event: &Event, answered: &mut Answered)
        ensures occurs { Happens event.now self.old self.new answered.new }
        ensures safe { MovesSafely event.now self.old self.new (step_by event.now answered.new self.old self.new) }
    {
        happen(
            self.sizes,
            &mut self.nodes,
            &mut self.network,
            &mut self.notices,
            event,
            &mut self.out,
            answered,
        );
    }
}

impl<R: Record> Cluster<R> {
    /// Where a resource manager stands in a transaction, by the whole frames of its record, whether it is up or down. Refused: no such
    /// resource manager (`NoSuch`); the transaction is below its floor, and over (`Forgotten`); it names a resource manager outside the
    /// cluster, or doesn't name this one (`BadTx`); where it is down, its record fails (`RecordFault`), or `NoMemory`. The cluster stays
    /// as it is; where that record failed, but for what it counts: every other node, its record and its counts, the datagrams, the
    /// notices, and the world that it stands for stay.
    pub fn view(&mut self, rm: u8, tx: &Tx) -> Result<View, Refusal>
        ensures { (config : Settings) (world : FlooredWorld) → ClusterStands config self.old world
            → ViewsIn config world self.old self.new rm tx.now result }
    {
        view(self.sizes, &mut self.nodes, rm, tx)
    }

    /// The rows of a resource manager's table, their keys ascending, by the whole frames of its record, whether it is up or down.
    /// Refused: no such resource manager (`NoSuch`); `NoMemory`; where it is down, its record fails (`RecordFault`). The cluster stays as
    /// it is; where that record failed, but for what it counts, as by `view`.
    pub fn table(&mut self, rm: u8) -> Result<Sequence<Row>, Refusal>
        ensures { (config : Settings) (world : FlooredWorld) → ClusterStands config self.old world
            → TablesIn config world self.old self.new rm result }
    {
        table(self.sizes, &mut self.nodes, rm)
    }

    /// How many datagrams were sent.
    pub fn datagram_count(&self) -> u32
        ensures { result ≡ length self.now.network.datagrams }
    {
        self.network.len()
    }

    /// The datagram of a place, which is one less than its number.
    pub fn datagram(&self, place: u32) -> KeptDatagram<'_>
        requires { place < length self.now.network.datagrams }
        ensures { shown result ≡ slice_index_or self.now.network.datagrams place (shown result) }
    {
        self.network.at(place)
    }

    /// How many notices of a floor were told.
    pub fn notice_count(&self) -> u32
        ensures { result ≡ length self.now.notices.all }
    {
        self.notices.len()
    }

    /// The notice of a place, which is one less than its number.
    pub fn notice(&self, place: u32) -> Told
        requires { place < length self.now.notices.all }
        ensures number { result.number ≡ place + 1 }
        ensures notice { notice_in result ≡ slice_index_or self.now.notices.all place (notice_in result) }
    {
        self.notices.listed(place)
    }

    /// The least number of a datagram that isn't marked, if there is one.
    pub fn least_unmarked(&self) -> Option<u32>
        ensures { (config : Settings) (world : FlooredWorld) → ClusterStands config self.now world
            → result ≡ least_unmarked world.machine.net }
    {
        self.network.least_unmarked()
    }

    /// Its nodes: the acceptors, then the leaders, then the resource managers.
    pub fn into_nodes(self) -> Vec<Floored<R>>
        ensures { result.items ≡ self.nodes }
    {
        self.nodes
    }
}
