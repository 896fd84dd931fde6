ghost use Rattle.std.specs.Prelude.{◌≡◌, ◌⊎◌, true, length, IfOk, IfErr, OnOk};
ghost use Rattle.std.specs.List.{list_all};
ghost use Rattle.xid.specs.declared.refusals.Refusal.TheVariants.{NoMemory, RecordFault};
ghost use Rattle.udp_run.specs.Sites.{Comes, Happens, IsSite, site_of};
ghost use Rattle.udp_run.specs.Commands.{CarriesAll, CarriesOut, Flows, Joins, ServesFirst, is_served_event, is_served};
ghost use Rattle.udp_run.specs.NodeTables.{AreTablesOf, StopsAtTable};

use crate::happenings::{ask, compact, noise, raise, restart};
use crate::rounds::serve_each;
use crate::tables::tables_of;
use net_script::{Command, Entry};
use node_core::Sizes;
use port::{Member, Port, Served};
use protocol::{Event, Row, Step};
use stable_record::Record;
use std::alloc::Global;
use std::marker::Model;
use xid::{Refusal, Sequence};

/// The nodes of a cluster, acceptors first, then leaders, then resource managers; the port of each; and a port for noise.
#[derive(Drop)]
pub struct Site<R: Record, P: Port> {
    alloc: Global,
    sizes: Sizes,
    nodes: Vec<Member<R>>,
    ports: Vec<P>,
    noise: P,
}

impl<R: Record, P: Port> Model for Site<R, P> {
    ghost use Rattle.udp_run.specs.Sites.{SiteParts, IsSite, site_of};

    ghost Value = { SiteParts P };

    ghost view = { λ s. site_of s.sizes s.nodes.items s.ports.items s.noise };

    ghost invariant = { λ s. IsSite s.sizes s.nodes.items s.ports.items };
}

impl<R: Record, P: Port> Site<R, P> {
    /// A site of these, one node and one port for each place.
    pub fn new(
        alloc: Global,
        sizes: Sizes,
        nodes: Vec<Member<R>>,
        ports: Vec<P>,
        noise: P,
    ) -> Site<R, P>
        requires { IsSite sizes nodes.items ports.items }
        ensures { result ≡ site_of sizes nodes.items ports.items noise }
    {
        Site {
            alloc,
            sizes,
            nodes,
            ports,
            noise,
        }
    }

    /// What comes of an event: a request, a restart, a compaction, a rise of a floor or noise. What a node sends goes out by its port.
    fn come(&mut self, event: &Event) -> Served
        requires { is_served_event event.now ≡ true }
        ensures { Comes P.sent event.now self.old self.new result }
    {
        match event {
            Event::Ask { node, request } => {
                ask(self.sizes, &mut self.nodes, &mut self.ports, *node, request)
            }
            Event::Restart { node } => restart(self.sizes, &mut self.nodes, *node),
            Event::Compact { node } => compact(self.sizes, &mut self.nodes, *node),
            Event::Raise { rm, floor } => {
                raise(self.sizes, &mut self.nodes, &mut self.ports, *rm, floor)
            }
            Event::Noise { node, bytes } => {
                noise(self.sizes, &mut self.noise, *node, bytes.as_slice())
            }
            _ => unreachable!(),
        }
    }

    /// An event happens. What is sent isn't listed.
    fn happen(&mut self, event: Event) -> Step
        requires { is_served_event event ≡ true }
        ensures { Happens P.sent event self.old self.new result }
    {
        let served = self.come(&event);
        Step {
            event,
            answer: served.reply,
            now: served.now,
            sent: Sequence::new(Vec::new(self.alloc)),
            told: Sequence::new(Vec::new(self.alloc)),
        }
    }

    /// Each node, in order, takes a datagram, if one has come. Refused: `NoMemory` alone.
    fn round(&mut self, entries: &mut Vec<Entry>) -> Result<(), Refusal>
        ensures ok { OnOk result (Joins (ServesFirst P.received P.sent (length self.old.nodes)) self.old self.new
            entries.old.items entries.new.items) }
        ensures err { IfErr result (λ e. e ≡ NoMemory) }
    {
        serve_each(self.alloc, &mut self.nodes, &mut self.ports, entries)
    }

    /// So many rounds. Refused: `NoMemory` alone.
    fn flow(&mut self, count: u32, entries: &mut Vec<Entry>) -> Result<(), Refusal>
        ensures ok { OnOk result (Joins (Flows P.received P.sent count) self.old self.new entries.old.items entries.new.items) }
        ensures err { IfErr result (λ e. e ≡ NoMemory) }
    {
        for _round in 0..count {
            self.round(entries)?;
        }
        Ok(())
    }

    /// A command is carried out, and listed. Refused: `NoMemory` alone.
    fn carry_out(&mut self, command: Command, entries: &mut Vec<Entry>) -> Result<(), Refusal>
        requires { is_served command ≡ true }
        ensures ok { OnOk result (Joins (CarriesOut P.received P.sent command) self.old self.new entries.old.items entries.new.items) }
        ensures err { IfErr result (λ e. e ≡ NoMemory) }
    {
        match command {
            Command::Do(event) => {
                entries.push(Entry::Step(self.happen(event)))?;
                Ok(())
            }
            Command::Flow(count) => self.flow(count, entries),
        }
    }

    /// All commands are carried out, one after another, and listed. Refused: `NoMemory` alone.
    pub(crate) fn carry_out_all(&mut self, commands: Vec<Command>) -> Result<Vec<Entry>, Refusal>
        requires { list_all is_served commands.items ≡ true }
        ensures ok { IfOk result (λ entries. CarriesAll P.received P.sent commands.items self.old self.new entries.items) }
        ensures err { IfErr result (λ e. e ≡ NoMemory) }
    {
        let mut entries = Vec::new(self.alloc);
        for command in commands {
            self.carry_out(command, &mut entries)?;
        }
        Ok(entries)
    }
}

impl<R: Record + Drop, P: Port + Drop> Site<R, P> {
    /// The rows of each resource manager's table, in order. Refused: `NoMemory`; the record of one that is down fails (`RecordFault`).
    pub(crate) fn tables(mut self) -> Result<Vec<Sequence<Row>>, Refusal>
        ensures ok { IfOk result (λ tables. AreTablesOf self.nodes tables.items) }
        ensures err { IfErr result (λ e. (e ≡ NoMemory) ⊎ ((e ≡ RecordFault) × StopsAtTable self.nodes)) }
    {
        tables_of(self.alloc, &mut self.nodes)
    }
}
