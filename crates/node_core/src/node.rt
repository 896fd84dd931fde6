ghost use Rattle.std.specs.Prelude.{◌≡◌, length, map, is_none, IfOk, IfErr, None, Some};
ghost use Rattle.stable_record.specs.Held.{armed_with};
ghost use Rattle.protocol.specs.Effects.{Config as ConfigParts};
ghost use Rattle.protocol.specs.Nodes.{NodeState, down_node};
ghost use Rattle.node_core.specs.Nodes.{IsSameNode, IsSound, NodeStands, StepsAs, input_of};
ghost use Rattle.node_core.specs.Opening.{IsOpened, IsUnopened, RestartsAs};
ghost use Rattle.node_core.specs.Viewing.{AsksUnusedAs, ViewsAs, TablesAs};
ghost use Rattle.node_core.specs.Listing.{ListsOpen};
ghost use Rattle.node_core.specs.Compacting.{CompactsAs};
ghost use Rattle.node_core.specs.Groups.{GroupsAs};
ghost use Rattle.node_core.specs.Raising.{LearnsFloor, RaisesAs};

use crate::acting::handle;
use crate::compacting::compact;
use crate::config::{Config, Sizes};
use crate::grouping::handle_group;
use crate::opening::{copy_rows, load, reload};
use crate::output::{Input, Output};
use crate::raising::raise;
use crate::role::Role;
use crate::storing::Workspace;
use crate::viewing::{is_unused_above, list_open, table, view};
use hashing::HashKey;
use protocol::{NodeId, Row, View};
use stable_record::{Behind, Record, RecordError, Tear};
use std::alloc::Global;
use std::marker::Model;
use xid::{Floor, Refusal, Sequence, Tx};

/// One node over a record: an acceptor, a leader or a resource manager, which stores what it decides before it sends anything. It is
/// up, or it is down and does nothing until a restart.
pub struct Node<R: Record> {
    alloc: Global,
    // what names are hashed under
    key: HashKey,
    who: NodeId,
    sizes: Sizes,
    rows: Vec<Row>,
    device: R,
    role: Option<Role>,
    // where it decides, from input to input
    work: Workspace,
}

// written once: a derived one would stand in each function that lets a node go
impl<R: Record + Drop> Drop for Node<R> {
    fn drop(self) {
        let Node {
            alloc: _,
            key: _,
            who: _,
            sizes: _,
            rows: _,
            device: _,
            role: _,
            work: _,
        } = self;
    }
}

impl<R: Record> Model for Node<R> {
    ghost use Rattle.node_core.specs.Nodes.{NodeParts, IsSound};

    ghost Value = { NodeParts };

    ghost view = { λ n. record { who = n.who; sizes = n.sizes; rows = n.rows.items; held = R.held n.device; role = n.role } };

    ghost invariant = { λ n. IsSound (record {
      who = n.who;
      sizes = n.sizes;
      rows = n.rows.items;
      held = R.held n.device;
      role = n.role;
    }) };
}

impl<R: Record> Node<R> {
    /// The node over a record, with what stands there: its whole frames, one after the other; what follows them is cut, and where a frame
    /// of version 1 stands, all are written anew, in version 2. It is up, and its record is these frames. Where the record begins with
    /// a snapshot, the table begins with its rows. Refused, with the record: no such node in the cluster (`NoSuch`), or bytes that are
    /// no frames of entries that play, and a tail (`Damaged`): the record is as it was; `NoMemory`: its bytes are what they were, or
    /// have lost their tail; it failed (`RecordFault`), which it counted: its bytes are one of these two, or its frames in version 2.
    pub fn open(
        alloc: Global,
        config: &Config,
        who: NodeId,
        device: R,
    ) -> Result<Node<R>, (R, Refusal)>
        ensures ok { IfOk result (λ node. IsOpened config.now who (R.held device) node) }
        ensures err { IfErr result (λ x. IsUnopened config.now who (R.held device) (R.held x.0) x.1) }
    {
        if !config.has(who) {
            return Err((device, Refusal::NoSuch));
        }
        let key = config.hash_key();
        let sizes = config.sizes();
        let rows = match copy_rows(alloc, config.rows_of(who)) {
            Ok(rows) => rows,
            Err(refusal) => return Err((device, refusal)),
        };
        let mut device = device;
        match load(alloc, key, &mut device, who, sizes, &rows) {
            Ok(role) => Ok(Node {
                alloc,
                key,
                who,
                sizes,
                rows,
                device,
                role: Some(role),
                work: Workspace::new(alloc),
            }),
            Err(refusal) => Err((device, refusal)),
        }
    }

    /// Reads the record again, whether the node is up or down, and goes on from there: what was in memory is lost, a tail is cut, and
    /// frames of version 1 are written anew, as by `open`. Refused: the record failed (`RecordFault`), or `NoMemory`; then the node is
    /// down, and its record's bytes are what `open` leaves where it is refused so.
    pub fn restart(&mut self) -> Result<(), Refusal>
        ensures { (config : ConfigParts) (m : NodeState) → NodeStands config self.old m → RestartsAs config m self.old self.new result }
    {
        reload(
            self.alloc,
            self.key,
            &mut self.device,
            self.who,
            self.sizes,
            &self.rows,
            &mut self.role,
        )
    }

    /// Makes its record shorter: by one replacement its bytes become frames that play to the same: of an acceptor's slots, of a leader's
    /// greatest ballots, or of a resource manager's table, and each transaction's vote or outcome, by transaction in the order of the first
    /// facts. An armed tear stays armed. Refused: the node is down (`Down`), and nothing changes; the record failed (`RecordFault`), and
    /// its bytes are the one or the other; or `NoMemory`, and it is as it was; after the latter two the node is down.
    pub fn compact(&mut self) -> Result<(), Refusal>
        ensures { (config : ConfigParts) (m : NodeState) → NodeStands config self.old m → CompactsAs config m self.old self.new result }
    {
        compact(self.alloc, &mut self.device, &mut self.role)
    }

    /// Where the resource manager stands in a transaction, by the whole frames of its record, whether it is up or down. Refused: it is
    /// no resource manager (`NoSuch`); the transaction names a resource manager outside the cluster, or doesn't name this one
    /// (`BadTx`); where it is down, its record fails (`RecordFault`), which it counts, or `NoMemory`. The node stays as it is, and so do
    /// its record's bytes.
    pub fn view(&mut self, tx: &Tx) -> Result<View, Refusal>
        ensures { (config : ConfigParts) (m : NodeState) → NodeStands config self.old m → ViewsAs config m self.old self.new tx.now result }
    {
        view(
            self.alloc,
            self.key,
            &mut self.device,
            self.who,
            self.sizes,
            &self.rows,
            &self.role,
            tx,
        )
    }

    /// The rows of the resource manager's table, their keys ascending, by the whole frames of its record, whether it is up or down.
    /// Refused: it is no resource manager (`NoSuch`); `NoMemory`; where it is down, its record fails (`RecordFault`), which it counts.
    /// The node stays as it is, and so do its record's bytes.
    pub fn table(&mut self) -> Result<Sequence<Row>, Refusal>
        ensures { (config : ConfigParts) (m : NodeState) → NodeStands config self.old m → TablesAs config m self.old self.new result }
    {
        table(
            self.alloc,
            self.key,
            &mut self.device,
            self.who,
            self.sizes,
            &self.rows,
            &self.role,
        )
    }

    /// Whether an acceptor or a leader has stored nothing about a name at or above a floor, by the whole frames of its record, whether it
    /// is up or down; of a resource manager it says no. Refused, where it is down: its record fails (`RecordFault`), which it counts, or
    /// `NoMemory`. The node stays as it is, and so do its record's bytes.
    pub fn is_unused_above(&mut self, floor: &Floor) -> Result<bool, Refusal>
        ensures { (config : ConfigParts) (m : NodeState) → NodeStands config self.old m
            → AsksUnusedAs config m self.old self.new floor.now result }
    {
        is_unused_above(
            self.alloc,
            self.key,
            &mut self.device,
            self.who,
            self.sizes,
            &self.rows,
            &self.role,
            floor,
        )
    }

    /// Of how many transactions it keeps something in memory: none while it is down.
    pub fn transaction_count(&self) -> usize {
        match &self.role {
            Some(role) => role.transaction_count(),
            None => 0,
        }
    }

    /// The transactions that the resource manager's record has prepared and not ended, in the order of their first facts. Refused: it is no
    /// resource manager (`NoSuch`), it is down (`Down`), or `NoMemory`. The node stays as it is.
    pub fn open_transactions(&self) -> Result<Sequence<Tx>, Refusal>
        ensures { (config : ConfigParts) (m : NodeState) → NodeStands config self.now m
            → ListsOpen self.now.who m.facts self.now.role result }
    {
        list_open(self.alloc, self.who, &self.role)
    }

    /// The record, and the node is no more.
    pub fn into_record(self) -> R
        ensures { R.held result ≡ self.held }
    {
        let Node {
            alloc: _,
            key: _,
            who: _,
            sizes: _,
            rows: _,
            device,
            role: _,
            work: _,
        } = self;
        device
    }

    /// Which node it is.
    pub fn id(&self) -> NodeId
        ensures { result ≡ self.now.who }
    {
        self.who
    }

    /// The sizes of its cluster, and its kind.
    pub fn sizes(&self) -> Sizes
        ensures sizes { result ≡ self.now.sizes }
        ensures sound { IsSound self.now }
    {
        self.sizes
    }

    /// Whether it is down.
    pub fn is_down(&self) -> bool
        ensures { result ≡ is_none self.now.role }
    {
        self.role.is_none()
    }

    /// What it does on an input, in the order of these: a request that its kind doesn't take is refused (`NoSuch`); a node that is down
    /// answers `Down`, at a resource manager the code `RmFail` to client calls; bytes that spell no message are refused (`BadMessage`),
    /// and a message that no rule takes is answered ok; else it is what its role's rules say. A fact is appended before anything is
    /// sent, at most one. Where the record fails (`RecordFault`), or memory runs out (`NoMemory`), the node is down and nothing is
    /// sent. Memory runs out only where a fact is to be stored, or where the input wants some: at a leader a commit and messages, at a
    /// resource manager a recover, messages, and calls that don't end a branch.
    pub fn step(&mut self, input: Input) -> Output
        ensures { (config : ConfigParts) (m : NodeState) → NodeStands config self.old m
            → StepsAs config m (input_of input.entry) self.old self.new result }
    {
        let mut out = Output::nothing();
        self.step_into(input, &mut out);
        out
    }

    /// What it does on an input, as `step` says, in place of what came of another.
    pub fn step_into(&mut self, input: Input, out: &mut Output)
        ensures { (config : ConfigParts) (m : NodeState) → NodeStands config self.old m
            → StepsAs config m (input_of input.entry) self.old self.new out.new }
    {
        handle(
            &mut self.work,
            &mut self.device,
            self.who,
            self.sizes,
            &mut self.role,
            &input,
            out,
        );
    }

    /// What it does on inputs, one after another as `step` says, with one append for all that they store: each is decided after those
    /// before it, in memory, and what came of each is put out in its place. Where memory runs out at one, it is refused (`NoMemory`), those
    /// behind it find the node down, and what those before it store is stored. Refused: the append, of which the frames of the first
    /// inputs are kept (`Fault`) or nothing (`Memory`). The inputs before one of them were handled, this one as where its own append is
    /// refused, and those behind it weren't; the node is down, and each is answered that refusal, with nothing sent. Where a tear is
    /// armed, each input has an append of its own, to the one that is stopped.
    pub fn step_all(&mut self, inputs: &[Input], outs: &mut [Output]) -> Result<(), RecordError>
        requires { length outs.old ≡ length inputs.now }
        ensures { (config : ConfigParts) (m : NodeState) → NodeStands config self.old m
            → GroupsAs config m (map input_of inputs.now) self.old self.new outs.new result }
    {
        handle_group(
            &mut self.work,
            &mut self.device,
            self.who,
            self.sizes,
            &mut self.role,
            inputs,
            outs,
        )
    }
}

impl<R: Tear> Node<R> {
    /// The next append of its record that doesn't answer for want of memory keeps the first so many of its bytes, all if it has fewer,
    /// and fails. An earlier tear is armed no longer; a restart leaves it. Nothing else changes.
    pub fn arm(&mut self, n: usize)
        ensures held { self.new ≡ record self.old { held = armed_with (Some n) self.old.held } }
        ensures same { IsSameNode self.old self.new }
        ensures armed { (config : ConfigParts) (m : NodeState) → NodeStands config self.old m
            → NodeStands config self.new (record m { tear = Some n }) }
    {
        self.device.arm(n);
    }
}

impl<R: Record> Node<Behind<R>> {
    /// Raises its floor: what is below the place is forgotten, and by one replacement its record becomes the shorter one of what is left,
    /// behind the new floor. Refused, and nothing changes: the node is down (`Down`), or a resource manager has a branch below the place
    /// (`Busy`). The record failed (`RecordFault`), and holds what it held, or what is left behind the new floor; or `NoMemory`, and it is
    /// as it was: after these the node is down. That the place is higher than its floor isn't asked.
    pub fn raise(&mut self, floor: &Floor) -> Result<(), Refusal>
        ensures machine { (config : ConfigParts) (m : NodeState) → NodeStands config self.old m
            → RaisesAs config m floor.now self.old self.new result }
        ensures nature { self.new.held.nature.may_fail ≡ self.old.held.nature.may_fail }
    {
        raise(
            self.alloc,
            self.key,
            &mut self.device,
            &mut self.role,
            floor,
        )
    }

    /// The floor that its record stands behind. Where a replacement that was to raise it failed, its record is read. Refused as that is:
    /// `RecordFault`, which it counts, or `NoMemory`; its record's bytes stay.
    pub fn learn_floor(&mut self) -> Result<Option<Floor>, Refusal>
        ensures { LearnsFloor self.old self.new result }
    {
        match self.device.learn() {
            Ok(floor) => Ok(floor),
            Err(error) => Err(Refusal::from(error)),
        }
    }

    /// The node goes down.
    pub fn stop(&mut self)
        ensures parts { self.new ≡ record self.old { role = None } }
        ensures stands { (config : ConfigParts) (m : NodeState) → NodeStands config self.old m → NodeStands config self.new (down_node m) }
    {
        self.role = None;
    }
}
