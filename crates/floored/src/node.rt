//! A node with a floor.

ghost use Rattle.std.specs.Prelude.{◌≡◌, ◌++◌, ℕ, true, false, length, map, is_none, is_some, Err, IfOk, IfErr, Some};
ghost use Rattle.xid.specs.Places.{is_below, is_lower};
ghost use Rattle.xid.specs.declared.refusals.Refusal.TheVariants.{NoSuch};
ghost use Rattle.protocol.specs.declared.nodes.NodeId.TheVariants.{R as Manager};
ghost use Rattle.protocol.specs.Effects.{Config as ConfigParts};
ghost use Rattle.protocol.specs.Nodes.{NodeState, accepts_input};
ghost use Rattle.stable_record.specs.Behind.{behind};
ghost use Rattle.stable_record.specs.Floors.{front_of};
ghost use Rattle.stable_record.specs.Held.{armed_with};
ghost use Rattle.node_core.specs.Compacting.{CompactsAs};
ghost use Rattle.node_core.specs.Groups.{GroupsAs};
ghost use Rattle.node_core.specs.Listing.{ListsOpen};
ghost use Rattle.node_core.specs.Nodes.{NodeStands, input_of};
ghost use Rattle.node_core.specs.Opening.{RestartsAs};
ghost use Rattle.floors.specs.Nodes.{is_input_below, may_replace};
ghost use Rattle.floors.specs.Worlds.{is_manager};
ghost use Rattle.floored.specs.Nodes.{FlooredCompacts, FlooredGroupsAs, FlooredRaises, FlooredRestarts, FlooredStands, FlooredStepsAs};
ghost use Rattle.floored.specs.Nodes.{FlooredTables, FlooredViews, IsFlooredOpened, IsFlooredUnopened, LearnsOwn, RaisesNode, are_above};
ghost use Rattle.floored.specs.Nodes.{FlooredMayReplace, FlooredReplaces, is_over};

use crate::below::{forgotten_answer, is_below};
use node_core::{Config, Input, Node, Output, accepts_request};
use protocol::{NodeId, Row, View};
use stable_record::{Behind, Record, RecordError, Tear};
use std::alloc::Global;
use std::marker::Model;
use xid::{Floor, Refusal, Sequence, Tx};

/// A node over a record that may begin with a floor. It takes no part in what stands below that: a datagram is passed over, as if it had
/// been lost, a request is refused (`Forgotten`), of a branch a start answers `DupId` and every other call `Nota`. Where its floor rises,
/// it forgets what is below.
pub struct Floored<R: Record> {
    /// The floor that its record begins with, while the node is up.
    floor: Option<Floor>,
    node: Node<Behind<R>>,
}

// written once: a derived one would stand in each function that lets a node go
impl<R: Record + Drop> Drop for Floored<R> {
    fn drop(self) {
        let Floored { floor: _, node: _ } = self;
    }
}

impl<R: Record> Model for Floored<R> {
    ghost use Rattle.floored.specs.Nodes.{FlooredParts, IsFlooredSound, with_floor};

    ghost Value = { FlooredParts };

    ghost view = { λ n. with_floor n.node };

    ghost invariant = { λ n. IsFlooredSound n.floor n.node };
}

impl<R: Record> Floored<R> {
    /// The node over a record, with what stands there: the floor that it begins with, if it begins with one, and behind that what
    /// `Node::open` finds. Refused as that is, with the record, which still begins with its floor.
    pub fn open(
        alloc: Global,
        config: &Config,
        who: NodeId,
        device: R,
    ) -> Result<Floored<R>, (R, Refusal)>
        ensures ok { IfOk result (λ floored. IsFlooredOpened config.now who (R.held device) floored) }
        ensures err { IfErr result (λ x. IsFlooredUnopened config.now who (R.held device) (R.held x.0) x.1) }
    {
        if !config.has(who) {
            return Err((device, Refusal::NoSuch));
        }
        let behind = match Behind::open(alloc, device) {
            Ok(behind) => behind,
            Err((device, error)) => return Err((device, Refusal::from(error))),
        };
        let floor = behind.floor();
        match Node::open(alloc, config, who, behind) {
            Ok(node) => Ok(Floored { floor, node }),
            Err((behind, refusal)) => Err((behind.into_inner(), refusal)),
        }
    }

    /// Its floor, if it has one, while it is up; while it is down, the one that it had last.
    pub fn floor(&self) -> Option<Floor>
        ensures { is_some self.now.node.role ≡ true → result ≡ self.now.floor }
    {
        self.floor
    }

    /// Which node it is.
    pub fn id(&self) -> NodeId
        ensures { result ≡ self.now.node.who }
    {
        self.node.id()
    }

    /// Whether it is down.
    pub fn is_down(&self) -> bool
        ensures { result ≡ is_none self.now.node.role }
    {
        self.node.is_down()
    }

    /// The record, and the node is no more. It begins with the floor.
    pub fn into_record(self) -> R
        ensures held { behind (front_of self.floor) (R.held result) ≡ self.node.held }
        ensures bytes { (R.held result).bytes ≡ front_of self.floor ++ self.node.held.bytes }
    {
        let Floored { floor: _, node } = self;
        node.into_record().into_inner()
    }

    /// Reads what stands behind its floor again, whether it is up or down, and goes on from there, as by `Node::restart`. The floor is the
    /// one that its record begins with. Refused as that is.
    pub fn restart(&mut self) -> Result<(), Refusal>
        ensures machine { (config : ConfigParts) (m : NodeState) → FlooredStands config self.old m
            → FlooredRestarts config m self.old self.new result }
        ensures node { (config : ConfigParts) (m : NodeState) → NodeStands config self.old.node m
            → RestartsAs config m self.old.node self.new.node result }
    {
        match self.node.learn_floor() {
            Ok(floor) => self.floor = floor,
            Err(refusal) => {
                self.node.stop();
                return Err(refusal);
            }
        }
        self.node.restart()
    }

    /// Makes what stands behind its floor shorter, by one replacement of its record, as by `Node::compact`. The floor stays. Refused as
    /// that is.
    pub fn compact(&mut self) -> Result<(), Refusal>
        ensures machine { (config : ConfigParts) (m : NodeState) → FlooredStands config self.old m
            → FlooredCompacts config m self.old self.new result }
        ensures node { (config : ConfigParts) (m : NodeState) → NodeStands config self.old.node m
            → CompactsAs config m self.old.node self.new.node result }
    {
        self.node.compact()
    }

    /// Raises its floor to a place: what stands below that is forgotten, and its record becomes the shorter one of what is left, behind the
    /// new floor, by one replacement. A place that isn't higher than the floor costs nothing. Refused, and nothing changes: the node is
    /// down (`Down`), or a resource manager has a branch below the place (`Busy`). The record failed (`RecordFault`), and holds what it
    /// held, or what is left behind the new floor; or `NoMemory`, and it is as it was: after these the node is down.
    ///
    /// An acceptor or a leader may rise only to the least floor that it was told of all resource managers since its last start
    /// (`ToldFloors::least`): below a higher place something may still be prepared, and it would take no part in that any more.
    pub fn raise(&mut self, floor: &Floor) -> Result<(), Refusal>
        ensures machine { (config : ConfigParts) (m : NodeState) → FlooredStands config self.old m
            → FlooredRaises config m floor.now self.old self.new result }
        ensures node { RaisesNode floor.now self.old self.new result }
        ensures nature { self.new.node.held.nature.may_fail ≡ self.old.node.held.nature.may_fail }
    {
        if self.is_down() {
            return Err(Refusal::Down);
        }
        if !floor.is_higher_than(&self.floor) {
            return Ok(());
        }
        match self.node.raise(floor) {
            Ok(()) => {
                self.floor = Some(*floor);
                Ok(())
            }
            Err(refusal) => Err(refusal),
        }
    }

    /// Its floor, whether it is up or down; where it is down, its record may be read for it. Refused as that is.
    fn own_floor(&mut self) -> Result<Option<Floor>, Refusal>
        ensures { LearnsOwn self.old self.new result }
    {
        if !self.is_down() {
            return Ok(self.floor);
        }
        self.node.learn_floor()
    }

    /// Whether a blank node with its floor at a place may stand in for it: the place isn't lower than its floor, and nothing is stored
    /// about a name at or above it. Where it is down, its record is read. Refused as that is.
    fn may_be_replaced(&mut self, floor: &Floor) -> Result<bool, Refusal>
        ensures { is_manager self.old.node.who ≡ false → (config : ConfigParts) (m : NodeState) → FlooredStands config self.old m
            → FlooredMayReplace config m self.old self.new floor.now result }
    {
        let own = self.own_floor()?;
        if is_lower_than(floor, &own) {
            return Ok(false);
        }
        self.node.is_unused_above(floor)
    }

    /// A blank acceptor or leader, with its floor at a place, stands in for this one, whose record is lost: it restarts, and forgets all
    /// that was stored, which is about names below the place. It is up then, or as it was where it is refused for what it is or has stored:
    /// it is a resource manager (`NoSuch`); the place is lower than its floor, or something is stored about a name at or above it
    /// (`InUse`). The record failed (`RecordFault`), which holds what it held, or nothing behind the new floor; or `NoMemory`, and it holds
    /// what it held: after these it is down.
    ///
    /// That the lost one never runs again is for its caller to see to.
    pub fn stand_in(&mut self, floor: &Floor) -> Result<(), Refusal>
        ensures manager { (rm : ℕ) → self.old.node.who ≡ Manager rm → (result ≡ Err NoSuch) × (self.new ≡ self.old) }
        ensures other { is_manager self.old.node.who ≡ false → (config : ConfigParts) (m : NodeState) → FlooredStands config self.old m
            → FlooredReplaces config m floor.now self.old self.new result }
    {
        match self.id() {
            NodeId::A(_) | NodeId::L(_) => self.replace(floor),
            NodeId::R(_) => Err(Refusal::NoSuch),
        }
    }

    /// The same of an acceptor or a leader.
    fn replace(&mut self, floor: &Floor) -> Result<(), Refusal>
        ensures { is_manager self.old.node.who ≡ false → (config : ConfigParts) (m : NodeState) → FlooredStands config self.old m
            → FlooredReplaces config m floor.now self.old self.new result }
    {
        match self.may_be_replaced(floor) {
            Ok(true) => self.restart_above(floor),
            Ok(false) => Err(Refusal::InUse),
            Err(refusal) => Err(refusal),
        }
    }

    /// It restarts, and its floor rises, where nothing is stored about a name at or above it.
    fn restart_above(&mut self, floor: &Floor) -> Result<(), Refusal>
        ensures { is_manager self.old.node.who ≡ false → (config : ConfigParts) (m : NodeState) → FlooredStands config self.old m
            → may_replace self.old.floor m floor.now ≡ true → FlooredReplaces config m floor.now self.old self.new result }
    {
        match self.restart() {
            Ok(()) => self.raise(floor),
            Err(refusal) => Err(refusal),
        }
    }

    /// Where the resource manager stands in a transaction, as by `Node::view`; of one that is below its floor it says that this is over
    /// (`Forgotten`). Refused as that is.
    pub fn view(&mut self, tx: &Tx) -> Result<View, Refusal>
        ensures { (config : ConfigParts) (m : NodeState) → FlooredStands config self.old m
            → FlooredViews config m self.old self.new tx.now result }
    {
        match self.id() {
            NodeId::A(_) => Err(Refusal::NoSuch),
            NodeId::L(_) => Err(Refusal::NoSuch),
            NodeId::R(_) => self.view_above(tx),
        }
    }

    /// The same of a resource manager.
    fn view_above(&mut self, tx: &Tx) -> Result<View, Refusal>
        ensures { (rm : ℕ) → self.old.node.who ≡ Manager rm → (config : ConfigParts) (m : NodeState) → FlooredStands config self.old m
            → FlooredViews config m self.old self.new tx.now result }
    {
        let floor = self.own_floor()?;
        if stands_below(&floor, tx) {
            return Err(Refusal::Forgotten);
        }
        self.node.view(tx)
    }

    /// The rows of the resource manager's table, as by `Node::table`. Refused as that is.
    pub fn table(&mut self) -> Result<Sequence<Row>, Refusal>
        ensures { (config : ConfigParts) (m : NodeState) → FlooredStands config self.old m
            → FlooredTables config m self.old self.new result }
    {
        self.node.table()
    }

    /// Of how many transactions it keeps something in memory, as by `Node::transaction_count`.
    pub fn transaction_count(&self) -> usize {
        self.node.transaction_count()
    }

    /// The transactions that the resource manager has prepared and not ended, as by `Node::open_transactions`; none of them is below its
    /// floor. Refused as that is.
    pub fn open_transactions(&self) -> Result<Sequence<Tx>, Refusal>
        ensures { (config : ConfigParts) (m : NodeState) → NodeStands config self.now.node m
            → ListsOpen self.now.node.who m.facts self.now.node.role result }
    {
        self.node.open_transactions()
    }

    /// Whether an input is below its floor, while it is up. Such a one belongs in no group: `step` answers it, and stores nothing.
    pub fn is_below(&self, input: &Input) -> bool
        ensures { is_some self.now.node.role ≡ true → result ≡ is_input_below self.now.floor (input_of input.now) }
    {
        match &self.floor {
            Some(floor) => is_below(floor, input),
            None => false,
        }
    }

    /// Whether it does nothing on an input since that is below its floor: it is up, and its kind takes such an input.
    fn passes_over(&self, input: &Input) -> bool
        ensures { result ≡ is_over self.now.node.who self.now.floor self.now.node.role (input_of input.now) }
    {
        if self.node.is_down() {
            return false;
        }
        if !self.is_below(input) {
            return false;
        }
        is_taken(self.node.id(), input)
    }

    /// What it does on an input. First, as by `Node::step`, whether its kind takes it, then whether the node is up; an input that is below
    /// its floor changes nothing, and takes no memory; every other one is as by `Node::step`.
    pub fn step(&mut self, input: Input) -> Output
        ensures { (config : ConfigParts) (m : NodeState) → FlooredStands config self.old m
            → FlooredStepsAs config m (input_of input.entry) self.old self.new result }
    {
        let mut out = Output::nothing();
        self.step_into(input, &mut out);
        out
    }

    /// What it does on an input, as `step` says, in place of what came of another.
    pub fn step_into(&mut self, input: Input, out: &mut Output)
        ensures { (config : ConfigParts) (m : NodeState) → FlooredStands config self.old m
            → FlooredStepsAs config m (input_of input.entry) self.old self.new out.new }
    {
        if self.passes_over(&input) {
            out.answer(forgotten_answer(&input));
            return;
        }
        self.node.step_into(input, out);
    }

    /// What it does, while it is up, on inputs of which none is below its floor, one after another as `step` says, with one append for all
    /// that they store, as by `Node::step_all`. Refused as that is.
    pub fn step_all(&mut self, inputs: &[Input], outs: &mut [Output]) -> Result<(), RecordError>
        requires places { length outs.old ≡ length inputs.now }
        requires above { are_above self.old.floor (map input_of inputs.now) ≡ true }
        ensures machine { (config : ConfigParts) (m : NodeState) → FlooredStands config self.old m
            → FlooredGroupsAs config m (map input_of inputs.now) self.old self.new outs.new result }
        ensures node { (config : ConfigParts) (m : NodeState) → NodeStands config self.old.node m
            → GroupsAs config m (map input_of inputs.now) self.old.node self.new.node outs.new result }
    {
        self.node.step_all(inputs, outs)
    }
}

/// Whether a transaction is below a floor; none is below none.
fn stands_below(floor: &Option<Floor>, tx: &Tx) -> bool
    ensures { result ≡ is_below floor.now tx.now }
{
    match floor {
        Some(floor) => floor.is_above_tx(tx),
        None => false,
    }
}

/// Whether a place is lower than a floor; none is lower than none.
fn is_lower_than(place: &Floor, floor: &Option<Floor>) -> bool
    ensures { result ≡ is_lower (Some place.now) floor.now }
{
    match floor {
        Some(floor) => floor.is_higher_than(&Some(*place)),
        None => false,
    }
}

/// Whether a kind of node takes an input.
fn is_taken(who: NodeId, input: &Input) -> bool
    ensures { result ≡ accepts_input who (input_of input.now) }
{
    match input {
        Input::Asked(request) => accepts_request(who, request),
        Input::Received(_) => true,
    }
}

impl<R: Tear> Floored<R> {
    /// The next append of its record that doesn't answer for want of memory keeps the first so many of its bytes, as by `Node::arm`.
    pub fn arm(&mut self, n: usize)
        ensures held { self.new.node ≡ record self.old.node { held = armed_with (Some n) self.old.node.held } }
        ensures floor { self.new.floor ≡ self.old.floor }
        ensures armed { (config : ConfigParts) (m : NodeState) → FlooredStands config self.old m
            → FlooredStands config self.new (record m { tear = Some n }) }
    {
        self.node.arm(n);
    }
}
