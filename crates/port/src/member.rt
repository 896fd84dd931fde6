//! A node with a floor, and what it was told of the floors of its cluster's resource managers.

ghost use Rattle.std.specs.Prelude.{◌≡◌, ◌++◌, List, length, map, replicate, is_none, is_some, true, false, Some, None, IfOk, IfErr};
ghost use Rattle.std.specs.Prelude.{◌<◌, slice_index_or};
ghost use Rattle.std.specs.List.{list_any};
ghost use Rattle.protocol.specs.Effects.{Config as ConfigParts};
ghost use Rattle.protocol.specs.Nodes.{NodeState};
ghost use Rattle.stable_record.specs.Behind.{behind};
ghost use Rattle.stable_record.specs.Floors.{front_of};
ghost use Rattle.stable_record.specs.Held.{armed_with};
ghost use Rattle.node_core.specs.Listing.{ListsOpen};
ghost use Rattle.node_core.specs.Nodes.{NodeStands, input_of};
ghost use Rattle.node_core.specs.Opening.{restart_answer};
ghost use Rattle.node_core.specs.Storing.{output_of};
ghost use Rattle.floored.specs.Nodes.{FlooredStands, FlooredTables, FlooredViews, IsFlooredOpened, IsFlooredUnopened, are_above};
ghost use Rattle.port.specs.Members.{CompactsMember, HearsAs, IsMember, Item, RaisesMember, RestartsMember, RisesToLeast, Takes, TakesAll};
ghost use Rattle.port.specs.Members.{TakesGroup, TakesIf, TakesThose, grouped, item_of, notice_in, is_aside as is_item_aside};

use floored::{Floored, ToldFloors};
use node_core::{Config, Input, Output, Sizes};
use protocol::{Answer, NodeId, Row, View};
use stable_record::{Record, RecordError, Tear};
use std::alloc::{AllocError, Global};
use std::marker::Model;
use wire::Notice;
use xid::{Floor, Refusal, Sequence, Tx};

/// A node with a floor, with what it was told, since it was last started, of the floors of its cluster's resource managers. An acceptor and
/// a leader rise to the least of these.
pub struct Member<R: Record> {
    alloc: Global,
    sizes: Sizes,
    node: Floored<R>,
    told: ToldFloors,
}

// written once: a derived one would stand in each function that lets a member go
impl<R: Record + Drop> Drop for Member<R> {
    fn drop(self) {
        let Member {
            alloc: _,
            sizes: _,
            node: _,
            told: _,
        } = self;
    }
}

impl<R: Record> Model for Member<R> {
    ghost use Rattle.port.specs.Members.{MemberParts, IsMember, member_of};

    ghost Value = { MemberParts };

    ghost view = { λ m. member_of m.node m.told };

    ghost invariant = { λ m. IsMember m.sizes m.node m.told };
}

/// How a notice is answered that a node has heard.
fn answer_of(raised: Result<(), Refusal>) -> Answer
    ensures { result ≡ restart_answer raised }
{
    match raised {
        Ok(()) => Answer::Done,
        Err(refusal) => Answer::Refused(refusal),
    }
}

/// The notice that an input is to a node: to a resource manager notices say nothing.
fn notice_of(who: NodeId, input: &Input) -> Option<Notice>
    ensures { result ≡ notice_in who input.now }
{
    let Input::Received(bytes) = input else {
        return None;
    };
    match who {
        NodeId::A(_) => Notice::take(bytes),
        NodeId::L(_) => Notice::take(bytes),
        NodeId::R(_) => None,
    }
}

/// The mark that stands in a place.
fn mark_at(marks: &[bool], at: usize) -> bool
    requires { at < length marks.now }
    ensures { result ≡ slice_index_or marks.now at result }
{
    marks[at]
}

/// Raises a node's floor to the least that it was told, if there is one.
fn raise_least<R: Record>(node: &mut Floored<R>, least: &Option<Floor>) -> Result<(), Refusal>
    ensures { (config : ConfigParts) (m : NodeState) → FlooredStands config node.old m
        → RisesToLeast config m least.now node.old node.new result }
{
    match least {
        Some(floor) => node.raise(floor),
        None => Ok(()),
    }
}

impl<R: Record> Member<R> {
    /// The node over a record, as `Floored::open` takes it up, which was told nothing. Refused as that is.
    pub fn open(
        alloc: Global,
        config: &Config,
        who: NodeId,
        device: R,
    ) -> Result<Member<R>, (R, Refusal)>
        ensures ok { IfOk result (λ member. IsFlooredOpened config.now who (R.held device) member.floored) }
        ensures told { IfOk result (λ member. member.told ≡ replicate config.now.managers None) }
        ensures err { IfErr result (λ x. IsFlooredUnopened config.now who (R.held device) (R.held x.0) x.1) }
    {
        let sizes = config.sizes();
        if !config.has(who) {
            return Err((device, Refusal::NoSuch));
        }
        let told = match ToldFloors::new(alloc, usize::from(sizes.managers)) {
            Ok(told) => told,
            Err(_) => return Err((device, Refusal::NoMemory)),
        };
        match Floored::open(alloc, config, who, device) {
            Ok(node) => Ok(Member {
                alloc,
                sizes,
                node,
                told,
            }),
            Err((device, refusal)) => Err((device, refusal)),
        }
    }

    /// Which node it is.
    pub fn id(&self) -> NodeId
        ensures { result ≡ self.now.floored.node.who }
    {
        self.node.id()
    }

    /// How many nodes of each kind its cluster has.
    pub fn sizes(&self) -> Sizes
        ensures { IsMember result self.now.floored self.now.told }
    {
        self.sizes
    }

    /// Whether it is down.
    pub fn is_down(&self) -> bool
        ensures { result ≡ is_none self.now.floored.node.role }
    {
        self.node.is_down()
    }

    /// Its floor, if it has one, while it is up; while it is down, the one that it had last.
    pub fn floor(&self) -> Option<Floor>
        ensures { is_some self.now.floored.node.role ≡ true → result ≡ self.now.floored.floor }
    {
        self.node.floor()
    }

    /// The record, and the node is no more. It begins with the floor.
    pub fn into_record(self) -> R
        ensures held { behind (front_of self.floored.floor) (R.held result) ≡ self.floored.node.held }
        ensures bytes { (R.held result).bytes ≡ front_of self.floored.floor ++ self.floored.node.held.bytes }
    {
        let Member {
            alloc: _,
            sizes: _,
            node,
            told: _,
        } = self;
        node.into_record()
    }

    /// Reads its record again, as by `Floored::restart`, and has forgotten then what it was told. Refused as that is.
    pub fn restart(&mut self) -> Result<(), Refusal>
        ensures { RestartsMember self.old self.new result }
    {
        self.told.forget();
        self.node.restart()
    }

    /// Makes its record shorter, as by `Floored::compact`. Refused as that is.
    pub fn compact(&mut self) -> Result<(), Refusal>
        ensures { CompactsMember self.old self.new result }
    {
        self.node.compact()
    }

    /// Raises its floor to a place, as by `Floored::raise`. Refused as that is.
    pub(crate) fn raise(&mut self, floor: &Floor) -> Result<(), Refusal>
        ensures { RaisesMember floor.now self.old self.new result }
    {
        self.node.raise(floor)
    }

    /// Where the resource manager stands in a transaction, as by `Floored::view`. Refused as that is.
    pub fn view(&mut self, tx: &Tx) -> Result<View, Refusal>
        ensures views { (config : ConfigParts) (m : NodeState) → FlooredStands config self.old.floored m
            → FlooredViews config m self.old.floored self.new.floored tx.now result }
        ensures told { self.new.told ≡ self.old.told }
    {
        self.node.view(tx)
    }

    /// The rows of the resource manager's table, as by `Floored::table`. Refused as that is.
    pub fn table(&mut self) -> Result<Sequence<Row>, Refusal>
        ensures tables { (config : ConfigParts) (m : NodeState) → FlooredStands config self.old.floored m
            → FlooredTables config m self.old.floored self.new.floored result }
        ensures told { self.new.told ≡ self.old.told }
    {
        self.node.table()
    }

    /// Of how many transactions it keeps something in memory, as by `Floored::transaction_count`.
    pub fn transaction_count(&self) -> usize {
        self.node.transaction_count()
    }

    /// The transactions that the resource manager has prepared and not ended, as by `Floored::open_transactions`. Refused as that is.
    pub fn open_transactions(&self) -> Result<Sequence<Tx>, Refusal>
        ensures { (config : ConfigParts) (m : NodeState) → NodeStands config self.now.floored.node m
            → ListsOpen self.now.floored.node.who m.facts self.now.floored.node.role result }
    {
        self.node.open_transactions()
    }

    /// It hears a notice, and keeps it in memory; its floor is then the least that it was told of all resource managers, where that is
    /// higher. Nothing changes where it is down.
    fn hear(&mut self, notice: &Notice) -> Answer
        ensures hears { (config : ConfigParts) (m : NodeState) → FlooredStands config self.old.floored m
            → HearsAs config m notice.now self.old self.new (output_of result None) }
        ensures who { self.new.floored.node.who ≡ self.old.floored.node.who }
    {
        if self.node.is_down() {
            return Answer::Refused(Refusal::Down);
        }
        self.told.hear(notice);
        let least = self.told.least();
        answer_of(raise_least(&mut self.node, &least))
    }

    /// It takes an input, and what came of that stands in place of what came of another. An acceptor or a leader hears a notice: it keeps
    /// that in memory, and its floor is then the least that it was told of all resource managers, where that is higher. Every other input
    /// is taken as by `Floored::step`.
    pub fn take_into(&mut self, input: Input, out: &mut Output)
        ensures takes { Takes (item_of self.old.floored.node.who input.entry) self.old self.new out.new }
        ensures who { self.new.floored.node.who ≡ self.old.floored.node.who }
    {
        match notice_of(self.node.id(), &input) {
            Some(notice) => {
                let answer = self.hear(&notice);
                out.answer(answer);
            }
            None => self.node.step_into(input, out),
        }
    }

    /// What came of an input that it takes, as `take_into` says.
    pub fn take(&mut self, input: Input) -> Output
        ensures { Takes (item_of self.old.floored.node.who input.entry) self.old self.new result }
    {
        let mut out = Output::nothing();
        self.take_into(input, &mut out);
        out
    }

    /// Whether an input is set aside from a group: it is below the floor, or a notice.
    fn is_aside(&self, input: &Input) -> bool
        requires { is_some self.now.floored.node.role ≡ true }
        ensures { result ≡ is_item_aside self.now.floored.floor (item_of self.now.floored.node.who input.now) }
    {
        match notice_of(self.node.id(), input) {
            Some(_) => true,
            None => self.node.is_below(input),
        }
    }

    /// Whether one of these inputs is set aside.
    fn has_aside(&self, inputs: &[Input]) -> bool
        requires { is_some self.now.floored.node.role ≡ true }
        ensures { result
            ≡ list_any (is_item_aside self.now.floored.floor) (map (item_of self.now.floored.node.who) inputs.now) }
    {
        for i in 0..inputs.len() {
            if self.is_aside(&inputs[i]) {
                return true;
            }
        }
        false
    }

    /// What stands for an input in a group, and whether it is set aside.
    fn in_group<'a>(&self, input: &Input<'a>) -> (Input<'a>, bool)
        requires { is_some self.now.floored.node.role ≡ true }
        ensures input { input_of result.0 ≡ grouped self.now.floored.floor (item_of self.now.floored.node.who input.now) }
        ensures aside { result.1 ≡ is_item_aside self.now.floored.floor (item_of self.now.floored.node.who input.now) }
    {
        if self.is_aside(input) {
            return (Input::Received(&[]), true);
        }
        (*input, false)
    }

    /// The group of these inputs, with noise in the place of each that is set aside, and which are.
    fn sort<'a>(&self, inputs: &[Input<'a>]) -> Result<(Vec<Input<'a>>, Vec<bool>), AllocError>
        requires { is_some self.now.floored.node.role ≡ true }
        ensures group { IfOk result (λ sorted. map input_of sorted.0.items
            ≡ map (grouped self.now.floored.floor) (map (item_of self.now.floored.node.who) inputs.now)) }
        ensures asides { IfOk result (λ sorted. sorted.1.items
            ≡ map (is_item_aside self.now.floored.floor) (map (item_of self.now.floored.node.who) inputs.now)) }
    {
        let mut group = Vec::with_capacity(self.alloc, inputs.len())?;
        let mut asides = Vec::with_capacity(self.alloc, inputs.len())?;
        for i in 0..inputs.len() {
            let (input, is_aside) = self.in_group(&inputs[i]);
            group.push(input)?;
            asides.push(is_aside)?;
        }
        Ok((group, asides))
    }

    /// It takes an input, or not.
    fn take_if(&mut self, mark: bool, input: Input, out: &mut Output)
        ensures takes { TakesIf mark (item_of self.old.floored.node.who input.entry) self.old self.new out.old out.new }
        ensures who { self.new.floored.node.who ≡ self.old.floored.node.who }
    {
        if mark {
            self.take_into(input, out);
        }
    }

    /// It takes those of the inputs that are marked, one after another.
    fn take_marked(&mut self, inputs: &[Input], marks: &[bool], outs: &mut [Output])
        requires places { length outs.old ≡ length inputs.now }
        requires marks { length marks.now ≡ length inputs.now }
        ensures { TakesThose marks.now (map (item_of self.old.floored.node.who) inputs.now) self.old self.new outs.old outs.new }
    {
        for i in 0..inputs.len() {
            self.take_if(mark_at(marks, i), inputs[i], &mut outs[i]);
        }
    }

    /// It takes the inputs, one after another.
    fn take_each(&mut self, inputs: &[Input], outs: &mut [Output])
        requires { length outs.old ≡ length inputs.now }
        ensures { TakesThose (map (λ item. true) (map (item_of self.old.floored.node.who) inputs.now))
            (map (item_of self.old.floored.node.who) inputs.now) self.old self.new outs.old outs.new }
    {
        for i in 0..inputs.len() {
            self.take_if(true, inputs[i], &mut outs[i]);
        }
    }

    /// It takes a group in which noise stands for what is set aside.
    fn take_group(&mut self, group: &[Input], outs: &mut [Output]) -> Result<(), RecordError>
        requires places { length outs.old ≡ length group.now }
        requires above { are_above self.old.floored.floor (map input_of group.now) ≡ true }
        ensures group { (items : List Item) → map input_of group.now ≡ map (grouped self.old.floored.floor) items
            → TakesGroup items self.old self.new outs.new result }
        ensures places { length outs.new ≡ length outs.old }
        ensures who { self.new.floored.node.who ≡ self.old.floored.node.who }
    {
        self.node.step_all(group, outs)
    }

    /// It takes inputs of which none is set aside, as a group.
    fn take_whole(&mut self, inputs: &[Input], outs: &mut [Output]) -> Result<(), RecordError>
        requires places { length outs.old ≡ length inputs.now }
        requires up { is_some self.old.floored.node.role ≡ true }
        requires none { list_any (is_item_aside self.old.floored.floor) (map (item_of self.old.floored.node.who) inputs.now) ≡ false }
        ensures { TakesAll (map (item_of self.old.floored.node.who) inputs.now) self.old self.new outs.old outs.new result }
    {
        self.take_group(inputs, outs)
    }

    /// It takes inputs of which some are set aside: the others as a group, and then these.
    fn take_apart(&mut self, inputs: &[Input], outs: &mut [Output]) -> Result<(), RecordError>
        requires places { length outs.old ≡ length inputs.now }
        requires up { is_some self.old.floored.node.role ≡ true }
        requires some { list_any (is_item_aside self.old.floored.floor) (map (item_of self.old.floored.node.who) inputs.now) ≡ true }
        ensures { TakesAll (map (item_of self.old.floored.node.who) inputs.now) self.old self.new outs.old outs.new result }
    {
        let (group, asides) = match self.sort(inputs) {
            Ok(sorted) => sorted,
            Err(_) => return Err(RecordError::Memory),
        };
        match self.take_group(&group, outs) {
            Ok(()) => {}
            Err(error) => return Err(error),
        }
        self.take_marked(inputs, &asides, outs);
        Ok(())
    }

    /// It takes inputs that were there at once, and what came of each stands in its place. Those that aren't below the floor are a group,
    /// as by `Floored::step_all`, which one append stores; then those that are below are answered, and notices are heard, one by one.
    /// Where it is down, each is answered so. Refused: the append, as `Floored::step_all` says; or there was no memory to set some aside
    /// (`Memory`), and then nothing has happened.
    pub fn take_all(&mut self, inputs: &[Input], outs: &mut [Output]) -> Result<(), RecordError>
        requires { length outs.old ≡ length inputs.now }
        ensures { TakesAll (map (item_of self.old.floored.node.who) inputs.now) self.old self.new outs.old outs.new result }
    {
        if self.node.is_down() {
            self.take_each(inputs, outs);
            return Ok(());
        }
        if self.has_aside(inputs) {
            return self.take_apart(inputs, outs);
        }
        self.take_whole(inputs, outs)
    }
}

impl<R: Tear> Member<R> {
    /// The next append of its record that doesn't answer for want of memory keeps the first so many of its bytes, as by `Floored::arm`.
    pub fn arm(&mut self, n: usize)
        ensures held { self.new.floored.node ≡ record self.old.floored.node { held = armed_with (Some n) self.old.floored.node.held } }
        ensures floor { self.new.floored.floor ≡ self.old.floored.floor }
        ensures told { self.new.told ≡ self.old.told }
        ensures armed { (config : ConfigParts) (m : NodeState) → FlooredStands config self.old.floored m
            → FlooredStands config self.new.floored (record m { tear = Some n }) }
    {
        self.node.arm(n);
    }
}
