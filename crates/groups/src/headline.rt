//! What becomes of a cluster whose nodes work in groups is what events of the machine make, one after another.
ghost use Rattle.std.specs.Prelude.{◌≡◌, Bool, true, List, [], ◌∷◌, ◌++◌, Some, Result};
ghost use Rattle.std.specs.List.{AllByRecursion};
ghost use Rattle.xid.specs.Transactions.{TxParts, is_participant};
ghost use Rattle.xid.specs.declared.refusals.Refusal.{Refusal};
ghost use Rattle.stable_record.specs.Held.{Held};
ghost use Rattle.stable_record.specs.declared.record.RecordError.{RecordError};
ghost use Rattle.safety.specs.Vocabulary.{NodeId, Event};
ghost use Rattle.protocol.specs.Effects.{Config};
ghost use Rattle.protocol.specs.Nodes.{NodeState, Input, Fault};
ghost use Rattle.protocol.specs.TCommit.{IsCommitStep};
ghost use Rattle.protocol.specs.Worlds.{World, node_at, world_step};
ghost use Rattle.safety.specs.CommitSteps.{IsConsistent};
ghost use Rattle.safety.specs.Runs.{views_in};
ghost use Rattle.node_core.specs.declared.output.Output.{Output};
ghost use Rattle.node_core.specs.Nodes.{NodeParts, NodeStands};
ghost use Rattle.node_core.specs.Groups.{GroupsAs};
ghost use Rattle.node_core.specs.Opening.{IsOpened, IsUnopened};
ghost use Rattle.groups.specs.Nodes.{IsGroup};
ghost use Rattle.groups.specs.Processes.{GoesOn, StaysDown, StoodFor};
ghost use Rattle.groups.specs.Runs.{CanBeHanded, Handed, IsMachines, IsReached, all_happened, group_result, is_upkeep};

/// Whatever groups the nodes of a cluster are handed, stored or stopped, there are events of the machine, one after another, that lead to
/// the same nodes, with all that was sent, and answer each input alike. So what is proved of every run of the machine holds of them: of
/// their tables, and of the one serial order that explains these and what was read.
pub fn groups_are_events()
    ensures { (config : Config) (world : World) (reach : IsReached config world)
        → IsMachines config world (all_happened config world reach) }
{}

/// No participant of a transaction is committed while another is aborted.
pub fn consistent()
    ensures { (config : Config) (world : World) → IsReached config world → (tx : TxParts)
        → IsConsistent (is_participant tx) (views_in config world tx) }
{}

/// Each input of a group, after those before it, moves each transaction by at most one step of the specification, and so does each event
/// that is none of an input.
pub fn each_step()
    ensures input { (config : Config) (world : World) → IsReached config world → (who : NodeId) (node : NodeState)
        → node_at config world who ≡ Some node → (before : List Handed)
        → AllByRecursion (λ handed. CanBeHanded world who handed.input) before
        → (next : Handed) → CanBeHanded world who next.input → (is_stored : Bool) (tx : TxParts)
        → IsCommitStep (is_participant tx) (views_in config (group_result config world who node before is_stored) tx)
        (views_in config (group_result config world who node (before ++ next ∷ []) is_stored) tx) }
    ensures upkeep { (config : Config) (world : World) → IsReached config world → (event : Event) (fault : Fault)
        → is_upkeep event ≡ true → (tx : TxParts)
        → IsCommitStep (is_participant tx) (views_in config world tx) (views_in config (world_step config world event fault).world tx) }
{}

/// A group at a node over whatever record is such a group: what the node is after it is what the machine's node is after its inputs, all,
/// or, where the append was stopped, the first ones. Where it was stored, each input is answered as the machine's node answers it, with the
/// view that it changed and what it sends, one by one; where it was stopped, each is refused, and nothing is sent.
pub fn nodes_work_in_groups()
    ensures { (config : Config) (m : NodeState) (inputs : List Input) (old new : NodeParts) (outs : List Output)
        (result : Result (Unit {0}) RecordError) → NodeStands config old m → GroupsAs config m inputs old new outs result
        → IsGroup config m inputs old new outs result }
{}

/// A process that ended, at whatever moment, goes on from what its record holds: where an earlier node over the same bytes stood for a node
/// of the machine, the one that is opened over them stands for it after a restart. Where none is opened, the record isn't damaged, and
/// still keeps what it kept, so that a later opening may find it.
pub fn processes_go_on()
    ensures opened { (config : Config) (who : NodeId) (before : NodeParts) (m : NodeState) (held : Held) (node : NodeParts)
        → StoodFor config who held.bytes before m → IsOpened config who held node → GoesOn config who held m node }
    ensures refused { (config : Config) (who : NodeId) (before : NodeParts) (m : NodeState) (held left : Held) (refusal : Refusal)
        → StoodFor config who held.bytes before m → IsUnopened config who held left refusal
        → StaysDown config held left before m refusal }
{}
