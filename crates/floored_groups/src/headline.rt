//! What becomes of a cluster whose nodes have floors and work in groups is what groups without floors make, and so what events of the
//! machine make, one after another.
ghost use Rattle.std.specs.Prelude.{◌≡◌, ℕ, Bool, true, false, List, [], ◌∷◌, ◌++◌, Some};
ghost use Rattle.std.specs.List.{AllByRecursion};
ghost use Rattle.xid.specs.Places.{is_below, is_xid_below};
ghost use Rattle.ballot.specs.Greatest.{IsIn};
ghost use Rattle.xid.specs.Transactions.{TxParts, is_participant};
ghost use Rattle.protocol.specs.declared.nodes.NodeId.{NodeId};
ghost use Rattle.protocol.specs.declared.nodes.NodeId.TheVariants.{R};
ghost use Rattle.protocol.specs.declared.states.View.TheVariants as views;
ghost use Rattle.protocol.specs.Effects.{Config};
ghost use Rattle.protocol.specs.Managers.{Branch};
ghost use Rattle.protocol.specs.Nodes.{NodeState, Fault};
ghost use Rattle.protocol.specs.TCommit.{IsCommitStep};
ghost use Rattle.protocol.specs.Worlds.{node_at};
ghost use Rattle.safety.specs.CommitSteps.{IsConsistent};
ghost use Rattle.safety.specs.Runs.{views_in};
ghost use Rattle.groups.specs.Runs.{CanBeHanded, Handed, IsMachines, IsReached, group_result};
ghost use Rattle.floors.specs.Worlds.{FlooredWorld, FlooredEvent, floored_step, is_manager};
ghost use Rattle.floored_groups.specs.Runs.{IsFlooredReached, IsOneByOne, above_floor, floored_group_result, is_floored_upkeep};
ghost use Rattle.floored_groups.specs.Runs.{machine_happened};

/// What a cluster comes to whose nodes have floors and work in groups, one without floors comes to as well: a group under a floor does
/// what the group of those of its inputs does that aren't below the floor. So what holds of every cluster whose nodes work in groups holds
/// of it.
pub fn groups_with_floors_are_groups()
    ensures reached { (config : Config) (world : FlooredWorld) → IsFlooredReached config world → IsReached config world.machine }
    ensures group { (config : Config) (world : FlooredWorld) (who : NodeId) (node : NodeState) (group : List Handed) (is_stored : Bool)
        → (floored_group_result config world who node group is_stored).machine
        ≡ group_result config world.machine who node (above_floor (world.floor who) group) is_stored }
{}

/// There are events of the machine, one after another, that lead to the same nodes, with all that was sent, and answer alike: one for each
/// input that isn't below its node's floor, and one or none for every other event.
pub fn groups_are_events()
    ensures { (config : Config) (world : FlooredWorld) (reach : IsFlooredReached config world)
        → IsMachines config world.machine (machine_happened config world reach) }
{}

/// No participant of a transaction is committed while another is aborted.
pub fn consistent()
    ensures { (config : Config) (world : FlooredWorld) → IsFlooredReached config world → (tx : TxParts)
        → IsConsistent (is_participant tx) (views_in config world.machine tx) }
{}

/// Each input of a group, after those before it, moves each transaction by at most one step of the specification, and so does each event
/// that is none of an input.
pub fn each_step()
    ensures input { (config : Config) (world : FlooredWorld) → IsFlooredReached config world → (who : NodeId) (node : NodeState)
        → node_at config world.machine who ≡ Some node → (before : List Handed)
        → AllByRecursion (λ handed. CanBeHanded world.machine who handed.input) before
        → (next : Handed) → CanBeHanded world.machine who next.input → (is_stored : Bool) (tx : TxParts)
        → IsCommitStep (is_participant tx) (views_in config (floored_group_result config world who node before is_stored).machine tx)
        (views_in config (floored_group_result config world who node (before ++ next ∷ []) is_stored).machine tx) }
    ensures upkeep { (config : Config) (world : FlooredWorld) → IsFlooredReached config world → (event : FlooredEvent) (fault : Fault)
        → is_floored_upkeep event ≡ true → (tx : TxParts)
        → IsCommitStep (is_participant tx) (views_in config world.machine tx)
        (views_in config (floored_step config world event fault).world.machine tx) }
{}

/// So they lead to the same where events are handled one at a time, each under its node's floor: to the same nodes, floors and notices,
/// with all that was sent.
pub fn groups_are_floored_events()
    ensures { (config : Config) (world : FlooredWorld) → IsFlooredReached config world → IsOneByOne config world }
{}

/// And no floor passes a branch that is there: no branch in the memory of a resource manager is below its floor; and wherever one has a
/// transaction prepared, it is at or above its floor, and that of each acceptor and leader that wasn't replaced.
pub fn nothing_is_below()
    ensures branches { (config : Config) (world : FlooredWorld) → IsFlooredReached config world → (r : ℕ) (node : NodeState)
        → node_at config world.machine (R r) ≡ Some node → (branch : Branch) → IsIn node.memory.branches branch
        → is_xid_below (world.floor (R r)) branch.xid ≡ false }
    ensures own { (config : Config) (world : FlooredWorld) → IsFlooredReached config world → (tx : TxParts) (r : ℕ)
        → views_in config world.machine tx r ≡ views.Prepared → is_below (world.floor (R r)) tx ≡ false }
    ensures others { (config : Config) (world : FlooredWorld) → IsFlooredReached config world → (tx : TxParts) (r : ℕ)
        → views_in config world.machine tx r ≡ views.Prepared → (who : NodeId) → is_manager who ≡ false → world.is_replaced who ≡ false
        → is_below (world.floor who) tx ≡ false }
{}
