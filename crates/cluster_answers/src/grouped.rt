//! What a leader answers in a group holds from then on, and no leader answers the other outcome, whatever groups the nodes are handed,
//! stored or stopped.
ghost use Rattle.std.specs.Prelude.{◌≡◌, ℕ, true, List, Some, Ok};
ghost use Rattle.std.specs.List.{AllByRecursion};
ghost use Rattle.xid.specs.Transactions.{TxParts};
ghost use Rattle.ballot.specs.Greatest.{IsIn};
ghost use Rattle.protocol.specs.declared.states.Standing.TheVariants as standings;
ghost use Rattle.protocol.specs.declared.states.View.TheVariants as views;
ghost use Rattle.protocol.specs.Effects.{Config};
ghost use Rattle.protocol.specs.Nodes.{NodeState, Input};
ghost use Rattle.protocol.specs.Worlds.{World, node_at};
ghost use Rattle.protocol.specs.declared.nodes.NodeId.TheVariants.{L};
ghost use Rattle.protocol.specs.declared.states.Standing.{Standing};
ghost use Rattle.answers.specs.Answers.{HavePrepared, NoneIs};
ghost use Rattle.node_core.specs.declared.output.Output.{Output};
ghost use Rattle.node_core.specs.Nodes.{NodeParts};
ghost use Rattle.groups.specs.Nodes.{IsGroup};
ghost use Rattle.groups.specs.Runs.{CanBeHanded, Happening, IsReached, all_happened, group_result};
ghost use Rattle.cluster_answers.specs.Steps.{TellsIn, HasTold, IsToldAmong};

/// Of all that happened in a cluster whose nodes work in groups, where one input of a leader was answered committed, none before or after
/// it was answered aborted, at the same leader or another. Among these inputs are those of a group that was stopped, whose answers nobody
/// was told.
pub fn groups_tell_one_outcome()
    ensures { (config : Config) (world : World) (reach : IsReached config world) (tx : TxParts) (l other : ℕ) (one two : Happening)
        → IsIn (all_happened config world reach) one → TellsIn l tx standings.Committed one
        → IsIn (all_happened config world reach) two → ¬ TellsIn other tx standings.Aborted two }
{}

/// And what was answered holds, however far the cluster has come since: after an answer committed every participant has stored a vote
/// prepared, and is prepared or committed; after an answer aborted none is committed.
pub fn told_outcomes_hold()
    ensures committed { (config : Config) (world : World) (reach : IsReached config world) (tx : TxParts) (l : ℕ) (told : Happening)
        → IsIn (all_happened config world reach) told → TellsIn l tx standings.Committed told → HavePrepared config tx world }
    ensures aborted { (config : Config) (world : World) (reach : IsReached config world) (tx : TxParts) (l : ℕ) (told : Happening)
        → IsIn (all_happened config world reach) told → TellsIn l tx standings.Aborted told → NoneIs config tx views.Committed world }
{}

/// What the node of a leader over a record answers in a group that is stored is among what happened in the cluster after that group, by the
/// law of `groups` for its calls; so the above is of what its clients are answered.
pub fn nodes_tell_what_happened()
    ensures { (config : Config) (world : World) → IsReached config world → (m : NodeState) (inputs : List Input) (old new : NodeParts)
        (outs : List Output) → node_at config world old.who ≡ Some m → AllByRecursion (CanBeHanded world old.who) inputs
        → (group : IsGroup config m inputs old new outs (Ok tt)) → (l : ℕ) → old.who ≡ L l → (tx : TxParts) (standing : Standing)
        → IsToldAmong tx standing inputs outs
        → HasTold config (group_result config world old.who m group.group true) l tx standing }
{}
