//! What the events of a cluster come to, whatever happens.

ghost use Rattle.std.specs.Prelude.{Bool, List};
ghost use Rattle.stable_record.specs.Held.{Held};
ghost use Rattle.protocol.specs.declared.events.Event.{Event as Happening};
ghost use Rattle.protocol.specs.declared.events.Step.{Step as Made};
ghost use Rattle.protocol.specs.Effects.{Config};
ghost use Rattle.protocol.specs.Nodes.{RecordFails};
ghost use Rattle.floors.specs.Worlds.{FlooredWorld, step_with_floors};
ghost use Rattle.floors.specs.Runs.{IsFlooredReachable};
ghost use Rattle.cluster.specs.Clusters.{ClusterParts, ClusterStands, IsSameCluster, IsSound, Occurs, BefallsIn};
ghost use Rattle.cluster.specs.Headlines.{IsSafeMove};
ghost use Rattle.cluster.specs.Opening.{IsMade, NoneFails};
ghost use Rattle.cluster.specs.Runs.{HaveOccurred, FollowMachine, IsFirm};

/// An event that is handled as in a world with floors moves each transaction by at most one step of the specification (Gray and
/// Lamport, "Consensus on Transaction Commit"), leaves no participant committed beside one that is aborted, and commits where all are
/// prepared. A table changes only where a view becomes committed, and then by what that branch wrote; nothing comes to be kept for a
/// branch but what a put or a delete writes that is answered ok. What each record has behind its floor is whole frames of facts that play,
/// with a tail only while its node is down, and no restart is refused as damaged. All this is of the one world with floors to which the
/// event leads, whose answer, datagrams, notices and nodes are those that the event has. Events lead to that world, so it holds of each
/// event of a run.
pub fn events_are_safe()
    ensures moves { (event : Happening) (old new : ClusterParts) (step : Made) → (happens : Occurs event old new step)
        → (config : Config) (world : FlooredWorld) → IsFlooredReachable config world → (stands : ClusterStands config old world)
        → IsSafeMove config world step (step_with_floors config world event (happens config world stands).fault).world new }
    ensures stays { (event : Happening) (old new : ClusterParts) (step : Made) → Occurs event old new step → IsSound old → IsSound new }
{}

/// The steps of events one after another, each handled as in a world with floors, are those of such a world under some faults.
pub fn runs_follow_the_machine()
    ensures { (config : Config) (world : FlooredWorld) (first last : ClusterParts) (steps : List Made) → HaveOccurred first steps last
        → ClusterStands config first world → FollowMachine config world steps last }
{}

/// Where no record may fail of itself, as records in memory, that stays so, and no event meets such a failure.
pub fn firm_records_hold()
    ensures made { (config : Config) (records : List Held) (cluster : ClusterParts) → IsMade config records cluster
        → NoneFails records → IsFirm cluster }
    ensures stays { (old new : ClusterParts) → IsSameCluster old new → IsFirm old → IsFirm new }
    ensures faults { (config : Config) (world : FlooredWorld) (event : Happening) (old new : ClusterParts) (whole : Bool)
        → ClusterStands config old world → IsFirm old → BefallsIn config world event old.nodes new.nodes (RecordFails whole) → ⊥ }
{}
