//! What `Cluster::step` gives for a commit or a status at a leader holds from then on, and no step tells the other outcome.
ghost use Rattle.std.specs.Prelude.{ℕ, List};
ghost use Rattle.xid.specs.Transactions.{TxParts};
ghost use Rattle.ballot.specs.Greatest.{IsIn};
ghost use Rattle.protocol.specs.declared.events.Step.{Step as Made};
ghost use Rattle.protocol.specs.declared.states.Standing.TheVariants as standings;
ghost use Rattle.protocol.specs.declared.states.View.TheVariants as views;
ghost use Rattle.protocol.specs.Effects.{Config};
ghost use Rattle.floors.specs.Worlds.{FlooredWorld};
ghost use Rattle.floors.specs.Runs.{IsFlooredReachable};
ghost use Rattle.answers.specs.Answers.{Tells, HavePrepared, NoneIs};
ghost use Rattle.cluster.specs.Clusters.{ClusterParts, ClusterStands, IsSound};
ghost use Rattle.cluster.specs.Runs.{HaveOccurred};
ghost use Rattle.cluster_answers.specs.Steps.{EndIn};

/// Let a cluster make steps one after another, over any records and with whatever faults: where one of them is an answer committed of a
/// transaction, no step before or after it is an answer aborted, of the same leader or another. Every cluster is sound.
pub fn clusters_tell_one_outcome()
    ensures { (first last : ClusterParts) (steps : List Made) → IsSound first → HaveOccurred first steps last → (tx : TxParts)
        (l other : ℕ) (one two : Made) → IsIn steps one → Tells l tx standings.Committed one → IsIn steps two
        → ¬ Tells other tx standings.Aborted two }
{}

/// And where the steps end, what was told holds in the world with floors to which their events lead, which the cluster stands for:
/// after an answer committed every participant has stored a vote prepared, and is prepared or committed; after an answer aborted none is
/// committed.
pub fn told_outcomes_hold()
    ensures committed { (config : Config) (world : FlooredWorld) → IsFlooredReachable config world → (first last : ClusterParts)
        (steps : List Made) → ClusterStands config first world → HaveOccurred first steps last → (tx : TxParts) (l : ℕ) (told : Made)
        → IsIn steps told → Tells l tx standings.Committed told → EndIn config world steps last (HavePrepared config tx) }
    ensures aborted { (config : Config) (world : FlooredWorld) → IsFlooredReachable config world → (first last : ClusterParts)
        (steps : List Made) → ClusterStands config first world → HaveOccurred first steps last → (tx : TxParts) (l : ℕ) (told : Made)
        → IsIn steps told → Tells l tx standings.Aborted told → EndIn config world steps last (NoneIs config tx views.Committed) }
{}
