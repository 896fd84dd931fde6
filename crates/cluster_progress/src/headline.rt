//! The events that decide and end a transaction in a world with floors do so in a cluster that is handed them.
ghost use Rattle.std.specs.Prelude.{◌≡◌, ◌⊎◌, ℕ, ◌<◌, Bool, IsTrue, true, List, map};
ghost use Rattle.xid.specs.Transactions.{TxParts, is_participant};
ghost use Rattle.ballot.specs.Majority.{is_majority};
ghost use Rattle.protocol.specs.declared.events.Step.{Step as Made};
ghost use Rattle.protocol.specs.declared.nodes.NodeId.{NodeId};
ghost use Rattle.protocol.specs.declared.nodes.NodeId.TheVariants.{L};
ghost use Rattle.protocol.specs.declared.states.View.TheVariants as views;
ghost use Rattle.protocol.specs.Effects.{Config, is_inside};
ghost use Rattle.cluster.specs.Clusters.{ClusterParts, ClusterStands};
ghost use Rattle.cluster.specs.Runs.{HaveOccurred, IsFirm};
ghost use Rattle.progress.specs.Runs.{leader_and_quorum, leader_quorum_and_participants};
ghost use Rattle.progress.specs.Outcomes.{HasBallots, HaveEnded};
ghost use Rattle.commits.specs.Idle.{IsUp, HasIdleBranch};
ghost use Rattle.commits.specs.Votes.{HaveVoted, IsAtFirst};
ghost use Rattle.floors.specs.Worlds.{FlooredWorld};
ghost use Rattle.floors.specs.Runs.{IsFlooredReachable, IsAtHand, HasFlooredOutcome, HaveEndedAbove, are_on};
ghost use Rattle.floors.specs.Runs.{leader_quorum_and_unforgetting};
ghost use Rattle.cluster_progress.specs.Handing.{NoneWantsMemory, GoWell, LeadsOn, NoneForgets, after_asked};

/// Let a cluster stand for whatever world with floors the events before have come to; tears may be armed on its records, and floors may
/// stand anywhere, but not above the transaction at the leader and at the majority below. There are restarts, timeouts and deliveries, each
/// at a leader that has ballots left or at one of a majority of the acceptors: wherever the cluster is handed these one after another, no
/// memory is refused and no record fails of itself, it comes to stand for a world in which the leader answers committed or aborted. Every
/// other node may be down for good.
pub fn can_decide()
    ensures { (config : Config) (world : FlooredWorld) → IsFlooredReachable config world → (tx : TxParts) → IsTrue (is_inside config tx)
        → (l : ℕ) → l < config.leaders → (quorum : ℕ → Bool) → IsTrue (is_majority config.acceptors quorum)
        → IsAtHand world l quorum tx → HasBallots config world.machine l quorum tx → (cluster : ClusterParts)
        → ClusterStands config cluster world
        → LeadsOn config (leader_and_quorum l quorum) tx (HasFlooredOutcome config l tx) world cluster }
{}

/// And with the participants it ends there: there are such events at the leader, the majority and those participants alone whose floors
/// aren't above it, after which every one of these is committed, or every one is aborted.
pub fn can_end()
    ensures { (config : Config) (world : FlooredWorld) → IsFlooredReachable config world → (tx : TxParts) → IsTrue (is_inside config tx)
        → (l : ℕ) → l < config.leaders → (quorum : ℕ → Bool) → IsTrue (is_majority config.acceptors quorum)
        → IsAtHand world l quorum tx → HasBallots config world.machine l quorum tx → (cluster : ClusterParts)
        → ClusterStands config cluster world
        → LeadsOn config (leader_quorum_and_unforgetting world l quorum tx) tx
        (λ after. HaveEndedAbove config tx views.Committed after ⊎ HaveEndedAbove config tx views.Aborted after) world cluster }
{}

/// And a transaction can commit there that no node which takes part has forgotten. Where each participant has stored a vote prepared, and a
/// majority of the acceptors has taken part in no ballot of it above 0, there are such events after which every participant is committed.
/// And so there are from the world after a client has asked a leader that is up to commit it, where each participant is up with no tear
/// armed, and has an idle branch of the name that the transaction has there.
pub fn can_commit()
    ensures voted { (config : Config) (world : FlooredWorld) → IsFlooredReachable config world → (tx : TxParts)
        → IsTrue (is_inside config tx) → (l : ℕ) → l < config.leaders → (quorum : ℕ → Bool)
        → IsTrue (is_majority config.acceptors quorum) → NoneForgets world (leader_quorum_and_participants l quorum tx) tx
        → HasBallots config world.machine l quorum tx → IsAtFirst config quorum tx world.machine → HaveVoted config tx world.machine
        → (cluster : ClusterParts) → ClusterStands config cluster world
        → LeadsOn config (leader_quorum_and_participants l quorum tx) tx (λ after. HaveEnded config tx views.Committed after.machine) world
        cluster }
    ensures asked { (config : Config) (world : FlooredWorld) → IsFlooredReachable config world → (tx : TxParts)
        → IsTrue (is_inside config tx) → (l : ℕ) → l < config.leaders → (quorum : ℕ → Bool)
        → IsTrue (is_majority config.acceptors quorum) → NoneForgets world (leader_quorum_and_participants l quorum tx) tx
        → HasBallots config world.machine l quorum tx → IsAtFirst config quorum tx world.machine
        → ((r : ℕ) → IsTrue (is_participant tx r) → HasIdleBranch config world.machine tx r) → IsUp config world.machine (L l)
        → (cluster : ClusterParts) → ClusterStands config cluster (after_asked config world l tx)
        → LeadsOn config (leader_quorum_and_participants l quorum tx) tx (λ after. HaveEnded config tx views.Committed after.machine)
        (after_asked config world l tx) cluster }
{}

/// Over records that never fail of themselves, as records in memory, such events go well wherever no memory is refused.
pub fn firm_clusters_go_well()
    ensures { (config : Config) (world : FlooredWorld) (takes_part : NodeId → Bool) (tx : TxParts) (first last : ClusterParts)
        (steps : List Made) → ClusterStands config first world → IsFirm first
        → are_on config takes_part tx world (map (λ step. step.event) steps) ≡ true → HaveOccurred first steps last
        → NoneWantsMemory steps → GoWell config world first steps last }
{}
