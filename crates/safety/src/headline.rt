//! Each event moves each transaction by one step of the specification at most, no two participants hold committed and
//! aborted, a commit finds every participant prepared, and no restart is refused.
ghost use Rattle.std.specs.Prelude.{◌≡◌, ◌≢◌, ℕ, [], true, Some, IsTrue};
ghost use Rattle.xid.specs.Transactions.{TxParts, is_participant};
ghost use Rattle.xid.specs.declared.transaction.Vote.TheVariants as votes;
ghost use Rattle.xid.specs.declared.refusals.Refusal.TheVariants.{Damaged};
ghost use Rattle.protocol.specs.declared.states.View.TheVariants as views;
ghost use Rattle.safety.specs.Vocabulary.{NodeId, Done, Refused, Event, Restart};
ghost use Rattle.protocol.specs.Effects.{Config};
ghost use Rattle.protocol.specs.Nodes.{NodeState, Fault, NoFault, all_play};
ghost use Rattle.protocol.specs.TCommit.{IsReady, IsCommitStep};
ghost use Rattle.safety.specs.CommitSteps.{IsConsistent};
ghost use Rattle.protocol.specs.Worlds.{World, node_at, world_step};
ghost use Rattle.safety.specs.Items.{Voted, Committed, Commit};
ghost use Rattle.safety.specs.Runs.{IsReachable, views_in};
ghost use Rattle.safety.specs.Standing.{Stands, facts_at};

/// In whatever world the events before have come to, the next event, whatever its fault, moves each transaction by at most one
/// step of the specification: the paper's transaction commit, which looks at all participants at once.
pub fn each_step()
    ensures { (config : Config) (world : World) → IsReachable config world → (event : Event) (fault : Fault) (tx : TxParts)
        → IsCommitStep (is_participant tx) (views_in config world tx) (views_in config (world_step config world event fault).world tx) }
{}

/// No participant of a transaction is committed while another is aborted.
pub fn consistent()
    ensures { (config : Config) (world : World) → IsReachable config world → (tx : TxParts)
        → IsConsistent (is_participant tx) (views_in config world tx) }
{}

/// A commit finds every participant prepared: where one stored that it committed, or where a Commit was sent, each has stored a
/// vote prepared, and is prepared or committed; and an event that makes a view committed finds each participant so.
pub fn commit_finds_prepared()
    ensures stored { (config : Config) (world : World) → IsReachable config world → (tx : TxParts) (r q : ℕ) → IsTrue (is_participant tx q)
        → Stands config world (Committed r tx) → Stands config world (Voted q tx votes.Prepared) }
    ensures sent { (config : Config) (world : World) → IsReachable config world → (tx : TxParts) (q : ℕ) → IsTrue (is_participant tx q)
        → Stands config world (Commit tx) → Stands config world (Voted q tx votes.Prepared) }
    ensures ready { (config : Config) (world : World) → IsReachable config world → (tx : TxParts) (q : ℕ) → IsTrue (is_participant tx q)
        → Stands config world (Commit tx) → IsReady (views_in config world tx q) }
    ensures moved { (config : Config) (world : World) → IsReachable config world → (event : Event) (fault : Fault) (tx : TxParts) (r q : ℕ)
        → IsTrue (is_participant tx r) → IsTrue (is_participant tx q) → views_in config world tx r ≢ views.Committed
        → views_in config (world_step config world event fault).world tx r ≡ views.Committed
        → IsReady (views_in config world tx q) }
{}

/// No restart is refused: the facts of every node play, so that a restart of one that stands in the cluster is done, and whatever
/// its fault, its record isn't found damaged.
pub fn restarts_play()
    ensures play { (config : Config) (world : World) → IsReachable config world → (who : NodeId)
        → all_play config who [] (facts_at config world who) ≡ true }
    ensures done { (config : Config) (world : World) → IsReachable config world → (who : NodeId) (node : NodeState)
        → node_at config world who ≡ Some node → (world_step config world (Restart who) NoFault).answer ≡ Done }
    ensures undamaged { (config : Config) (world : World) → IsReachable config world → (who : NodeId) (fault : Fault)
        → (world_step config world (Restart who) fault).answer ≢ Refused Damaged }
{}
