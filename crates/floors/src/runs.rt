//! What becomes of a cluster with floors is what events of the machine make, of which some lose a datagram and some aren't there. So what
//! holds of every world of the machine holds of it.
ghost use Rattle.std.specs.Prelude.{◌≡◌, ◌≢◌, ℕ, true, None, [], ◌∷◌, IsTrue};
ghost use Rattle.xid.specs.Transactions.{TxParts, is_participant};
ghost use Rattle.protocol.specs.declared.requests.Request.{Request};
ghost use Rattle.protocol.specs.declared.states.View.TheVariants as views;
ghost use Rattle.safety.specs.Vocabulary.{NodeId, Event, Ask, Deliver, Lose};
ghost use Rattle.safety.specs.CommitSteps.{IsConsistent};
ghost use Rattle.safety.specs.Runs.{IsReachable, views_in};
ghost use Rattle.safety.specs.Items.{Committed, Commit, Voted};
ghost use Rattle.safety.specs.Standing.{Stands};
ghost use Rattle.xid.specs.declared.transaction.Vote.TheVariants as votes;
ghost use Rattle.protocol.specs.Effects.{Config};
ghost use Rattle.protocol.specs.Nodes.{Asked, Fault};
ghost use Rattle.protocol.specs.TCommit.{IsCommitStep, IsReady};
ghost use Rattle.protocol.specs.Worlds.{datagram_at, opening, world_step, world_after};
ghost use Rattle.floors.specs.Nodes.{forgotten_answer};
ghost use Rattle.floors.specs.Worlds.{FlooredWorld, FlooredEvent, Machine, floored_answer, floored_step, machine_part, on_machine};
ghost use Rattle.floors.specs.Runs.{IsFlooredReachable, all_events, events_in_machine, is_lost, machine_events, passes_over, with_fault};

/// Whatever events there have been, events of the machine lead to the same nodes, and all that was sent is the same: one for each, or none.
/// A request about a name below the floor of its node isn't made, a datagram about one is lost, a node whose floor rises makes its record
/// shorter, and one that is replaced is restarted.
pub fn floored_runs_are_runs()
    ensures run { (config : Config) (world : FlooredWorld) (reach : IsFlooredReachable config world)
        → world_after config (opening config) (all_events config world reach) ≡ world.machine }
    ensures reachable { (config : Config) (world : FlooredWorld) → IsFlooredReachable config world → IsReachable config world.machine }
    ensures event { (config : Config) (world : FlooredWorld) (event : FlooredEvent) (fault : Fault)
        → (floored_step config world event fault).world.machine
        ≡ world_after config world.machine (with_fault fault (events_in_machine config world event)) }
{}

/// An event that isn't below a floor comes to what it comes to in the machine: the same nodes, answer, view and sends. A datagram that is
/// below its receiver's is lost. A request that is below its node's changes nothing, and is answered so. And where there is no floor
/// nothing is below one.
pub fn events_are_the_machines()
    ensures same { (config : Config) (world : FlooredWorld) (event : Event) (fault : Fault)
        → machine_events config world event ≡ event ∷ []
        → machine_part (floored_step config world (Machine event) fault) ≡ world_step config world.machine event fault }
    ensures lost { (config : Config) (world : FlooredWorld) (n : ℕ) (fault : Fault)
        → is_lost config world (datagram_at world.machine.net n) ≡ true
        → machine_part (floored_step config world (Machine (Deliver n)) fault) ≡ world_step config world.machine (Lose n) fault }
    ensures unasked { (config : Config) (world : FlooredWorld) (who : NodeId) (request : Request) (fault : Fault)
        → passes_over config world who (Asked request) ≡ true
        → on_machine config world (Ask who request) fault ≡ floored_answer world (forgotten_answer (Asked request)) }
    ensures unfloored { (config : Config) (world : FlooredWorld) (event : Event) → ((who : NodeId) → world.floor who ≡ None)
        → machine_events config world event ≡ event ∷ [] }
{}

/// Each event moves each transaction by at most one step of the specification.
pub fn each_step()
    ensures { (config : Config) (world : FlooredWorld) → IsFlooredReachable config world → (event : FlooredEvent) (fault : Fault)
        (tx : TxParts)
        → IsCommitStep (is_participant tx) (views_in config world.machine tx)
        (views_in config (floored_step config world event fault).world.machine tx) }
{}

/// No participant of a transaction is committed while another is aborted.
pub fn consistent()
    ensures { (config : Config) (world : FlooredWorld) → IsFlooredReachable config world → (tx : TxParts)
        → IsConsistent (is_participant tx) (views_in config world.machine tx) }
{}

/// A commit finds every participant prepared: wherever one has stored that a transaction is committed, or is told so, or moves to it, each
/// participant has voted prepared, and stands prepared or committed.
pub fn commit_finds_prepared()
    ensures stored { (config : Config) (world : FlooredWorld) → IsFlooredReachable config world → (tx : TxParts) (r q : ℕ)
        → IsTrue (is_participant tx q) → Stands config world.machine (Committed r tx)
        → Stands config world.machine (Voted q tx votes.Prepared) }
    ensures sent { (config : Config) (world : FlooredWorld) → IsFlooredReachable config world → (tx : TxParts) (q : ℕ)
        → IsTrue (is_participant tx q) → Stands config world.machine (Commit tx)
        → Stands config world.machine (Voted q tx votes.Prepared) }
    ensures ready { (config : Config) (world : FlooredWorld) → IsFlooredReachable config world → (tx : TxParts) (q : ℕ)
        → IsTrue (is_participant tx q) → Stands config world.machine (Commit tx) → IsReady (views_in config world.machine tx q) }
    ensures moved { (config : Config) (world : FlooredWorld) → IsFlooredReachable config world → (event : FlooredEvent) (fault : Fault)
        (tx : TxParts) (r q : ℕ) → IsTrue (is_participant tx r) → IsTrue (is_participant tx q)
        → views_in config world.machine tx r ≢ views.Committed
        → views_in config (floored_step config world event fault).world.machine tx r ≡ views.Committed
        → IsReady (views_in config world.machine tx q) }
{}
