//! The order of the first commits anywhere explains every table and every read, in whatever world with floors events have led to.
ghost use Rattle.std.specs.Prelude.{◌≡◌, ◌≢◌, ℕ, List, [], ◌∷◌, ◌++◌, filter_map, reverse, Some, None, true, false};
ghost use Rattle.std.specs.List.{list_any};
ghost use Rattle.xid.specs.Names.{XidParts};
ghost use Rattle.xid.specs.Transactions.{TxParts, xid_at};
ghost use Rattle.stable_record.specs.declared.fact.FactKind.TheVariants as stored;
ghost use Rattle.protocol.specs.Basics.{Touched};
ghost use Rattle.safety.specs.Vocabulary.{R, Ask, Event, Get, Request, Step};
ghost use Rattle.protocol.specs.Branches.{get_answer, is_write};
ghost use Rattle.protocol.specs.Effects.{Config};
ghost use Rattle.protocol.specs.Facts.{bound_branches};
ghost use Rattle.protocol.specs.Managers.{act_on, all_branches, view_named};
ghost use Rattle.protocol.specs.Nodes.{NodeState, Fault, first_rows};
ghost use Rattle.protocol.specs.Worlds.{node_at, step_of, table_at, trace};
ghost use Rattle.protocol.specs.Holds.{IsIn};
ghost use Rattle.safety.specs.Standing.{facts_at};
ghost use Rattle.history.specs.Answers.{IsAmple, answer_to, AreAnswered};
ghost use Rattle.history.specs.Calls.{call_done};
ghost use Rattle.history.specs.LookingBack.{branch_back, done_at, is_start, last_act_on, writes_in};
ghost use Rattle.history.specs.SerialOrder.{first_commits, committed_at, stands_first, voted_branch, is_conflict};
ghost use Rattle.history.specs.SerialOrder.{serial_table, serial_read};
ghost use Rattle.history.specs.Writes.{actions_since_start, commit_order, table_back};
ghost use Rattle.floors.specs.Worlds.{FlooredWorld, FlooredEvent, Machine, floored_step, machine_part};
ghost use Rattle.floors.specs.Runs.{IsFlooredReachable, After, events_in_machine, machine_events, with_fault};
ghost use Rattle.floored_history.specs.Histories.{floored_history};

/// An event adds the steps of what it comes to in the machine, one or none. One that isn't passed over is its own step: with what it was
/// answered, what it changed and what it sent.
pub fn steps_are_told()
    ensures grown { (config : Config) (world : FlooredWorld) (reach : IsFlooredReachable config world) (event : FlooredEvent)
        (fault : Fault)
        → floored_history config (floored_step config world event fault).world (After world event fault reach)
        ≡ reverse (trace config world.machine (with_fault fault (events_in_machine config world event)))
        ++ floored_history config world reach }
    ensures same { (config : Config) (world : FlooredWorld) (reach : IsFlooredReachable config world) (event : Event) (fault : Fault)
        → machine_events config world event ≡ event ∷ []
        → floored_history config (floored_step config world (Machine event) fault).world (After world (Machine event) fault reach)
        ≡ step_of world.machine event (machine_part (floored_step config world (Machine event) fault))
        ∷ floored_history config world reach }
{}

/// Conflicts are ordered: of two transactions that were committed somewhere, and whose branches at one manager had touched one key when it
/// voted prepared, one of them having put or deleted it, the one that this manager committed first was committed first anywhere.
pub fn conflicts_are_ordered()
    ensures { (config : Config) (world : FlooredWorld) (reach : IsFlooredReachable config world) (rm : ℕ) (tx other : TxParts)
        (key : List ℕ)
        → IsIn (first_commits (floored_history config world reach)) tx → IsIn (first_commits (floored_history config world reach)) other
        → tx ≢ other
        → is_conflict (voted_branch rm (floored_history config world reach) tx)
        (voted_branch rm (floored_history config world reach) other) key ≡ true
        → stands_first tx other (commit_order rm (floored_history config world reach)) ≡ true
        → stands_first tx other (first_commits (floored_history config world reach)) ≡ true }
{}

/// Tables are serial: the table of each manager, whether it is up or down, and wherever its floor is, is its first contents with the
/// accepted writes of the transactions that it committed, one whole transaction after another: in the order of the first commits anywhere,
/// and in the order in which it committed them.
pub fn tables_are_serial()
    ensures serial { (config : Config) (world : FlooredWorld) (reach : IsFlooredReachable config world) (rm : ℕ) (node : NodeState)
        → node_at config world.machine (R rm) ≡ Some node
        → table_at config world.machine rm
        ≡ serial_table (first_rows config rm) rm (floored_history config world reach)
        (committed_at rm (floored_history config world reach)) }
    ensures back { (config : Config) (world : FlooredWorld) (reach : IsFlooredReachable config world) (rm : ℕ) (node : NodeState)
        → node_at config world.machine (R rm) ≡ Some node
        → table_at config world.machine rm ≡ table_back (first_rows config rm) rm (floored_history config world reach) }
{}

/// Reads are serial: a value, or none, that a get was answered in the branch of a transaction which some manager has committed, since
/// that branch was last started, is what the serial run shows there: the table after all transactions before its own, those among them
/// that name the manager and haven't committed there yet, with the branch's own earlier writes over it.
pub fn reads_are_serial()
    ensures { (config : Config) (world : FlooredWorld) (reach : IsFlooredReachable config world) (rm : ℕ) (x : XidParts) (tx : TxParts)
        (key : List ℕ) (later before : List Step) (step : Step)
        → floored_history config world reach ≡ later ++ step ∷ before → call_done rm x step.event step.answer ≡ Some (Get key)
        → list_any is_start (filter_map (done_at rm x) later) ≡ false
        → xid_at tx rm ≡ Some x → IsIn (first_commits (floored_history config world reach)) tx
        → step.answer ≡ get_answer (serial_read (first_rows config rm) rm (floored_history config world reach) before tx x key) }
{}

/// The writes that are kept for a branch are those that were accepted in it since it was last started: of a vote prepared, as it is
/// stored, and of a branch in memory, where its resource manager is up.
pub fn writes_are_kept()
    ensures voted { (config : Config) (world : FlooredWorld) (reach : IsFlooredReachable config world) (rm : ℕ) (tx : TxParts)
        (keys : List Touched) (x : XidParts)
        → IsIn (facts_at config world.machine (R rm)) (stored.VotePrepared tx keys) → xid_at tx rm ≡ Some x → (key : List ℕ)
        → act_on keys key ≡ last_act_on (writes_in (actions_since_start rm x (floored_history config world reach))) key }
    ensures unprepared { (config : Config) (world : FlooredWorld) (reach : IsFlooredReachable config world) (rm : ℕ) (node : NodeState)
        → node_at config world.machine (R rm) ≡ Some node → node.up ≡ true → (x : XidParts)
        → (view_named node.memory.branches x).state ≢ None → (key : List ℕ)
        → (view_named node.memory.branches x).act key
        ≡ last_act_on (writes_in (actions_since_start rm x (floored_history config world reach))) key }
{}

/// Each branch of a resource manager that is up, prepared or not, is the one looked back at: its state, which keys it has touched, and
/// how many, and its last act on each. Whatever one has put or deleted, no branch of another name there has touched.
pub fn branches_look_back()
    ensures branches { (config : Config) (world : FlooredWorld) (reach : IsFlooredReachable config world) (rm : ℕ) (node : NodeState)
        → node_at config world.machine (R rm) ≡ Some node → node.up ≡ true → (x : XidParts)
        → view_named (all_branches rm (bound_branches node.facts) node.memory.branches) x
        ≡ branch_back rm (floored_history config world reach) x }
    ensures held_once { (config : Config) (world : FlooredWorld) (reach : IsFlooredReachable config world) (rm : ℕ) (x y : XidParts)
        → x ≢ y → (key : List ℕ) → is_write ((branch_back rm (floored_history config world reach) x).act key) ≡ true
        → (branch_back rm (floored_history config world reach) y).touched key ≡ false }
{}

/// Each answer of a resource manager that is up, of what isn't below its floor, is the one that looking back gives: of every client call,
/// of a recover, of a view and of a timeout; but where memory is wanted. And each answer of a run's steps is.
pub fn answers_look_back()
    ensures up { (config : Config) (world : FlooredWorld) (reach : IsFlooredReachable config world) (rm : ℕ) (node : NodeState)
        → node_at config world.machine (R rm) ≡ Some node → node.up ≡ true → (request : Request) (fault : Fault) → IsAmple fault
        → machine_events config world (Ask (R rm) request) ≡ Ask (R rm) request ∷ []
        → (floored_step config world (Machine (Ask (R rm) request)) fault).answer
        ≡ answer_to config rm (floored_history config world reach) request }
    ensures each { (config : Config) (world : FlooredWorld) (reach : IsFlooredReachable config world)
        → AreAnswered config (floored_history config world reach) }
{}
