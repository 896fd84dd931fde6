//! No floor passes a branch that is there; and wherever a transaction is prepared, no floor of a node that wasn't replaced is above it.
ghost use Rattle.std.specs.Prelude.{◌≡◌, ◌≢◌, ℕ, ◌<◌, true, false, [], slice_get, Some, Option, if◌then◌else◌};
ghost use Rattle.xid.specs.Names.{XidParts};
ghost use Rattle.xid.specs.declared.codes.XaCode.TheVariants.{DupId, Nota};
ghost use Rattle.protocol.specs.declared.requests.Request.{Request};
ghost use Rattle.protocol.specs.declared.requests.Request.TheVariants.{Call};
ghost use Rattle.xid.specs.Transactions.{TxParts};
ghost use Rattle.ballot.specs.Greatest.{IsIn};
ghost use Rattle.protocol.specs.declared.states.View.TheVariants as views;
ghost use Rattle.safety.specs.Vocabulary.{NodeId, R, Action, Start, Code, Refused};
ghost use Rattle.safety.specs.Runs.{views_in};
ghost use Rattle.protocol.specs.Effects.{Config};
ghost use Rattle.protocol.specs.Managers.{Branch};
ghost use Rattle.protocol.specs.Nodes.{NodeState, Input, Asked, Fault, NoFault, accepts_request, node_step, answer_outcome};
ghost use Rattle.protocol.specs.Worlds.{node_at};
ghost use Rattle.xid.specs.Places.{Place, is_below, is_lower, is_xid_below};
ghost use Rattle.xid.specs.declared.refusals.Refusal.TheVariants.{Forgotten};
ghost use Rattle.floors.specs.Nodes.{floored_node_step, forgotten_answer, is_free_below, is_input_below, is_passed_over, is_request_below};
ghost use Rattle.floors.specs.Worlds.{FlooredWorld, FlooredEvent, Notice, Raise, Hear, floored_step, is_manager, least_told, told_nodes};
ghost use Rattle.floors.specs.Worlds.{told_with};
ghost use Rattle.floors.specs.Runs.{IsFlooredReachable};

/// A node with a floor passes an input over where its kind takes it, it is up, and the input is below its floor: it is as it was, whatever
/// the fault, and answers so. In every other case it does what it does without a floor.
pub fn nodes_pass_over()
    ensures { (config : Config) (who : NodeId) (floor : Option Place) (node : NodeState) (input : Input) (fault : Fault)
        → floored_node_step config who floor node input fault
        ≡ (if is_passed_over who floor node input then answer_outcome node (forgotten_answer input)
        else node_step config who node input fault) }
{}

/// Below its floor a node that is up answers a start -8, every other call -4, every other request that its kind takes 17, and a message not
/// at all; it sends nothing.
pub fn below_is_refused()
    ensures start { (config : Config) (rm : ℕ) (floor : Option Place) (node : NodeState) (x : XidParts) (fault : Fault) → node.up ≡ true
        → is_xid_below floor x ≡ true
        → (floored_node_step config (R rm) floor node (Asked (Call x Start)) fault).answer ≡ Code DupId }
    ensures call { (config : Config) (rm : ℕ) (floor : Option Place) (node : NodeState) (x : XidParts) (action : Action) (fault : Fault)
        → node.up ≡ true → is_xid_below floor x ≡ true → action ≢ Start
        → (floored_node_step config (R rm) floor node (Asked (Call x action)) fault).answer ≡ Code Nota }
    ensures request { (config : Config) (who : NodeId) (floor : Option Place) (node : NodeState) (request : Request) (fault : Fault)
        → node.up ≡ true → accepts_request who request ≡ true → is_request_below floor request ≡ true
        → ((x : XidParts) (action : Action) → request ≢ Call x action)
        → (floored_node_step config who floor node (Asked request) fault).answer ≡ Refused Forgotten }
    ensures silent { (config : Config) (who : NodeId) (floor : Option Place) (node : NodeState) (input : Input) (fault : Fault)
        → is_input_below floor input ≡ true → (floored_node_step config who floor node input fault).sends ≡ [] }
{}

/// No event has a floor sink. A resource manager that is up raises its floor to each higher place below which it has no branch, and tells
/// it to all acceptors and leaders. One of these that is up and is told has a floor no lower then than the least that it was told.
pub fn floors_rise()
    ensures never_sink { (config : Config) (world : FlooredWorld) (event : FlooredEvent) (fault : Fault) (n : NodeId)
        → is_lower ((floored_step config world event fault).world.floor n) (world.floor n) ≡ false }
    ensures raised { (config : Config) (world : FlooredWorld) (rm : ℕ) (place : Place) (node : NodeState)
        → node_at config world.machine (R rm) ≡ Some node → node.up ≡ true → is_lower (world.floor (R rm)) (Some place) ≡ true
        → is_free_below place node ≡ true
        → (floored_step config world (Raise (R rm) place) NoFault).world.floor (R rm) ≡ Some place }
    ensures told { (config : Config) (world : FlooredWorld) (rm : ℕ) (place : Place) (node : NodeState)
        → node_at config world.machine (R rm) ≡ Some node → node.up ≡ true → is_lower (world.floor (R rm)) (Some place) ≡ true
        → is_free_below place node ≡ true → (who : NodeId) → IsIn (told_nodes config) who
        → IsIn (floored_step config world (Raise (R rm) place) NoFault).world.notices
        (record { manager = rm; receiver = who; place = place }) }
    ensures heard { (config : Config) (world : FlooredWorld) (n : ℕ) (notice : Notice) (node : NodeState)
        → slice_get world.notices n ≡ Some notice → is_manager notice.receiver ≡ false
        → node_at config world.machine notice.receiver ≡ Some node → node.up ≡ true
        → is_lower ((floored_step config world (Hear n) NoFault).world.floor notice.receiver)
        (least_told config (told_with (world.told notice.receiver) notice)) ≡ false }
{}

/// Nothing that is there is below the floor of its resource manager: no transaction that it has prepared, and no branch in its memory,
/// active or ended.
pub fn no_branch_is_below()
    ensures prepared { (config : Config) (world : FlooredWorld) → IsFlooredReachable config world → (tx : TxParts) (r : ℕ)
        → views_in config world.machine tx r ≡ views.Prepared → is_below (world.floor (R r)) tx ≡ false }
    ensures branches { (config : Config) (world : FlooredWorld) → IsFlooredReachable config world → (r : ℕ) (node : NodeState)
        → node_at config world.machine (R r) ≡ Some node → (branch : Branch) → IsIn node.memory.branches branch
        → is_xid_below (world.floor (R r)) branch.xid ≡ false }
{}

/// Where a resource manager has a transaction prepared, it is at or above the floor of each acceptor and leader that wasn't replaced: none
/// of their floors is above one of a resource manager of the cluster, and no more is what was told of one.
pub fn prepared_is_above()
    ensures others { (config : Config) (world : FlooredWorld) → IsFlooredReachable config world → (tx : TxParts) (r : ℕ)
        → views_in config world.machine tx r ≡ views.Prepared → (who : NodeId) → is_manager who ≡ false → world.is_replaced who ≡ false
        → is_below (world.floor who) tx ≡ false }
    ensures least { (config : Config) (world : FlooredWorld) → IsFlooredReachable config world → (who : NodeId) → is_manager who ≡ false
        → world.is_replaced who ≡ false → (r : ℕ) → r < config.managers → is_lower (world.floor (R r)) (world.floor who) ≡ false }
    ensures noticed { (config : Config) (world : FlooredWorld) → IsFlooredReachable config world → (notice : Notice)
        → IsIn world.notices notice → is_lower (world.floor (R notice.manager)) (Some notice.place) ≡ false }
    ensures told { (config : Config) (world : FlooredWorld) → IsFlooredReachable config world → (who : NodeId) (r : ℕ)
        → is_lower (world.floor (R r)) (world.told who r) ≡ false }
{}
