//! A node that forgot does what one does that has forgotten nothing, but for what is below its floor.
ghost use Rattle.std.specs.Prelude.{◌≡◌, ℕ, true, false, [], Option, Some, None};
ghost use Rattle.safety.specs.Vocabulary.{NodeId, R};
ghost use Rattle.protocol.specs.Effects.{Config};
ghost use Rattle.protocol.specs.Nodes.{NodeState, Input, Fault, all_play, restart_outcome, compact_outcome};
ghost use Rattle.xid.specs.Places.{Place, is_lower};
ghost use Rattle.floors.specs.Nodes.{floored_node_step, is_free_below, is_unused_above};
ghost use Rattle.floors.specs.Worlds.{is_manager};
ghost use Rattle.resource_manager.specs.Left.{HasFirstRows, left_node, rows_of, AreAlike};
ghost use Rattle.forgetting.specs.Above.{CameAlike, StandsAbove};

/// Without a floor a node whose facts play stands above it for itself.
pub fn nothing_is_forgotten()
    ensures { (config : Config) (who : NodeId) (node : NodeState) → all_play config who [] node.facts ≡ true
        → StandsAbove config config who None node node }
{}

/// On each input it does what the machine's node with that floor does: the answer, what is sent, and how a view changes; and it stands
/// above the floor for that node again. That what it has stored then plays is what a node's record says.
pub fn inputs_are_handled_alike()
    ensures { (from config : Config) (who : NodeId) (floor : Option Place) (few all : NodeState)
        → StandsAbove from config who floor few all → (input : Input) (fault : Fault)
        → all_play from who [] (floored_node_step from who floor few input fault).node.facts ≡ true
        → CameAlike from config who floor few all (floored_node_step from who floor few input fault)
        (floored_node_step config who floor all input fault) }
{}

/// So it does at a restart, where its record is made shorter, and where a tear is armed.
pub fn other_events_are_alike()
    ensures restart { (from config : Config) (who : NodeId) (floor : Option Place) (few all : NodeState)
        → StandsAbove from config who floor few all → (fault : Fault)
        → CameAlike from config who floor few all (restart_outcome from who few fault) (restart_outcome config who all fault) }
    ensures compact { (from config : Config) (who : NodeId) (floor : Option Place) (few all : NodeState)
        → StandsAbove from config who floor few all → (fault : Fault)
        → CameAlike from config who floor few all (compact_outcome few fault) (compact_outcome all fault) }
    ensures tear { (from config : Config) (who : NodeId) (floor : Option Place) (few all : NodeState)
        → StandsAbove from config who floor few all → (n : Option ℕ)
        → StandsAbove from config who floor (record few { tear = n }) (record all { tear = n }) }
{}

/// Where its floor rises to a place that isn't lower, below which a resource manager has no branch, what is left of it stands above that
/// place, in a cluster where its table begins with the rows that it had. Whether there is a branch, it knows by what it has.
pub fn what_is_left_stands()
    ensures left { (from config next : Config) (who : NodeId) (floor : Option Place) (place : Place) (few all : NodeState)
        → StandsAbove from config who floor few all → is_lower (Some place) floor ≡ false
        → ((rm : ℕ) → who ≡ R rm → is_free_below place few ≡ true)
        → AreAlike who next config → HasFirstRows next who (rows_of from who few.facts)
        → StandsAbove next config who (Some place) (left_node who (Some place) few) all }
    ensures free { (from config : Config) (rm : ℕ) (floor : Option Place) (place : Place) (few all : NodeState)
        → StandsAbove from config (R rm) floor few all → is_free_below place few ≡ is_free_below place all }
{}

/// Whether an acceptor or a leader has stored nothing about any name at or above a place that isn't lower than its floor, it knows by what
/// it has.
pub fn what_is_used_is_known()
    ensures { (from config : Config) (who : NodeId) (floor : Option Place) (place : Place) (few all : NodeState)
        → StandsAbove from config who floor few all → is_manager who ≡ false → is_lower (Some place) floor ≡ false
        → is_unused_above place few ≡ is_unused_above place all }
{}
