//! Branches and answers: those of a resource manager that is up are the ones looked back at.
ghost use Rattle.std.specs.Prelude.{◌≡◌, ◌≢◌, ℕ, List, true, false, Some};
ghost use Rattle.xid.specs.Names.{XidParts};
ghost use Rattle.safety.specs.Vocabulary.{R, Ask, Request};
ghost use Rattle.protocol.specs.Branches.{is_write};
ghost use Rattle.protocol.specs.Effects.{Config};
ghost use Rattle.protocol.specs.Facts.{bound_branches};
ghost use Rattle.protocol.specs.Managers.{all_branches, view_named};
ghost use Rattle.protocol.specs.Nodes.{NodeState, Fault};
ghost use Rattle.protocol.specs.Worlds.{Occurrence, opening, node_at, world_after, world_step};
ghost use Rattle.history.specs.Lines.{history};
ghost use Rattle.history.specs.LookingBack.{branch_back};
ghost use Rattle.history.specs.Outages.{is_outage, is_record_fault, is_out};
ghost use Rattle.history.specs.Answers.{IsAmple, answer_to, AreAnswered};

/// Each branch of a resource manager that is up, prepared or not, is the one looked back at: its state, which keys it has touched, and
/// how many, and its last act on each.
pub fn branches_look_back()
    ensures { (config : Config) (events : List Occurrence) (rm : ℕ) (node : NodeState)
        → node_at config (world_after config (opening config) events) (R rm) ≡ Some node → node.up ≡ true → (x : XidParts)
        → view_named (all_branches rm (bound_branches node.facts) node.memory.branches) x ≡ branch_back rm (history config events) x }
{}

/// Which resource managers are down is looked back at too: one that is down was met by a failure of its record, or by a want of memory,
/// since its last restart; and one whose record failed since then is down. So, where no memory was wanted, exactly these are down.
pub fn outages_look_back()
    ensures may { (config : Config) (events : List Occurrence) (rm : ℕ) (node : NodeState)
        → node_at config (world_after config (opening config) events) (R rm) ≡ Some node → node.up ≡ false
        → is_out is_outage rm (history config events) ≡ true }
    ensures must { (config : Config) (events : List Occurrence) (rm : ℕ) (node : NodeState)
        → node_at config (world_after config (opening config) events) (R rm) ≡ Some node
        → is_out is_record_fault rm (history config events) ≡ true → node.up ≡ false }
{}

/// Each answer of a resource manager that is up is the one that looking back gives: of every client call, of a recover, of a view and
/// of a timeout; but where memory is wanted. So each such answer of a run is right by the lines of the trace before it.
pub fn answers_look_back()
    ensures up { (config : Config) (events : List Occurrence) (rm : ℕ) (node : NodeState)
        → node_at config (world_after config (opening config) events) (R rm) ≡ Some node → node.up ≡ true
        → (request : Request) (fault : Fault) → IsAmple fault
        → (world_step config (world_after config (opening config) events) (Ask (R rm) request) fault).answer
        ≡ answer_to config rm (history config events) request }
    ensures each { (config : Config) (events : List Occurrence) → AreAnswered config (history config events) }
{}

/// Keys are held once, looking back over any run: whatever a branch of a manager has put or deleted, no branch of another name there has
/// touched, prepared branches among them. So of two branches that hold one key each has only read it.
pub fn keys_held_once()
    ensures { (config : Config) (events : List Occurrence) (rm : ℕ) (x y : XidParts) → x ≢ y → (key : List ℕ)
        → is_write ((branch_back rm (history config events) x).act key) ≡ true
        → (branch_back rm (history config events) y).touched key ≡ false }
{}
