//! Writes and tables: those of a resource manager are the ones looked back at.
ghost use Rattle.std.specs.Prelude.{◌≡◌, ◌≢◌, ℕ, List, Some, None, true};
ghost use Rattle.xid.specs.Names.{XidParts};
ghost use Rattle.xid.specs.Transactions.{TxParts, xid_at};
ghost use Rattle.stable_record.specs.declared.fact.FactKind.TheVariants as stored;
ghost use Rattle.protocol.specs.Basics.{Touched};
ghost use Rattle.safety.specs.Vocabulary.{R};
ghost use Rattle.protocol.specs.Effects.{Config};
ghost use Rattle.protocol.specs.Managers.{act_on, view_named};
ghost use Rattle.protocol.specs.Nodes.{NodeState, first_rows};
ghost use Rattle.protocol.specs.Worlds.{Occurrence, opening, node_at, table_at, world_after};
ghost use Rattle.protocol.specs.Holds.{IsIn};
ghost use Rattle.safety.specs.Standing.{facts_at};
ghost use Rattle.history.specs.Lines.{history};
ghost use Rattle.history.specs.LookingBack.{writes_in, last_act_on};
ghost use Rattle.history.specs.Writes.{actions_since_start, table_back};

/// The writes that are kept for a branch are those that were accepted in it since it was last started: of a vote prepared, as it is
/// stored, and of a branch in memory, where its resource manager is up.
pub fn writes_are_kept()
    ensures voted { (config : Config) (events : List Occurrence) (rm : ℕ) (tx : TxParts) (keys : List Touched) (x : XidParts)
        → IsIn (facts_at config (world_after config (opening config) events) (R rm)) (stored.VotePrepared tx keys)
        → xid_at tx rm ≡ Some x → (key : List ℕ)
        → act_on keys key ≡ last_act_on (writes_in (actions_since_start rm x (history config events))) key }
    ensures unprepared { (config : Config) (events : List Occurrence) (rm : ℕ) (node : NodeState)
        → node_at config (world_after config (opening config) events) (R rm) ≡ Some node → node.up ≡ true → (x : XidParts)
        → (view_named node.memory.branches x).state ≢ None → (key : List ℕ)
        → (view_named node.memory.branches x).act key ≡ last_act_on (writes_in (actions_since_start rm x (history config events))) key }
{}

/// The table of each resource manager, whether it is up or down, is its first contents with the accepted writes of its committed
/// branches, one transaction after the other, in the order in which it committed them.
pub fn tables_look_back()
    ensures { (config : Config) (events : List Occurrence) (rm : ℕ) (node : NodeState)
        → node_at config (world_after config (opening config) events) (R rm) ≡ Some node
        → table_at config (world_after config (opening config) events) rm
        ≡ table_back (first_rows config rm) rm (history config events) }
{}
