//! One serial order: that of the first commits anywhere explains every table, and every read of a committed transaction.
ghost use Rattle.std.specs.Prelude.{◌≡◌, ◌≢◌, ℕ, List, ◌∷◌, ◌++◌, filter_map, Some, true, false};
ghost use Rattle.std.specs.List.{list_any};
ghost use Rattle.xid.specs.Names.{XidParts};
ghost use Rattle.xid.specs.Transactions.{TxParts, xid_at};
ghost use Rattle.safety.specs.Vocabulary.{R, Get, Step};
ghost use Rattle.protocol.specs.Branches.{get_answer};
ghost use Rattle.protocol.specs.Effects.{Config};
ghost use Rattle.protocol.specs.Nodes.{NodeState, first_rows};
ghost use Rattle.protocol.specs.Worlds.{Occurrence, opening, node_at, table_at, world_after};
ghost use Rattle.protocol.specs.Holds.{IsIn};
ghost use Rattle.history.specs.Calls.{call_done};
ghost use Rattle.history.specs.Lines.{history};
ghost use Rattle.history.specs.LookingBack.{is_start, done_at};
ghost use Rattle.history.specs.SerialOrder.{first_commits, committed_at, stands_first, voted_branch, is_conflict};
ghost use Rattle.history.specs.SerialOrder.{serial_table, serial_read};
ghost use Rattle.history.specs.Writes.{commit_order};

/// Conflicts are ordered: of two transactions that were committed somewhere, and whose branches at one manager had touched one key when it
/// voted prepared, one of them having put or deleted it, the one that this manager committed first was committed first anywhere.
pub fn conflicts_are_ordered()
    ensures { (config : Config) (events : List Occurrence) (rm : ℕ) (tx other : TxParts) (key : List ℕ)
        → IsIn (first_commits (history config events)) tx → IsIn (first_commits (history config events)) other → tx ≢ other
        → is_conflict (voted_branch rm (history config events) tx) (voted_branch rm (history config events) other) key ≡ true
        → stands_first tx other (commit_order rm (history config events)) ≡ true
        → stands_first tx other (first_commits (history config events)) ≡ true }
{}

/// Tables are serial: the table of each manager, whether it is up or down, is its first contents with the accepted writes of the
/// transactions that it committed, one whole transaction after another, in the order of the first commits anywhere.
pub fn tables_are_serial()
    ensures { (config : Config) (events : List Occurrence) (rm : ℕ) (node : NodeState)
        → node_at config (world_after config (opening config) events) (R rm) ≡ Some node
        → table_at config (world_after config (opening config) events) rm
        ≡ serial_table (first_rows config rm) rm (history config events) (committed_at rm (history config events)) }
{}

/// Reads are serial: a value, or none, that a get was answered in the branch of a transaction which some manager has committed, since
/// that branch was last started, is what the serial run shows there: the table after all transactions before its own, those among them
/// that name the manager and haven't committed there yet, with the branch's own earlier writes over it.
pub fn reads_are_serial()
    ensures { (config : Config) (events : List Occurrence) (rm : ℕ) (x : XidParts) (tx : TxParts) (key : List ℕ)
        (later before : List Step) (step : Step)
        → history config events ≡ later ++ step ∷ before → call_done rm x step.event step.answer ≡ Some (Get key)
        → list_any is_start (filter_map (done_at rm x) later) ≡ false
        → xid_at tx rm ≡ Some x → IsIn (first_commits (history config events)) tx
        → step.answer ≡ get_answer (serial_read (first_rows config rm) rm (history config events) before tx x key) }
{}
