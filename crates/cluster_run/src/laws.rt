//! What the machine's client calls come to in a cluster, and what the trace of a script says of itself.
ghost use Rattle.std.specs.Prelude.{◌≡◌, ℕ, List, Some};
ghost use Rattle.xid.specs.Names.{XidParts};
ghost use Rattle.safety.specs.Vocabulary.{R, Action, Row};
ghost use Rattle.protocol.specs.Managers.{stored_votes, on_call};
ghost use Rattle.protocol.specs.Effects.{Config};
ghost use Rattle.protocol.specs.Facts.{is_spent};
ghost use Rattle.protocol.specs.Nodes.{NodeState};
ghost use Rattle.protocol.specs.Tables.{table};
ghost use Rattle.protocol.specs.Worlds.{Occurrence, node_at};
ghost use Rattle.floors.specs.Worlds.{FlooredWorld};
ghost use Rattle.floors.specs.Runs.{IsFlooredReachable};
ghost use Rattle.net_script.specs.declared.values.Script.{Script};
ghost use Rattle.net_script.specs.declared.values.Trace.{Trace};
ghost use Rattle.cluster_run.specs.MachineCalls.{IsOneCall, AnswersNamed, branch_view};
ghost use Rattle.cluster_run.specs.Traces.{config_of, run_history, IsTraceOf, LooksBack, IsSerial};
ghost use Rattle.cluster_run.specs.Happenings.{AreUnmet};
ghost use Rattle.cluster_run.specs.Headlines.{AreSafe};
ghost use Rattle.cluster_run.specs.Runs.{IsRun};

/// Whatever happens in the cluster of a script, floors that rise among it, its trace looks back over itself: each answer of a resource
/// manager is one that the steps before it leave to it, or, of a name below its floor, the one that is given to what is over; and each
/// table at the end is the one that all steps make. At each of its steps it keeps to the specification of transaction commit. And one
/// serial order explains its tables and the reads of committed transactions.
pub fn traces_look_back()
    ensures back { (script : Script) (happened : List Occurrence) (trace : Trace) → IsTraceOf script happened trace
        → LooksBack (config_of script) happened trace }
    ensures safe { (config : Config) (happened : List Occurrence) → AreSafe (run_history config happened) }
    ensures serial { (script : Script) (happened : List Occurrence) (trace : Trace) → IsTraceOf script happened trace
        → IsSerial (config_of script) happened trace }
{}

/// Where no event of a script's run met want of memory, what is printed is a function of the script.
pub fn ample_runs_are_one()
    ensures { (bytes one other : List ℕ) (a : IsRun bytes one) (b : IsRun bytes other) → AreUnmet a.is.happened → AreUnmet b.is.happened
        → one ≡ other }
{}

/// Whatever has happened in a cluster, a client call at a resource manager, of a name that isn't below its floor, is one call on its
/// branches, prepared ones among them: it leaves what one call leaves, and is answered by the table of client calls; only of a spent name
/// no branch can be started.
pub fn calls_are_one_call()
    ensures left { (config : Config) (world : FlooredWorld) → IsFlooredReachable config world → (rm : ℕ) (node : NodeState)
        → node_at config world.machine (R rm) ≡ Some node → (first : List Row) (x : XidParts) (action : Action)
        → IsOneCall rm node.facts node.memory.branches x action
        (on_call rm (stored_votes rm node.facts) (table first node.facts) node.memory.branches x action) }
    ensures answered { (config : Config) (world : FlooredWorld) → IsFlooredReachable config world → (rm : ℕ) (node : NodeState)
        → node_at config world.machine (R rm) ≡ Some node → (first : List Row) (x : XidParts) (action : Action)
        → AnswersNamed (is_spent rm node.facts x) (table first node.facts) (branch_view rm node.facts node.memory.branches) x action
        (on_call rm (stored_votes rm node.facts) (table first node.facts) node.memory.branches x action).answer }
{}
