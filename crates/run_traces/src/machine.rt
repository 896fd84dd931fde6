//! What happens in a cluster, each node of which has a floor, can be told in the lines of a trace.
ghost use Rattle.std.specs.Prelude.{List, map};
ghost use Rattle.std.specs.List.{All, range_with_len};
ghost use Rattle.protocol.specs.Effects.{Config};
ghost use Rattle.protocol.specs.Worlds.{Occurrence, table_at};
ghost use Rattle.floors.specs.Runs.{floored_opening};
ghost use Rattle.floors.specs.Worlds.{floored_trace, floored_world_after};
ghost use Rattle.net_script.specs.declared.values.Entry.{Entry};
ghost use Rattle.net_script.specs.TraceLines.{AreFinalRows};
ghost use Rattle.net_script.specs.TraceReading.{IsEntry};
ghost use Rattle.run_traces.specs.Machine.{CanBeTold};

/// Where a trace may tell of what happened, each step is one of its entries: the answer, the changed view, the datagrams and the notices
/// are ones that lines may have. And the tables that its resource managers have then are last rows: they ascend, within the limits.
pub fn steps_are_told()
    ensures entries { (config : Config) (happened : List Occurrence) → CanBeTold config happened
        → All IsEntry (map Entry.Step (floored_trace config (floored_opening config) happened)) }
    ensures finals { (config : Config) (happened : List Occurrence) → CanBeTold config happened
        → All AreFinalRows
        (map (table_at config (floored_world_after config (floored_opening config) happened).machine) (range_with_len 0 config.managers)) }
{}
