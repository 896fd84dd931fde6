//! The order of the first commits anywhere explains the tables of all processes.
ghost use Rattle.protocol.specs.Effects.{Config};
ghost use Rattle.floored_groups.specs.Clusters.{AllProcesses, IsRun};
ghost use Rattle.process_history.specs.SerialTables.{AreSerial};

/// Whatever becomes of the processes of a cluster, there is a run of events with floors, one at a time, to a world for which all of them
/// stand; and the order of its first commits explains every table that one of them answers: it is its first contents with the accepted
/// writes of the transactions that it committed, one whole transaction after another in that order.
pub fn tables_are_serial()
    ensures { (config : Config) (all : AllProcesses) → IsRun config all → AreSerial config all }
{}
