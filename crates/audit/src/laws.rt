//! What the auditor's questions say in the words of the paper. The functions have empty bodies; their clauses are the theorems.

ghost use Rattle.std.specs.Prelude.{◌≡◌, List, [], IsTrue, true, fold, map};
ghost use Rattle.std.specs.List.{range_with_len};
ghost use Rattle.xid.specs.Transactions.{is_participant};
ghost use Rattle.safety.specs.Vocabulary.{Change, Step};
ghost use Rattle.protocol.specs.Effects.{Config};
ghost use Rattle.protocol.specs.Nodes.{first_rows};
ghost use Rattle.protocol.specs.TCommit.{IsCommitMove};
ghost use Rattle.protocol.specs.Tables.{put_row};
ghost use Rattle.protocol.specs.Worlds.{Occurrence, opening, table_at, world_after};
ghost use Rattle.history.specs.Lines.{history, view_back};
ghost use Rattle.audit.specs.Consistent.{is_history_consistent};
ghost use Rattle.audit.specs.Told.{is_move};

/// A change that the auditor takes is one of a participant of its transaction, and one that the machine TCommit may make, from the views
/// that the lines before it leave to all participants; and each such change is taken.
pub fn changes_are_commit_moves()
    ensures named { (before : List Step) (change : Change) → is_move before change ≡ true → IsTrue (is_participant change.tx change.rm) }
    ensures moves { (before : List Step) (change : Change) → is_move before change ≡ true
        → IsCommitMove (is_participant change.tx) (λ rm. view_back rm before change.tx) (view_back change.rm before change.tx) change.view }
    ensures taken { (before : List Step) (change : Change) → IsTrue (is_participant change.tx change.rm)
        → IsCommitMove (is_participant change.tx) (λ rm. view_back rm before change.tx) (view_back change.rm before change.tx) change.view
        → is_move before change ≡ true }
{}

/// Whatever happens in a cluster, an auditor finds its trace consistent: the first four questions have the answer yes of the steps of the
/// machine and of the tables that its resource managers have then, whether they are up or down. The fifth is of floors, and a node of the
/// machine has none.
pub fn machine_traces_are_consistent()
    ensures { (config : Config) (events : List Occurrence)
        → is_history_consistent (λ rm. fold put_row [] (first_rows config rm)) (history config events)
        (map (table_at config (world_after config (opening config) events)) (range_with_len 0 config.managers)) ≡ true }
{}
