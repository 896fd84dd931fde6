//! All processes of a cluster together: whatever befalls them, what the machine with floors does explains what they answer.
ghost use Rattle.std.specs.Prelude.{◌≡◌, ℕ, true, IsTrue, Ok};
ghost use Rattle.xid.specs.Transactions.{TxParts, is_participant};
ghost use Rattle.ballot.specs.Greatest.{IsIn};
ghost use Rattle.protocol.specs.declared.nodes.NodeId.TheVariants.{R};
ghost use Rattle.protocol.specs.declared.states.Standing.TheVariants as standings;
ghost use Rattle.protocol.specs.declared.states.View.TheVariants as views;
ghost use Rattle.protocol.specs.Effects.{Config};
ghost use Rattle.node_core.specs.Configs.{is_among};
ghost use Rattle.port.specs.Members.{MemberParts};
ghost use Rattle.floored_groups.specs.Clusters.{AllProcesses, IsRun, Reply, StandFor, TellsClient, all_replies};
ghost use Rattle.floored_groups.specs.Processes.{AnswersView};

/// Whatever becomes of the processes of a cluster, each handed only what processes of it have sent it or told it, there is a world to which
/// groups with floors lead in which each stands for its node, and in which all stands that was sent and told. Each reply but a refusal of
/// what wasn't taken was given there. So what is proved of such worlds is proved of the processes.
pub fn processes_are_clusters()
    ensures { (config : Config) (all : AllProcesses) (run : IsRun config all) → StandFor config all (all_replies config all run) }
{}

/// So no two processes contradict each other: wherever a run has come to, no participant of a transaction answers that it is committed
/// there while another answers that it is aborted.
pub fn views_agree()
    ensures { (config : Config) (all : AllProcesses) → IsRun config all → (tx : TxParts) (r q : ℕ) → IsTrue (is_participant tx r)
        → IsTrue (is_participant tx q) → is_among config (R r) ≡ true → is_among config (R q) ≡ true → (mine other : MemberParts)
        → AnswersView tx (all.members (R r)) mine (Ok views.Committed) → AnswersView tx (all.members (R q)) other (Ok views.Aborted)
        → ⊥ }
{}

/// Nor do they tell clients different outcomes: where in a run a leader's process answered a commit or a status committed, none answered
/// aborted, before or after it, the same or another.
pub fn processes_tell_one_outcome()
    ensures { (config : Config) (all : AllProcesses) (run : IsRun config all) (tx : TxParts) (l other : ℕ) (one two : Reply)
        → IsIn (all_replies config all run) one → TellsClient l tx standings.Committed one
        → IsIn (all_replies config all run) two → ¬ TellsClient other tx standings.Aborted two }
{}

/// And what a client was told holds, however far the run has come since: after an answer committed no participant's process answers that it
/// aborted the transaction; after an answer aborted none answers that it committed it.
pub fn told_outcomes_hold()
    ensures committed { (config : Config) (all : AllProcesses) (run : IsRun config all) (tx : TxParts) (l : ℕ) (told : Reply)
        → IsIn (all_replies config all run) told → TellsClient l tx standings.Committed told → (r : ℕ) → IsTrue (is_participant tx r)
        → is_among config (R r) ≡ true → (mine : MemberParts) → ¬ AnswersView tx (all.members (R r)) mine (Ok views.Aborted) }
    ensures aborted { (config : Config) (all : AllProcesses) (run : IsRun config all) (tx : TxParts) (l : ℕ) (told : Reply)
        → IsIn (all_replies config all run) told → TellsClient l tx standings.Aborted told → (r : ℕ) → IsTrue (is_participant tx r)
        → is_among config (R r) ≡ true → (mine : MemberParts) → ¬ AnswersView tx (all.members (R r)) mine (Ok views.Committed) }
{}
