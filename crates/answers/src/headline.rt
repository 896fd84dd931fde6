//! A leader that answers a client committed or aborted says what was decided, and nothing that happens later goes against it.
ghost use Rattle.std.specs.Prelude.{◌≢◌, ℕ, List, IsTrue};
ghost use Rattle.xid.specs.Transactions.{TxParts, is_participant};
ghost use Rattle.xid.specs.declared.transaction.Vote.TheVariants as votes;
ghost use Rattle.ballot.specs.Greatest.{IsIn};
ghost use Rattle.protocol.specs.declared.events.Step.{Step as Made};
ghost use Rattle.protocol.specs.declared.states.Standing.TheVariants as standings;
ghost use Rattle.protocol.specs.declared.states.View.TheVariants as views;
ghost use Rattle.protocol.specs.Effects.{Config};
ghost use Rattle.protocol.specs.TCommit.{IsReady};
ghost use Rattle.protocol.specs.Worlds.{World, Occurrence, trace, world_after};
ghost use Rattle.safety.specs.Items.{Voted};
ghost use Rattle.safety.specs.Runs.{IsReachable, views_in};
ghost use Rattle.safety.specs.Standing.{Stands};
ghost use Rattle.answers.specs.Answers.{IsAnswered, Tells, HavePrepared, NoneIs};

/// In whatever world the events before have come to: where a leader answers committed, each participant is prepared or committed, and
/// has stored a vote prepared; where it answers aborted, no participant is committed. The request is to commit or for the status, and
/// any fault may meet it.
pub fn answered_is_decided()
    ensures ready { (config : Config) (world : World) → IsReachable config world → (l : ℕ) (tx : TxParts)
        → IsAnswered config world l tx standings.Committed → (q : ℕ) → IsTrue (is_participant tx q)
        → IsReady (views_in config world tx q) }
    ensures voted { (config : Config) (world : World) → IsReachable config world → (l : ℕ) (tx : TxParts)
        → IsAnswered config world l tx standings.Committed → (q : ℕ) → IsTrue (is_participant tx q)
        → Stands config world (Voted q tx votes.Prepared) }
    ensures aborted { (config : Config) (world : World) → IsReachable config world → (l : ℕ) (tx : TxParts)
        → IsAnswered config world l tx standings.Aborted → (q : ℕ) → IsTrue (is_participant tx q)
        → views_in config world tx q ≢ views.Committed }
{}

/// And so it stays, whatever events follow, with whatever faults: after an answer committed no participant is ever aborted, each being
/// prepared or committed, with its vote prepared stored; and after an answer aborted none is ever committed. The event that was answered
/// may be the first of them.
pub fn answers_last()
    ensures committed { (config : Config) (world : World) → IsReachable config world → (l : ℕ) (tx : TxParts)
        → IsAnswered config world l tx standings.Committed → (events : List Occurrence) → (q : ℕ) → IsTrue (is_participant tx q)
        → views_in config (world_after config world events) tx q ≢ views.Aborted }
    ensures ready { (config : Config) (world : World) → IsReachable config world → (l : ℕ) (tx : TxParts)
        → IsAnswered config world l tx standings.Committed → (events : List Occurrence) → (q : ℕ) → IsTrue (is_participant tx q)
        → IsReady (views_in config (world_after config world events) tx q) }
    ensures voted { (config : Config) (world : World) → IsReachable config world → (l : ℕ) (tx : TxParts)
        → IsAnswered config world l tx standings.Committed → (events : List Occurrence) → (q : ℕ) → IsTrue (is_participant tx q)
        → Stands config (world_after config world events) (Voted q tx votes.Prepared) }
    ensures aborted { (config : Config) (world : World) → IsReachable config world → (l : ℕ) (tx : TxParts)
        → IsAnswered config world l tx standings.Aborted → (events : List Occurrence) → (q : ℕ) → IsTrue (is_participant tx q)
        → views_in config (world_after config world events) tx q ≢ views.Committed }
{}

/// Nor does a leader ever answer the other outcome, whichever leader it is, then or after whatever events.
pub fn answers_agree()
    ensures committed { (config : Config) (world : World) → IsReachable config world → (l : ℕ) (tx : TxParts)
        → IsAnswered config world l tx standings.Committed → (events : List Occurrence) → (other : ℕ)
        → ¬ IsAnswered config (world_after config world events) other tx standings.Aborted }
    ensures aborted { (config : Config) (world : World) → IsReachable config world → (l : ℕ) (tx : TxParts)
        → IsAnswered config world l tx standings.Aborted → (events : List Occurrence) → (other : ℕ)
        → ¬ IsAnswered config (world_after config world events) other tx standings.Committed }
{}

/// So the steps of a run tell one outcome of a transaction: where one step is an answer committed, no step before or after it is an answer
/// aborted, of the same leader or another.
pub fn runs_tell_one_outcome()
    ensures { (config : Config) (world : World) → IsReachable config world → (events : List Occurrence) (tx : TxParts) (l other : ℕ)
        (one two : Made) → IsIn (trace config world events) one → Tells l tx standings.Committed one
        → IsIn (trace config world events) two → ¬ Tells other tx standings.Aborted two }
{}

/// And where the run ends, what was told holds: after an answer committed every participant has stored a vote prepared, and is prepared or
/// committed; after an answer aborted none is committed.
pub fn told_outcomes_hold()
    ensures committed { (config : Config) (world : World) → IsReachable config world → (events : List Occurrence) (tx : TxParts) (l : ℕ)
        (told : Made) → IsIn (trace config world events) told → Tells l tx standings.Committed told
        → HavePrepared config tx (world_after config world events) }
    ensures aborted { (config : Config) (world : World) → IsReachable config world → (events : List Occurrence) (tx : TxParts) (l : ℕ)
        (told : Made) → IsIn (trace config world events) told → Tells l tx standings.Aborted told
        → NoneIs config tx views.Committed (world_after config world events) }
{}
