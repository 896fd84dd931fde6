//! A transaction can be ended, whoever else is down for good.
ghost use Rattle.std.specs.Prelude.{◌≡◌, ◌⊎◌, ℕ, ◌<◌, Bool, IsTrue};
ghost use Rattle.xid.specs.Transactions.{TxParts, is_participant};
ghost use Rattle.xid.specs.declared.transaction.Vote.TheVariants as votes;
ghost use Rattle.ballot.specs.Majority.{is_majority};
ghost use Rattle.protocol.specs.declared.states.Standing.TheVariants as standings;
ghost use Rattle.protocol.specs.declared.states.View.TheVariants as views;
ghost use Rattle.safety.specs.Vocabulary.{R, Stands};
ghost use Rattle.protocol.specs.Effects.{Config, is_inside};
ghost use Rattle.protocol.specs.Worlds.{World};
ghost use Rattle.protocol.specs.Facts.{HasVote};
ghost use Rattle.safety.specs.Runs.{IsReachable};
ghost use Rattle.safety.specs.Standing.{facts_at};
ghost use Rattle.progress.specs.Runs.{leader_and_quorum, leader_and_participants, leader_quorum_and_participants, Leads};
ghost use Rattle.progress.specs.Outcomes.{status_answer, HasOutcome, HasBallots, HaveEnded, IsAccepted};

/// In whatever world the events before have come to, a leader that has ballots left and a majority of the acceptors decide a
/// transaction: there are restarts, timeouts and deliveries, each at one of them, and none meets a fault, after which the leader answers
/// committed or aborted. No other leader, no other acceptor and no resource manager takes part. The cluster may be plain or bundled.
pub fn decides()
    ensures { (config : Config) (world : World) → IsReachable config world → (tx : TxParts) → IsTrue (is_inside config tx)
        → (l : ℕ) → l < config.leaders → (quorum : ℕ → Bool) → IsTrue (is_majority config.acceptors quorum)
        → HasBallots config world l quorum tx
        → Leads config (leader_and_quorum l quorum) tx (HasOutcome config l tx) world }
{}

/// Where a leader answers committed or aborted, it and the participants can go on to a world in which every participant has ended so:
/// there are restarts, timeouts and deliveries, each at one of them, and none meets a fault.
pub fn participants_follow()
    ensures committed { (config : Config) (world : World) → IsReachable config world → (tx : TxParts) → IsTrue (is_inside config tx)
        → (l : ℕ) → status_answer config world l tx ≡ Stands standings.Committed
        → Leads config (leader_and_participants l tx) tx (HaveEnded config tx views.Committed) world }
    ensures aborted { (config : Config) (world : World) → IsReachable config world → (tx : TxParts) → IsTrue (is_inside config tx)
        → (l : ℕ) → status_answer config world l tx ≡ Stands standings.Aborted
        → Leads config (leader_and_participants l tx) tx (HaveEnded config tx views.Aborted) world }
{}

/// So in every world one leader that has ballots left, a majority of the acceptors and the participants end a transaction: there are
/// such events at them alone after which every participant is committed, or every one is aborted.
pub fn ends()
    ensures { (config : Config) (world : World) → IsReachable config world → (tx : TxParts) → IsTrue (is_inside config tx)
        → (l : ℕ) → l < config.leaders → (quorum : ℕ → Bool) → IsTrue (is_majority config.acceptors quorum)
        → HasBallots config world l quorum tx
        → Leads config (leader_quorum_and_participants l quorum tx) tx
        (λ after. HaveEnded config tx views.Committed after ⊎ HaveEnded config tx views.Aborted after) world }
{}

/// What was prepared isn't lost: where a majority of the acceptors has accepted that each participant is prepared, whichever majority that
/// is, the leader and its own majority can decide committed. And where some participant hasn't stored a vote prepared, they can decide
/// aborted.
pub fn votes_decide()
    ensures committed { (config : Config) (world : World) → IsReachable config world → (tx : TxParts) → IsTrue (is_inside config tx)
        → (l : ℕ) → l < config.leaders → (quorum : ℕ → Bool) → IsTrue (is_majority config.acceptors quorum)
        → HasBallots config world l quorum tx
        → ((r : ℕ) → IsTrue (is_participant tx r) → IsAccepted config world tx r votes.Prepared)
        → Leads config (leader_and_quorum l quorum) tx (λ after. status_answer config after l tx ≡ Stands standings.Committed) world }
    ensures aborted { (config : Config) (world : World) → IsReachable config world → (tx : TxParts) → IsTrue (is_inside config tx)
        → (l : ℕ) → l < config.leaders → (quorum : ℕ → Bool) → IsTrue (is_majority config.acceptors quorum)
        → HasBallots config world l quorum tx
        → (r : ℕ) → IsTrue (is_participant tx r) → ¬ HasVote (facts_at config world (R r)) tx votes.Prepared
        → Leads config (leader_and_quorum l quorum) tx (λ after. status_answer config after l tx ≡ Stands standings.Aborted) world }
{}
