//! A cluster whose nodes work in groups isn't stuck, whatever groups were stored or stopped before: what a stopped group never sent isn't
//! needed. The laws are those of `progress` and `commits`, over the worlds that such a cluster comes to, and over turns in place of events.
ghost use Rattle.std.specs.Prelude.{◌≡◌, ◌⊎◌, ℕ, ◌<◌, Bool, IsTrue, List, [], ◌∷◌};
ghost use Rattle.xid.specs.Transactions.{TxParts, is_participant};
ghost use Rattle.xid.specs.declared.transaction.Vote.TheVariants as votes;
ghost use Rattle.ballot.specs.Majority.{is_majority};
ghost use Rattle.protocol.specs.declared.requests.Request.TheVariants as requests;
ghost use Rattle.protocol.specs.declared.states.Standing.TheVariants as standings;
ghost use Rattle.protocol.specs.declared.states.View.TheVariants as views;
ghost use Rattle.safety.specs.Vocabulary.{L, R, Stands};
ghost use Rattle.protocol.specs.Effects.{Config, is_inside};
ghost use Rattle.protocol.specs.Worlds.{World};
ghost use Rattle.protocol.specs.Facts.{HasVote};
ghost use Rattle.protocol.specs.Nodes.{Asked};
ghost use Rattle.safety.specs.Standing.{facts_at};
ghost use Rattle.progress.specs.Runs.{leader_and_quorum, leader_and_participants, leader_quorum_and_participants};
ghost use Rattle.progress.specs.Outcomes.{status_answer, HasOutcome, HasBallots, HaveEnded, IsAccepted};
ghost use Rattle.commits.specs.Idle.{IsUp, HasIdleBranch};
ghost use Rattle.commits.specs.Votes.{HaveVoted, IsAtFirst};
ghost use Rattle.groups.specs.Runs.{IsReached};
ghost use Rattle.groups.specs.Turns.{Turn, Worked, CanAllBeTaken, after_turn, after_turns, LeadsInTurns};

/// In whatever world such a cluster has come to, a leader that has ballots left and a majority of the acceptors decide a transaction: there
/// are restarts, timeouts and deliveries, each at one of them, after which the leader answers committed or aborted, whether the nodes take
/// them one at a time or in groups of many.
pub fn decides()
    ensures { (config : Config) (world : World) → IsReached config world → (tx : TxParts) → IsTrue (is_inside config tx)
        → (l : ℕ) → l < config.leaders → (quorum : ℕ → Bool) → IsTrue (is_majority config.acceptors quorum)
        → HasBallots config world l quorum tx
        → LeadsInTurns config (leader_and_quorum l quorum) tx (HasOutcome config l tx) world }
{}

/// Where a leader answers committed or aborted, it and the participants can go on to a world in which every participant has ended so.
pub fn participants_follow()
    ensures committed { (config : Config) (world : World) → IsReached config world → (tx : TxParts) → IsTrue (is_inside config tx)
        → (l : ℕ) → status_answer config world l tx ≡ Stands standings.Committed
        → LeadsInTurns config (leader_and_participants l tx) tx (HaveEnded config tx views.Committed) world }
    ensures aborted { (config : Config) (world : World) → IsReached config world → (tx : TxParts) → IsTrue (is_inside config tx)
        → (l : ℕ) → status_answer config world l tx ≡ Stands standings.Aborted
        → LeadsInTurns config (leader_and_participants l tx) tx (HaveEnded config tx views.Aborted) world }
{}

/// So in every such world one leader that has ballots left, a majority of the acceptors and the participants end a transaction: every
/// participant is committed, or every one is aborted.
pub fn ends()
    ensures { (config : Config) (world : World) → IsReached config world → (tx : TxParts) → IsTrue (is_inside config tx)
        → (l : ℕ) → l < config.leaders → (quorum : ℕ → Bool) → IsTrue (is_majority config.acceptors quorum)
        → HasBallots config world l quorum tx
        → LeadsInTurns config (leader_quorum_and_participants l quorum tx) tx
        (λ after. HaveEnded config tx views.Committed after ⊎ HaveEnded config tx views.Aborted after) world }
{}

/// Where a majority of the acceptors has accepted that each participant is prepared, the leader and its own majority can decide committed.
/// And where some participant hasn't stored a vote prepared, they can decide aborted.
pub fn votes_decide()
    ensures committed { (config : Config) (world : World) → IsReached config world → (tx : TxParts) → IsTrue (is_inside config tx)
        → (l : ℕ) → l < config.leaders → (quorum : ℕ → Bool) → IsTrue (is_majority config.acceptors quorum)
        → HasBallots config world l quorum tx
        → ((r : ℕ) → IsTrue (is_participant tx r) → IsAccepted config world tx r votes.Prepared)
        → LeadsInTurns config (leader_and_quorum l quorum) tx (λ after. status_answer config after l tx ≡ Stands standings.Committed)
        world }
    ensures aborted { (config : Config) (world : World) → IsReached config world → (tx : TxParts) → IsTrue (is_inside config tx)
        → (l : ℕ) → l < config.leaders → (quorum : ℕ → Bool) → IsTrue (is_majority config.acceptors quorum)
        → HasBallots config world l quorum tx
        → (r : ℕ) → IsTrue (is_participant tx r) → ¬ HasVote (facts_at config world (R r)) tx votes.Prepared
        → LeadsInTurns config (leader_and_quorum l quorum) tx (λ after. status_answer config after l tx ≡ Stands standings.Aborted)
        world }
{}

/// And a transaction can commit there. Where each participant has stored a vote prepared, and the acceptors of a majority have taken part
/// in no ballot of the transaction above 0, a leader that has ballots left, this majority and the participants can commit it, whether or
/// not a vote was ever sent: also where each group that stored one was stopped.
pub fn votes_lead_to_commit()
    ensures answered { (config : Config) (world : World) → IsReached config world → (tx : TxParts) → IsTrue (is_inside config tx)
        → (l : ℕ) → l < config.leaders → (quorum : ℕ → Bool) → IsTrue (is_majority config.acceptors quorum)
        → HasBallots config world l quorum tx → IsAtFirst config quorum tx world → HaveVoted config tx world
        → LeadsInTurns config (leader_quorum_and_participants l quorum tx) tx
        (λ after. status_answer config after l tx ≡ Stands standings.Committed) world }
    ensures committed { (config : Config) (world : World) → IsReached config world → (tx : TxParts) → IsTrue (is_inside config tx)
        → (l : ℕ) → l < config.leaders → (quorum : ℕ → Bool) → IsTrue (is_majority config.acceptors quorum)
        → HasBallots config world l quorum tx → IsAtFirst config quorum tx world → HaveVoted config tx world
        → LeadsInTurns config (leader_quorum_and_participants l quorum tx) tx (HaveEnded config tx views.Committed) world }
{}

/// And so can one of which no vote is stored yet: where each participant is up with no tear armed, and has an idle branch of the name that
/// the transaction has there, a leader that is up takes a client's request to commit it, and from the world after that turn the leader, a
/// majority that has taken part in no ballot above 0, and the participants can commit it, in the same way.
pub fn idle_branches_lead_to_commit()
    ensures answered { (config : Config) (world : World) → IsReached config world → (tx : TxParts) → IsTrue (is_inside config tx)
        → (l : ℕ) → l < config.leaders → (quorum : ℕ → Bool) → IsTrue (is_majority config.acceptors quorum)
        → HasBallots config world l quorum tx → IsAtFirst config quorum tx world
        → ((r : ℕ) → IsTrue (is_participant tx r) → HasIdleBranch config world tx r) → IsUp config world (L l)
        → LeadsInTurns config (leader_quorum_and_participants l quorum tx) tx
        (λ after. status_answer config after l tx ≡ Stands standings.Committed)
        (after_turn config world (Worked (L l) (Asked (requests.Commit tx) ∷ []))) }
    ensures committed { (config : Config) (world : World) → IsReached config world → (tx : TxParts) → IsTrue (is_inside config tx)
        → (l : ℕ) → l < config.leaders → (quorum : ℕ → Bool) → IsTrue (is_majority config.acceptors quorum)
        → HasBallots config world l quorum tx → IsAtFirst config quorum tx world
        → ((r : ℕ) → IsTrue (is_participant tx r) → HasIdleBranch config world tx r) → IsUp config world (L l)
        → LeadsInTurns config (leader_quorum_and_participants l quorum tx) tx (HaveEnded config tx views.Committed)
        (after_turn config world (Worked (L l) (Asked (requests.Commit tx) ∷ []))) }
{}

/// Turns lead from each world of such a cluster to another.
pub fn turns_go_on()
    ensures { (config : Config) (world : World) → IsReached config world → (turns : List Turn) → CanAllBeTaken config world turns
        → IsReached config (after_turns config world turns) }
{}
