//! A transaction that isn't below the floors of a leader and of a majority of the acceptors can be ended, whoever else is down for good.
//! Each run has restarts, timeouts of the transaction and deliveries of messages on it alone, each at a node that takes part, and none
//! meets a fault; it moves no floor.
ghost use Rattle.std.specs.Prelude.{◌≡◌, ◌⊎◌, ℕ, ◌<◌, Bool, false, IsTrue};
ghost use Rattle.xid.specs.Transactions.{TxParts, is_participant};
ghost use Rattle.xid.specs.declared.transaction.Vote.TheVariants as votes;
ghost use Rattle.ballot.specs.Majority.{is_majority};
ghost use Rattle.safety.specs.Vocabulary.{A, L, R, Stands};
ghost use Rattle.safety.specs.Runs.{views_in};
ghost use Rattle.safety.specs.Standing.{facts_at};
ghost use Rattle.protocol.specs.declared.states.Standing.TheVariants as standings;
ghost use Rattle.protocol.specs.declared.states.View.TheVariants as views;
ghost use Rattle.protocol.specs.Effects.{Config, is_inside};
ghost use Rattle.protocol.specs.Facts.{HasVote};
ghost use Rattle.progress.specs.Runs.{leader_and_quorum};
ghost use Rattle.progress.specs.Outcomes.{HasBallots, IsAccepted};
ghost use Rattle.xid.specs.Places.{is_below};
ghost use Rattle.floors.specs.Worlds.{FlooredWorld};
ghost use Rattle.floors.specs.Runs.{HasFlooredOutcome, HaveEndedAbove, IsAtHand, IsFlooredReachable, LeadsFloored, floored_status};
ghost use Rattle.floors.specs.Runs.{leader_and_unforgetting, leader_quorum_and_unforgetting};

/// A leader that has ballots left and a majority of the acceptors, whose floors aren't above a transaction, decide it: the leader answers
/// committed or aborted then.
pub fn decides()
    ensures { (config : Config) (world : FlooredWorld) → IsFlooredReachable config world → (tx : TxParts) → IsTrue (is_inside config tx)
        → (l : ℕ) → l < config.leaders → (quorum : ℕ → Bool) → IsTrue (is_majority config.acceptors quorum)
        → IsAtHand world l quorum tx → HasBallots config world.machine l quorum tx
        → LeadsFloored config (leader_and_quorum l quorum) tx (HasFlooredOutcome config l tx) world }
{}

/// Where a leader whose floor isn't above a transaction answers committed or aborted, it and the participants whose floors aren't above it
/// either can go on to a world in which each of these has ended so.
pub fn participants_follow()
    ensures committed { (config : Config) (world : FlooredWorld) → IsFlooredReachable config world → (tx : TxParts)
        → IsTrue (is_inside config tx) → (l : ℕ) → is_below (world.floor (L l)) tx ≡ false
        → floored_status config world l tx ≡ Stands standings.Committed
        → LeadsFloored config (leader_and_unforgetting world l tx) tx (HaveEndedAbove config tx views.Committed) world }
    ensures aborted { (config : Config) (world : FlooredWorld) → IsFlooredReachable config world → (tx : TxParts)
        → IsTrue (is_inside config tx) → (l : ℕ) → is_below (world.floor (L l)) tx ≡ false
        → floored_status config world l tx ≡ Stands standings.Aborted
        → LeadsFloored config (leader_and_unforgetting world l tx) tx (HaveEndedAbove config tx views.Aborted) world }
{}

/// So one leader, a majority of the acceptors and the participants whose floors aren't above a transaction end it: each of these
/// participants is committed, or each of them is aborted.
pub fn ends()
    ensures { (config : Config) (world : FlooredWorld) → IsFlooredReachable config world → (tx : TxParts) → IsTrue (is_inside config tx)
        → (l : ℕ) → l < config.leaders → (quorum : ℕ → Bool) → IsTrue (is_majority config.acceptors quorum)
        → IsAtHand world l quorum tx → HasBallots config world.machine l quorum tx
        → LeadsFloored config (leader_quorum_and_unforgetting world l quorum tx) tx
        (λ after. HaveEndedAbove config tx views.Committed after ⊎ HaveEndedAbove config tx views.Aborted after) world }
{}

/// What was prepared isn't lost: where a majority of the acceptors has accepted that each participant is prepared, whichever majority that
/// is, the leader and its own majority can decide committed. And where some participant hasn't stored a vote prepared, they can decide
/// aborted.
pub fn votes_decide()
    ensures committed { (config : Config) (world : FlooredWorld) → IsFlooredReachable config world → (tx : TxParts)
        → IsTrue (is_inside config tx) → (l : ℕ) → l < config.leaders → (quorum : ℕ → Bool)
        → IsTrue (is_majority config.acceptors quorum) → IsAtHand world l quorum tx → HasBallots config world.machine l quorum tx
        → ((r : ℕ) → IsTrue (is_participant tx r) → IsAccepted config world.machine tx r votes.Prepared)
        → LeadsFloored config (leader_and_quorum l quorum) tx (λ after. floored_status config after l tx ≡ Stands standings.Committed)
        world }
    ensures aborted { (config : Config) (world : FlooredWorld) → IsFlooredReachable config world → (tx : TxParts)
        → IsTrue (is_inside config tx) → (l : ℕ) → l < config.leaders → (quorum : ℕ → Bool)
        → IsTrue (is_majority config.acceptors quorum) → IsAtHand world l quorum tx → HasBallots config world.machine l quorum tx
        → (r : ℕ) → IsTrue (is_participant tx r) → ¬ HasVote (facts_at config world.machine (R r)) tx votes.Prepared
        → LeadsFloored config (leader_and_quorum l quorum) tx (λ after. floored_status config after l tx ≡ Stands standings.Aborted) world }
{}

/// Nothing that is prepared waits for ever. Where a resource manager has a transaction prepared, it isn't below the floor of any leader or
/// acceptor that wasn't replaced; so a leader and a majority of these can end it there, together with the participants that still know it.
pub fn prepared_ends()
    ensures at_hand { (config : Config) (world : FlooredWorld) → IsFlooredReachable config world → (tx : TxParts) (r : ℕ)
        → views_in config world.machine tx r ≡ views.Prepared → (l : ℕ) → world.is_replaced (L l) ≡ false → (quorum : ℕ → Bool)
        → ((a : ℕ) → IsTrue (quorum a) → world.is_replaced (A a) ≡ false) → IsAtHand world l quorum tx }
    ensures ends { (config : Config) (world : FlooredWorld) → IsFlooredReachable config world → (tx : TxParts)
        → IsTrue (is_inside config tx) → (r : ℕ) → IsTrue (is_participant tx r) → views_in config world.machine tx r ≡ views.Prepared
        → (l : ℕ) → l < config.leaders → world.is_replaced (L l) ≡ false → (quorum : ℕ → Bool)
        → IsTrue (is_majority config.acceptors quorum) → ((a : ℕ) → IsTrue (quorum a) → world.is_replaced (A a) ≡ false)
        → HasBallots config world.machine l quorum tx
        → LeadsFloored config (leader_quorum_and_unforgetting world l quorum tx) tx
        (λ after. (views_in config after.machine tx r ≡ views.Committed) ⊎ (views_in config after.machine tx r ≡ views.Aborted)) world }
{}
