//! What slots and views come to, fact by fact; and the worlds that runs of events lead to.
ghost use Rattle.std.specs.Prelude.{◌≡◌, ℕ, true, [], List};
ghost use Rattle.xid.specs.Transactions.{TxParts};
ghost use Rattle.protocol.specs.Basics.{Fact};
ghost use Rattle.safety.specs.Vocabulary.{A};
ghost use Rattle.protocol.specs.Effects.{Config};
ghost use Rattle.protocol.specs.Facts.{slot, view};
ghost use Rattle.protocol.specs.Nodes.{all_play};
ghost use Rattle.protocol.specs.Worlds.{World, Occurrence, opening, world_after};
ghost use Rattle.safety.specs.Laws.{IsSlot, IsViewOf};
ghost use Rattle.safety.specs.Runs.{IsReachable};

/// A slot is what the facts of an acceptor say: its ballot is the greatest of a promise or an accept, or 0 where there is none; and
/// it holds the greatest accept.
pub fn slot_is_greatest()
    ensures { (config : Config) (a : ℕ) (facts : List Fact) → all_play config (A a) [] facts ≡ true
        → (tx : TxParts) (i : ℕ) → IsSlot facts tx i (slot facts tx i) }
{}

/// A view is one of four, by the facts alone.
pub fn view_is_one_of_four()
    ensures { (facts : List Fact) (tx : TxParts) → IsViewOf facts tx (view facts tx) }
{}

/// The worlds that a cluster can come to are those that runs of events from the opening one lead to; and a run from one of them
/// leads to another.
pub fn runs_reach()
    ensures run { (config : Config) (world : World) → IsReachable config world
        → (events : List Occurrence) × (world_after config (opening config) events ≡ world) }
    ensures after { (config : Config) (world : World) → IsReachable config world → (events : List Occurrence)
        → IsReachable config (world_after config world events) }
{}
