//! What runs of well-formed events send and store is well-formed.
ghost use Rattle.std.specs.Prelude.{◌≡◌, ℕ, ◌<◌, false, List, ◌++◌, [], length, take, Some};
ghost use Rattle.std.specs.List.{AllByRecursion};
ghost use Rattle.wire.specs.Decoding.{spells_message};
ghost use Rattle.wire.specs.Grammar.{spelling};
ghost use Rattle.wire.specs.Messages.{IsMessage};
ghost use Rattle.ballot.specs.Greatest.{IsIn};
ghost use Rattle.stable_record.specs.Facts.{IsFact};
ghost use Rattle.protocol.specs.Basics.{Fact};
ghost use Rattle.safety.specs.Vocabulary.{NodeId};
ghost use Rattle.protocol.specs.Effects.{Config};
ghost use Rattle.protocol.specs.Nodes.{NodeState};
ghost use Rattle.protocol.specs.Worlds.{World, Datagram, Occurrence, node_at, world_after};
ghost use Rattle.safety.specs.Forms.{IsEvent, IsSized, IsWellReached};
ghost use Rattle.safety.specs.Runs.{IsReachable};

/// A run of well-formed events is a run; and one from a world that such a run leads to leads to another.
pub fn well_formed_runs_reach()
    ensures reachable { (config : Config) (world : World) → IsWellReached config world → IsReachable config world }
    ensures after { (config : Config) (world : World) → IsWellReached config world → (events : List Occurrence)
        → AllByRecursion (λ occurrence. IsEvent occurrence.event) events → IsWellReached config (world_after config world events) }
{}

/// Each datagram's message is one, in its ranges. So the spelling of none of them begins that of another, and what a cut leaves of
/// one spells nothing.
pub fn datagrams_are_messages()
    ensures messages { (config : Config) → IsSized config → (world : World) → IsWellReached config world
        → (d : Datagram) → IsIn world.net d → IsMessage d.message }
    ensures apart { (config : Config) → IsSized config → (world : World) → IsWellReached config world
        → (d e : Datagram) → IsIn world.net d → IsIn world.net e
        → (rest : List ℕ) → spelling d.message ++ rest ≡ spelling e.message → (d.message ≡ e.message) × (rest ≡ []) }
    ensures cut { (config : Config) → IsSized config → (world : World) → IsWellReached config world
        → (d : Datagram) → IsIn world.net d → (k : ℕ) → k < length (spelling d.message)
        → spells_message (take k (spelling d.message)) ≡ false }
{}

/// Each fact of each node is one that a record may hold.
pub fn facts_are_storable()
    ensures { (config : Config) → IsSized config → (world : World) → IsWellReached config world → (who : NodeId) (node : NodeState)
        → node_at config world who ≡ Some node → (fact : Fact) → IsIn node.facts fact → IsFact fact }
{}
