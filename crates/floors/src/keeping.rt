//! A node needs nothing of what stands below its floor: what it does by the facts about names at or above it, and its table, is what it
//! does by all facts.
ghost use Rattle.std.specs.Prelude.{◌≡◌, ◌⊎◌, ℕ, true, false, List, [], ◌∷◌, ◌++◌, Option, Some};
ghost use Rattle.ballot.specs.Greatest.{IsIn};
ghost use Rattle.xid.specs.Transactions.{TxParts};
ghost use Rattle.stable_record.specs.Facts.{fact_tx};
ghost use Rattle.stable_record.specs.declared.fact.FactKind.TheVariants as stored;
ghost use Rattle.protocol.specs.Basics.{Fact};
ghost use Rattle.safety.specs.Vocabulary.{NodeId, L, Row};
ghost use Rattle.safety.specs.Standing.{facts_at};
ghost use Rattle.protocol.specs.Effects.{Config};
ghost use Rattle.protocol.specs.Nodes.{NodeState, Memory, Input, Fault, all_play, effect_of, in_memory};
ghost use Rattle.protocol.specs.Tables.{keys_voted, table, with_writes};
ghost use Rattle.protocol.specs.Worlds.{node_at};
ghost use Rattle.xid.specs.Places.{Place, is_below};
ghost use Rattle.protocol.specs.Kept.{kept_facts, kept_memory};
ghost use Rattle.floors.specs.Nodes.{is_input_below};
ghost use Rattle.floors.specs.Worlds.{FlooredWorld, FlooredEvent, floored_step};
ghost use Rattle.floors.specs.Runs.{IsFlooredReachable, is_put_in};
ghost use Rattle.floors.specs.Kept.{kept_effect};

/// On each input that isn't below its floor a node does the same by what it keeps as by all facts: the answer, the fact that is stored,
/// what is sent, and what is kept in memory.
pub fn effects_are_kept()
    ensures { (config : Config) (world : FlooredWorld) → IsFlooredReachable config world → (who : NodeId) (node : NodeState)
        → node_at config world.machine who ≡ Some node → (input : Input) → is_input_below (world.floor who) input ≡ false
        → kept_effect config who (world.floor who) node.facts node.memory input ≡ effect_of config who node.facts node.memory input }
{}

/// Nothing is stored about a name below a node's floor: after each event each of its facts was there before, or is about a name at or above
/// the floor. So what it keeps grows as its facts do.
pub fn nothing_below_is_stored()
    ensures { (config : Config) (world : FlooredWorld) (event : FlooredEvent) (fault : Fault) (who : NodeId) (fact : Fact)
        → IsIn (facts_at config (floored_step config world event fault).world.machine who) fact
        → IsIn (facts_at config world.machine who) fact ⊎ (is_below (world.floor who) (fact_tx fact) ≡ false) }
{}

/// What a node keeps of its facts is a record that plays, so a restart by it is never refused as damaged.
pub fn records_play()
    ensures { (config : Config) (world : FlooredWorld) → IsFlooredReachable config world → (who : NodeId)
        → all_play config who [] (kept_facts (world.floor who) (facts_at config world.machine who)) ≡ true }
{}

/// A blank node that stands in for a lost one lacks nothing: of the lost one's facts none is about a name at or above the floor that it
/// begins with, so what it keeps is what the lost one would have kept.
pub fn blank_nodes_lack_nothing()
    ensures { (config : Config) (world : FlooredWorld) (who : NodeId) (place : Place) → is_put_in config world who place ≡ true
        → kept_facts (Some place) (facts_at config world.machine who) ≡ [] }
{}

/// Nor does a leader need what its memory has of transactions below its floor: without it, it answers, stores and sends the same on each
/// input that isn't below, and is left with the same memory but for that.
pub fn leaders_forget()
    ensures { (config : Config) (l : ℕ) (floor : Option Place) (facts : List Fact) (memory : Memory) (input : Input)
        → is_input_below floor input ≡ false
        → effect_of config (L l) facts (kept_memory floor memory) input
        ≡ in_memory (kept_memory floor) (effect_of config (L l) facts memory input) }
{}

/// A table goes on from the rows that it has by what is kept: a commit at or above the floor puts the writes of a vote that is kept on
/// them.
pub fn tables_go_on()
    ensures { (floor : Option Place) (tx : TxParts) → is_below floor tx ≡ false → (first : List Row) (facts : List Fact)
        → table first (facts ++ stored.Committed tx ∷ []) ≡ with_writes (table first facts) (keys_voted (kept_facts floor facts) tx) }
{}
