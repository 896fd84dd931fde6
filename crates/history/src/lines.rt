//! Facts and lines: every fact of a resource manager is a change of a view that the trace says.
ghost use Rattle.std.specs.Prelude.{◌≡◌, ℕ, List, map};
ghost use Rattle.xid.specs.Names.{XidParts};
ghost use Rattle.xid.specs.Transactions.{TxParts};
ghost use Rattle.safety.specs.Vocabulary.{R};
ghost use Rattle.protocol.specs.Effects.{Config};
ghost use Rattle.protocol.specs.Facts.{view, is_spent};
ghost use Rattle.protocol.specs.Worlds.{Occurrence, opening, trace, world_after, numbered};
ghost use Rattle.history.specs.Outages.{sent_lines};
ghost use Rattle.safety.specs.Standing.{facts_at};
ghost use Rattle.history.specs.Lines.{history, changes_at, change_stored, view_back, is_spent_back};

/// The facts of a resource manager are, by transaction and by the view that they lead to, the changes of views that the trace says of
/// it, in their order. So its views, and which names are spent there, are those looked back at.
pub fn facts_are_now_lines()
    ensures lines { (config : Config) (events : List Occurrence) (rm : ℕ)
        → map (change_stored rm) (facts_at config (world_after config (opening config) events) (R rm))
        ≡ changes_at rm (trace config (opening config) events) }
    ensures views { (config : Config) (events : List Occurrence) (rm : ℕ) (tx : TxParts)
        → view (facts_at config (world_after config (opening config) events) (R rm)) tx ≡ view_back rm (history config events) tx }
    ensures spent { (config : Config) (events : List Occurrence) (rm : ℕ) (x : XidParts)
        → is_spent rm (facts_at config (world_after config (opening config) events) (R rm)) x
        ≡ is_spent_back rm (history config events) x }
{}

/// The datagrams that were ever sent are, in their order and with their numbers from 1, those that the trace says.
pub fn datagrams_are_sent_lines()
    ensures { (config : Config) (events : List Occurrence)
        → numbered 1 (world_after config (opening config) events).net ≡ sent_lines (trace config (opening config) events) }
{}
