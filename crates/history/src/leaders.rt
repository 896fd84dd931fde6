//! Leaders: what one has is what came to it.
ghost use Rattle.std.specs.Prelude.{◌≡◌, ◌<◌, ℕ, List, Some, true};
ghost use Rattle.std.specs.List.{list_any};
ghost use Rattle.xid.specs.Transactions.{TxParts, tx_eq};
ghost use Rattle.wire.specs.declared.message.Kind.{Kind};
ghost use Rattle.safety.specs.Vocabulary.{L, Ask, Request};
ghost use Rattle.protocol.specs.Effects.{Config};
ghost use Rattle.protocol.specs.Facts.{last_ballot};
ghost use Rattle.protocol.specs.LeaderMemory.{current, status_of};
ghost use Rattle.protocol.specs.Nodes.{NodeState, Fault};
ghost use Rattle.protocol.specs.Worlds.{Occurrence, opening, node_at, world_after, world_step};
ghost use Rattle.protocol.specs.Holds.{IsIn};
ghost use Rattle.history.specs.Answers.{IsAmple};
ghost use Rattle.history.specs.Lines.{history};
ghost use Rattle.history.specs.Heard.{came_since};
ghost use Rattle.history.specs.LeaderBack.{heard_back, current_back, is_met_back, proposed_back, status_back, status_answer};

/// Each message that counts with a leader came to it since its last restart: a datagram was delivered to it then that stands for it.
pub fn heard_came()
    ensures { (config : Config) (events : List Occurrence) (l : ℕ) (node : NodeState)
        → node_at config (world_after config (opening config) events) (L l) ≡ Some node → (m : Kind)
        → IsIn node.memory.leader.heard m → IsIn (came_since l (history config events)) m }
{}

/// What a leader that is up has is exactly what looking back over its lines since its last restart says, in a cluster that has an
/// acceptor. It has heard phase 1b of the ballot that was current when it came and still is, and phase 2b, each while the transaction
/// wasn't decided, a bundle as the messages that it stands for, and the first of each alone; its current ballots are those that it began
/// last; it has met what it was asked to commit, timed out over, was told of in phase 2b or asked about; and it has proposed, in its
/// current ballots, what it sent in phase 2a. So its status of a transaction is the one that follows from these, and that is what it
/// answers.
pub fn heard_is_what_came()
    ensures heard { (config : Config) (events : List Occurrence) (l : ℕ) (node : NodeState) → 0 < config.acceptors
        → node_at config (world_after config (opening config) events) (L l) ≡ Some node → node.up ≡ true
        → node.memory.leader.heard ≡ heard_back config l (history config events) }
    ensures begun { (config : Config) (events : List Occurrence) (l : ℕ) (node : NodeState) → 0 < config.acceptors
        → node_at config (world_after config (opening config) events) (L l) ≡ Some node → node.up ≡ true → (tx : TxParts)
        → current node.memory.leader tx ≡ current_back l (history config events) tx }
    ensures met { (config : Config) (events : List Occurrence) (l : ℕ) (node : NodeState) → 0 < config.acceptors
        → node_at config (world_after config (opening config) events) (L l) ≡ Some node → node.up ≡ true → (tx : TxParts)
        → list_any (tx_eq tx) node.memory.leader.met ≡ is_met_back config l (history config events) tx }
    ensures proposed { (config : Config) (events : List Occurrence) (l : ℕ) (node : NodeState) → 0 < config.acceptors
        → node_at config (world_after config (opening config) events) (L l) ≡ Some node → node.up ≡ true → (message : Kind)
        → (IsIn node.memory.leader.proposed message → IsIn (proposed_back l (history config events)) message)
        × (IsIn (proposed_back l (history config events)) message → IsIn node.memory.leader.proposed message) }
    ensures status { (config : Config) (events : List Occurrence) (l : ℕ) (node : NodeState) → 0 < config.acceptors
        → node_at config (world_after config (opening config) events) (L l) ≡ Some node → node.up ≡ true → (tx : TxParts)
        → status_of config.acceptors (last_ballot node.facts) node.memory.leader tx
        ≡ status_back config (last_ballot node.facts) l (history config events) tx }
    ensures answer { (config : Config) (events : List Occurrence) (l : ℕ) (node : NodeState) → 0 < config.acceptors
        → node_at config (world_after config (opening config) events) (L l) ≡ Some node → node.up ≡ true
        → (tx : TxParts) (fault : Fault) → IsAmple fault
        → (world_step config (world_after config (opening config) events) (Ask (L l) (Request.Status tx)) fault).answer
        ≡ status_answer config (last_ballot node.facts) l (history config events) tx }
{}
