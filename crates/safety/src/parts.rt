//! The parts of the invariant, one by one: what stands in every world that events come to. An item stands where its fact is in the
//! record of its node, or where its message was ever sent.
ghost use Rattle.std.specs.Prelude.{◌≡◌, ℕ, ◌<◌, ◌≤◌, Some, IsTrue};
ghost use Rattle.xid.specs.Transactions.{TxParts, is_participant};
ghost use Rattle.xid.specs.declared.transaction.Vote.{Vote};
ghost use Rattle.xid.specs.declared.transaction.Vote.TheVariants as votes;
ghost use Rattle.wire.specs.declared.message.Kind.{Kind};
ghost use Rattle.wire.specs.declared.message.Kind.TheVariants as messages;
ghost use Rattle.ballot.specs.Ballots.{owner_of};
ghost use Rattle.ballot.specs.Choice.{Report};
ghost use Rattle.safety.specs.Vocabulary.{A, L, R, Event};
ghost use Rattle.safety.specs.Changes.{SaysItsChange};
ghost use Rattle.protocol.specs.Facts.{bound_branches, slot, last_ballot};
ghost use Rattle.protocol.specs.Effects.{Config};
ghost use Rattle.protocol.specs.Managers.{all_branches};
ghost use Rattle.protocol.specs.Nodes.{NodeState, Fault};
ghost use Rattle.protocol.specs.Worlds.{World, node_at, world_step};
ghost use Rattle.protocol.specs.Holds.{AreHeldOnce, AreNamedOnce, AreInOrder};
ghost use Rattle.safety.specs.Items.{Accepted, Began, Voted, Committed, StoredAbort, P1b, P2a, P2b, Commit, Abort};
ghost use Rattle.safety.specs.Items.{IsDecidedIn, IsDecided, IsMajorityPick, IsCovered};
ghost use Rattle.safety.specs.Runs.{IsReachable};
ghost use Rattle.safety.specs.Senders.{AreFrom};
ghost use Rattle.ballot.specs.Greatest.{IsIn};
ghost use Rattle.safety.specs.Standing.{Stands, facts_at, sent_in};

/// Each datagram is from the node that its message says: phases 1a and 2a from the owner of the ballot, in ballot 0 from the
/// resource manager of the instance, phases 1b and 2b from the acceptor named.
pub fn senders_are_named()
    ensures { (config : Config) (world : World) → IsReachable config world → AreFrom config world.net }
{}

/// Votes are stored: a proposal in ballot 0 is its resource manager's stored vote; it votes once, on its own transactions.
pub fn votes_are_stored()
    ensures first { (config : Config) (world : World) → IsReachable config world → (tx : TxParts) (i : ℕ) (v : Vote)
        → Stands config world (P2a tx i 0 v) → Stands config world (Voted i tx v) }
    ensures once { (config : Config) (world : World) → IsReachable config world → (tx : TxParts) (r : ℕ) (v w : Vote)
        → Stands config world (Voted r tx v) → Stands config world (Voted r tx w) → v ≡ w }
    ensures named { (config : Config) (world : World) → IsReachable config world → (tx : TxParts) (r : ℕ) (v : Vote)
        → Stands config world (Voted r tx v) → IsTrue (is_participant tx r) }
{}

/// Ballots are owned: a proposal above ballot 0 is in a ballot that its owner has stored, and at most the greatest stored there;
/// for one instance and ballot there is one value; and above ballot 0 it is picked from phase 1b of a majority.
pub fn ballots_are_owned()
    ensures begun { (config : Config) (world : World) → IsReachable config world → (tx : TxParts) (i b : ℕ) (v : Vote)
        → Stands config world (P2a tx i b v) → 0 < b → Stands config world (Began (owner_of config.leaders b) tx b) }
    ensures at_most { (config : Config) (world : World) → IsReachable config world → (tx : TxParts) (i b : ℕ) (v : Vote)
        → Stands config world (P2a tx i b v) → 0 < b
        → b ≤ last_ballot (facts_at config world (L (owner_of config.leaders b))) tx }
    ensures one_value { (config : Config) (world : World) → IsReachable config world → (tx : TxParts) (i b : ℕ) (v w : Vote)
        → Stands config world (P2a tx i b v) → Stands config world (P2a tx i b w) → v ≡ w }
    ensures picked { (config : Config) (world : World) → IsReachable config world → (tx : TxParts) (i b : ℕ) (v : Vote)
        → Stands config world (P2a tx i b v) → 0 < b → IsMajorityPick config.acceptors (Stands config world) tx i b v }
{}

/// What was accepted was sent: what an acceptor stored, holds in its slot, reports in phase 1b or tells in phase 2b was proposed;
/// and what it told is at most the ballot of its slot's value.
pub fn accepted_was_sent()
    ensures stored { (config : Config) (world : World) → IsReachable config world → (tx : TxParts) (a i b : ℕ) (v : Vote)
        → Stands config world (Accepted a tx i b v) → Stands config world (P2a tx i b v) }
    ensures held { (config : Config) (world : World) → IsReachable config world → (tx : TxParts) (a i b : ℕ) (v : Vote)
        → (slot (facts_at config world (A a)) tx i).report ≡ Some (b, v) → Stands config world (P2a tx i b v) }
    ensures reported { (config : Config) (world : World) → IsReachable config world → (tx : TxParts) (a i b d : ℕ) (v : Vote)
        → Stands config world (P1b tx i b (Some (d, v)) a) → (d < b) × Stands config world (P2a tx i d v) }
    ensures told { (config : Config) (world : World) → IsReachable config world → (tx : TxParts) (a i b : ℕ) (v : Vote)
        → Stands config world (P2b tx i b v a) → Stands config world (P2a tx i b v) }
    ensures at_most { (config : Config) (world : World) → IsReachable config world → (tx : TxParts) (a i b : ℕ) (v : Vote)
        → Stands config world (P2b tx i b v a) → IsCovered (slot (facts_at config world (A a)) tx i).report b }
{}

/// Promises hold: whoever sent phase 1b in a ballot stands at that ballot or above, and has told nothing below it that its report
/// does not cover.
pub fn promises_hold()
    ensures promised { (config : Config) (world : World) → IsReachable config world → (tx : TxParts) (a i b : ℕ) (report : Report)
        → Stands config world (P1b tx i b report a) → b ≤ (slot (facts_at config world (A a)) tx i).mbal }
    ensures covered { (config : Config) (world : World) → IsReachable config world → (tx : TxParts) (a i b d : ℕ) (report : Report)
        (v : Vote)
        → Stands config world (P1b tx i b report a) → Stands config world (P2b tx i d v a) → d < b → IsCovered report d }
{}

/// Decisions last: once an instance has decided a value in a ballot, each proposal of a greater ballot has it; and an instance
/// decides one value.
pub fn decisions_last()
    ensures later { (config : Config) (world : World) → IsReachable config world → (tx : TxParts) (i b d : ℕ) (v w : Vote)
        → IsDecidedIn config.acceptors (Stands config world) tx i b v → Stands config world (P2a tx i d w) → b < d → w ≡ v }
    ensures one { (config : Config) (world : World) → IsReachable config world → (tx : TxParts) (i : ℕ) (v w : Vote)
        → IsDecided config.acceptors (Stands config world) tx i v
        → IsDecided config.acceptors (Stands config world) tx i w → v ≡ w }
{}

/// Prepared was voted: a proposal of prepared, in whatever ballot, has its resource manager's stored vote prepared.
pub fn prepared_was_voted()
    ensures { (config : Config) (world : World) → IsReachable config world → (tx : TxParts) (i b : ℕ)
        → Stands config world (P2a tx i b votes.Prepared) → Stands config world (Voted i tx votes.Prepared) }
{}

/// Outcomes were decided: a Commit has each instance decided prepared, an Abort some instance decided aborted, and never were
/// both sent; a stored outcome had its message.
pub fn outcomes_were_decided()
    ensures commit { (config : Config) (world : World) → IsReachable config world → (tx : TxParts) (r : ℕ) → IsTrue (is_participant tx r)
        → Stands config world (Commit tx) → IsDecided config.acceptors (Stands config world) tx r votes.Prepared }
    ensures abort { (config : Config) (world : World) → IsReachable config world → (tx : TxParts) → Stands config world (Abort tx)
        → (r : ℕ) × IsTrue (is_participant tx r) × IsDecided config.acceptors (Stands config world) tx r votes.Aborted }
    ensures one { (config : Config) (world : World) → IsReachable config world → (tx : TxParts)
        → Stands config world (Commit tx) → ¬ Stands config world (Abort tx) }
    ensures committed { (config : Config) (world : World) → IsReachable config world → (tx : TxParts) (r : ℕ)
        → Stands config world (Committed r tx) → Stands config world (Commit tx) }
    ensures aborted { (config : Config) (world : World) → IsReachable config world → (tx : TxParts) (r : ℕ)
        → Stands config world (StoredAbort r tx) → Stands config world (Abort tx) }
{}

/// Keys are held once: of the branches of a resource manager, those that are prepared among them, no two hold a key that one of them
/// has put or deleted, and no two have one name; and the touched keys of those in its memory stand ascending.
pub fn keys_held_once()
    ensures keys { (config : Config) (world : World) → IsReachable config world → (rm : ℕ) (node : NodeState)
        → node_at config world (R rm) ≡ Some node → AreHeldOnce (all_branches rm (bound_branches node.facts) node.memory.branches) }
    ensures names { (config : Config) (world : World) → IsReachable config world → (rm : ℕ) (node : NodeState)
        → node_at config world (R rm) ≡ Some node → AreNamedOnce (all_branches rm (bound_branches node.facts) node.memory.branches) }
    ensures order { (config : Config) (world : World) → IsReachable config world → (rm : ℕ) (node : NodeState)
        → node_at config world (R rm) ≡ Some node → AreInOrder node.memory.branches }
{}

/// What a leader heard was sent: each phase 1b and 2b that counts with it; and of one acceptor, one of the cluster, it heard one
/// report for each instance and ballot.
pub fn heard_was_sent()
    ensures sent { (config : Config) (world : World) → IsReachable config world → (l : ℕ) (node : NodeState)
        → node_at config world (L l) ≡ Some node
        → (message : Kind) → IsIn node.memory.leader.heard message → IsIn (sent_in world) message }
    ensures inside { (config : Config) (world : World) → IsReachable config world → (l : ℕ) (node : NodeState)
        → node_at config world (L l) ≡ Some node → (tx : TxParts) (i b : ℕ) (report : Report) (a : ℕ)
        → IsIn node.memory.leader.heard (messages.P1b tx i b report a) → a < config.acceptors }
    ensures once { (config : Config) (world : World) → IsReachable config world → (l : ℕ) (node : NodeState)
        → node_at config world (L l) ≡ Some node → (tx : TxParts) (i b : ℕ) (x y : Report) (a : ℕ)
        → IsIn node.memory.leader.heard (messages.P1b tx i b x a) → IsIn node.memory.leader.heard (messages.P1b tx i b y a) → x ≡ y }
{}

/// An event says which view it changed: no other view differs afterwards, and the one that it says does.
pub fn changes_are_said()
    ensures { (config : Config) (world : World) (event : Event) (fault : Fault)
        → SaysItsChange config world (world_step config world event fault) }
{}
