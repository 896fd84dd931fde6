//! What the code's contracts say of a process is what its node does in a world of a cluster whose nodes have floors and work in groups.
ghost use Rattle.std.specs.Prelude.{◌≡◌, List, ℕ, [], ◌∷◌, Result, Ok, Err};
ghost use Rattle.std.specs.List.{AllByRecursion};
ghost use Rattle.xid.specs.Places.{Place};
ghost use Rattle.xid.specs.Transactions.{TxParts};
ghost use Rattle.xid.specs.declared.refusals.Refusal.{Refusal};
ghost use Rattle.stable_record.specs.declared.record.RecordError.{RecordError};
ghost use Rattle.protocol.specs.declared.answers.Answer.TheVariants.{Done};
ghost use Rattle.protocol.specs.declared.events.Event.TheVariants.{Compact, Restart, Tear};
ghost use Rattle.protocol.specs.declared.nodes.NodeId.{NodeId};
ghost use Rattle.protocol.specs.declared.nodes.NodeId.TheVariants.{R};
ghost use Rattle.protocol.specs.declared.rows.Row.{Row};
ghost use Rattle.protocol.specs.declared.states.View.{View};
ghost use Rattle.protocol.specs.Effects.{Config};
ghost use Rattle.protocol.specs.Worlds.{table_at};
ghost use Rattle.safety.specs.Runs.{views_in};
ghost use Rattle.node_core.specs.declared.output.Output.{Output};
ghost use Rattle.node_core.specs.Opening.{restart_answer};
ghost use Rattle.floors.specs.Worlds.{FlooredWorld, Machine, Raise};
ghost use Rattle.port.specs.Members.{CompactsMember, Item, MemberParts, RaisesMember, RestartsMember, Takes, TakesAll};
ghost use Rattle.floored_groups.specs.Runs.{IsFlooredReached, Underwent};
ghost use Rattle.floored_groups.specs.Processes.{AnswersTable, AnswersView, ArmsMember, CanBeGiven, GoesOn, IsTaken, IsTakenAlone};
ghost use Rattle.floored_groups.specs.Processes.{IsUnstored, Reopens, StandsIn, told_by};

/// A process that stands for its node in a world is handed any number of things at once: requests, datagrams that were sent to it, notices
/// that were told it, and noise. Then the cluster goes on to a world in which it stands for its node again, each is answered as the machine
/// with floors answers it, and all that it puts out is sent, in order. Where its append is stopped, or memory is refused, it is down and
/// nothing is sent, or nothing happened.
pub fn processes_take_all()
    ensures stored { (config : Config) (world : FlooredWorld) (reach : IsFlooredReached config world) (who : NodeId) (items : List Item)
        (old new : MemberParts) (before after : List Output) → StandsIn config world who old
        → AllByRecursion (CanBeGiven world.machine.net world.notices who) items → TakesAll items old new before after (Ok tt)
        → IsTaken config world reach who items old new after }
    ensures stopped { (config : Config) (world : FlooredWorld) (reach : IsFlooredReached config world) (who : NodeId) (items : List Item)
        (old new : MemberParts) (before after : List Output) → StandsIn config world who old
        → AllByRecursion (CanBeGiven world.machine.net world.notices who) items → (error : RecordError)
        → TakesAll items old new before after (Err error) → IsUnstored config world reach who items old new before after error }
{}

/// So it is where it is handed one thing alone.
pub fn processes_take_one()
    ensures { (config : Config) (world : FlooredWorld) (reach : IsFlooredReached config world) (who : NodeId) (item : Item)
        (old new : MemberParts) (out : Output) → StandsIn config world who old
        → CanBeGiven world.machine.net world.notices who item → Takes item old new out
        → IsTakenAlone config world reach who item new out }
{}

/// So it is where a resource manager's floor was to rise, which it then tells all acceptors and leaders; where a process is restarted over
/// its record; where its record is made shorter; and where it ended, at whatever moment, and one is opened anew over its record.
pub fn processes_are_kept()
    ensures raised { (config : Config) (world : FlooredWorld) (reach : IsFlooredReached config world) (rm : ℕ) (place : Place)
        (old new : MemberParts) (result : Result (Unit {0}) Refusal) → StandsIn config world (R rm) old
        → RaisesMember place old new result
        → GoesOn config world reach (R rm) new [] (told_by config rm new result)
        (Underwent (Raise (R rm) place) (restart_answer result) ∷ []) }
    ensures restarted { (config : Config) (world : FlooredWorld) (reach : IsFlooredReached config world) (who : NodeId)
        (old new : MemberParts) (result : Result (Unit {0}) Refusal) → StandsIn config world who old → RestartsMember old new result
        → GoesOn config world reach who new [] [] (Underwent (Machine (Restart who)) (restart_answer result) ∷ []) }
    ensures compacted { (config : Config) (world : FlooredWorld) (reach : IsFlooredReached config world) (who : NodeId)
        (old new : MemberParts) (result : Result (Unit {0}) Refusal) → StandsIn config world who old → CompactsMember old new result
        → GoesOn config world reach who new [] [] (Underwent (Machine (Compact who)) (restart_answer result) ∷ []) }
    ensures reopened { (config : Config) (world : FlooredWorld) (reach : IsFlooredReached config world) (who : NodeId)
        (old new : MemberParts) → StandsIn config world who old → Reopens config who old new
        → GoesOn config world reach who new [] [] (Underwent (Machine (Restart who)) Done ∷ []) }
{}

/// And asked for its view of a transaction, or for its table, it is what it was, and nothing happens; what a resource manager's process
/// answers is what the world has there. A tear that is armed on its record is armed on its node's.
pub fn processes_are_asked()
    ensures viewed { (config : Config) (world : FlooredWorld) (reach : IsFlooredReached config world) (who : NodeId) (tx : TxParts)
        (old new : MemberParts) (result : Result View Refusal) → StandsIn config world who old → AnswersView tx old new result
        → GoesOn config world reach who new [] [] [] }
    ensures tabled { (config : Config) (world : FlooredWorld) (reach : IsFlooredReached config world) (who : NodeId)
        (old new : MemberParts) (result : Result (List Row) Refusal) → StandsIn config world who old → AnswersTable old new result
        → GoesOn config world reach who new [] [] [] }
    ensures view_is { (config : Config) (world : FlooredWorld) (rm : ℕ) (tx : TxParts) (old new : MemberParts) (view : View)
        → StandsIn config world (R rm) old → AnswersView tx old new (Ok view) → view ≡ views_in config world.machine tx rm }
    ensures table_is { (config : Config) (world : FlooredWorld) (rm : ℕ) (old new : MemberParts) (rows : List Row)
        → StandsIn config world (R rm) old → AnswersTable old new (Ok rows) → rows ≡ table_at config world.machine rm }
    ensures armed { (config : Config) (world : FlooredWorld) (reach : IsFlooredReached config world) (who : NodeId) (n : ℕ)
        (old new : MemberParts) → StandsIn config world who old → ArmsMember n old new
        → GoesOn config world reach who new [] [] (Underwent (Machine (Tear who n)) Done ∷ []) }
{}
