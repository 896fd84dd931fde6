//! The node is asked where a transaction stands.

ghost use Rattle.std.specs.Prelude.{◌≡◌, IfOk};
ghost use Rattle.serving.specs.Happenings.{question};
ghost use Rattle.node_process.specs.Asking.{Asks, IsAnswered};
ghost use Rattle.node_process.specs.Due.{IsOpenAt, says_open};

use node_core::Input;
use port::Member;
use protocol::{Answer, NodeId, Request, Standing};
use stable_record::Record;
use std::alloc::Global;
use wire::{MAX_TX_BYTES, OwnedTx, SpelledTx};
use xid::{Refusal, Tx};

/// What asks where a transaction stands: its status at a leader, else its view.
pub(crate) fn question_of(
    alloc: Global,
    who: NodeId,
    tx: &SpelledTx<'_>,
) -> Result<Request, Refusal>
    ensures { IfOk result (λ request. request ≡ question who tx.now) }
{
    let tx = OwnedTx::copy_of(alloc, tx)?;
    Ok(match who {
        NodeId::L(_) => Request::Status { tx },
        _ => Request::View { tx },
    })
}

/// What a leader or a resource manager answers where a transaction stands. A transaction is read, and nothing stored or sent. Refused:
/// memory ran out, and it wasn't asked.
fn answer_of<R: Record>(
    alloc: Global,
    who: NodeId,
    node: &mut Member<R>,
    tx: &Tx,
) -> Result<Answer, Refusal>
    ensures asks { Asks who node.old node.new }
    ensures answered { IfOk result (IsAnswered who tx.now node.old node.new) }
{
    let mut buffer = [0; MAX_TX_BYTES];
    let request = question_of(alloc, who, &SpelledTx::of(tx, &mut buffer))?;
    Ok(node.take(Input::Asked(&request)).reply)
}

/// Where a transaction stands with a leader or a resource manager.
pub(crate) fn standing<R: Record>(
    alloc: Global,
    who: NodeId,
    node: &mut Member<R>,
    tx: &Tx,
) -> Result<Standing, Refusal>
    ensures { Asks who node.old node.new }
{
    let answer = answer_of(alloc, who, node, tx)?;
    match answer {
        Answer::Stands(standing) => Ok(standing),
        Answer::Refused(refusal) => Err(refusal),
        _ => Err(Refusal::NoSuch),
    }
}

/// Whether an answer says that a transaction is open.
fn says_open(answer: &Answer) -> bool
    ensures { result ≡ says_open answer.now }
{
    matches!(
        answer,
        Answer::Stands(Standing::Undecided | Standing::Prepared)
    )
}

/// Whether a transaction is open with a leader or a resource manager, and so to be asked after. Refused: memory ran out.
pub(crate) fn is_open_at<R: Record>(
    alloc: Global,
    who: NodeId,
    node: &mut Member<R>,
    tx: &Tx,
) -> Result<bool, Refusal>
    ensures asks { Asks who node.old node.new }
    ensures says { IfOk result (IsOpenAt who tx.now node.old node.new) }
{
    let answer = answer_of(alloc, who, node, tx)?;
    if let Answer::Refused(Refusal::NoMemory) = answer {
        return Err(Refusal::NoMemory);
    }
    Ok(says_open(&answer))
}
