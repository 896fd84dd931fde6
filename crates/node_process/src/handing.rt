//! A group of inputs is handed to the node.

ghost use Rattle.std.specs.Prelude.{◌≡◌, ◌≤◌, map, take, length, IfOk, OnOk, OnErr};
ghost use Rattle.node_process.specs.Handing.{given_of, handed_of, Hands, IsUnhanded};

use letter_port::LetterPort;
use node_core::{Input, Output};
use port::{Member, Port};
use protocol::Answer;
use serving::{Item, Work};
use stable_record::Record;
use std::alloc::{AllocError, Global};
use xid::Refusal;

/// What of the items of a group the node is handed, in order.
fn inputs_of<'a>(alloc: Global, items: &'a [Item]) -> Result<Vec<Input<'a>>, AllocError>
    ensures { IfOk result (λ inputs. map given_of inputs.items ≡ handed_of items.now) }
{
    let mut inputs = Vec::new(alloc);
    for item in items {
        match &item.work {
            Work::Take(bytes) => inputs.push(Input::Received(bytes.as_slice()))?,
            Work::Ask(request) => inputs.push(Input::Asked(request))?,
            Work::Say(_) | Work::Untimely | Work::Late => {}
        }
    }
    Ok(inputs)
}

/// What the node replied to each of its inputs, in order.
pub(crate) fn replies_of<'a>(
    alloc: Global,
    outs: &'a [Output],
) -> Result<Vec<&'a Answer>, AllocError>
    ensures { IfOk result (λ replies. map (λ reply. reply.now) replies.items ≡ map (λ out. out.reply) outs.now) }
{
    let mut replies = Vec::new(alloc);
    for out in outs {
        replies.push(&out.reply)?;
    }
    Ok(replies)
}

/// There are as many places for what comes of inputs, or more: they are large, and are kept from group to group.
fn make_places(outs: &mut Vec<Output>, count: usize) -> Result<(), AllocError>
    ensures { OnOk result (count ≤ length outs.new.items) }
{
    for _ in outs.len()..count {
        outs.push(Output::nothing())?;
    }
    if outs.len() < count {
        return Err(AllocError);
    }
    Ok(())
}

/// The items are handed to the node as one group: one append for all that they store. Then what came of them is sent, in letters. How many
/// of them were inputs: what came of each stands in its place among the first of `outs`, of which there are as many or more. Refused: there
/// was no memory for the group, and nothing has happened (`NoMemory`); or as `LetterPort::call_all` is, and then nothing is sent.
pub(crate) fn hand<R: Record, P: Port>(
    alloc: Global,
    node: &mut Member<R>,
    port: &mut LetterPort<P>,
    items: &[Item],
    outs: &mut Vec<Output>,
) -> Result<usize, Refusal>
    ensures hands { IfOk result (λ count. Hands P.sent items.now node.old node.new port.old port.new (take count outs.new.items)) }
    ensures within { IfOk result (λ count. count ≤ length outs.new.items) }
    ensures unhanded { OnErr result (IsUnhanded items.now node.old node.new × (port.new ≡ port.old)) }
{
    let inputs = inputs_of(alloc, items)?;
    let count = inputs.len();
    make_places(outs, count)?;
    let (places, _) = outs.split_at_mut(count);
    port.call_all(node, &inputs, places)?;
    Ok(count)
}
