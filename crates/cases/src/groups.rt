//! Groups of inputs.

ghost use Rattle.std.specs.Prelude.{◌≡◌, length, IfOk};

use crate::nodes;
use case_lines::{Stop, words};
use node_core::{Input, Output};
use protocol::Request;
use std::alloc::Global;
use wire::{MAX_DATAGRAM, encode};

/// What an input of a group is made of.
#[derive(Drop)]
pub enum Item {
    /// A request.
    Asked(Request),
    /// The bytes of a datagram.
    Received(Vec<u8>),
}

impl Item {
    /// The item that a line is: `ask` and the words of an event, `hear` and those of a message, or `take` and bytes.
    fn read(alloc: Global, line: &[u8]) -> Result<Item, Stop> {
        let (verb, rest) = words::cut(line);
        match verb {
            b"ask" => Ok(Item::Asked(nodes::request(alloc, rest)?)),
            b"hear" => {
                let mut bytes = [0; MAX_DATAGRAM];
                let len = encode(&words::message(alloc, rest)?, &mut bytes);
                Ok(Item::Received(Vec::from_slice(alloc, &bytes[..len])?))
            }
            b"take" => Ok(Item::Received(words::bytes(alloc, rest)?)),
            _ => Err(Stop::Unread),
        }
    }

    /// The input.
    fn input(&self) -> Input<'_> {
        match self {
            Item::Asked(request) => Input::Asked(request),
            Item::Received(bytes) => Input::Received(bytes),
        }
    }
}

/// The items of a line; between two stands `; `.
pub fn items(alloc: Global, line: &[u8]) -> Result<Vec<Item>, Stop> {
    let mut items = Vec::new(alloc);
    for words in line.split(|byte| *byte == b';') {
        items.push(Item::read(alloc, words.strip_prefix(b" ").unwrap_or(words))?)?;
    }
    Ok(items)
}

/// The inputs of a group.
pub fn inputs(alloc: Global, items: &[Item]) -> Result<Vec<Input<'_>>, Stop> {
    let mut inputs = Vec::new(alloc);
    for item in items {
        inputs.push(item.input())?;
    }
    Ok(inputs)
}

/// So many places for what comes of inputs.
pub fn places(alloc: Global, count: usize) -> Result<Vec<Output>, Stop>
    ensures { IfOk result (λ outs. length outs.items ≡ count) }
{
    let mut outs = Vec::new(alloc);
    for place in 0..count {
        let _ = place;
        outs.push(Output::nothing())?;
    }
    Ok(outs)
}
