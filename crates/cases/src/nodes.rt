//! A node over a record of each kind.

use crate::{codec, groups, managers, records};
use case_lines::{Page, Part, Place, Stop, in_memory, run_calls, words};
use net_script::{Command, read_script};
use node_core::{Input, Node, NodeSends, Output};
use protocol::{Address, Event, NodeId, Outgoing, Request};
use stable_record::{Record, Tear};
use std::alloc::Global;
use wire::{MAX_DATAGRAM, encode};
use xid::Refusal;

/// The request that an event is.
fn request_of(event: Event) -> Result<Request, Stop> {
    match event {
        Event::Ask { node: _, request } => Ok(request),
        _ => Err(Stop::Unread),
    }
}

/// The command that a line is, as in a script.
pub fn command(alloc: Global, words: &[u8]) -> Result<Command, Stop> {
    let mut text = Vec::new(alloc);
    text.extend_from_slice(b"cluster acceptors 1 leaders 1 rms 1\n")?;
    text.extend_from_slice(words)?;
    let script = match read_script(alloc, &text) {
        Ok(script) => script,
        Err(Refusal::NoMemory) => return Err(Stop::Ended),
        Err(_) => return Err(Stop::Unread),
    };
    for command in script.commands.into_vec(alloc)? {
        return Ok(command);
    }
    Err(Stop::Unread)
}

/// The request that the words of an event are, as in a script.
pub fn request(alloc: Global, words: &[u8]) -> Result<Request, Stop> {
    match command(alloc, words)? {
        Command::Do(event) => request_of(event),
        Command::Flow(_) => Err(Stop::Unread),
    }
}

/// Runs the calls of a case: `NODE ACCEPTORS LEADERS MANAGERS`, `bundled` in a bundled cluster, and the record, as `memory HEX`,
/// `failing CALL old HEX` or `file NAME`. Opens the node first, and tells last what its record holds and how often that has failed.
pub fn run(rt: HostRuntime, rest: &[u8], calls: &[String], page: &mut Page) -> Result<(), Stop> {
    let alloc = rt.alloc();
    let (name, rest) = words::cut(rest);
    let who = words::node(name)?;
    let (config, rest) = words::cluster(alloc, rest)?;
    let (kind, rest) = words::cut(rest);
    let place = Place::new(config, who);
    match kind {
        b"memory" => live_torn(&place, in_memory(alloc, rest)?, alloc, calls, page),
        b"failing" => live_torn(&place, records::failing(alloc, rest)?, alloc, calls, page),
        b"file" => live(&place, records::in_file(rt, rest)?, alloc, calls, page),
        _ => Err(Stop::Unread),
    }
}

/// Opens a node. A record that has failed, or that wanted memory, comes back, and the node is opened over it again.
fn open<R: Record + Drop>(
    place: &Place,
    record: R,
    alloc: Global,
    page: &mut Page,
) -> Result<Node<R>, Stop> {
    let (record, refusal) = match Node::open(alloc, &place.config, place.who, record) {
        Ok(node) => return Ok(node),
        Err(back) => back,
    };
    page.not_opened(refusal)?;
    match Node::open(alloc, &place.config, place.who, record) {
        Ok(node) => Ok(node),
        Err((record, _refusal)) => {
            place.say_record(record, alloc, page)?;
            Err(Stop::Refused)
        }
    }
}

/// A case over a record in which no tear can be armed.
fn live<R: Record + Drop>(
    place: &Place,
    record: R,
    alloc: Global,
    calls: &[String],
    page: &mut Page,
) -> Result<(), Stop> {
    let mut part = match open(place, record, alloc, page) {
        Ok(node) => Plain { node },
        Err(Stop::Refused) => return Ok(()),
        Err(stop) => return Err(stop),
    };
    run_calls(&mut part, alloc, calls, page)?;
    place.say_record(part.node.into_record(), alloc, page)
}

/// A case over a record in which a tear can be armed.
fn live_torn<R: Tear + Drop>(
    place: &Place,
    record: R,
    alloc: Global,
    calls: &[String],
    page: &mut Page,
) -> Result<(), Stop> {
    let mut part = match open(place, record, alloc, page) {
        Ok(node) => Torn { node },
        Err(Stop::Refused) => return Ok(()),
        Err(stop) => return Err(stop),
    };
    run_calls(&mut part, alloc, calls, page)?;
    place.say_record(part.node.into_record(), alloc, page)
}

/// A node over a record in which no tear can be armed.
#[derive(Drop)]
struct Plain<R: Record> {
    node: Node<R>,
}

/// A node over a record in which a tear can be armed.
#[derive(Drop)]
struct Torn<R: Tear> {
    node: Node<R>,
}

/// A message by its bytes, where it is spelled.
fn read(spelled: Option<(Address, &[u8])>) -> Result<Option<Outgoing>, Stop> {
    match spelled {
        Some((to, bytes)) => Ok(Some(codec::outgoing(to, bytes)?)),
        None => Ok(None),
    }
}

/// Says where messages that are spelled already aren't what they have to be: what an acceptor sends, and what a resource manager sends on a
/// datagram, is spelled, one message at a time.
fn compare(who: NodeId, received: bool, sends: &NodeSends, page: &mut Page) -> Result<(), Stop> {
    let first = if sends.count() > 0 {
        Some(sends.at(0))
    } else {
        None
    };
    let spelled = match who {
        NodeId::A(_) => first,
        NodeId::R(_) if received => first,
        NodeId::R(_) | NodeId::L(_) => None,
    };
    if read(sends.spelled())? != spelled {
        page.bytes(b"the two ways differ: what is sent, and what is spelled of it\n")?;
    }
    Ok(())
}

/// Says where bytes don't spell a message for whom it is.
fn compare_spelled(
    outgoing: &Outgoing,
    to: Address,
    bytes: &[u8],
    page: &mut Page,
) -> Result<(), Stop> {
    if codec::outgoing(to, bytes)? != *outgoing {
        page.bytes(b"the two ways differ: a message, and what is spelled of it\n")?;
    }
    Ok(())
}

/// What is sent on an input.
fn say_sends(who: NodeId, received: bool, sends: &NodeSends, page: &mut Page) -> Result<(), Stop> {
    let mut bytes = [0; MAX_DATAGRAM];
    for i in 0..sends.count() {
        let outgoing = sends.at(i);
        page.sent(&outgoing)?;
        let (to, len) = sends.spell(i, &mut bytes);
        compare_spelled(&outgoing, to, &bytes[..len], page)?;
    }
    compare(who, received, sends, page)
}

/// What came of an input at a node.
fn say(who: NodeId, input: &Input<'_>, output: Output, page: &mut Page) -> Result<(), Stop> {
    let Output { reply, now, sends } = output;
    page.finished_answer(reply)?;
    if let Some(change) = now {
        page.change(change)?;
    }
    say_sends(who, matches!(input, Input::Received(_)), &sends, page)
}

/// A node is handed an input.
fn hand<R: Record + Drop>(
    node: &mut Node<R>,
    input: Input<'_>,
    page: &mut Page,
) -> Result<(), Stop> {
    let output = node.step(input);
    say(node.id(), &input, output, page)
}

/// Where the node stands in a transaction.
fn say_view<R: Record + Drop>(node: &mut Node<R>, tx: &[u8], page: &mut Page) -> Result<(), Stop> {
    match node.view(&words::tx(tx)?) {
        Ok(view) => page.word(managers::view_word(view))?,
        Err(refusal) => page.refusal(refusal)?,
    }
    page.end_line()
}

/// The rows of its table.
fn say_table<R: Record + Drop>(node: &mut Node<R>, page: &mut Page) -> Result<(), Stop> {
    match node.table() {
        Ok(rows) => page.rows(rows.as_slice())?,
        Err(refusal) => page.refusal(refusal)?,
    }
    page.end_line()
}

/// A node handles a group of inputs.
fn group<R: Record + Drop>(
    node: &mut Node<R>,
    alloc: Global,
    line: &[u8],
    page: &mut Page,
) -> Result<(), Stop> {
    let items = groups::items(alloc, line)?;
    let inputs = groups::inputs(alloc, &items)?;
    let mut outs = groups::places(alloc, inputs.len())?;
    match node.step_all(&inputs, &mut outs) {
        Ok(()) => page.finished(Ok(()))?,
        Err(error) => page.finished(Err(error.into()))?,
    }
    for (input, output) in inputs.iter().zip(outs) {
        page.bytes(b"came ->")?;
        say(node.id(), input, output, page)?;
    }
    Ok(())
}

/// The transactions that are prepared and not ended.
fn say_open<R: Record + Drop>(node: &Node<R>, page: &mut Page) -> Result<(), Stop> {
    match node.open_transactions() {
        Ok(txs) => {
            for tx in txs.as_slice() {
                page.tx(tx)?;
            }
        }
        Err(refusal) => page.refusal(refusal)?,
    }
    page.end_line()
}

/// A call of a node.
fn call_node<R: Record + Drop>(
    node: &mut Node<R>,
    alloc: Global,
    line: &[u8],
    page: &mut Page,
) -> Result<(), Stop> {
    let (verb, rest) = words::cut(line);
    match verb {
        b"ask" => {
            let request = request(alloc, rest)?;
            hand(node, Input::Asked(&request), page)
        }
        b"hear" => {
            let mut bytes = [0; MAX_DATAGRAM];
            let len = encode(&words::message(alloc, rest)?, &mut bytes);
            hand(node, Input::Received(&bytes[..len]), page)
        }
        b"take" => {
            let bytes = words::bytes(alloc, rest)?;
            hand(node, Input::Received(&bytes), page)
        }
        b"restart" => page.finished(node.restart()),
        b"compact" => page.finished(node.compact()),
        b"view" => say_view(node, rest, page),
        b"table" => say_table(node, page),
        b"group" => group(node, alloc, rest, page),
        b"open" => say_open(node, page),
        b"down" => {
            page.truth(node.is_down())?;
            page.end_line()
        }
        _ => Err(Stop::Unread),
    }
}

impl<R: Record + Drop> Part for Plain<R> {
    fn call(&mut self, alloc: Global, line: &[u8], page: &mut Page) -> Result<(), Stop> {
        call_node(&mut self.node, alloc, line, page)
    }
}

impl<R: Tear + Drop> Part for Torn<R> {
    fn call(&mut self, alloc: Global, line: &[u8], page: &mut Page) -> Result<(), Stop> {
        match line.strip_prefix(b"tear ") {
            Some(bytes) => {
                self.node.arm(words::number(bytes)? as usize);
                page.word(b"ok")?;
                page.end_line()
            }
            None => call_node(&mut self.node, alloc, line, page),
        }
    }
}
