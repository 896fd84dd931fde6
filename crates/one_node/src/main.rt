//! How to embed the system: one node in a process of its own, here a resource manager. What to look at: `open` takes the node up from its
//! record, with all that it had stored; a client's call goes to it by `ask`, and what its socket has by `serve`; what it sends goes out
//! within these two, and never before it is stored.
#![tactic(auto)]

ghost use Rattle.std.specs.Prelude.{◌≡◌, [], ◌∷◌, IfOk, OnOk};
ghost use Rattle.protocol.specs.Nodes.Input.{Asked};
ghost use Rattle.protocol.specs.declared.requests.Request.TheVariants.{Call};
ghost use Rattle.node_core.specs.Configs.{config_of};
ghost use Rattle.port.specs.Members.{Acts};
ghost use Rattle.port.specs.Calls.{Calls};
ghost use Rattle.one_node.specs.Embedding.{IsTakenUp, ServesRounds};

use anyhow::{Context, Result, bail};
use node_core::{Config, Input};
use port::{Addresses, Member, Port, Served, UdpPort, call, serve_once};
use protocol::{Action, NodeId, Request};
use stable_record::{FileRecord, Record};
use std::alloc::Global;
use std::env;
use wire::{Kind, MAX_DATAGRAM, Message, encode, is_message};
use xid::{Bytes, Refusal, Sequence, Tx, Xid};

/// The node of this process.
const WHO: NodeId = NodeId::R(0);

/// Its cluster: an acceptor, a leader and one resource manager, whose table is empty at first. Each of the nodes is told the same, at each
/// start.
fn cluster(alloc: Global) -> Result<Config, Refusal>
    ensures { IfOk result (λ config. config ≡ config_of 1 1 1 ([] ∷ [])) }
{
    let mut tables = Vec::new(alloc);
    tables.push(Sequence::new(Vec::new(alloc)))?;
    Config::new(1, 1, 1, Sequence::new(tables))
}

/// The node over its record in a folder, a file that is made where there is none.
fn open(rt: HostRuntime, folder: &str) -> Result<Member<FileRecord>, Refusal>
    ensures { IfOk result IsTakenUp }
{
    let config = cluster(rt.alloc())?;
    let path = format!(in rt.alloc(); "{folder}/r0.rec")?;
    let record = FileRecord::open(rt, path.as_str())?;
    match Member::open(rt.alloc(), &config, WHO, record) {
        Ok(node) => Ok(node),
        Err((_record, refusal)) => Err(refusal),
    }
}

/// The node's socket, and another that stands for the nodes of other processes, which would say where theirs are.
fn bind(rt: &HostRuntime) -> Result<(UdpPort, UdpPort), Refusal> {
    let mut port = UdpPort::bind(rt)?;
    let mut elsewhere = UdpPort::bind(rt)?;
    let mut addresses = Addresses::none();
    addresses.set(WHO, port.number());
    addresses.set(NodeId::A(0), elsewhere.number());
    addresses.set(NodeId::L(0), elsewhere.number());
    port.find_at(addresses);
    elsewhere.find_at(addresses);
    Ok((port, elsewhere))
}

/// A client calls: this comes of it.
fn ask<R: Record, P: Port>(node: &mut Member<R>, port: &mut P, xid: Xid, action: Action) -> Served
    ensures { Calls P.sent (Acts (Asked (Call xid action))) node.old node.new port.old port.new result }
{
    let request = Request::Call { xid, action };
    call(node, port, Input::Asked(&request))
}

/// So many rounds, in each of which the node takes one datagram, if one has come. Prints what came of it.
fn serve<R: Record, P: Port>(
    rt: &impl Print,
    node: &mut Member<R>,
    port: &mut P,
    count: u32,
) -> Result<()>
    ensures { OnOk result (ServesRounds P.received P.sent count node.old node.new port.old port.new) }
{
    for _round in 0..count {
        match serve_once(node, port) {
            Ok(Some(served)) => println!(rt; "served: {:?}", served.reply)?,
            Ok(None) => println!(rt; "nothing came")?,
            Err(refusal) => println!(rt; "the socket: {refusal}")?,
        }
    }
    Ok(())
}

/// The work of a branch: a client starts it, puts a row, and ends it.
fn work<R: Record, P: Port>(
    rt: &HostRuntime,
    node: &mut Member<R>,
    port: &mut P,
    xid: Xid,
) -> Result<()> {
    let put = Action::Put {
        key: Bytes::copy_of(rt.alloc(), b"k")?,
        value: Bytes::copy_of(rt.alloc(), b"1")?,
    };
    println!(rt; "start: {:?}", ask(node, port, xid, Action::Start).reply)?;
    println!(rt; "put: {:?}", ask(node, port, xid, put).reply)?;
    println!(rt; "end: {:?}", ask(node, port, xid, Action::End).reply)?;
    Ok(())
}

/// A leader elsewhere sends the node a message. Refused, and nothing is sent: a kind that no message is of (`BadMessage`); the send fails.
fn send<P: Port>(elsewhere: &mut P, kind: Kind) -> Result<(), Refusal> {
    if !is_message(&kind) {
        return Err(Refusal::BadMessage);
    }
    let mut buffer = [0; MAX_DATAGRAM];
    let len = encode(&Message::new(kind), &mut buffer);
    elsewhere.send(WHO, &buffer[..len])
}

/// Prints where the node stands in a transaction, and its table.
fn report<R: Record>(rt: &impl Print, node: &mut Member<R>, tx: &Tx) -> Result<()> {
    println!(rt; "view: {:?}", node.view(tx)?)?;
    for row in node.table()?.as_slice() {
        println!(rt; "row: {:?} {:?}", row.key.as_slice(), row.value.as_slice())?;
    }
    Ok(())
}

/// The transaction commits: its leader elsewhere asks for the node's vote, and then tells the outcome.
fn commit<P: Port>(elsewhere: &mut P, tx: &Tx) -> Result<(), Refusal> {
    send(elsewhere, Kind::Prepare(*tx))?;
    send(elsewhere, Kind::Commit(*tx))
}

/// What the process does with its node.
fn live(rt: &HostRuntime, node: &mut Member<FileRecord>, tx: &Tx) -> Result<()> {
    let (mut port, mut elsewhere) = bind(rt).context("binding sockets")?;
    work(rt, node, &mut port, Xid::new(1, b"t", b"a")?)?;
    commit(&mut elsewhere, tx)?;
    serve(rt, node, &mut port, 3)
}

fn main(rt: HostRuntime) -> Result<()> {
    let Some(folder) = env::args(&rt)?.nth(1) else {
        bail!("usage: one_node FOLDER");
    };
    let tx = Tx::new(1, b"t", &[(0, b"a".as_slice())])?;
    let mut node = open(rt, folder.as_str()).context("opening the record")?;
    live(&rt, &mut node, &tx)?;
    report(&rt, &mut node, &tx)
}
