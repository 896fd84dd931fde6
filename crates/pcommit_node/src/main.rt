//! One node of a cluster in a process of its own: it goes on from its record, and serves the other nodes by datagrams and its clients by
//! lines over TCP.
#![tactic(auto)]

ghost use Rattle.std.specs.Prelude.{map, IfOk};
ghost use Rattle.node_socket.specs.Sockets.{BoundTo};

mod door;
mod life;
mod logging;
mod stream;
mod system;

use crate::door::{DATAGRAMS, Door, LISTENER};
use crate::life::live;
use crate::logging::logger;
use crate::system::System;
use cluster_file::KEY;
use hmac::Key;
use letter_port::LetterPort;
use log::LevelFilter;
use mio::net::TcpListener;
use mio::{Interest, Poll};
use node_process::{Desk, Process};
use node_setup::{
    Failure, Options, Setup, address_fault, make_desk, node_places, open_node, place_text,
    read_options, record_path, replace, set_up,
};
use node_socket::NodeSocket;
use port::Member;
use signed_port::{PlainPort, SignedPort};
use stable_record::FileRecord;
use std::env;
use std::process::ExitCode;
use xid::Floor;

/// The node's socket for datagrams.
fn bind(rt: &HostRuntime, poll: &Poll, setup: &Setup) -> Result<NodeSocket, Failure>
    ensures { IfOk result (BoundTo setup.now.cluster.config (map (λ place. place.node) setup.now.cluster.places.items)) }
{
    let places = node_places(rt.alloc(), setup)?;
    let (at, config) = (setup.place.node, &setup.cluster.config);
    match NodeSocket::bind(rt, poll.registry(), DATAGRAMS, at, config, places) {
        Ok(socket) => Ok(socket),
        Err(error) => Err(address_fault(rt.alloc(), at, error)),
    }
}

/// Where clients come in, if they do.
fn listen(rt: &HostRuntime, poll: &Poll, setup: &Setup) -> Result<Option<TcpListener>, Failure> {
    let Some(at) = setup.place.client else {
        return Ok(None);
    };
    match TcpListener::bind(rt, at) {
        Ok(listener) => {
            let mut listener = listener;
            poll.registry()
                .register(&mut listener, LISTENER, Interest::READABLE)?;
            Ok(Some(listener))
        }
        Err(error) => Err(address_fault(rt.alloc(), at, error)),
    }
}

/// The door of a node.
fn open_door(
    rt: HostRuntime,
    level: LevelFilter,
    poll: Poll,
    setup: &Setup,
) -> Result<Door, Failure> {
    let listener = listen(&rt, &poll, setup)?;
    Ok(Door {
        alloc: rt.alloc(),
        log: logger(rt, level),
        poll,
        listener,
        is_locked: setup.client_key.is_some(),
        streams: Vec::new(rt.alloc()),
        has_clients: true,
    })
}

/// Says where the node is found.
fn announce(rt: &HostRuntime, name: &str, setup: &Setup) -> Result<(), Failure> {
    let node = setup.place.node;
    match setup.place.client {
        Some(client) => {
            println!(rt; "pcommit_node {name}: nodes at {node}, clients at {client}")?;
        }
        None => println!(rt; "pcommit_node {name}: nodes at {node}, no clients")?,
    }
    Ok(())
}

/// Says from which place on in the order of names a blank node takes part.
fn announce_blank(rt: &HostRuntime, name: &str, place: &Floor) -> Result<(), Failure> {
    let place = place_text(rt.alloc(), place)?;
    println!(rt;
        "pcommit_node {name}: a blank record, which takes part from {place} on: start it now"
    )?;
    Ok(())
}

/// What datagrams are signed with.
fn signing_key(key: &[u8; KEY]) -> Key {
    Key::new(key)
}

/// The life of a node at a socket, whose datagrams are signed if there is a key.
fn lead_signed(
    rt: &HostRuntime,
    node: Member<FileRecord>,
    socket: NodeSocket,
    desk: Desk,
    door: &mut Door,
    setup: &Setup,
    path: &str,
) -> Result<(), Failure> {
    let sizes = setup.cluster.config.sizes();
    let system = System { rt: *rt, path };
    match &setup.key {
        Some(key) => {
            let port = SignedPort::new(socket, signing_key(key), setup.digest, setup.who);
            let port = LetterPort::new(rt.alloc(), port, sizes)?;
            live(rt, &mut Process::new(node, port, desk), door, &system)
        }
        None => {
            let port = LetterPort::new(rt.alloc(), PlainPort::new(socket), sizes)?;
            live(rt, &mut Process::new(node, port, desk), door, &system)
        }
    }
}

/// The life of a node at its place.
fn lead(
    rt: HostRuntime,
    node: Member<FileRecord>,
    setup: &Setup,
    options: Options,
    path: &str,
) -> Result<(), Failure> {
    let poll = Poll::new(&rt)?;
    let socket = bind(&rt, &poll, setup)?;
    let mut door = open_door(rt, options.level, poll, setup)?;
    let desk = make_desk(&rt, setup, options.name)?;
    announce(&rt, options.name, setup)?;
    lead_signed(&rt, node, socket, desk, &mut door, setup, path)
}

/// A node of a cluster lives.
fn run(rt: HostRuntime, options: Options) -> Result<(), Failure> {
    let setup = match set_up(rt, options) {
        Ok(setup) => setup,
        Err(failure) => return Err(failure),
    };
    let path = record_path(rt.alloc(), options)?;
    if let Some(replacement) = options.replacement {
        let place = replace(rt, &setup, options, path.as_str(), replacement)?;
        return announce_blank(&rt, options.name, &place);
    }
    match open_node(rt, &setup, options, path.as_str()) {
        Ok(node) => lead(rt, node, &setup, options, path.as_str()),
        Err(failure) => Err(failure),
    }
}

/// Carries out the command line.
fn run_words(rt: HostRuntime) -> Result<(), Failure> {
    let mut words = Vec::new(rt.alloc());
    for word in env::args(&rt)? {
        words.push(word)?;
    }
    let options = read_options(rt.alloc(), words.as_slice())?;
    run(rt, options)
}

fn main(rt: HostRuntime) -> ExitCode {
    match run_words(rt) {
        Ok(()) => ExitCode::SUCCESS,
        Err(failure) => {
            let _ = eprintln!(rt; "pcommit_node: {failure}");
            ExitCode::from(failure.status())
        }
    }
}
