//! A node at a port in memory.

use crate::{groups, nodes};
use case_lines::{Page, Part, Place, Stop, in_memory, run_calls, wanted, words};
use net_script::Command;
use node_core::{Input, Output};
use port::{FakePort, Member, Port, Served, call, call_all, raise, serve_once};
use protocol::Event;
use stable_record::MemRecord;
use std::alloc::Global;

/// A node and its port.
#[derive(Drop)]
struct Station {
    node: Member<MemRecord>,
    port: FakePort,
}

/// Runs the calls of a case: the call of the port that fails (0: none), and then as of a node over an empty record in memory.
pub fn run(alloc: Global, rest: &[u8], calls: &[String], page: &mut Page) -> Result<(), Stop> {
    let (call, rest) = words::cut(rest);
    let (name, rest) = words::cut(rest);
    let port = FakePort::new(alloc, u64::from(words::number(call)?));
    let (config, _rest) = words::cluster(alloc, rest)?;
    let place = Place::new(config, words::node(name)?);
    let record = in_memory(alloc, b"-")?;
    let mut station = match place.open(record, alloc, page) {
        Ok(node) => Station { node, port },
        Err(stop) => return Err(stop),
    };
    run_calls(&mut station, alloc, calls, page)?;
    place.say_record(station.node.into_record(), alloc, page)
}

/// What was answered, and the view that changed.
fn say(served: Served, page: &mut Page) -> Result<(), Stop> {
    page.answer(served.reply)?;
    page.end_line()?;
    match served.now {
        Some(change) => page.change(change),
        None => Ok(()),
    }
}

/// A node takes a datagram.
fn serve(station: &mut Station, page: &mut Page) -> Result<(), Stop> {
    match serve_once(&mut station.node, &mut station.port) {
        Ok(Some(served)) => say(served, page),
        Ok(None) => page.nothing(),
        Err(refusal) => page.finished(Err(refusal)),
    }
}

/// A node handles a group of inputs.
fn group(station: &mut Station, alloc: Global, line: &[u8], page: &mut Page) -> Result<(), Stop> {
    let items = groups::items(alloc, line)?;
    let inputs = groups::inputs(alloc, &items)?;
    let mut outs = groups::places(alloc, inputs.len())?;
    match call_all(&mut station.node, &mut station.port, &inputs, &mut outs) {
        Ok(()) => page.finished(Ok(()))?,
        Err(error) => page.finished(Err(error.into()))?,
    }
    say_came(outs, page)
}

/// What came of the inputs of a group.
pub fn say_came(outs: Vec<Output>, page: &mut Page) -> Result<(), Stop> {
    for output in outs {
        let Output {
            reply,
            now,
            sends: _,
        } = output;
        page.bytes(b"came ->")?;
        say(Served { reply, now }, page)?;
    }
    Ok(())
}

/// A node is asked to raise its floor, by the words of an event, as in a script.
fn rise(station: &mut Station, alloc: Global, line: &[u8], page: &mut Page) -> Result<(), Stop> {
    let command = nodes::command(alloc, line)?;
    match &command {
        Command::Do(Event::Raise { rm: _, floor }) => {
            page.finished(raise(&mut station.node, &mut station.port, floor))
        }
        _ => Err(Stop::Unread),
    }
}

/// What has gone out: how many, and a line for each.
pub fn say_gone(port: &FakePort, page: &mut Page) -> Result<(), Stop> {
    page.number(port.gone().len() as u64)?;
    page.end_line()?;
    for letter in port.gone() {
        page.bytes(b"gone to")?;
        page.node(letter.receiver)?;
        page.hex(letter.bytes.as_slice())?;
        page.end_line()?;
    }
    Ok(())
}

impl Part for Station {
    fn call(&mut self, alloc: Global, line: &[u8], page: &mut Page) -> Result<(), Stop> {
        let (verb, rest) = words::cut(line);
        match verb {
            b"put" => {
                wanted(self.port.put(&words::bytes(alloc, rest)?))?;
                page.finished(Ok(()))
            }
            b"serve" => serve(self, page),
            b"ask" => {
                let request = nodes::request(alloc, rest)?;
                say(
                    call(&mut self.node, &mut self.port, Input::Asked(&request)),
                    page,
                )
            }
            b"group" => group(self, alloc, rest, page),
            b"floor" => rise(self, alloc, line, page),
            b"restart" => page.finished(self.node.restart()),
            b"tear" => {
                self.node.arm(words::number(rest)? as usize);
                page.finished(Ok(()))
            }
            b"gone" => say_gone(&self.port, page),
            b"faults" => {
                page.number(self.port.faults())?;
                page.end_line()
            }
            _ => Err(Stop::Unread),
        }
    }
}
