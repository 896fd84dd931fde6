//! The process of a node over a record in memory, at a port in memory, at times that lines say.

use crate::settings::Setting;
use crate::stations::{Said, Station, go_on, later, or_end, work};
use crate::{clients, devices};
use case_lines::{Page, Part, Place, Stop, in_memory, run_calls, words};
use letter_port::LetterPort;
use net_script::put_floor;
use node_process::{Process, Rising};
use port::FakePort;
use std::alloc::Global;
use std::time::Instant;
use xid::Refusal;

/// For how many milliseconds there was time before a process begins: what it looks back to isn't before that.
const BEFORE: u64 = 86_400_000;

/// Runs the calls of a case: `NODE ACCEPTORS LEADERS MANAGERS`, over an empty record, and how it begins. Tells last what its record holds.
pub fn run(rt: HostRuntime, rest: &[u8], calls: &[String], page: &mut Page) -> Result<(), Stop> {
    let alloc = rt.alloc();
    let (name, rest) = words::cut(rest);
    let who = words::node(name)?;
    let (config, rest) = words::cluster(alloc, rest)?;
    let setting = Setting::read(alloc, rest)?;
    let place = Place::new(config, who);
    let node = match place.open(in_memory(alloc, b"-")?, alloc, page) {
        Ok(node) => node,
        Err(stop) => return Err(stop),
    };
    let now = later(Instant::now(&rt)?, BEFORE);
    let desk = setting.desk(alloc, name, who, now)?;
    let sizes = place.config.sizes();
    let port = LetterPort::new(alloc, FakePort::new(alloc, 0), sizes)?;
    let gauges = Said { record: 0 };
    let mut process = Process::new(node, port, desk);
    process.begin(&gauges, now)?;
    let mut station = Station {
        sizes,
        process,
        gauges,
        now,
    };
    run_calls(&mut station, alloc, calls, page)?;
    let process = station.process;
    place.say_record(process.node.into_record(), alloc, page)
}

/// What waits is done, and the awaits whose time has come are answered.
fn serve(station: &mut Station) -> Result<(), Refusal> {
    work(station)?;
    station.process.answer_awaited(station.now)
}

/// A round: what waits is done, awaits are answered, clients are sent what they are told, and let go where they are gone.
fn round(station: &mut Station, page: &mut Page) -> Result<(), Stop> {
    match serve(station) {
        Ok(()) => {
            page.finished(Ok(()))?;
            clients::send_all(station, page)?;
            go_on(station)?;
            clients::sweep(station, page)
        }
        Err(refusal) => or_end(Err(refusal), page),
    }
}

/// What waits is done, and nobody is sent anything.
fn work_alone(station: &mut Station, page: &mut Page) -> Result<(), Stop> {
    let done = work(station);
    if done.is_ok() {
        go_on(station)?;
    }
    or_end(done, page)
}

/// Clients that are gone are let go, and nothing else is done.
fn sweep_alone(station: &mut Station, page: &mut Page) -> Result<(), Stop> {
    page.finished(Ok(()))?;
    clients::sweep(station, page)
}

/// The branches that nobody touches are looked for, if it is time.
fn look_for_idle(station: &mut Station, page: &mut Page) -> Result<(), Stop> {
    station.process.desk.look_for_idle(station.now)?;
    page.finished(Ok(()))
}

/// What came of a floor that was to rise by itself.
fn say_rising(alloc: Global, rising: &Rising, page: &mut Page) -> Result<(), Stop> {
    page.word(if rising.has_risen { b"rose" } else { b"stays" })?;
    if let Some(place) = &rising.held_by {
        let mut text = Vec::from_slice(alloc, b" held")?;
        put_floor(&mut text, place)?;
        page.bytes(&text)?;
    }
    page.end_line()
}

/// Its floor rises by itself, if it is time.
fn rise(station: &mut Station, alloc: Global, page: &mut Page) -> Result<(), Stop> {
    let gauges = station.gauges;
    match station.process.rise(&gauges, station.now) {
        Ok(rising) => say_rising(alloc, &rising, page),
        Err(refusal) => or_end(Err(refusal), page),
    }
}

/// Its record is made shorter, if it is time, and has so many bytes then. How many it had, if so.
fn shorten(station: &mut Station, len: u64, page: &mut Page) -> Result<(), Stop> {
    let gauges = Said { record: len };
    match station.process.shorten(&gauges) {
        Ok(Some(before)) => {
            station.gauges = gauges;
            page.number(before)?;
            page.end_line()
        }
        Ok(None) => page.nothing(),
        Err(refusal) => or_end(Err(refusal), page),
    }
}

impl Part for Station {
    /// A part of a round, or all of one; else what comes from its devices or its clients, or a look at it.
    fn call(&mut self, alloc: Global, line: &[u8], page: &mut Page) -> Result<(), Stop> {
        let (verb, rest) = words::cut(line);
        match verb {
            b"round" => round(self, page),
            b"works" => work_alone(self, page),
            b"sweeps" => sweep_alone(self, page),
            b"idle" => look_for_idle(self, page),
            b"rises" => rise(self, alloc, page),
            b"retells" => or_end(self.process.tell_again(self.now), page),
            b"shortens" => shorten(self, u64::from(words::number(rest)?), page),
            _ => devices::call(self, alloc, line, page),
        }
    }
}
