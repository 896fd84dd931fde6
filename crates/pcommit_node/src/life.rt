//! The loop of a node's process: what its socket has, what its clients ask, and what time asks, round after round.

use crate::door::Door;
use log::{debug, info, warn};
use mio::Events;
use node_process::{Desk, Gauges, Process};
use node_setup::{Failure, clock, place_text};
use port::Port;
use stable_record::FileRecord;
use std::alloc::Global;
use std::io::ErrorKind;
use std::time::{Duration, Instant};

/// The process of a node over a record in a file.
pub(crate) type NodeProcess<P> = Process<FileRecord, P>;

/// Waits for the system to tell of sockets, so long at most, and notes what it told.
fn wait(
    door: &mut Door,
    desk: &mut Desk,
    events: &mut Events<Global>,
    timeout: Duration,
) -> Result<(), Failure> {
    match door.poll.poll(events, Some(timeout)) {
        Ok(()) => door.note(desk, events),
        Err(error) if error.kind() == ErrorKind::Interrupted => {}
        Err(error) => return Err(error.into()),
    }
    Ok(())
}

/// Clients that are gone, or too slow, are let go.
fn sweep(door: &mut Door, desk: &mut Desk, now: Instant) -> Result<(), Failure> {
    for key in 0..desk.clients.seats.capacity() {
        if desk.is_gone(key, now) {
            debug!(door.log; "the client at {key} went");
            door.close(key);
            desk.let_go(key)?;
        }
    }
    Ok(())
}

/// What clients have written is taken, what waits is done, and they are sent what they are told.
fn serve<P: Port, G: Gauges<P>>(
    process: &mut NodeProcess<P>,
    door: &mut Door,
    gauges: &G,
    now: Instant,
) -> Result<(), Failure> {
    door.accept_all(&mut process.desk, now);
    door.read_all(&mut process.desk);
    process.work(gauges, now)?;
    process.answer_awaited(now)?;
    door.write_all(&mut process.desk);
    if process.node.is_down() {
        return Err(Failure::Memory);
    }
    Ok(())
}

/// The floor rises, if it is time.
fn rise<P: Port, G: Gauges<P>>(
    alloc: Global,
    process: &mut NodeProcess<P>,
    door: &Door,
    gauges: &G,
    now: Instant,
) -> Result<(), Failure> {
    let before = process.desk.counts.record;
    let rising = process.rise(gauges, now)?;
    if let Some(place) = &rising.held_by {
        let place = place_text(alloc, place)?;
        warn!(door.log; "the floor stays at or below {place}: a branch of that name is there");
    }
    if rising.has_risen {
        let after = process.desk.counts.record;
        info!(door.log; "the floor rose, and the record went from {before} bytes to {after}");
    }
    Ok(())
}

/// The record is made shorter, if it is time.
fn shorten<P: Port, G: Gauges<P>>(
    process: &mut NodeProcess<P>,
    door: &Door,
    gauges: &G,
) -> Result<(), Failure> {
    if let Some(before) = process.shorten(gauges)? {
        let after = process.desk.counts.record;
        info!(door.log; "the record was made shorter: from {before} bytes to {after}");
    }
    Ok(())
}

/// One round of the loop, at a time.
fn go_round<P: Port, G: Gauges<P>>(
    rt: &HostRuntime,
    process: &mut NodeProcess<P>,
    door: &mut Door,
    gauges: &G,
    now: Instant,
) -> Result<(), Failure> {
    if process.desk.terms.times.is_some() {
        process.desk.terms.clock = clock(rt)?;
    }
    serve(process, door, gauges, now)?;
    sweep(door, &mut process.desk, now)?;
    process.desk.look_for_idle(now)?;
    rise(rt.alloc(), process, door, gauges, now)?;
    process.tell_again(now)?;
    shorten(process, door, gauges)
}

/// The process's life. It ends where it fails.
pub(crate) fn live<P: Port, G: Gauges<P>>(
    rt: &HostRuntime,
    process: &mut NodeProcess<P>,
    door: &mut Door,
    gauges: &G,
) -> Result<(), Failure> {
    let mut events = Events::with_capacity(rt.alloc(), 256)?;
    process.begin(gauges, Instant::now(rt)?)?;
    for _ in 0..u64::MAX {
        let timeout = process.desk.timeout(Instant::now(rt)?);
        wait(door, &mut process.desk, &mut events, timeout)?;
        go_round(rt, process, door, gauges, Instant::now(rt)?)?;
    }
    Ok(())
}
