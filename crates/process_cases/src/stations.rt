//! A process of a node over a record in memory, at a port in memory, and what time it is for it.

use case_lines::{Page, Stop, words};
use node_core::Sizes;
use node_process::{Gauges, PortCounts, Process};
use port::FakePort;
use serving::Client;
use stable_record::MemRecord;
use std::alloc::AllocError;
use std::time::{Duration, Instant};
use xid::Refusal;

/// What the system is said to say: how long the record is, and numbers that nothing depends on.
#[derive(Clone, Copy)]
pub struct Said {
    /// How many bytes the record has.
    pub record: u64,
}

impl Gauges<FakePort> for Said {
    fn record_len(&self) -> Result<u64, Refusal> {
        Ok(self.record)
    }

    fn memory(&self) -> u64 {
        4096
    }

    fn port_counts(&self, _port: &FakePort) -> PortCounts {
        PortCounts {
            taken: 5,
            sent: 6,
            dropped: 7,
        }
    }
}

/// A process, and what time it is for it.
#[derive(Drop)]
pub struct Station {
    /// How many nodes its cluster has.
    pub sizes: Sizes,
    /// The process.
    pub process: Process<MemRecord, FakePort>,
    /// What the system says of it.
    pub gauges: Said,
    /// What time it is.
    pub now: Instant,
}

/// A time so many milliseconds later.
pub fn later(now: Instant, wait: u64) -> Instant {
    now.checked_add(Duration::from_millis(wait)).unwrap_or(now)
}

/// What waits is done.
pub fn work(station: &mut Station) -> Result<(), Refusal> {
    let gauges = station.gauges;
    station.process.work(&gauges, station.now)
}

/// The node of a process that goes on is up: where it wanted memory it is down, and the process ends.
pub fn go_on(station: &Station) -> Result<(), Stop> {
    if station.process.node.is_down() {
        return Err(Stop::Ended);
    }
    Ok(())
}

/// What came of a call after which the process ends where it is refused; this program ends where that wanted memory.
pub fn or_end(done: Result<(), Refusal>, page: &mut Page) -> Result<(), Stop> {
    match done {
        Err(Refusal::NoMemory) => Err(Stop::Ended),
        done => page.finished(done),
    }
}

/// The client at the key that a word says.
pub fn client_at<'a>(station: &'a mut Station, word: &[u8]) -> Result<&'a mut Client, Stop> {
    let key = words::number(word)? as usize;
    match station.process.desk.clients.seats.get_mut(key) {
        Some(client) => Ok(client),
        None => Err(Stop::Unread),
    }
}

/// How many bytes the client at the key that a word says is to be sent.
pub fn to_send(station: &mut Station, word: &[u8]) -> Result<usize, Stop> {
    Ok(client_at(station, word)?.output().len())
}

/// What came of a call about a client: where it wanted memory the client is closed.
pub fn or_close(
    client: &mut Client,
    done: Result<(), AllocError>,
    page: &mut Page,
) -> Result<(), Stop> {
    match done {
        Ok(()) => page.finished(Ok(())),
        Err(_) => {
            client.break_off();
            page.finished(Err(Refusal::NoMemory))
        }
    }
}
