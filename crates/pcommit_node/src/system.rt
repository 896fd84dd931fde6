//! What the system says of the process.

use node_process::{Gauges, PortCounts};
use node_socket::NodeSocket;
use signed_port::{PlainPort, SignedPort};
use std::fs;
use xid::Refusal;

/// How many bytes a page of memory has.
const PAGE: u64 = 4096;

/// The system, of which is asked how large the process and its record are.
#[derive(Clone, Copy)]
pub(crate) struct System<'a> {
    pub(crate) rt: HostRuntime,
    /// The path of the record's file.
    pub(crate) path: &'a str,
}

impl System<'_> {
    /// How many bytes the record's file has.
    fn file_len(&self) -> Result<u64, Refusal> {
        match fs::metadata(&self.rt, self.path) {
            Ok(found) => Ok(found.len()),
            Err(_) => Err(Refusal::RecordFault),
        }
    }

    /// How many bytes of memory the process has, as the system says; 0 where it doesn't say.
    fn resident(&self) -> u64 {
        let Ok(text) = fs::read_to_string(&self.rt, "/proc/self/statm") else {
            return 0;
        };
        match text.as_str().split(' ').nth(1) {
            Some(pages) => pages.parse::<u64>().unwrap_or(0).saturating_mul(PAGE),
            None => 0,
        }
    }
}

impl Gauges<SignedPort<NodeSocket>> for System<'_> {
    fn record_len(&self) -> Result<u64, Refusal> {
        self.file_len()
    }

    fn memory(&self) -> u64 {
        self.resident()
    }

    fn port_counts(&self, port: &SignedPort<NodeSocket>) -> PortCounts {
        port.carrier().counts(port.dropped())
    }
}

impl Gauges<PlainPort<NodeSocket>> for System<'_> {
    fn record_len(&self) -> Result<u64, Refusal> {
        self.file_len()
    }

    fn memory(&self) -> u64 {
        self.resident()
    }

    fn port_counts(&self, port: &PlainPort<NodeSocket>) -> PortCounts {
        port.carrier().counts(0)
    }
}
