use xid::Refusal;

/// What a port has counted.
#[derive(Clone, Copy, Debug, PartialEq, Eq)]
pub struct PortCounts {
    /// How many datagrams came.
    pub taken: u64,
    /// How many were sent.
    pub sent: u64,
    /// How many of those that came were dropped for their signature.
    pub dropped: u64,
}

/// What the system says of a process at a port.
pub trait Gauges<P> {
    /// How many bytes the record's file has. Refused: the system doesn't say (`RecordFault`).
    fn record_len(&self) -> Result<u64, Refusal>;

    /// How many bytes of memory the process has; 0 where the system doesn't say.
    fn memory(&self) -> u64;

    /// What the port has counted.
    fn port_counts(&self, port: &P) -> PortCounts;
}
