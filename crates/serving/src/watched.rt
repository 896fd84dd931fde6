use std::time::Instant;

/// A transaction that is to be asked after.
#[derive(Debug, Drop)]
pub(crate) struct Watch {
    /// Its spelled bytes.
    pub(crate) spelled: Vec<u8>,
    /// Since when it is.
    pub(crate) since: Instant,
    /// The number of its turn.
    pub(crate) turn: usize,
    /// When that is, while it waits for it.
    pub(crate) due: Instant,
    /// Whether it waits. Else it was handed out as due, and isn't to be asked after before it is watched on.
    pub(crate) waits: bool,
}
