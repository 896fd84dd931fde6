use protocol::Request;
use std::time::Instant;

/// The random bytes of a challenge.
pub type Challenge = [u8; 16];

/// What a client's next lines are.
#[derive(Debug, Drop)]
pub enum Stage {
    /// The proof that it has the clients' key.
    Proving(Challenge),
    /// Commands.
    Open,
    /// None is looked at before this request's answer is final, or until then.
    Awaiting {
        /// What is asked again and again.
        request: Request,
        /// Until when.
        until: Instant,
        /// Whether it was asked already.
        is_asked: bool,
    },
}
