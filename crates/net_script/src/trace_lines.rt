//! The lines of a trace.

ghost use Rattle.std.specs.Prelude.{◌≡◌, ◌≢◌, ◌++◌, List, ℕ, true, MatchOption, codes};
ghost use Rattle.xid.specs.Text.{lacks};
ghost use Rattle.net_script.specs.TraceLines.{is_tidy};

use crate::values::{Sizes, Table};
use crate::words::split_once;
use protocol::{Answer, Boxed, Change, Event, NodeId, Row, Sent, Told};
use xid::Sequence;

/// What one line of a trace says.
#[derive(Drop)]
pub enum TraceLine {
    /// How many nodes there are.
    Cluster(Sizes),
    /// First rows of a resource manager.
    Contents(Table),
    /// An event, and what it was answered.
    Happened(Event, Answer),
    /// A node took a datagram, and what came of it.
    Served(NodeId, Answer),
    /// The view that this changed.
    Changed(Boxed<Change>),
    /// A datagram that it sent.
    Datagram(Boxed<Sent>),
    /// A notice that it told.
    Notice(Told),
    /// Last rows of a resource manager.
    Final(u8, Sequence<Row>),
}

/// Whether a line has words, one space between them, and none before or after them.
pub(crate) fn is_tidy(line: &[u8]) -> bool
    ensures { result ≡ is_tidy line.now }
{
    if line.is_empty() {
        return false;
    }
    let mut doubled = false;
    for i in 1..line.len() {
        doubled |= (line[i - 1] == b' ') & (line[i] == b' ');
    }
    (line[0] != b' ') & !doubled & (line[line.len() - 1] != b' ')
}

/// What stands before and after the first arrow.
pub(crate) fn split_arrow(line: &[u8]) -> Option<(&[u8], &[u8])>
    ensures { MatchOption result
        ((front back : List ℕ) → lacks 62 front ≡ true → line.now ≢ front ++ (codes " -> " ++ back))
        (λ parts. (line.now ≡ parts.0.now ++ (codes " -> " ++ parts.1.now)) × (lacks 62 parts.0.now ≡ true)) }
{
    let Some((front, back)) = split_once(line, b'>') else {
        return None;
    };
    let Some(front) = front.strip_suffix(b" -".as_slice()) else {
        return None;
    };
    let Some(back) = back.strip_prefix(b" ".as_slice()) else {
        return None;
    };
    Some((front, back))
}
