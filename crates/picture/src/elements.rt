//! What a picture is made of.

use protocol::View;
use xid::Bytes;

/// A point: how far it is from the left and from the top, in pixels.
#[derive(Clone, Copy, Debug, PartialEq, Eq)]
pub struct Point {
    /// From the left.
    pub x: u64,
    /// From the top.
    pub y: u64,
}

/// What words are, which says how they look and on which side of their point they stand.
#[derive(Clone, Copy, Debug, PartialEq, Eq)]
pub enum Lettering {
    /// The name of a node, over its lane.
    Name,
    /// The number of a line of the trace, left of the line.
    Number,
    /// A line of the trace.
    Line,
    /// What a point is about, right of it.
    Right,
    /// The same, left of it.
    Left,
    /// The view that a resource manager has from here on, left of its lane.
    View,
    /// What is said of the whole picture or a page.
    Note,
}

/// What a stroke is, which says how it looks.
#[derive(Clone, Copy, Debug, PartialEq, Eq)]
pub enum Pen {
    /// The lane of a node, from the top of a page to its end.
    Lane,
    /// What a node does in one event, down to the last line of it.
    Work,
    /// A datagram, from where it was sent to where it was first taken.
    Arrow,
    /// A datagram that was taken before, or that is delivered and not taken.
    Again,
    /// A datagram, from where it was sent to where it was lost.
    Lost,
    /// The beginning of a datagram that was neither taken nor lost.
    Waiting,
}

/// What happened at a point.
#[derive(Clone, Copy, Debug, PartialEq, Eq)]
pub enum Mark {
    /// An event.
    Done,
    /// The next append was torn.
    Tear,
    /// A restart.
    Restart,
    /// A record was made shorter.
    Compaction,
    /// An event that was refused.
    Refusal,
    /// A datagram was lost.
    Cross,
}

/// A part of a picture. Lengths are in pixels.
#[derive(Debug, Drop)]
pub enum Element {
    /// The beginning of the picture: its title, its description, how its parts look, and the legend.
    Head {
        /// How broad it is.
        width: u64,
        /// How high it is.
        height: u64,
    },
    /// What follows, up to the end of the link, leads to this line of the trace.
    Link {
        /// The line, from 1.
        line: u32,
    },
    /// Words at a point.
    Words {
        /// What they are.
        lettering: Lettering,
        /// Where.
        at: Point,
        /// The words.
        words: Bytes,
    },
    /// A straight stroke.
    Stroke {
        /// What it is.
        pen: Pen,
        /// Where it begins.
        from: Point,
        /// Where it ends.
        to: Point,
    },
    /// The view of a resource manager, along its lane.
    Band {
        /// The view.
        view: View,
        /// Its upper left corner.
        at: Point,
        /// How high it is.
        height: u64,
    },
    /// A mark.
    Stamp {
        /// What happened.
        mark: Mark,
        /// Where.
        at: Point,
    },
    /// The end of a link.
    EndLink,
    /// The end of the picture.
    End,
}
