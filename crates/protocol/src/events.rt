use crate::answers::Answer;
use crate::nodes::NodeId;
use crate::requests::Request;
use crate::states::View;
use wire::Message;
use xid::{Bytes, Floor, Sequence, Tx};

/// What can happen in a cluster. Datagrams are numbered from 1 as they are sent, and are kept.
///
/// A refused event changes nothing, but where a line below says otherwise. Any event may be refused for want of memory (`NoMemory`):
/// before its node is reached nothing changes; at the node, the node is down from then on, without its memory, and nothing was stored
/// or sent (a datagram that was handed over is marked). A node that is down stays so until it is restarted.
#[derive(Debug, Drop)]
pub enum Event {
    /// A node is asked something. Refused: no such node, or a kind of node that doesn't take the request (`NoSuch`); it is down (`Down`,
    /// or the code `RmFail`); and what the request says.
    Ask {
        /// The node.
        node: NodeId,
        /// What it is asked.
        request: Request,
    },
    /// A datagram is handed to its receiver, and marked. Refused: no such datagram (`NoSuch`); the receiver is down (`Down`), and the
    /// datagram is marked all the same; an append fails (`RecordFault`): marked, nothing is sent, and the receiver is down, its fact
    /// stored where the whole frame was kept.
    Deliver {
        /// The datagram's number.
        number: u32,
    },
    /// A datagram is marked without that; it may still be delivered later. Refused: no such datagram (`NoSuch`).
    Lose {
        /// The datagram's number.
        number: u32,
    },
    /// The first bytes of a datagram are handed to its receiver, fewer than all. It is always refused, and the datagram isn't marked: no
    /// such datagram, or one of no more bytes (`NoSuch`); the receiver is down (`Down`); else the bytes spell no message (`BadMessage`).
    Cut {
        /// The datagram's number.
        number: u32,
        /// How many bytes.
        bytes: u32,
    },
    /// Bytes come to a node that nobody sent. They are always refused: no such node (`NoSuch`); they spell a message (`Forged`); the node
    /// is down (`Down`); else they spell no message (`BadMessage`).
    Noise {
        /// The node.
        node: NodeId,
        /// The bytes.
        bytes: Bytes,
    },
    /// The node's next append stops after some bytes of its frame. A second tear replaces the first; a restart leaves it armed. Refused:
    /// no such node (`NoSuch`).
    Tear {
        /// The node.
        node: NodeId,
        /// How many bytes of the frame are kept.
        bytes: u32,
    },
    /// A node, up or down, reads its record and goes on from there, with nothing in memory. Refused: no such node (`NoSuch`); its record
    /// fails (`RecordFault`), or holds facts that don't play (`Damaged`): the node is down, and its record as it was.
    Restart {
        /// The node.
        node: NodeId,
    },
    /// A node replaces its record by a shorter one that says the same of it. Refused: no such node (`NoSuch`); it is down (`Down`); its
    /// record fails (`RecordFault`): the node is down, and its record says what it said.
    Compact {
        /// The node.
        node: NodeId,
    },
    /// A resource manager is asked to raise its floor: from then on it takes no part in what stands below, and it tells each acceptor and
    /// each leader its floor, also where that was no lower before. Refused: no such resource manager (`NoSuch`); it is down (`Down`); a
    /// branch of it stands below (`Busy`); its record fails (`RecordFault`): it is down, its floor the old one or the new one.
    Raise {
        /// The resource manager.
        rm: u8,
        /// Its floor from then on, if that is higher.
        floor: Floor,
    },
    /// A notice of a resource manager's floor is handed to its receiver. It is kept in memory, and the receiver's own floor is from then on
    /// the least that it was told by all resource managers since its last start, where that is higher. Notices are numbered from 1 as they
    /// are told, and are kept. Refused: no such notice (`NoSuch`); the receiver is down (`Down`); its record fails (`RecordFault`): it is
    /// down, its floor the old one or the new one.
    Hear {
        /// The notice's number.
        number: u32,
    },
    /// A blank acceptor or leader stands in the place of a lost one, up or down, with a floor: from then on it takes no part in what stands
    /// below, and it is up, with nothing in memory. Refused: no such acceptor or leader (`NoSuch`); the lost one has stored something about
    /// a name that isn't below the floor, or the floor is lower than its own (`InUse`), and nothing changes; the record fails
    /// (`RecordFault`): the node is down, its floor the old one or the new one.
    Replace {
        /// The node.
        node: NodeId,
        /// Its floor from then on.
        floor: Floor,
    },
}

/// The view that an event changed at a resource manager.
#[derive(Clone, Copy, Debug, PartialEq, Eq)]
pub struct Change {
    /// The resource manager.
    pub rm: u8,
    /// The transaction.
    pub tx: Tx,
    /// Where the resource manager stands in it now.
    pub view: View,
}

/// A datagram that was sent.
#[derive(Clone, Copy, Debug, PartialEq, Eq)]
pub struct Sent {
    /// Its number, from 1.
    pub number: u32,
    /// Who sent it.
    pub sender: NodeId,
    /// Whom it is for.
    pub receiver: NodeId,
    /// What it says.
    pub message: Message,
}

/// A notice that was told: what a resource manager's floor is.
#[derive(Clone, Copy, Debug)]
pub struct Told {
    /// Its number, from 1.
    pub number: u32,
    /// The resource manager.
    pub manager: u8,
    /// Whom it is for.
    pub receiver: NodeId,
    /// The resource manager's floor.
    pub floor: Floor,
}

/// An event and what came of it.
#[derive(Debug, Drop)]
pub struct Step {
    /// What happened.
    pub event: Event,
    /// What it was answered.
    pub answer: Answer,
    /// The view that it changed, if it changed one.
    pub now: Option<Change>,
    /// The datagrams that it sent, in order.
    pub sent: Sequence<Sent>,
    /// The notices of a floor that it told, in order.
    pub told: Sequence<Told>,
}
