ghost use Rattle.std.specs.Prelude.{◌≡◌, ◌+◌, ◌≤◌, length};
ghost use Rattle.std.specs.List.{prefix_len};

use protocol::NodeId;

/// A datagram as it is kept.
#[derive(Clone, Copy, Debug, PartialEq, Eq)]
pub struct KeptDatagram<'a> {
    /// Who sent it.
    pub sender: NodeId,
    /// Whom it is for.
    pub receiver: NodeId,
    /// What was sent: the spelling of a message.
    pub bytes: &'a [u8],
    /// Whether it was handed over or lost.
    pub marked: bool,
}

/// Where a datagram's bytes stand among those of all, and the rest of it.
#[derive(Clone, Copy, Debug)]
pub(crate) struct Entry {
    pub(crate) start: usize,
    pub(crate) len: u16,
    pub(crate) sender: NodeId,
    pub(crate) receiver: NodeId,
    pub(crate) marked: bool,
}

impl Entry {
    ghost use Rattle.network.specs.Entries.{kept_in};
    ghost use Rattle.network.specs.Networks.{shown};

    /// Its datagram, from the bytes of all.
    pub(crate) fn datagram<'a>(&self, bytes: &'a [u8]) -> KeptDatagram<'a>
        requires { self.now.start + self.now.len ≤ length bytes.now }
        ensures { shown result ≡ kept_in bytes.now self.now }
    {
        KeptDatagram {
            sender: self.sender,
            receiver: self.receiver,
            bytes: &bytes[self.start..self.start + usize::from(self.len)],
            marked: self.marked,
        }
    }
}

/// How many entries at the front are marked, where so many are known to be.
pub(crate) fn marked_front(entries: &[Entry], known: usize) -> usize
    requires { known ≤ prefix_len (λ e. e.marked) entries.now }
    ensures { result ≡ prefix_len (λ e. e.marked) entries.now }
{
    let mut front = known;
    while front < entries.len() && entries[front].marked {
        front += 1;
    }
    front
}
