ghost use Rattle.std.specs.Prelude.{◌≡◌, Some, slice_set, slice_get};
ghost use Rattle.std.specs.Option.{option_and_then};
ghost use Rattle.port.specs.Addresses.{address_of, no_addresses, with_address};

use protocol::NodeId;
use xid::{MAX_ACCEPTORS, MAX_LEADERS, MAX_MANAGERS};

/// At which port of 127.0.0.1 each node of a cluster is found.
#[derive(Clone, Copy, Debug)]
pub struct Addresses {
    acceptors: [Option<u16>; MAX_ACCEPTORS as usize],
    leaders: [Option<u16>; MAX_LEADERS as usize],
    managers: [Option<u16>; MAX_MANAGERS as usize],
}

impl Addresses {
    /// No node is found.
    pub fn none() -> Addresses
        ensures { result ≡ no_addresses }
    {
        Addresses {
            acceptors: [None; MAX_ACCEPTORS as usize],
            leaders: [None; MAX_LEADERS as usize],
            managers: [None; MAX_MANAGERS as usize],
        }
    }

    /// From now on a node is found there. One that no cluster may have is not kept.
    pub fn set(&mut self, who: NodeId, number: u16)
        ensures { self.new ≡ with_address self.old who number }
    {
        match who {
            NodeId::A(a) => put(&mut self.acceptors, a, number),
            NodeId::L(l) => put(&mut self.leaders, l, number),
            NodeId::R(rm) => put(&mut self.managers, rm, number),
        }
    }

    /// Where a node is found, if it is.
    pub fn get(&self, who: NodeId) -> Option<u16>
        ensures { result ≡ address_of self.now who }
    {
        match who {
            NodeId::A(a) => found(&self.acceptors, a),
            NodeId::L(l) => found(&self.leaders, l),
            NodeId::R(rm) => found(&self.managers, rm),
        }
    }
}

/// The number in a place, if there is one.
fn found(numbers: &[Option<u16>], place: u8) -> Option<u16>
    ensures { result ≡ option_and_then (λ found. found) (slice_get numbers.now place) }
{
    match numbers.get(usize::from(place)) {
        Some(found) => *found,
        None => None,
    }
}

/// Puts a number into a place, if there is such a place.
fn put(numbers: &mut [Option<u16>], place: u8, number: u16)
    ensures { numbers.new ≡ slice_set numbers.old place (Some number) }
{
    let at = usize::from(place);
    if at < numbers.len() {
        numbers[at] = Some(number);
    }
}
