//! What is on its way between the nodes.
use node_core::NodeSends;
use protocol::{Address, NodeId};
use std::alloc::{AllocError, Global};
use std::mem;
use wire::{MAX_DATAGRAM, encode};

/// A datagram, and whom it is for.
#[derive(Debug, Drop)]
pub struct Letter {
    /// Whom it is for.
    pub receiver: NodeId,
    /// Its bytes.
    pub bytes: Vec<u8>,
}

/// The datagrams that are on their way.
#[derive(Debug, Drop)]
pub struct Post {
    alloc: Global,
    waiting: Vec<Letter>,
}

/// The one node that an address means, where there is one of each kind.
fn receiver_of(to: Address) -> NodeId {
    match to {
        Address::Node(node) => node,
        Address::Acceptors => NodeId::A(0),
        Address::Leaders => NodeId::L(0),
        Address::Managers => NodeId::R(0),
    }
}

impl Post {
    /// Nothing is on its way.
    pub fn new(alloc: Global) -> Post {
        Post {
            alloc,
            waiting: Vec::new(alloc),
        }
    }

    /// What is on its way, and is no more.
    pub fn fetch(&mut self) -> Vec<Letter> {
        mem::replace(&mut self.waiting, Vec::new(self.alloc))
    }

    /// Bytes are on their way.
    fn put(&mut self, to: Address, bytes: &[u8]) -> Result<(), AllocError> {
        let bytes = Vec::from_slice(self.alloc, bytes)?;
        self.waiting.push(Letter {
            receiver: receiver_of(to),
            bytes,
        })?;
        Ok(())
    }

    /// What a node sends is on its way.
    pub fn send(&mut self, sends: &NodeSends) -> Result<(), AllocError> {
        if let Some((to, bytes)) = sends.spelled() {
            return self.put(to, bytes);
        }
        let mut buffer = [0; MAX_DATAGRAM];
        for place in 0..sends.count() {
            let outgoing = sends.at(place);
            let len = encode(&outgoing.message, &mut buffer);
            self.put(outgoing.to, &buffer[..len])?;
        }
        Ok(())
    }
}
