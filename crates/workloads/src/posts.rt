//! What is on its way between the nodes of a cluster: the datagrams, each with the place of its receiver.
use crate::digest::Digest;
use node_core::{Sizes, place_of};
use port::Letter;
use std::alloc::{AllocError, Global};

/// The datagrams that wait for each node of a cluster.
#[derive(Drop)]
pub struct Post {
    alloc: Global,
    sizes: Sizes,
    waiting: Vec<Vec<Vec<u8>>>,
}

impl Post {
    /// Nothing is on its way between so many nodes.
    pub fn new(alloc: Global, sizes: Sizes, nodes: usize) -> Result<Post, AllocError> {
        let mut waiting = Vec::with_capacity(alloc, nodes)?;
        for _ in 0..nodes {
            waiting.push(Vec::new(alloc))?;
        }
        Ok(Post {
            alloc,
            sizes,
            waiting,
        })
    }

    /// What waits for the node of a place, which waits no more.
    pub fn fetch(&mut self, place: usize) -> Vec<Vec<u8>> {
        let mut fetched = Vec::new(self.alloc);
        if let Some(waiting) = self.waiting.get_mut(place) {
            std::mem::swap(waiting, &mut fetched);
        }
        fetched
    }

    /// What a node sent is on its way, and is taken into a sum.
    pub fn send(&mut self, letters: &[Letter], digest: &mut Digest) -> Result<(), AllocError> {
        for letter in letters {
            digest.take(letter.bytes.as_slice());
            let bytes = Vec::from_slice(self.alloc, letter.bytes.as_slice())?;
            let Some(place) = place_of(self.sizes, letter.receiver) else {
                continue;
            };
            digest.number(u64::try_from(place).unwrap_or(0));
            if let Some(waiting) = self.waiting.get_mut(place) {
                waiting.push(bytes)?;
            }
        }
        Ok(())
    }
}
