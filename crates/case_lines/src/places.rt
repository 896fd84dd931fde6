//! The place of a node in its cluster, and its record in memory.

use crate::page::Page;
use crate::stop::Stop;
use crate::{versions, words};
use node_core::Config;
use port::Member;
use protocol::NodeId;
use stable_record::{MemRecord, Record};
use std::alloc::Global;

/// A record in memory that holds the bytes whose hex digits a word is.
pub fn in_memory(alloc: Global, word: &[u8]) -> Result<MemRecord, Stop> {
    Ok(MemRecord::new(alloc, words::bytes(alloc, word)?))
}

/// A node's place in its cluster.
#[derive(Drop)]
pub struct Place {
    /// The cluster.
    pub config: Config,
    /// The node.
    pub who: NodeId,
}

impl Place {
    /// The place of this node in this cluster.
    pub fn new(config: Config, who: NodeId) -> Place {
        Place { config, who }
    }

    /// Opens the node over a record in memory. A record that has failed, or that wanted memory, comes back, and the node is opened over it
    /// again.
    pub fn open(
        &self,
        record: MemRecord,
        alloc: Global,
        page: &mut Page,
    ) -> Result<Member<MemRecord>, Stop> {
        let (record, refusal) = match Member::open(alloc, &self.config, self.who, record) {
            Ok(node) => return Ok(node),
            Err(back) => back,
        };
        page.not_opened(refusal)?;
        match Member::open(alloc, &self.config, self.who, record) {
            Ok(node) => Ok(node),
            Err((record, _refusal)) => {
                self.say_record(record, alloc, page)?;
                Err(Stop::Refused)
            }
        }
    }

    /// What the node's record holds at last, and how often it has failed. A node that is opened over it in either version comes to the
    /// same.
    pub fn say_record<R: Record + Drop>(
        &self,
        mut record: R,
        alloc: Global,
        page: &mut Page,
    ) -> Result<(), Stop> {
        page.bytes(b"record ->")?;
        let bytes = match record.read(alloc) {
            Ok(bytes) => bytes,
            Err(error) => {
                page.refusal(error.into())?;
                page.number(record.faults())?;
                return page.end_line();
            }
        };
        page.hex(&bytes)?;
        page.number(record.faults())?;
        page.end_line()?;
        versions::agree(self, alloc, &bytes, page)
    }
}
