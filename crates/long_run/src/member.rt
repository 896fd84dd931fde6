//! A node of the cluster.
use crate::gauge::{Gauge, GaugedRecord, Length};
use crate::names::Name;
use anyhow::{Result, bail};
use floored::Floored;
use node_core::{Config, Input, Output};
use protocol::{Answer, NodeId, Standing};
use std::alloc::Global;
use xid::XaCode;

/// A node over a record in memory.
#[derive(Drop)]
pub struct Member {
    node: Floored<GaugedRecord>,
    gauge: Gauge,
}

impl Member {
    /// A node that has stored nothing yet.
    pub fn new(alloc: Global, config: &Config, who: NodeId) -> Result<Member> {
        let (record, gauge) = GaugedRecord::new(alloc)?;
        match Floored::open(alloc, config, who, record) {
            Ok(node) => Ok(Member { node, gauge }),
            Err((_, refusal)) => bail!("{who:?} is refused: {refusal}"),
        }
    }

    /// It takes an input. Refused where it didn't do what it was asked.
    pub fn step(&mut self, input: Input, out: &mut Output) -> Result<()> {
        self.node.step_into(input, out);
        let who = self.node.id();
        match &out.reply {
            Answer::Done | Answer::Code(XaCode::Ok) | Answer::Stands(Standing::Undecided) => Ok(()),
            Answer::Code(code) => bail!("{who:?} answered the code {}", code.number()),
            Answer::Refused(refusal) => bail!("{who:?} refused an input: {refusal}"),
            // nothing is asked here that is answered so
            Answer::Value(_) | Answer::NoValue | Answer::Xids(_) | Answer::Stands(_) => {
                bail!("{who:?} answered what wasn't asked")
            }
        }
    }

    /// Its floor rises to a name.
    pub fn raise(&mut self, name: Name) -> Result<()> {
        match self.node.raise(&name.floor()) {
            Ok(()) => Ok(()),
            Err(refusal) => bail!("{:?} refused the floor: {refusal}", self.node.id()),
        }
    }

    /// How many bytes its record has.
    pub fn length(&self) -> Length {
        self.gauge.length()
    }
}
