//! A cluster of one manager, one acceptor and one leader, in which transactions commit one after another.
use crate::gauge::Length;
use crate::member::Member;
use crate::names::Name;
use crate::posts::Post;
use anyhow::{Result, bail};
use node_core::{Config, Input, Output};
use protocol::{Action, Change, NodeId, Request, Row, View};
use std::alloc::Global;
use wire::OwnedTx;
use xid::Sequence;

/// In how many rounds the datagrams of a transaction are handed over, at most: a question, a vote, its acceptance and the outcome.
const ROUNDS: u32 = 8;

/// The cluster, with what is on its way in it.
#[derive(Drop)]
pub struct Cluster {
    alloc: Global,
    manager: Member,
    acceptor: Member,
    leader: Member,
    committed: u64,
    post: Post,
    out: Output,
}

/// How many bytes the records of a cluster have.
#[derive(Clone, Copy, Debug)]
pub struct Lengths {
    /// The resource manager's.
    pub manager: Length,
    /// The acceptor's.
    pub acceptor: Length,
    /// The leader's.
    pub leader: Length,
}

/// A cluster of one node of each kind, whose table is empty.
fn config_of(alloc: Global) -> Result<Config> {
    let mut tables: Vec<Sequence<Row>> = Vec::new(alloc);
    tables.push(Sequence::new(Vec::new(alloc)))?;
    Ok(Config::new(1, 1, 1, Sequence::new(tables))?)
}

/// Whether a manager committed.
fn is_committed(now: &Option<Change>) -> bool {
    match now {
        Some(change) => change.view == View::Committed,
        None => false,
    }
}

impl Cluster {
    /// A cluster in which nothing happened yet.
    pub fn new(alloc: Global) -> Result<Cluster> {
        let config = config_of(alloc)?;
        Ok(Cluster {
            alloc,
            manager: Member::new(alloc, &config, NodeId::R(0))?,
            acceptor: Member::new(alloc, &config, NodeId::A(0))?,
            leader: Member::new(alloc, &config, NodeId::L(0))?,
            committed: 0,
            post: Post::new(alloc),
            out: Output::nothing(),
        })
    }

    /// A node takes an input, and what it sends is on its way.
    fn hand_over(&mut self, who: NodeId, input: Input) -> Result<()> {
        match who {
            NodeId::A(_) => self.acceptor.step(input, &mut self.out)?,
            NodeId::L(_) => self.leader.step(input, &mut self.out)?,
            NodeId::R(_) => self.manager.step(input, &mut self.out)?,
        }
        if is_committed(&self.out.now) {
            self.committed = self.committed.saturating_add(1);
        }
        self.post.send(&self.out.sends)?;
        Ok(())
    }

    /// Datagrams are handed over until none is left.
    fn settle(&mut self) -> Result<()> {
        for _ in 0..ROUNDS {
            let letters = self.post.fetch();
            if letters.is_empty() {
                return Ok(());
            }
            for letter in &letters {
                self.hand_over(letter.receiver, Input::Received(&letter.bytes))?;
            }
        }
        bail!("datagrams are left");
    }

    /// The manager is asked something about a transaction's branch.
    fn call(&mut self, name: Name, action: Action) -> Result<()> {
        let xid = name.branch()?;
        let request = Request::Call { xid, action };
        self.hand_over(NodeId::R(0), Input::Asked(&request))
    }

    /// A transaction begins, writes a row, and is committed.
    pub fn commit(&mut self, name: Name) -> Result<()> {
        let put = Action::Put {
            key: name.key(self.alloc)?,
            value: name.value(self.alloc)?,
        };
        self.call(name, Action::Start)?;
        self.call(name, put)?;
        self.call(name, Action::End)?;
        let before = self.committed;
        let tx = OwnedTx::new(self.alloc, &name.tx()?)?;
        self.hand_over(NodeId::L(0), Input::Asked(&Request::Commit { tx }))?;
        self.settle()?;
        if self.committed == before {
            bail!("a transaction isn't committed");
        }
        Ok(())
    }

    /// The floor of a node rises to a name.
    pub fn raise(&mut self, who: NodeId, name: Name) -> Result<()> {
        match who {
            NodeId::A(_) => self.acceptor.raise(name),
            NodeId::L(_) => self.leader.raise(name),
            NodeId::R(_) => self.manager.raise(name),
        }
    }

    /// The floor of each node rises to a name.
    pub fn raise_all(&mut self, name: Name) -> Result<()> {
        self.manager.raise(name)?;
        self.acceptor.raise(name)?;
        self.leader.raise(name)
    }

    /// How many transactions the manager committed.
    pub fn committed(&self) -> u64 {
        self.committed
    }

    /// How many bytes the records have.
    pub fn lengths(&self) -> Lengths {
        Lengths {
            manager: self.manager.length(),
            acceptor: self.acceptor.length(),
            leader: self.leader.length(),
        }
    }
}
