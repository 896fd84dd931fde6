//! Words that are numbers and nodes.

ghost use Rattle.std.specs.Prelude.{◌<◌, ◌^◌, false, decimal};
ghost use Rattle.net_script.specs.Basics.{A, L, R};
ghost use Rattle.net_script.specs.Lines.{node_text};
ghost use Rattle.net_script.specs.Events.{IsNode, IsParty};
ghost use Rattle.net_script.specs.Laws.{a_number, a_manager, an_acceptor, a_leader, a_node, a_party};

use crate::stop::Stop;
use crate::word::Word;
use crate::words::{lettered_word, manager_word, node_word};
use protocol::NodeId;
use std::alloc::Global;
use xid::text;

impl Word for u32 {
    ghost fits = { λ n. n < 2 ^ 32 };

    ghost text = { decimal };

    ghost allocates = { false };

    ghost spelling = { a_number };

    fn read(_alloc: Global, word: &[u8]) -> Result<u32, Stop> {
        text::number(word).ok_or(Stop::Wrong)
    }
}

/// A resource manager by its number.
#[derive(Drop)]
pub struct Manager(pub u8);

impl Word for Manager {
    ghost fits = { λ manager. manager.0 < 256 };

    ghost text = { λ manager. node_text (R manager.0) };

    ghost allocates = { false };

    ghost spelling = { a_manager };

    fn read(_alloc: Global, word: &[u8]) -> Result<Manager, Stop> {
        Ok(Manager(manager_word(word).ok_or(Stop::Wrong)?))
    }
}

/// An acceptor by its number.
#[derive(Drop)]
pub struct Acceptor(pub u8);

impl Word for Acceptor {
    ghost fits = { λ acceptor. acceptor.0 < 256 };

    ghost text = { λ acceptor. node_text (A acceptor.0) };

    ghost allocates = { false };

    ghost spelling = { an_acceptor };

    fn read(_alloc: Global, word: &[u8]) -> Result<Acceptor, Stop> {
        Ok(Acceptor(lettered_word(word, b'a').ok_or(Stop::Wrong)?))
    }
}

/// A leader by its number.
#[derive(Drop)]
pub struct Leader(pub u8);

impl Word for Leader {
    ghost fits = { λ leader. leader.0 < 256 };

    ghost text = { λ leader. node_text (L leader.0) };

    ghost allocates = { false };

    ghost spelling = { a_leader };

    fn read(_alloc: Global, word: &[u8]) -> Result<Leader, Stop> {
        Ok(Leader(lettered_word(word, b'l').ok_or(Stop::Wrong)?))
    }
}

impl Word for NodeId {
    ghost fits = { IsNode };

    ghost text = { node_text };

    ghost allocates = { false };

    ghost spelling = { a_node };

    fn read(_alloc: Global, word: &[u8]) -> Result<NodeId, Stop> {
        node_word(word).ok_or(Stop::Wrong)
    }
}

/// A node that has timeouts: a leader or a resource manager.
#[derive(Drop)]
pub struct Party(pub NodeId);

impl Word for Party {
    ghost fits = { λ party. IsParty party.0 };

    ghost text = { λ party. node_text party.0 };

    ghost allocates = { false };

    ghost spelling = { a_party };

    fn read(_alloc: Global, word: &[u8]) -> Result<Party, Stop> {
        if let Some(rm) = manager_word(word) {
            return Ok(Party(NodeId::R(rm)));
        }
        if let Some(leader) = lettered_word(word, b'l') {
            return Ok(Party(NodeId::L(leader)));
        }
        Err(Stop::Wrong)
    }
}
