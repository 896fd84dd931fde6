//! What is told of floors in a cluster: each notice of one, and what each node was told.

ghost use Rattle.std.specs.Prelude.{◌≡◌, ◌⊎◌, suc, ◌<◌, ◌≤◌, ◌+◌, ◌++◌, Some, None, [], length, map, replicate, slice_index_or};
ghost use Rattle.std.specs.Prelude.{IfOk, IfErr, IfSome, IfNone, OnOk};
ghost use Rattle.std.specs.Option.{option_map};
ghost use Rattle.std.specs.Vec.{vec_len, vec_capacity};
ghost use Rattle.xid.specs.declared.refusals.Refusal.TheVariants.{NoMemory};
ghost use Rattle.floors.specs.Worlds.{notices_of};
ghost use Rattle.node_core.specs.Places.{node_count};
ghost use Rattle.node_core.specs.Configs.{config_by};
ghost use Rattle.cluster.specs.Clusters.{notice_at};
ghost use Rattle.cluster.specs.Notices.{HasHeardAt, HaveTold, forgotten_at, notice_in, shown_notice, told_count};

use floored::ToldFloors;
use node_core::{Sizes, node_count, node_in};
use protocol::{NodeId, Told};
use std::alloc::Global;
use std::marker::Model;
use wire::Notice;
use xid::{Floor, Refusal};

/// How many notices there may be: each has a number of 32 bits.
const MAX_NOTICES: usize = u32::MAX as usize;

/// A notice that was told.
#[derive(Clone, Copy)]
pub(crate) struct KeptNotice {
    pub(crate) manager: u8,
    pub(crate) receiver: NodeId,
    pub(crate) floor: Floor,
}

/// Every notice that was told, and what each node was told: the acceptors, then the leaders, then the resource managers, to which notices
/// say nothing.
#[derive(Drop)]
pub(crate) struct Notices {
    told: Vec<ToldFloors>,
    all: Vec<KeptNotice>,
}

impl Model for Notices {
    ghost use Rattle.std.specs.Prelude.{◌-◌, ◌≤◌, min, map, length};
    ghost use Rattle.std.specs.Vec.{vec_len, vec_capacity};
    ghost use Rattle.cluster.specs.Clusters.{NoticesParts, most_notices};
    ghost use Rattle.cluster.specs.Notices.{shown_notice};

    ghost Value = { NoticesParts };

    ghost view = { λ n. record {
      told = n.told.items;
      all = map shown_notice n.all.items;
      spare = min (vec_capacity n.all) most_notices - vec_len n.all;
    } };

    ghost invariant = { λ n. length n.all.items ≤ most_notices };
}

/// How many nodes a floor is told.
pub(crate) fn count_told(sizes: Sizes) -> usize
    ensures { result ≡ told_count sizes }
{
    usize::from(sizes.acceptors) + usize::from(sizes.leaders)
}

/// Nothing was told to so many nodes of so many resource managers. Refused: `NoMemory` alone.
fn none_told(alloc: Global, nodes: usize, managers: usize) -> Result<Vec<ToldFloors>, Refusal>
    ensures ok { IfOk result (λ told. told.items ≡ replicate nodes (replicate managers None)) }
    ensures err { IfErr result (λ e. e ≡ NoMemory) }
{
    let mut told = Vec::with_capacity(alloc, nodes)?;
    for _ in 0..nodes {
        told.push(ToldFloors::new(alloc, managers)?)?;
    }
    Ok(told)
}

/// Puts a notice for each acceptor, and then for each leader, after the others. There is room for that.
fn put_all(all: &mut Vec<KeptNotice>, sizes: Sizes, manager: u8, floor: &Floor)
    requires { vec_len all.old + told_count sizes ≤ vec_capacity all.old }
    ensures items { map shown_notice all.new.items
        ≡ map shown_notice all.old.items ++ notices_of (config_by sizes []) manager (Some floor.now) }
    ensures len { vec_len all.new ≡ vec_len all.old + told_count sizes }
{
    for i in 0..count_told(sizes) {
        all.push_reserved(KeptNotice {
            manager,
            receiver: node_in(sizes, i),
            floor: *floor,
        });
    }
}

/// The place of a number from 1 among so many, if it has one there.
fn place_of_number(number: u32, count: usize) -> Option<usize>
    ensures some { IfSome result (λ place. (place < count) × (number ≡ suc place)) }
    ensures none { IfNone result ((number ≡ 0) ⊎ (count < number)) }
{
    if number == 0 {
        return None;
    }
    let place = number as usize - 1;
    if place < count { Some(place) } else { None }
}

impl Notices {
    /// No notice, and nothing was told to any node of a cluster of these sizes. Refused: `NoMemory` alone.
    pub(crate) fn new(alloc: Global, sizes: Sizes) -> Result<Notices, Refusal>
        ensures told { IfOk result (λ n. n.told ≡ replicate (node_count sizes) (replicate sizes.managers None)) }
        ensures all { IfOk result (λ n. n.all ≡ []) }
        ensures err { IfErr result (λ e. e ≡ NoMemory) }
    {
        let told = none_told(alloc, node_count(sizes), usize::from(sizes.managers))?;
        Ok(Notices {
            told,
            all: Vec::new(alloc),
        })
    }

    /// How many there are, which is the number of the last.
    pub(crate) fn len(&self) -> u32
        ensures { result ≡ length self.now.all }
    {
        self.all.len() as u32
    }

    /// Makes room for so many more. Refused: `NoMemory`, also where their numbers would pass 32 bits. What was told stays.
    pub(crate) fn reserve(&mut self, count: usize) -> Result<(), Refusal>
        ensures told { self.new.told ≡ self.old.told }
        ensures all { self.new.all ≡ self.old.all }
        ensures room { OnOk result (count ≤ self.new.spare) }
        ensures err { IfErr result (λ e. e ≡ NoMemory) }
    {
        if count > MAX_NOTICES - self.all.len() {
            return Err(Refusal::NoMemory);
        }
        if self.all.reserve(count).is_err() {
            return Err(Refusal::NoMemory);
        }
        Ok(())
    }

    /// Tells a resource manager's floor, if it has one, to each acceptor and each leader. There is room for that.
    pub(crate) fn tell(&mut self, sizes: Sizes, manager: u8, floor: &Option<Floor>)
        requires { told_count sizes ≤ self.old.spare }
        ensures { HaveTold sizes manager floor.now self.old self.new }
    {
        let Some(floor) = floor else {
            return;
        };
        put_all(&mut self.all, sizes, manager, floor);
    }

    /// The notice of a place, which is one less than its number.
    pub(crate) fn listed(&self, place: u32) -> Told
        requires { place < length self.now.all }
        ensures number { result.number ≡ place + 1 }
        ensures notice { notice_in result ≡ slice_index_or self.now.all place (notice_in result) }
    {
        let kept = self.all[place as usize];
        Told {
            number: place + 1,
            manager: kept.manager,
            receiver: kept.receiver,
            floor: kept.floor,
        }
    }

    /// The notice of a number, if there is one.
    pub(crate) fn at(&self, number: u32) -> Option<KeptNotice>
        ensures { option_map shown_notice result ≡ notice_at self.now.all number }
    {
        let Some(place) = place_of_number(number, self.all.len()) else {
            return None;
        };
        Some(self.all[place])
    }

    /// The node of a place keeps a notice in memory. What is the least floor then that it was told of all resource managers; none, where
    /// one of them told none.
    pub(crate) fn hear(&mut self, at: usize, notice: &KeptNotice) -> Option<Floor>
        requires { at < length self.old.told }
        ensures { HasHeardAt at (shown_notice notice.now) self.old self.new result }
    {
        let told = &mut self.told[at];
        told.hear(&Notice {
            manager: u16::from(notice.manager),
            floor: notice.floor,
        });
        told.least()
    }

    /// The node of a place was told nothing any more.
    pub(crate) fn forget(&mut self, at: usize)
        requires { at < length self.old.told }
        ensures { self.new ≡ forgotten_at at self.old }
    {
        let told = &mut self.told[at];
        told.forget();
    }
}
