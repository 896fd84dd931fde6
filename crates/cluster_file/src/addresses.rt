ghost use Rattle.std.specs.Prelude.{◌≡◌, ◌≢◌, ◌++◌, ◌∷◌, [], Ok, IfOk, IfErr, OnOk, MatchBool, IfNone, not};
ghost use Rattle.std.specs.List.{AllPairs};
ghost use Rattle.cluster_file.specs.Clusters.{addresses_of, addresses_at};
ghost use Rattle.cluster_file.specs.Mistakes.{IsRefused, Says};
ghost use Rattle.cluster_file.specs.Repeated.{address_by, apart_at, place_repeated, repetition, spot_at, spot_from, stands_in};

use crate::cluster::Place;
use crate::error::{ClusterError, Fault, Kind, Spot};
use std::alloc::{AllocError, Global};
use std::net::SocketAddr;

/// Where the node of a place stands in the file, with so many acceptors and leaders.
fn spot_at(acceptors: u8, leaders: u8, place: usize, client: bool) -> Spot
    ensures { result ≡ spot_at acceptors leaders place client }
{
    let first_leader = usize::from(acceptors);
    let first_manager = first_leader + usize::from(leaders);
    if place < first_leader {
        return Spot {
            kind: Kind::Acceptor,
            index: place,
            client,
        };
    }
    if place < first_manager {
        return Spot {
            kind: Kind::Leader,
            index: place - first_leader,
            client,
        };
    }
    Spot {
        kind: Kind::Manager,
        index: place - first_manager,
        client,
    }
}

/// Where an address first stands in the file.
fn spot_of(acceptors: u8, leaders: u8, places: &[Place], address: SocketAddr) -> Spot
    ensures { result ≡ spot_from acceptors leaders address 0 places.now }
{
    for i in 0..places.len() {
        if places[i].node == address {
            return spot_at(acceptors, leaders, i, false);
        }
        if let Some(client) = places[i].client {
            if client == address {
                return spot_at(acceptors, leaders, i, true);
            }
        }
    }
    spot_at(acceptors, leaders, 0, false)
}

/// Adds an address to others, unless it is one of them. Whether it is new.
fn add(taken: &mut Vec<SocketAddr>, address: SocketAddr) -> Result<bool, AllocError>
    ensures items { IfOk result (λ new. MatchBool new (taken.new.items ≡ taken.old.items ++ address ∷ [])
        (taken.new.items ≡ taken.old.items)) }
    ensures new { IfOk result (λ new. new ≡ not (stands_in taken.old.items address)) }
    ensures apart { OnOk result (AllPairs (λ a b. a ≢ b) taken.old.items → AllPairs (λ a b. a ≢ b) taken.new.items) }
{
    for i in 0..taken.len() {
        if taken[i] == address {
            return Ok(false);
        }
    }
    taken.push(address)?;
    Ok(true)
}

/// The addresses of a place are new. They are added to others. Where one isn't, whether it is the clients'.
fn add_place(taken: &mut Vec<SocketAddr>, place: Place) -> Result<Option<bool>, AllocError>
    ensures items { IfOk result (λ old. IfNone old (taken.new.items ≡ taken.old.items ++ addresses_at place)) }
    ensures old { IfOk result (λ old. old ≡ place_repeated taken.old.items place) }
    ensures apart { OnOk result (AllPairs (λ a b. a ≢ b) taken.old.items → AllPairs (λ a b. a ≢ b) taken.new.items) }
{
    if !add(taken, place.node)? {
        return Ok(Some(false));
    }
    let Some(client) = place.client else {
        return Ok(None);
    };
    if !add(taken, client)? {
        return Ok(Some(true));
    }
    Ok(None)
}

/// An address of a place.
fn address_by(place: Place, client: bool) -> SocketAddr
    ensures { result ≡ address_by place client }
{
    if client {
        place.client.unwrap_or(place.node)
    } else {
        place.node
    }
}

/// That an address of the place of a number stands in the file before.
fn repeated(
    alloc: Global,
    acceptors: u8,
    leaders: u8,
    places: &[Place],
    index: usize,
    client: bool,
    place: Place,
) -> ClusterError
    ensures { Says (repetition acceptors leaders places.now index place client) result }
{
    let spot = spot_at(acceptors, leaders, index, client);
    let first = spot_of(acceptors, leaders, places, address_by(place, client));
    match format!(in alloc; "{spot}") {
        Ok(path) => ClusterError::Wrong {
            path,
            fault: Fault::Repeated(first),
        },
        Err(_) => ClusterError::Memory,
    }
}

/// No address stands twice in the file.
pub(crate) fn check_apart(
    alloc: Global,
    acceptors: u8,
    leaders: u8,
    places: &[Place],
) -> Result<(), ClusterError>
    ensures apart { OnOk result (AllPairs (λ a b. a ≢ b) (addresses_of places.now)) }
    ensures ok { OnOk result (apart_at acceptors leaders places.now ≡ Ok tt) }
    ensures err { IfErr result (IsRefused (apart_at acceptors leaders places.now)) }
{
    let mut taken = Vec::new(alloc);
    for i in 0..places.len() {
        if let Some(client) = add_place(&mut taken, places[i])? {
            return Err(repeated(alloc, acceptors, leaders, places, i, client, places[i]));
        }
    }
    Ok(())
}
