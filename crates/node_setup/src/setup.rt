//! What a node is started with: the cluster's file and its keys.

ghost use Rattle.std.specs.Prelude.{◌≡◌, map, IfOk};

use crate::command::Options;
use crate::failure::{Failure, owned};
use cluster_file::{Cluster, ClusterError, Fault, KEY, Place, digest, key_of, read_cluster};
use hashing::HashKey;
use net_script::last_node;
use node_core::place_of;
use protocol::NodeId;
use std::alloc::{AllocError, Global};
use std::fs;
use std::hash::RandomState;
use std::io::{self, ErrorKind};
use std::net::SocketAddr;
use std::os::unix::fs::MetadataExt;
use std::path::Path;

/// What a node is started with.
#[derive(Debug, Drop)]
pub struct Setup {
    /// Its cluster.
    pub cluster: Cluster,
    /// Which node it is.
    pub who: NodeId,
    /// Where it is found.
    pub place: Place,
    /// The digest of its cluster.
    pub digest: [u8; 32],
    /// What its datagrams are signed with, if they are.
    pub key: Option<[u8; KEY]>,
    /// What its clients prove that they have, if they do.
    pub client_key: Option<[u8; KEY]>,
    /// What names are hashed under.
    pub(crate) hash_key: HashKey,
}

/// Whether anybody but the owner may read a file of this mode.
fn is_open_to_others(mode: u32) -> bool {
    mode & 0o077 != 0
}

/// The cluster of a file.
fn cluster_of(rt: HostRuntime, file: &str) -> Result<Cluster, Failure> {
    let text = match fs::read_to_string(&rt, file) {
        Ok(text) => text,
        Err(error) if error.kind() == ErrorKind::OutOfMemory => return Err(Failure::Memory),
        Err(error) => {
            return Err(Failure::Unread {
                file: owned(rt.alloc(), file)?,
                error,
            });
        }
    };
    match read_cluster(rt.alloc(), text.as_str()) {
        Ok(cluster) => Ok(cluster),
        Err(ClusterError::Memory) => Err(Failure::Memory),
        Err(error) => Err(Failure::Cluster {
            file: owned(rt.alloc(), file)?,
            error,
        }),
    }
}

/// The path of a file that stands beside another.
fn beside(alloc: Global, file: &str, name: &str) -> Result<String, AllocError> {
    match Path::new(file).parent() {
        Some(parent) if !parent.as_str().is_empty() => {
            let folder = parent.as_str();
            format!(in alloc; "{folder}/{name}")
        }
        _ => owned(alloc, name),
    }
}

/// The bytes of a key file, which nobody else may read.
fn key_bytes(rt: HostRuntime, path: &str) -> io::Result<Option<Vec<u8>>> {
    if is_open_to_others(fs::metadata(&rt, path)?.mode()) {
        return Ok(None);
    }
    let bytes = fs::read(&rt, path)?;
    Ok(Some(bytes))
}

/// The key of a file beside the cluster's file.
fn key_at(rt: HostRuntime, path: String) -> Result<[u8; KEY], Failure> {
    let bytes = match key_bytes(rt, path.as_str()) {
        Ok(Some(bytes)) => bytes,
        Ok(None) => return Err(Failure::OpenKey { file: path }),
        Err(error) if error.kind() == ErrorKind::OutOfMemory => return Err(Failure::Memory),
        Err(error) => return Err(Failure::UnreadKey { file: path, error }),
    };
    match key_of(&bytes) {
        Ok(key) => Ok(key),
        Err(error) => Err(Failure::Key { file: path, error }),
    }
}

/// The key of a name, if there is one.
fn key_named(
    rt: HostRuntime,
    file: &str,
    name: &Option<String>,
) -> Result<Option<[u8; KEY]>, Failure> {
    let Some(name) = name else {
        return Ok(None);
    };
    let path = beside(rt.alloc(), file, name.as_str())?;
    match key_at(rt, path) {
        Ok(key) => Ok(Some(key)),
        Err(failure) => Err(failure),
    }
}

/// The node of a name, and its place.
fn place_named(alloc: Global, cluster: &Cluster, name: &str) -> Result<(NodeId, Place), Failure> {
    if let Some(who) = last_node(name.as_bytes()) {
        if let Some(at) = place_of(cluster.config.sizes(), who) {
            if let Some(place) = cluster.places.get(at) {
                return Ok((who, *place));
            }
        }
    }
    Err(Failure::Name {
        name: owned(alloc, name)?,
    })
}

/// Whether there are both keys, and they are one.
fn are_one(key: &Option<[u8; KEY]>, client_key: &Option<[u8; KEY]>) -> bool {
    match (key, client_key) {
        (Some(key), Some(client_key)) => *key == *client_key,
        _ => false,
    }
}

/// The clients' key is the nodes' key.
fn shared_key(alloc: Global, file: &str) -> Result<Failure, AllocError> {
    Ok(Failure::Cluster {
        file: owned(alloc, file)?,
        error: ClusterError::Wrong {
            path: owned(alloc, "client_key")?,
            fault: Fault::SharedKey,
        },
    })
}

/// Reads what a node is started with. Refused: the cluster's file or a key can't be read or has a fault, the cluster has no node of this
/// name, the system gives no random bytes, or memory ran out.
pub fn set_up(rt: HostRuntime, options: Options) -> Result<Setup, Failure> {
    let mut cluster = match cluster_of(rt, options.file) {
        Ok(cluster) => cluster,
        Err(failure) => return Err(failure),
    };
    let (who, place) = place_named(rt.alloc(), &cluster, options.name)?;
    let key = key_named(rt, options.file, &cluster.key)?;
    let client_key = key_named(rt, options.file, &cluster.client_key)?;
    if are_one(&key, &client_key) {
        return Err(shared_key(rt.alloc(), options.file)?);
    }
    let hash_key = HashKey::drawn(RandomState::new(&rt)?);
    cluster.config = cluster.config.with_hash_key(hash_key);
    let digest = digest(&cluster.config);
    Ok(Setup {
        cluster,
        who,
        place,
        digest,
        key,
        client_key,
        hash_key,
    })
}

/// Where all nodes are found by each other.
pub fn node_places(alloc: Global, setup: &Setup) -> Result<Vec<SocketAddr>, AllocError>
    ensures { IfOk result (λ found. found.items ≡ map (λ place. place.node) setup.now.cluster.places.items) }
{
    let mut found = Vec::new(alloc);
    for place in &setup.cluster.places {
        found.push(place.node)?;
    }
    Ok(found)
}
