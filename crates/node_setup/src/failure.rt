//! Why the program ends, what it says then, and with which status.

use cluster_file::{ClusterError, KeyError};
use std::alloc::{AllocError, AllocFailed, Global};
use std::io::{self, ErrorKind};
use std::net::SocketAddr;
use thiserror::Error;
use xid::Refusal;

/// The exit status where the command line or the cluster's file is at fault.
const MISUSED: u8 = 2;
/// The exit status where a device is, or where the node went down.
const REFUSED: u8 = 3;

/// Why the program ends. Its text is one line, which says what to do.
#[derive(Debug, Drop, Error)]
pub enum Failure {
    /// The command line is none of the program's.
    #[error("usage: pcommit_node [--log error|warn|info|debug] [--replace | --replace-from PLACE] CLUSTER.toml NAME DIR")]
    Usage,
    /// The cluster's file can't be read.
    #[error("{file}: {error}: give the path of the cluster's file")]
    Unread {
        /// Its path.
        file: String,
        /// What the system says.
        error: io::Error,
    },
    /// The cluster's file has a fault.
    #[error("{file}: {error}: mend the file")]
    Cluster {
        /// Its path.
        file: String,
        /// The fault.
        error: ClusterError,
    },
    /// The cluster has no such node.
    #[error("{name}: no node of the cluster: give the name of one, as a0, l0 or r0")]
    Name {
        /// The name that was given.
        name: String,
    },
    /// A key file can't be read.
    #[error("{file}: {error}: make the key file, beside the cluster's file")]
    UnreadKey {
        /// The key file's path.
        file: String,
        /// What the system says.
        error: io::Error,
    },
    /// Others may read a key file.
    #[error("{file}: others may read it: make a new key, and let nobody else read it (chmod 600)")]
    OpenKey {
        /// The key file's path.
        file: String,
    },
    /// A key file has a fault.
    #[error("{file}: {error}: a key file has 64 hex digits")]
    Key {
        /// The key file's path.
        file: String,
        /// The fault.
        error: KeyError,
    },
    /// The folder has the record of another cluster.
    #[error("{file}: it says {found}, and the cluster's file makes {wanted}: give the folder of this cluster, or its file as it was")]
    Digest {
        /// The path of the file that says whose the record is.
        file: String,
        /// What it says.
        found: String,
        /// What it would say of this node.
        wanted: String,
    },
    /// What a blank node is to take part from is no place.
    #[error("{place}: no place in the order of names: give FORMAT:GTRID, as 1:018f")]
    Place {
        /// What was given.
        place: String,
    },
    /// A blank node is to follow the clock, and names don't.
    #[error("names are not timed in the cluster's file: give a place above all names in use, as --replace-from PLACE")]
    Untimed,
    /// A blank node is to stand in for a resource manager.
    #[error("{name}: nothing stands in for a resource manager, whose record is its data: see 'A record is gone' in docs/DEPLOY.md")]
    IsManager {
        /// Its name.
        name: String,
    },
    /// The record is gone that the folder's node has had.
    #[error("{file}: the record is gone that stood here: do not start with none: see 'A record is gone' in docs/DEPLOY.md")]
    NoRecord {
        /// The record's path.
        file: String,
    },
    /// A blank node is to stand in for one whose record is there.
    #[error("{file}: a record is there, and a blank one stands in for a lost one alone: start the node without --replace")]
    HasRecord {
        /// The record's path.
        file: String,
    },
    /// A device failed.
    #[error("{refusal}: {what}: {todo}")]
    Device {
        /// The refusal.
        refusal: Refusal,
        /// The path or the address.
        what: String,
        /// What is to be done.
        todo: &'static str,
    },
    /// The node went down.
    #[error("{refusal}: the node is down: see to the disk, and start it again; it goes on from its record")]
    Down {
        /// The refusal for which it did.
        refusal: Refusal,
    },
    /// Memory ran out.
    #[error("refused 11: memory ran out: start it again, with more; the node goes on from its record")]
    Memory,
    /// The system failed where it isn't expected to.
    #[error("refused 12: {0}: start it again; the node goes on from its record")]
    System(io::Error),
}

impl Failure {
    /// The exit status of a program that ends so.
    pub fn status(&self) -> u8 {
        match self {
            Failure::Usage
            | Failure::Unread { .. }
            | Failure::Cluster { .. }
            | Failure::Name { .. }
            | Failure::UnreadKey { .. }
            | Failure::OpenKey { .. }
            | Failure::Key { .. }
            | Failure::Digest { .. }
            | Failure::Place { .. }
            | Failure::Untimed
            | Failure::IsManager { .. }
            | Failure::NoRecord { .. }
            | Failure::HasRecord { .. } => MISUSED,
            Failure::Device { .. } | Failure::Down { .. } | Failure::Memory | Failure::System(_) =>
                REFUSED,
        }
    }
}

impl From<AllocError> for Failure {
    fn from(_error: AllocError) -> Failure {
        Failure::Memory
    }
}

impl<T: Drop> From<AllocFailed<T>> for Failure {
    fn from(_error: AllocFailed<T>) -> Failure {
        Failure::Memory
    }
}

impl From<io::Error> for Failure {
    fn from(error: io::Error) -> Failure {
        match error.kind() {
            ErrorKind::OutOfMemory => Failure::Memory,
            _ => Failure::System(error),
        }
    }
}

impl From<Refusal> for Failure {
    fn from(refusal: Refusal) -> Failure {
        match refusal {
            Refusal::NoMemory => Failure::Memory,
            refusal => Failure::Down { refusal },
        }
    }
}

/// A text of its own.
pub(crate) fn owned(alloc: Global, text: &str) -> Result<String, AllocError> {
    String::from_str(alloc, text)
}

/// Why a file in the folder can't be used.
pub(crate) fn folder_fault(path: String, error: io::Error) -> Failure {
    if error.kind() == ErrorKind::OutOfMemory {
        return Failure::Memory;
    }
    Failure::Device {
        refusal: Refusal::FileFault,
        what: path,
        todo: "make the folder, and let the node write in it",
    }
}

/// Why an address can't be used.
pub fn address_fault(alloc: Global, at: SocketAddr, error: io::Error) -> Failure {
    match format!(in alloc; "{at}: {error}") {
        Ok(what) => Failure::Device {
            refusal: Refusal::PortFault,
            what,
            todo: "stop the process that has the address, or mend the address in the cluster's file",
        },
        Err(_) => Failure::Memory,
    }
}
