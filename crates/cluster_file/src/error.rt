ghost use Rattle.std.specs.Prelude.{◌≡◌, Some};
ghost use Rattle.cluster_file.specs.declared.error.ClusterError.TheVariants.{Memory};
ghost use Rattle.cluster_file.specs.Kinds.{kind_name, spot_key, spot_text};

use std::alloc::{AllocError, AllocFailed};
use std::fmt;
use thiserror::Error;

/// The kinds of nodes.
#[derive(Clone, Copy, Debug, PartialEq, Eq)]
pub enum Kind {
    /// Acceptors.
    Acceptor,
    /// Leaders.
    Leader,
    /// Resource managers.
    Manager,
}

impl Kind {
    /// The key of its nodes in the file.
    pub fn name(self) -> &'static str
        ensures { result.now ≡ kind_name self }
    {
        match self {
            Kind::Acceptor => "acceptor",
            Kind::Leader => "leader",
            Kind::Manager => "rm",
        }
    }
}

/// Where an address stands in the file.
#[derive(Clone, Copy, Debug, PartialEq, Eq)]
pub struct Spot {
    /// The kind of its node.
    pub kind: Kind,
    /// The number of its node.
    pub index: usize,
    /// Whether it is where clients come.
    pub client: bool,
}

impl Spot {
    /// Its key at its node.
    pub fn key(&self) -> &'static str
        ensures { result.now ≡ spot_key self.now.client }
    {
        if self.client { "client" } else { "node" }
    }
}

impl fmt::Display for Spot {
    ghost output = { λ spot. Some (spot_text spot) };

    fn fmt<W: fmt::Write>(&self, f: &mut fmt::Formatter<W>) -> fmt::Result {
        let kind = self.kind.name();
        let index = self.index;
        let key = self.key();
        write!(f, "{kind}[{index}].{key}")
    }
}

/// What is wrong at a key of the file.
#[derive(Clone, Copy, Debug, PartialEq, Eq, Error)]
pub enum Fault {
    /// It has to be there.
    #[error("it is missing")]
    Missing,
    /// Nothing goes by this key.
    #[error("there is no such key")]
    Unknown,
    /// It is of another type.
    #[error("it isn't true or false")]
    NoBoolean,
    /// It is of another type.
    #[error("it is no text")]
    NoText,
    /// It is of another type.
    #[error("it is no whole number")]
    NoNumber,
    /// It is of another type.
    #[error("it is no table")]
    NoTable,
    /// It is of another type.
    #[error("it is no list")]
    NoList,
    /// A number is too small or too great.
    #[error("it isn't from {low} to {high}")]
    Outside {
        /// The least.
        low: u32,
        /// The greatest.
        high: u32,
    },
    /// It is no address.
    #[error("it is no address and port, as 10.0.0.1:7100")]
    NoAddress,
    /// An address that stands in the file before.
    #[error("{0} is the same address")]
    Repeated(Spot),
    /// Whoever reaches the address could send datagrams as a node.
    #[error("it isn't at loopback, and there is no key")]
    OpenToNodes,
    /// Whoever reaches the address could be a client.
    #[error("it isn't at loopback, and there is no client_key")]
    OpenToClients,
    /// Clients could sign datagrams.
    #[error("it is the nodes' key")]
    SharedKey,
    /// As many acceptors as there may not be.
    #[error("refused 13: there are 1, 3, 5 or 7")]
    Acceptors,
    /// As many leaders as there may not be.
    #[error("refused 13: there are 1 to 4")]
    Leaders,
    /// As many resource managers as there may not be.
    #[error("refused 13: there are 1 to 64")]
    Managers,
    /// A row's key is too short or too long.
    #[error("refused 13: a key has 1 to 64 bytes")]
    RowKey,
    /// A row's value is too long.
    #[error("refused 13: a value has at most 256 bytes")]
    RowValue,
    /// Sizes or rows are outside the limits.
    #[error("refused 13")]
    Limits,
    /// A row isn't in hex.
    #[error("it isn't in pairs of hex digits, 0 to 9 and a to f")]
    NoHex,
}

/// Why a text isn't a cluster. Each prints as one line.
#[derive(Debug, Drop, Error)]
pub enum ClusterError {
    /// It is no TOML.
    #[error("line {line}: {}", .error.message())]
    Syntax {
        /// The line at which reading stopped, counted from 1.
        line: usize,
        /// What is wrong there.
        error: toml::de::Error,
    },
    /// A value at a key is wrong, or it is missing.
    #[error("{path}: {fault}")]
    Wrong {
        /// The key, and before it those in which it stands.
        path: String,
        /// What is wrong.
        fault: Fault,
    },
    /// Memory ran out, which says nothing of the text.
    #[error("memory ran out")]
    Memory,
}

impl From<AllocError> for ClusterError {
    ghost from_gives = { λ _ e. e ≡ Memory };

    fn from(_error: AllocError) -> ClusterError {
        ClusterError::Memory
    }
}

impl<T: Drop> From<AllocFailed<T>> for ClusterError {
    ghost from_gives = { λ _ e. e ≡ Memory };

    fn from(_error: AllocFailed<T>) -> ClusterError {
        ClusterError::Memory
    }
}

/// Why a text is no key.
#[derive(Clone, Copy, Debug, PartialEq, Eq, Error)]
pub enum KeyError {
    /// It has too few bytes.
    #[error("a key has 64 hex digits, and this fewer")]
    Short,
    /// It has too many.
    #[error("a key has 64 hex digits, and this more")]
    Long,
    /// One of them is no digit, or a capital.
    #[error("a key is in hex digits, 0 to 9 and a to f")]
    NoDigit,
}
