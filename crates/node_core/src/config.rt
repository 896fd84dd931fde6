ghost use Rattle.std.specs.Prelude.{◌≡◌, IfOk, IfErr, true, false};
ghost use Rattle.std.specs.List.{list_all};
ghost use Rattle.xid.specs.declared.refusals.Refusal.TheVariants.{BadConfig};
ghost use Rattle.node_core.specs.Configs.{are_sizes as are_sizes_of, is_config, is_among, config_of, bundled_config};
ghost use Rattle.branch_table.specs.TableStates.{is_row, are_rows};
ghost use Rattle.node_core.specs.Nodes.{AreSizes, HasRows};

use hashing::HashKey;
use protocol::{NodeId, Row};
use std::marker::Model;
use xid::{MAX_KEY, MAX_LEADERS, MAX_MANAGERS, MAX_VALUE, Refusal, Sequence};

/// The sizes of a cluster, and its kind.
#[derive(Clone, Copy, Debug, PartialEq, Eq)]
pub struct Sizes {
    /// How many acceptors there are.
    pub acceptors: u8,
    /// How many leaders.
    pub leaders: u8,
    /// How many resource managers.
    pub managers: u8,
    /// Whether phases 1a, 1b and 2b go in bundles.
    pub bundled: bool,
}

/// A cluster: its sizes, its kind, and the first contents of its tables, one for each resource manager. All are within the limits.
#[derive(Debug, Drop)]
pub struct Config {
    sizes: Sizes,
    tables: Sequence<Sequence<Row>>,
    key: HashKey,
}

impl Model for Config {
    ghost use Rattle.std.specs.Prelude.{◌≡◌, true};
    ghost use Rattle.protocol.specs.Effects.{Config as ConfigParts};

    ghost Value = { ConfigParts };

    ghost use Rattle.node_core.specs.Configs.{config_by, is_config};

    ghost view = { λ c. config_by c.sizes c.tables };

    ghost invariant = { λ c. is_config (config_by c.sizes c.tables) ≡ true };
}

impl Config {
    /// A cluster that isn't bundled: 1, 3, 5 or 7 acceptors, 1 to 4 leaders, 1 to 64 resource managers, and the first rows of each of
    /// these. Of two rows with one key the later counts. Refused: sizes, or lengths of a key or a value, outside the limits, or another
    /// number of tables (`BadConfig`). It takes no memory.
    pub fn new(
        acceptors: u8,
        leaders: u8,
        managers: u8,
        tables: Sequence<Sequence<Row>>,
    ) -> Result<Config, Refusal>
        ensures ok { IfOk result (λ c. (c ≡ config_of acceptors leaders managers tables)
            × (is_config (config_of acceptors leaders managers tables) ≡ true)) }
        ensures err { IfErr result (λ e. (e ≡ BadConfig) × (is_config (config_of acceptors leaders managers tables) ≡ false)) }
    {
        if !are_sizes(acceptors, leaders, managers) {
            return Err(Refusal::BadConfig);
        }
        if tables.as_slice().len() != usize::from(managers) {
            return Err(Refusal::BadConfig);
        }
        if !are_tables(tables.as_slice()) {
            return Err(Refusal::BadConfig);
        }
        Ok(Config {
            sizes: Sizes {
                acceptors,
                leaders,
                managers,
                bundled: false,
            },
            tables,
            key: HashKey::fixed(),
        })
    }

    /// The same cluster, in which one message carries all instances of a transaction in phases 1a, 1b and 2b. It takes no memory.
    pub fn bundled(self) -> Config
        ensures { result ≡ bundled_config self }
    {
        Config {
            sizes: Sizes {
                bundled: true,
                ..self.sizes
            },
            tables: self.tables,
            key: self.key,
        }
    }

    /// The same cluster, in whose nodes names are hashed under this key; else it is one that anybody knows. Nothing that a node answers,
    /// sends or stores depends on it. It takes no memory.
    pub fn with_hash_key(self, key: HashKey) -> Config
        ensures { result ≡ self }
    {
        Config {
            sizes: self.sizes,
            tables: self.tables,
            key,
        }
    }

    /// What names are hashed under.
    pub fn hash_key(&self) -> HashKey {
        self.key
    }

    /// Its sizes.
    pub fn sizes(&self) -> Sizes
        ensures sizes { AreSizes self.now result }
        ensures valid { is_config self.now ≡ true }
    {
        self.sizes
    }

    /// Whether a node is one of it.
    pub fn has(&self, who: NodeId) -> bool
        ensures { result ≡ is_among self.now who }
    {
        match who {
            NodeId::A(a) => a < self.sizes.acceptors,
            NodeId::L(l) => l < self.sizes.leaders,
            NodeId::R(rm) => rm < self.sizes.managers,
        }
    }

    /// The first rows of a node's table, none where it has none.
    pub fn rows_of(&self, who: NodeId) -> &[Row]
        ensures rows { HasRows self.now who result.now }
        ensures short { are_rows result.now ≡ true }
    {
        let NodeId::R(rm) = who else {
            return &[];
        };
        match self.tables.as_slice().get(usize::from(rm)) {
            Some(rows) => rows.as_slice(),
            None => &[],
        }
    }
}

/// Whether there may be so many nodes of each kind.
fn are_sizes(acceptors: u8, leaders: u8, managers: u8) -> bool
    ensures { result ≡ are_sizes_of acceptors leaders managers }
{
    let odd = acceptors == 1 || acceptors == 3 || acceptors == 5 || acceptors == 7;
    let few = 0 < leaders && leaders <= MAX_LEADERS;
    let named = 0 < managers && u16::from(managers) <= MAX_MANAGERS;
    odd && few && named
}

/// Whether a row is within the limits.
fn is_within(row: &Row) -> bool
    ensures { result ≡ is_row row.now }
{
    let key = row.key.as_slice().len();
    0 < key && key <= MAX_KEY && row.value.as_slice().len() <= MAX_VALUE
}

/// Whether each row is within the limits.
fn are_within(rows: &[Row]) -> bool
    ensures { result ≡ are_rows rows.now }
{
    for row in rows {
        if !is_within(row) {
            return false;
        }
    }
    true
}

/// Whether each row of each table is within the limits.
fn are_tables(tables: &[Sequence<Row>]) -> bool
    ensures { result ≡ list_all are_rows tables.now }
{
    for rows in tables {
        if !are_within(rows.as_slice()) {
            return false;
        }
    }
    true
}
