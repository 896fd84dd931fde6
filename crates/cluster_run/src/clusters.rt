//! The cluster of a script.

ghost use Rattle.std.specs.Prelude.{◌≡◌, ◌≤◌, IfOk, IfErr, MatchResult, true};
ghost use Rattle.std.specs.List.{All};
ghost use Rattle.xid.specs.declared.refusals.Refusal.TheVariants.{NoMemory, BadConfig};
ghost use Rattle.protocol.specs.Effects.{Config as ConfigParts};
ghost use Rattle.protocol.specs.Worlds.{table_at};
ghost use Rattle.floors.specs.Worlds.{FlooredWorld};
ghost use Rattle.floors.specs.Runs.{floored_opening};
ghost use Rattle.net_script.specs.Items.{IsContents};
ghost use Rattle.cluster_run.specs.Running.{IsRunning};
ghost use Rattle.cluster_run.specs.Runs.{is_in_limits, RefusesSizes};
ghost use Rattle.cluster_run.specs.Traces.{config_for, each_manager, first_rows_of as first_rows_for};

use cluster::Cluster;
use hashing::HashKey;
use net_script::{Sizes, Table};
use node_core::Config;
use protocol::Row;
use stable_record::MemRecord;
use std::alloc::Global;
use xid::{Bytes, Refusal, Sequence};

/// The cluster that a script asks for. Refused: sizes outside the limits (`BadConfig`), or `NoMemory`.
pub fn config_of(alloc: Global, sizes: Sizes, tables: &[Table]) -> Result<Config, Refusal>
    requires { All IsContents tables.now }
    ensures ok { IfOk result (λ config. (config ≡ config_for sizes tables.now) × (is_in_limits sizes ≡ true)) }
    ensures err { IfErr result (RefusesSizes sizes) }
{
    config_of_with_hash_key(alloc, HashKey::fixed(), sizes, tables)
}

/// The same cluster, in whose nodes names are hashed under the key. Refused as `config_of` is.
pub fn config_of_with_hash_key(
    alloc: Global,
    key: HashKey,
    sizes: Sizes,
    tables: &[Table],
) -> Result<Config, Refusal>
    requires { All IsContents tables.now }
    ensures ok { IfOk result (λ config. (config ≡ config_for sizes tables.now) × (is_in_limits sizes ≡ true)) }
    ensures err { IfErr result (RefusesSizes sizes) }
{
    let acceptors = count_of(sizes.acceptors)?;
    let leaders = count_of(sizes.leaders)?;
    let managers = count_of(sizes.rms)?;
    let first = first_tables(alloc, tables, managers)?;
    let config = Config::new(acceptors, leaders, managers, Sequence::new(first))?;
    let config = config.with_hash_key(key);
    if sizes.bundled {
        return Ok(config.bundled());
    }
    Ok(config)
}

/// So many nodes of a kind, where there may be so many of one. Refused: `BadConfig`.
fn count_of(number: u32) -> Result<u8, Refusal>
    ensures ok { IfOk result (λ count. count ≡ number) }
    ensures err { IfErr result (λ e. (e ≡ BadConfig) × (256 ≤ number)) }
{
    match u8::try_from(number) {
        Ok(count) => Ok(count),
        Err(_) => Err(Refusal::BadConfig),
    }
}

/// The first contents of so many resource managers.
fn first_tables(alloc: Global, tables: &[Table], count: u8) -> Result<Vec<Sequence<Row>>, Refusal>
    ensures ok { IfOk result (λ first. first.items ≡ each_manager (first_rows_for tables.now) count) }
    ensures err { IfErr result (λ e. e ≡ NoMemory) }
{
    let mut first = Vec::new(alloc);
    for rm in 0..count {
        let rows = first_rows_of(alloc, tables, rm)?;
        first.push(Sequence::new(rows))?;
    }
    Ok(first)
}

/// The first contents of a resource manager, copied.
fn first_rows_of(alloc: Global, tables: &[Table], rm: u8) -> Result<Vec<Row>, Refusal>
    ensures ok { IfOk result (λ rows. rows.items ≡ first_rows_for tables.now rm) }
    ensures err { IfErr result (λ e. e ≡ NoMemory) }
{
    for table in tables {
        if table.rm == rm {
            return copied(alloc, table.rows.as_slice());
        }
    }
    Ok(Vec::new(alloc))
}

/// A copy of rows.
fn copied(alloc: Global, rows: &[Row]) -> Result<Vec<Row>, Refusal>
    ensures ok { IfOk result (λ copies. copies.items ≡ rows.now) }
    ensures err { IfErr result (λ e. e ≡ NoMemory) }
{
    let mut copies = Vec::new(alloc);
    for row in rows {
        let key = Bytes::copy_of(alloc, row.key.as_slice())?;
        let value = Bytes::copy_of(alloc, row.value.as_slice())?;
        copies.push(Row { key, value })?;
    }
    Ok(copies)
}

/// The cluster at first, over records in memory: nothing has happened in it. Refused: `NoMemory` alone.
pub fn opened(alloc: Global, config: &Config) -> Result<Cluster<MemRecord>, Refusal>
    ensures ok { IfOk result (IsRunning config.now (floored_opening config.now)) }
    ensures err { IfErr result (λ e. e ≡ NoMemory) }
{
    let sizes = config.sizes();
    let count = usize::from(sizes.acceptors)
        + usize::from(sizes.leaders)
        + usize::from(sizes.managers);
    let mut records = Vec::new(alloc);
    for _made in 0..count {
        records.push(MemRecord::new(alloc, Vec::new(alloc)))?;
    }
    Cluster::new(alloc, config, records)
}

/// The tables of its first so many resource managers. Refused: `NoMemory` alone.
pub fn final_rows(
    alloc: Global,
    cluster: &mut Cluster<MemRecord>,
    count: u8,
) -> Result<Vec<Sequence<Row>>, Refusal>
    ensures { (config : ConfigParts) (world : FlooredWorld) → IsRunning config world cluster.old → count ≡ config.managers
        → MatchResult result (λ finals. finals.items ≡ each_manager (table_at config world.machine) count) (λ e. e ≡ NoMemory) }
{
    let mut finals = Vec::new(alloc);
    for rm in 0..count {
        finals.push(cluster.table(rm)?)?;
    }
    Ok(finals)
}
