ghost use Rattle.std.specs.Prelude.{◌≡◌, ◌≢◌, Ok, IfOk, IfErr, OnOk, option_map};
ghost use Rattle.hex.specs.declared.error.FromHexError.TheVariants.{OutOfMemory};
ghost use Rattle.toml.specs.View.{table_view, view};
ghost use Rattle.cluster_file.specs.declared.error.ClusterError.TheVariants.{Memory};
ghost use Rattle.cluster_file.specs.Mistakes.{reads_at, IsRefused};
ghost use Rattle.cluster_file.specs.Rows.{bytes_of, row_of, row_within, rows_from};

use crate::error::{ClusterError, Fault};
use crate::section::Section;
use hex::FromHexError;
use protocol::Row;
use std::alloc::Global;
use toml::Value;
use xid::{Bytes, MAX_KEY, MAX_VALUE, Sequence};

/// Memory didn't run out where a text wasn't decoded.
fn has_memory(error: FromHexError) -> Result<(), ClusterError>
    ensures ok { OnOk result (error ≢ OutOfMemory) }
    ensures err { IfErr result (λ e. e ≡ Memory) }
{
    match error {
        FromHexError::OutOfMemory => Err(ClusterError::Memory),
        _ => Ok(()),
    }
}

/// The bytes that a text says in hex, without capitals. None where it says none.
fn bytes_of(alloc: Global, text: &str) -> Result<Option<Vec<u8>>, ClusterError>
    ensures ok { IfOk result (λ bytes. option_map (λ b. b.items) bytes ≡ bytes_of text.now) }
    ensures err { IfErr result (λ e. e ≡ Memory) }
{
    let bytes = match hex::decode(alloc, text) {
        Ok(bytes) => bytes,
        Err(error) => {
            has_memory(error)?;
            return Ok(None);
        }
    };
    let again = hex::encode(alloc, bytes.as_slice())?;
    if again.as_str() == text {
        return Ok(Some(bytes));
    }
    Ok(None)
}

/// A row, if its lengths are within the limits.
fn row_within(name: Vec<u8>, value: Vec<u8>) -> Result<Row, Fault>
    ensures { result ≡ row_within name.items value.items }
{
    if name.is_empty() || name.len() > MAX_KEY {
        return Err(Fault::RowKey);
    }
    if value.len() > MAX_VALUE {
        return Err(Fault::RowValue);
    }
    Ok(Row {
        key: Sequence::new(name),
        value: Sequence::new(value),
    })
}

/// A row of a first table.
#[tactic(auto, using(crate::proofs::RowLemmas::row_reading))]
fn row_of(rows: &Section<'_>, key: &str, value: &Value) -> Result<Row, ClusterError>
    ensures ok { IfOk result (λ row. row_of key.now (view value.now) ≡ Ok row) }
    ensures err { IfErr result (IsRefused (reads_at rows.now.path.now key.now (row_of key.now (view value.now)))) }
{
    let Some(text) = value.as_str() else {
        return Err(rows.fault(key, Fault::NoText));
    };
    let Some(name) = bytes_of(rows.alloc, key)? else {
        return Err(rows.fault(key, Fault::NoHex));
    };
    let Some(value) = bytes_of(rows.alloc, text)? else {
        return Err(rows.fault(key, Fault::NoHex));
    };
    match row_within(name, value) {
        Ok(row) => Ok(row),
        Err(fault) => Err(rows.fault(key, fault)),
    }
}

/// The rows of a first table, in the order of its keys.
pub(crate) fn rows_of(rows: &Section<'_>) -> Result<Sequence<Row>, ClusterError>
    ensures ok { IfOk result (λ all. rows_from rows.now.path.now (table_view rows.now.table.now) ≡ Ok all) }
    ensures err { IfErr result (IsRefused (rows_from rows.now.path.now (table_view rows.now.table.now))) }
{
    let mut all = Vec::new(rows.alloc);
    for (key, value) in rows.table.iter() {
        let row = row_of(rows, key.as_str(), value)?;
        all.push(row)?;
    }
    Ok(Sequence::new(all))
}
