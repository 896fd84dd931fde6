//! How a record that was made shorter begins: with a snapshot, and the rows of the table.

ghost use Rattle.std.specs.Prelude.{◌≡◌, IfOk, IfErr, MatchOption};
ghost use Rattle.std.specs.Cmp.Lexicographic.{slice_cmp};
ghost use Rattle.std.specs.Ordering.{nat_cmp, is_lt};
ghost use Rattle.node_core.specs.Opening.{AreAllRows, IsSnapshot, IsUncompacted, TakesNothing, is_snapshot as is_snapshot_of};
ghost use Rattle.node_core.specs.Opening.{may_follow as may_follow_of, row_of, IsShort};

use protocol::Row;
use stable_record::{Entry, EntryKind, take_frame};
use std::alloc::Global;
use std::cmp::Ordering;
use xid::Refusal;

/// The row that an entry is, if it is one.
fn into_row(entry: Entry) -> Option<Row>
    ensures row { result ≡ row_of entry }
    ensures short { IsShort result }
{
    match entry.into_kind() {
        EntryKind::Row { key, value } => Some(Row { key, value }),
        EntryKind::Fact(_)
        | EntryKind::Snapshot
        | EntryKind::PastCommitted(_)
        | EntryKind::PastAborted(_) => None,
    }
}

/// Whether an entry is a snapshot.
fn is_snapshot(entry: &Entry) -> bool
    ensures { result ≡ is_snapshot_of entry.now }
{
    match entry.kind() {
        EntryKind::Snapshot => true,
        EntryKind::Fact(_) => false,
        EntryKind::Row { .. } => false,
        EntryKind::PastCommitted(_) => false,
        EntryKind::PastAborted(_) => false,
    }
}

/// Whether the key of a row is less than that of another.
fn is_before(first: &Row, second: &Row) -> bool
    ensures { result ≡ is_lt (slice_cmp nat_cmp first.now.key second.now.key) }
{
    match first.key.as_slice().cmp(second.key.as_slice()) {
        Ordering::Less => true,
        _ => false,
    }
}

/// Whether a row may follow others: its key is greater than that of the last.
#[tactic(auto, using(crate::proofs::Rows::follows_last))]
fn may_follow(rows: &[Row], row: &Row) -> bool
    ensures { result ≡ may_follow_of rows.now row.now }
{
    match rows.last() {
        Some(last) => is_before(last, row),
        None => true,
    }
}

/// The rows in front of bytes whose keys ascend, and what follows them. Refused: no frame and no tail follows them (`Damaged`), or
/// `NoMemory`.
fn take_rows(alloc: Global, bytes: &[u8]) -> Result<(Vec<Row>, &[u8]), Refusal>
    ensures ok { IfOk result (λ x. AreAllRows bytes.now x.1.now x.0.items) }
    ensures err { IfErr result (λ e. TakesNothing bytes.now e) }
{
    let mut rows = Vec::new(alloc);
    let mut rest = bytes;
    loop {
        match take_frame(alloc, rest) {
            Ok(Some((entry, after))) => match into_row(entry) {
                Some(row) => {
                    if !may_follow(&rows, &row) {
                        return Ok((rows, rest));
                    }
                    rows.push(row)?;
                    rest = after;
                }
                None => return Ok((rows, rest)),
            },
            Ok(None) => return Ok((rows, rest)),
            Err(refusal) => return Err(refusal),
        }
    }
}

/// The rows of a snapshot that stands in front of bytes, and what follows them; none where none stands there. Refused: the bytes hold no
/// entries (`Damaged`), or `NoMemory`.
pub(crate) fn take_snapshot(
    alloc: Global,
    bytes: &[u8],
) -> Result<Option<(Vec<Row>, &[u8])>, Refusal>
    ensures ok { IfOk result (λ found. MatchOption found (IsUncompacted bytes.now) (λ x. IsSnapshot bytes.now x.1.now x.0.items)) }
    ensures err { IfErr result (λ e. TakesNothing bytes.now e) }
{
    match take_frame(alloc, bytes) {
        Ok(Some((entry, after))) => {
            if !is_snapshot(&entry) {
                return Ok(None);
            }
            match take_rows(alloc, after) {
                Ok(found) => Ok(Some(found)),
                Err(refusal) => Err(refusal),
            }
        }
        Ok(None) => Ok(None),
        Err(refusal) => Err(refusal),
    }
}
