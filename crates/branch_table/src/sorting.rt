//! Rows sorted by their keys. To compare keys takes long, so many rows are brought into order by numbers, each of which holds eight bytes
//! of a key.

ghost use Rattle.std.specs.Prelude.{◌≡◌, true, reverse};
ghost use Rattle.std.specs.Ordering.{nat_cmp};
ghost use Rattle.std.specs.Cmp.Lexicographic.{slice_cmp};
ghost use Rattle.std.specs.List.Sorted.{IsPermutation, IsSortedByKey};

use protocol::Row;
use std::alloc::Global;
use std::cmp::Ordering;
use xid::Refusal;

/// Fewer rows than this are sorted by whole keys alone.
const MANY_ROWS: usize = 64;

/// So many fronts that tie, or fewer, are sorted by whole keys.
const FEW_TIES: usize = 8;

/// How many times eight bytes of a key are looked at, at most.
const MOST_ROUNDS: u32 = 8;

/// Eight bytes of the key of a row as a number, and the row's place.
#[derive(Clone, Copy)]
struct Front {
    bytes: u64,
    place: usize,
}

/// How many of the first bytes of a key, at most so many, another begins with.
fn shared_by(first: &[u8], key: &[u8], most: usize) -> usize {
    let same = &first[..most.min(first.len())];
    if key.starts_with(same) {
        return same.len();
    }
    same.iter()
        .zip(key)
        .take_while(|(one, other)| **one == **other)
        .count()
}

/// The bytes of the key of a row from one on.
fn rest_of(rows: &[Row], place: usize, from: usize) -> &[u8] {
    match rows.get(place) {
        Some(row) => {
            let key = row.key.as_slice();
            &key[from.min(key.len())..]
        }
        None => &[],
    }
}

/// How many bytes are the same in all keys of fronts, from one on.
fn shared(rows: &[Row], fronts: &[Front], from: usize) -> usize {
    let Some(first) = fronts.first() else {
        return 0;
    };
    let first = rest_of(rows, first.place, from);
    let mut same = first.len();
    for front in fronts {
        same = shared_by(first, rest_of(rows, front.place, from), same);
    }
    same
}

/// The first eight bytes as a number, the first the highest. Zeros stand for those that aren't there.
fn word_of(bytes: &[u8]) -> u64 {
    if bytes.len() >= 8 {
        return u64::from_be_bytes([
            bytes[0], bytes[1], bytes[2], bytes[3], bytes[4], bytes[5], bytes[6], bytes[7],
        ]);
    }
    let mut word = [0; 8];
    word[..bytes.len()].copy_from_slice(bytes);
    u64::from_be_bytes(word)
}

/// The order of two rows by their keys.
fn by_key(one: &Row, other: &Row) -> Ordering
    ensures { result ≡ slice_cmp nat_cmp one.now.key other.now.key }
{
    one.key.as_slice().cmp(other.key.as_slice())
}

/// The order of the rows of two fronts by their keys.
fn by_row(rows: &[Row], one: &Front, other: &Front) -> Ordering {
    match (rows.get(one.place), rows.get(other.place)) {
        (Some(one), Some(other)) => by_key(one, other),
        _ => Ordering::Equal,
    }
}

/// Sorts fronts whose keys have the same bytes before `from`: by eight bytes behind those that all share, and where these are the same, by
/// the bytes behind. Few that tie, and those that tie in all rounds, are sorted by whole keys.
fn order(rows: &[Row], fronts: &mut [Front], from: usize, rounds: u32) {
    if fronts.len() <= FEW_TIES || rounds == 0 {
        fronts.sort_unstable_by(|one, other| by_row(rows, one, other));
        return;
    }
    let at = from.saturating_add(shared(rows, fronts, from));
    for front in fronts.iter_mut() {
        front.bytes = word_of(rest_of(rows, front.place, at));
    }
    fronts.sort_unstable_by(|one, other| one.bytes.cmp(&other.bytes));
    for ties in fronts.chunk_by_mut(|one, other| one.bytes == other.bytes) {
        if ties.len() > 1 {
            order(rows, ties, at.saturating_add(8), rounds - 1);
        }
    }
}

/// The fronts of rows, in the order of their keys.
fn fronts(alloc: Global, rows: &[Row]) -> Result<Vec<Front>, Refusal> {
    let mut fronts = Vec::with_capacity(alloc, rows.len())?;
    for place in 0..rows.len() {
        fronts.push(Front { bytes: 0, place })?;
    }
    order(rows, &mut fronts, 0, MOST_ROUNDS);
    Ok(fronts)
}

/// Brings a row to a place, the row that it displaces to its own, and so on, till one comes from the first place.
fn turn(rows: &mut Vec<Row>, order: &mut Vec<Front>, first: usize)
    ensures { IsPermutation rows.old.items rows.new.items }
{
    let mut at = first;
    for _ in first..rows.len() {
        let Some(front) = order.get_mut(at) else {
            return;
        };
        let from = front.place;
        front.place = at;
        if from == first || at.max(from) >= rows.len() {
            return;
        }
        rows.swap(at, from);
        at = from;
    }
}

/// Brings each row to where it is called for.
fn arranged(mut rows: Vec<Row>, mut order: Vec<Front>) -> Vec<Row>
    ensures { IsPermutation rows.items result.items }
{
    for place in 0..rows.len() {
        turn(&mut rows, &mut order, place);
    }
    rows
}

/// Rows in the order of their fronts, where there is memory to find it out.
fn by_fronts(alloc: Global, rows: Vec<Row>) -> Vec<Row>
    ensures { IsPermutation rows.items result.items }
{
    match fronts(alloc, &rows) {
        Ok(order) => arranged(rows, order),
        Err(_) => rows,
    }
}

/// Whether keys ascend as the rows stand.
fn keys_ascend(rows: &[Row]) -> bool
    ensures { result ≡ true → IsSortedByKey (λ row. row.key) (slice_cmp nat_cmp) rows.now }
{
    rows.is_sorted_by(|one, other| by_key(other, one).is_ge())
}

/// Whether keys descend as the rows stand.
fn keys_descend(rows: &[Row]) -> bool
    ensures { result ≡ true → IsSortedByKey (λ row. row.key) (slice_cmp nat_cmp) (reverse rows.now) }
{
    rows.is_sorted_by(|one, other| by_key(one, other).is_ge())
}

/// Rows sorted by their whole keys.
fn sorted_whole(mut rows: Vec<Row>) -> Vec<Row>
    ensures permutation { IsPermutation rows.items result.items }
    ensures sorted { IsSortedByKey (λ row. row.key) (slice_cmp nat_cmp) result.items }
{
    rows.sort_unstable_by(|one, other| by_key(one, other));
    rows
}

/// Rows in the order of their keys.
pub fn sorted_by_keys(alloc: Global, mut rows: Vec<Row>) -> Vec<Row>
    ensures permutation { IsPermutation rows.items result.items }
    ensures sorted { IsSortedByKey (λ row. row.key) (slice_cmp nat_cmp) result.items }
{
    if rows.len() < MANY_ROWS {
        return sorted_whole(rows);
    }
    if keys_ascend(&rows) {
        return rows;
    }
    if keys_descend(&rows) {
        rows.reverse();
        return rows;
    }
    // no clause says that fronts ascend as keys do: it is found out in one pass
    sorted_whole(by_fronts(alloc, rows))
}
