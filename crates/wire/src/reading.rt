ghost use Rattle.std.specs.Prelude.{◌≡◌, ◌<◌, ◌≤◌, [], Option, MatchOption, length};
ghost use Rattle.std.specs.Option.{option_map};
ghost use Rattle.wire.specs.Versions.{version_1, version_2, version_of};
ghost use Rattle.wire.specs.Decoding.{tx_in, are_managers};
ghost use Rattle.wire.specs.Names.{name_at, taken_name};
ghost use Rattle.wire.specs.Reading.{taken, taken_bytes, taken_branch, taken_branches, taken_tx, byte_at, number_at, rm_at, component_at};
ghost use Rattle.wire.specs.Reading.{branch_at, branches_at, tx_at, vote_at, report_at, instance_at, list_at, with_first, items_at, end_at};

use crate::grammar::{RM_BYTES, VersionNumber};
use crate::item::Item;
use crate::items::Items;
use byteorder::{BigEndian, ByteOrder};
use xid::{Branches, MAX_BRANCHES, MAX_COMPONENT, MAX_MANAGERS, ManagerNumber, Tx, Vote};

/// Takes a byte from the front. Each of these functions answers what it took and what follows it, and None where it doesn't
/// stand there.
pub fn take_byte(bytes: &[u8]) -> Option<(u8, &[u8])>
    ensures { taken result ≡ byte_at bytes.now }
{
    let [first, rest @ ..] = bytes else {
        return None;
    };
    Some((*first, rest))
}

/// Takes the end.
pub(crate) fn take_end(bytes: &[u8]) -> Option<()>
    ensures { result ≡ end_at bytes.now }
{
    let [] = bytes else {
        return None;
    };
    Some(())
}

/// Takes a number of 32 bits from the front.
pub fn take_number(bytes: &[u8]) -> Option<(u32, &[u8])>
    ensures { taken result ≡ number_at bytes.now }
{
    if bytes.len() < 4 {
        return None;
    }
    Some((BigEndian::read_u32(bytes), &bytes[4..]))
}

/// Takes the number of a resource manager from the front, in as many bytes as it has in a version.
pub fn take_rm(version: VersionNumber, bytes: &[u8]) -> Option<(ManagerNumber, &[u8])>
    ensures { taken result ≡ rm_at (version_of version) bytes.now }
{
    match version {
        VersionNumber::First => take_short_rm(bytes),
        VersionNumber::Second => take_long_rm(bytes),
    }
}

fn take_short_rm(bytes: &[u8]) -> Option<(ManagerNumber, &[u8])>
    ensures { taken result ≡ rm_at version_1 bytes.now }
{
    let [first, rest @ ..] = bytes else {
        return None;
    };
    Some((*first as ManagerNumber, rest))
}

fn take_long_rm(bytes: &[u8]) -> Option<(ManagerNumber, &[u8])>
    ensures { taken result ≡ rm_at version_2 bytes.now }
{
    if bytes.len() < RM_BYTES {
        return None;
    }
    Some((BigEndian::read_u16(bytes), &bytes[RM_BYTES..]))
}

/// Takes at most 64 bytes from the front, which stand behind their length, a byte.
#[tactic(auto, unfolding(crate::specs::Reading::component_at))]
pub fn take_component(bytes: &[u8]) -> Option<(&[u8], &[u8])>
    ensures value { taken_bytes result ≡ component_at bytes.now }
    ensures few { MatchOption result (Unit {0}) (λ x. length x.0.now ≤ MAX_COMPONENT) }
{
    let (len, rest) = take_byte(bytes)?;
    let len = len as usize;
    if len > MAX_COMPONENT {
        return None;
    }
    if rest.len() < len {
        return None;
    }
    Some(rest.split_at(len))
}

/// Takes the format and the gtrid that a transaction's spelling begins with from the front.
#[tactic(auto, unfolding(crate::specs::Names::name_at))]
pub fn take_name(bytes: &[u8]) -> Option<(u32, &[u8], &[u8])>
    ensures value { taken_name result ≡ name_at bytes.now }
    ensures few { MatchOption result (Unit {0}) (λ x. length x.1.now ≤ MAX_COMPONENT) }
{
    let (format, rest) = take_number(bytes)?;
    let (gtrid, rest) = take_component(rest)?;
    Some((format, gtrid, rest))
}

#[tactic(auto, unfolding(crate::specs::Reading::branch_at))]
fn take_branch(version: VersionNumber, bytes: &[u8]) -> Option<(ManagerNumber, &[u8], &[u8])>
    ensures value { taken_branch result ≡ branch_at (version_of version) bytes.now }
    ensures few { MatchOption result (Unit {0}) (λ x. length x.1.now ≤ MAX_COMPONENT) }
{
    let (rm, rest) = take_rm(version, bytes)?;
    let (bqual, rest) = take_component(rest)?;
    Some((rm, bqual, rest))
}

/// Puts branches after those that stand in place, none at first, and answers what follows them.
fn take_branches<'a>(
    version: VersionNumber,
    count: u8,
    all: &mut Branches,
    bytes: &'a [u8],
) -> Option<&'a [u8]>
    requires none { all.old ≡ [] }
    requires few { count ≤ MAX_BRANCHES }
    ensures { taken_branches all.new result ≡ branches_at (version_of version) count bytes.now }
{
    let mut rest = bytes;
    for _ in 0..count {
        let (rm, bqual, after) = take_branch(version, rest)?;
        all.push(rm, bqual);
        rest = after;
    }
    Some(rest)
}

/// How many branches a transaction has at most in a version.
fn most_branches(version: VersionNumber) -> usize
    ensures value { result ≡ (version_of version).most_branches }
    ensures few { result ≤ MAX_BRANCHES }
{
    match version {
        VersionNumber::First => 8,
        VersionNumber::Second => MAX_BRANCHES,
    }
}

/// The number below which the numbers of resource managers are in a version.
fn most_managers(version: VersionNumber) -> ManagerNumber
    ensures { result ≡ (version_of version).most_managers }
{
    match version {
        VersionNumber::First => 8,
        VersionNumber::Second => MAX_MANAGERS,
    }
}

/// The format and the gtrid of a transaction, and what follows it. Its branches are put in place.
#[tactic(auto, unfolding(crate::specs::Reading::tx_at))]
fn take_parts<'a>(
    version: VersionNumber,
    branches: &mut Branches,
    bytes: &'a [u8],
) -> Option<(u32, &'a [u8], &'a [u8])>
    requires { branches.old ≡ [] }
    ensures { taken_tx branches.new result ≡ tx_at (version_of version) bytes.now }
{
    let (format, rest) = take_number(bytes)?;
    let (gtrid, rest) = take_component(rest)?;
    let (count, rest) = take_byte(rest)?;
    if count as usize > most_branches(version) {
        return None;
    }
    let rest = take_branches(version, count, branches, rest)?;
    Some((format, gtrid, rest))
}

/// Whether a version can name the resource managers of a transaction.
fn are_managers(version: VersionNumber, tx: &Tx) -> bool
    ensures { result ≡ are_managers (version_of version) tx.now.branches }
{
    tx.rm(tx.count() - 1) < most_managers(version)
}

/// Takes a transaction from the front, whose spelling in a version stands there, and answers it and what follows it. None where
/// the bytes begin with no spelling of a transaction that the version can name.
pub fn take_tx(version: VersionNumber, bytes: &[u8]) -> Option<(Tx, &[u8])>
    ensures { taken result ≡ tx_in (version_of version) bytes.now }
{
    let mut branches = Branches::new();
    let (format, gtrid, rest) = take_parts(version, &mut branches, bytes)?;
    if !Tx::are_parts(format, gtrid, &branches) {
        return None;
    }
    let tx = Tx::of_parts(format, gtrid, &branches);
    if !are_managers(version, &tx) {
        return None;
    }
    Some((tx, rest))
}

/// Takes a vote from the front, a byte: 1 prepared, 2 aborted.
#[tactic(auto, unfolding(crate::specs::Reading::vote_at))]
pub fn take_vote(bytes: &[u8]) -> Option<(Vote, &[u8])>
    ensures { taken result ≡ vote_at bytes.now }
{
    let (vote, rest) = take_byte(bytes)?;
    match vote {
        1 => Some((Vote::Prepared, rest)),
        2 => Some((Vote::Aborted, rest)),
        _ => None,
    }
}

#[tactic(auto, unfolding(crate::specs::Reading::report_at))]
pub(crate) fn take_report(bytes: &[u8]) -> Option<(Option<(u32, Vote)>, &[u8])>
    ensures { taken result ≡ report_at bytes.now }
{
    let (ballot, rest) = take_number(bytes)?;
    let (vote, after) = take_byte(rest)?;
    if vote == 0 {
        if ballot == 0 {
            return Some((None, after));
        }
        return None;
    }
    let (vote, after) = take_vote(rest)?;
    Some((Some((ballot, vote)), after))
}

#[tactic(auto, unfolding(crate::specs::Reading::instance_at))]
pub(crate) fn take_instance(bytes: &[u8]) -> Option<(ManagerNumber, u32, &[u8])>
    ensures { option_map (λ x. (x.0, x.1, x.2.now)) result ≡ instance_at version_2 bytes.now }
{
    let (rm, rest) = take_rm(VersionNumber::Second, bytes)?;
    let (ballot, rest) = take_number(rest)?;
    Some((rm, ballot, rest))
}

fn more_items<T: Item>(first: T, count: u8, bytes: &[u8]) -> Option<(Items<T>, &[u8])>
    requires { count < MAX_BRANCHES }
    ensures { taken result ≡ with_first first (list_at T.at count bytes.now) }
{
    let mut all = Items::one(first);
    let mut rest = bytes;
    for _ in 0..count {
        let (item, after) = T::take(rest)?;
        all.push(item);
        rest = after;
    }
    Some((all, rest))
}

/// Takes the items of a bundle from the front, behind their count.
#[tactic(auto, unfolding(crate::specs::Reading::items_at))]
pub(crate) fn take_items<T: Item>(bytes: &[u8]) -> Option<(Items<T>, &[u8])>
    ensures { taken result ≡ items_at T.at bytes.now }
{
    let (count, rest) = take_byte(bytes)?;
    if count == 0 {
        return None;
    }
    if count as usize > MAX_BRANCHES {
        return None;
    }
    let (first, rest) = T::take(rest)?;
    more_items(first, count - 1, rest)
}
