//! The items of a bundle, checked on the bytes that spell them, and taken from them.

ghost use Rattle.std.specs.Prelude.{◌≡◌, ◌<◌, ℕ, suc, ◌+◌, false, MatchOption, length};
ghost use Rattle.wire.specs.SpelledItems.{items_from, are_items, is_item, reports_spelled, accepts_spelled};

use crate::item::Item;
use crate::items::{InstanceAccept, InstanceReport, Items};
use crate::reading::{take_byte, take_items};
use crate::spelled_tx::SpelledTx;
use xid::{Ballot, MAX_BRANCHES, MAX_MANAGERS, ManagerNumber};

/// Takes an item that passes from the front, and answers its instance and what follows it: it is of an instance of the transaction that
/// isn't below the least, and what it reports is below the ballot.
fn take_passed<'a, T: Item>(
    tx: &SpelledTx<'_>,
    ballot: Ballot,
    least: ManagerNumber,
    bytes: &'a [u8],
) -> Option<(ManagerNumber, &'a [u8])>
    ensures left { (n : ℕ) → let left = items_from T.at (is_item T.about (T.is_below ballot) tx.now) T.about in
        MatchOption result (left least (suc n) bytes.now ≡ false) (λ x. left least (suc n) bytes.now ≡ left (x.0 + 1) n x.1.now) }
    ensures below { MatchOption result (Unit {0}) (λ x. x.0 < MAX_MANAGERS) }
{
    let (item, rest) = T::take(bytes)?;
    let instance = item.instance();
    if !tx.is_participant(instance) {
        return None;
    }
    if !item.is_below(ballot) {
        return None;
    }
    if instance < least {
        return None;
    }
    Some((instance, rest))
}

/// Whether bytes are so many items that pass, ascending, and nothing after them.
fn are_counted<T: Item>(tx: &SpelledTx<'_>, ballot: Ballot, count: u8, bytes: &[u8]) -> bool
    ensures { result ≡ items_from T.at (is_item T.about (T.is_below ballot) tx.now) T.about 0 count bytes.now }
{
    let mut rest = bytes;
    let mut least = 0;
    for _ in 0..count {
        let Some((instance, after)) = take_passed::<T>(tx, ballot, least, rest) else {
            return false;
        };
        least = instance + 1;
        rest = after;
    }
    rest.is_empty()
}

/// Whether bytes spell such items behind their count.
#[tactic(auto, unfolding(crate::specs::SpelledItems::are_items))]
pub(crate) fn are_items<T: Item>(tx: &SpelledTx<'_>, ballot: Ballot, bytes: &[u8]) -> bool
    ensures { result ≡ are_items T.at (is_item T.about (T.is_below ballot) tx.now) T.about bytes.now }
{
    let Some((count, rest)) = take_byte(bytes) else {
        return false;
    };
    if count == 0 {
        return false;
    }
    if count as usize > MAX_BRANCHES {
        return false;
    }
    are_counted::<T>(tx, ballot, count, rest)
}

/// The reports that the bytes of a bundle spell.
#[tactic(auto, unfolding(crate::specs::SpelledItems::reports_spelled))]
pub fn reports_of(bytes: &[u8]) -> Items<InstanceReport>
    requires { 0 < length (reports_spelled bytes.now) }
    ensures { result ≡ reports_spelled bytes.now }
{
    let Some((reports, _)) = take_items(bytes) else {
        unreachable!();
    };
    reports
}

/// The accepts that the bytes of a bundle spell.
#[tactic(auto, unfolding(crate::specs::SpelledItems::accepts_spelled))]
pub fn accepts_of(bytes: &[u8]) -> Items<InstanceAccept>
    requires { 0 < length (accepts_spelled bytes.now) }
    ensures { result ≡ accepts_spelled bytes.now }
{
    let Some((accepts, _)) = take_items(bytes) else {
        unreachable!();
    };
    accepts
}
