ghost use Rattle.std.specs.Prelude.{◌≡◌, ◌<◌, ◌^◌, true, false, is_some, MatchOption, IfSome, length, filter_map};
ghost use Rattle.std.specs.List.{AllByRecursion, list_all};
ghost use Rattle.xid.specs.Limits.{most_branches};
ghost use Rattle.xid.specs.Transactions.{participants, nth_branch, is_participant};
ghost use Rattle.wire.specs.Messages.{IsReportBelow, IsBallot, AreInstances, reported_instances, accepted_instances};
ghost use Rattle.protocol.specs.Acceptors.{is_some_below, reports_below as reports_of, report_after as report_of, accept_item};
ghost use Rattle.acceptor.specs.Slots.{slots_of, listed_items, with_item, report_item};

use crate::slots::{KeptSlot, slot_at};
use ballot::Report;
use wire::{InstanceAccept, InstanceReport, Items, SpelledTx};
use xid::{Ballot, ManagerNumber, Vote};

/// Puts an item, if it is one, after the others.
fn put_item<T: Copy>(items: &mut Option<Items<T>>, item: Option<T>)
    requires { length (listed_items items.old) < most_branches }
    ensures { items.new ≡ with_item items.old item }
{
    let Some(item) = item else {
        return;
    };
    match items {
        Some(items) => items.push(item),
        None => *items = Some(Items::one(item)),
    }
}

/// What is reported of the instance at a place of a transaction, where it stands below a ballot.
fn report_at(
    tx: &SpelledTx<'_>,
    slots: &[KeptSlot],
    ballot: Ballot,
    place: usize,
) -> Option<InstanceReport>
    requires { place < length tx.now.branches }
    ensures value { result ≡ report_item (slots_of tx.now slots.now) tx.now ballot (nth_branch tx.now place).rm }
    ensures below { IfSome result (λ item. IsReportBelow ballot item.report) }
{
    let instance = tx.rm(place);
    let slot = slot_at(slots, place);
    if ballot <= slot.mbal {
        return None;
    }
    Some(InstanceReport {
        instance,
        report: slot.report,
    })
}

/// What is reported of the instances of a transaction that stand below a ballot, where there are any.
pub fn reports_below(
    tx: &SpelledTx<'_>,
    slots: &[KeptSlot],
    ballot: Ballot,
) -> Option<Items<InstanceReport>>
    ensures value { MatchOption result (is_some_below (slots_of tx.now slots.now) tx.now ballot ≡ false)
        (λ items. (is_some_below (slots_of tx.now slots.now) tx.now ballot ≡ true)
        × (items ≡ reports_of (slots_of tx.now slots.now) tx.now ballot)) }
    ensures instances { IfSome result (λ items. AreInstances tx.now (reported_instances items)) }
    ensures below { IfSome result (AllByRecursion (λ item. IsReportBelow ballot item.report)) }
{
    let mut reports = None;
    for place in 0..tx.count() {
        let item = report_at(tx, slots, ballot, place);
        put_item(&mut reports, item);
    }
    reports
}

/// A value that is accepted in a ballot of an instance.
#[derive(Clone, Copy)]
pub struct Accepted {
    /// The instance.
    pub instance: ManagerNumber,
    /// The ballot.
    pub ballot: Ballot,
    /// The value.
    pub vote: Vote,
}

/// What is accepted last at a place of a transaction, once this value is accepted.
fn report_after(tx: &SpelledTx<'_>, slots: &[KeptSlot], accepted: Accepted, place: usize) -> Report
    requires { place < length tx.now.branches }
    ensures value { result ≡ report_of (slots_of tx.now slots.now) tx.now accepted.instance accepted.ballot accepted.vote
        (nth_branch tx.now place).rm }
    ensures fits { IsReportBelow (2 ^ 32) result }
{
    if tx.rm(place) == accepted.instance {
        return Some((accepted.ballot, accepted.vote));
    }
    slot_at(slots, place).report
}

/// Whether each instance of a transaction has a value, once this one is accepted.
pub fn have_all_values(tx: &SpelledTx<'_>, slots: &[KeptSlot], accepted: Accepted) -> bool
    ensures { result ≡ list_all (λ j. is_some (report_of
        (slots_of tx.now slots.now) tx.now accepted.instance accepted.ballot accepted.vote j))
        (participants tx.now) }
{
    for place in 0..tx.count() {
        if report_after(tx, slots, accepted, place).is_none() {
            return false;
        }
    }
    true
}

/// The value at a place of a transaction, if there is one, once this value is accepted.
fn accept_at(
    tx: &SpelledTx<'_>,
    slots: &[KeptSlot],
    accepted: Accepted,
    place: usize,
) -> Option<InstanceAccept>
    requires { place < length tx.now.branches }
    ensures value { result ≡ accept_item (nth_branch tx.now place).rm
        (report_of (slots_of tx.now slots.now) tx.now accepted.instance accepted.ballot accepted.vote (nth_branch tx.now place).rm) }
    ensures ballot { IfSome result (λ item. IsBallot item.ballot) }
{
    match report_after(tx, slots, accepted, place) {
        None => None,
        Some((ballot, vote)) => Some(InstanceAccept {
            instance: tx.rm(place),
            ballot,
            vote,
        }),
    }
}

/// The value of every instance of a transaction that has one, once this one is accepted.
pub fn accepts_after(
    tx: &SpelledTx<'_>,
    slots: &[KeptSlot],
    accepted: Accepted,
) -> Option<Items<InstanceAccept>>
    requires { is_participant tx.now accepted.instance ≡ true }
    ensures value { MatchOption result ⊥ (λ items. items
        ≡ filter_map (λ j. accept_item j (report_of (slots_of tx.now slots.now) tx.now accepted.instance accepted.ballot accepted.vote j))
        (participants tx.now)) }
    ensures instances { IfSome result (λ items. AreInstances tx.now (accepted_instances items)) }
    ensures ballots { IfSome result (AllByRecursion (λ item. IsBallot item.ballot)) }
{
    let mut accepts = None;
    for place in 0..tx.count() {
        let item = accept_at(tx, slots, accepted, place);
        put_item(&mut accepts, item);
    }
    accepts
}
