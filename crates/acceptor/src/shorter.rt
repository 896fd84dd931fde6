//! The frames of a compacted record, written from the spelled bytes of its transactions.

ghost use Rattle.std.specs.Prelude.{◌≡◌, ℕ, ◌<◌, ◌^◌, length, map, slice_index, OnOk, IfOk, IfErr};
ghost use Rattle.xid.specs.Transactions.{participants};
ghost use Rattle.xid.specs.declared.refusals.Refusal.TheVariants.{NoMemory};
ghost use Rattle.wire.specs.Messages.{IsReportBelow};
ghost use Rattle.stable_record.specs.declared.entry.EntryKind.TheVariants as kinds;
ghost use Rattle.stable_record.specs.Written.{AddsFacts, AreWritten};
ghost use Rattle.transactions.specs.Seen.{AreInside, at_places};
ghost use Rattle.acceptor.specs.Slots.{IsKept, slots_of};
ghost use Rattle.acceptor.specs.SlotTables.{slot_in};
ghost use Rattle.acceptor.specs.Compaction.{accept_facts, common_ballot as common_of, common_facts, promise_facts, accepts_of, promises_of};
ghost use Rattle.acceptor.specs.Compaction.{transaction_facts, compacted};

use crate::compaction::{accepted_ballot, common_ballot};
use crate::slots::{KeptSlot, slot_at};
use crate::table::Table;
use ballot::{Report, Slot};
use stable_record::{FactRest, FactView};
use std::alloc::Global;
use transactions::Order;
use wire::SpelledTx;
use xid::{Ballot, MAX_BRANCHES, ManagerNumber, Refusal};

/// Writes the frame of what was accepted last of an instance, if anything was.
fn write_accept(
    frames: &mut Vec<u8>,
    tx: &SpelledTx<'_>,
    instance: ManagerNumber,
    report: Report,
) -> Result<(), Refusal>
    requires { IsReportBelow (2 ^ 32) report }
    ensures ok { OnOk result (AddsFacts frames.old.items frames.new.items (accept_facts tx.now instance report)) }
    ensures err { IfErr result (λ e. e ≡ NoMemory) }
{
    let _ = tx.count();
    let Some((ballot, vote)) = report else {
        return Ok(());
    };
    let rest = FactRest::Accept {
        instance,
        ballot,
        vote,
    };
    FactView::new(tx.again(), rest).write(frames)
}

/// Writes the frame of the promise for all instances of a transaction, if it is above ballot 0.
fn write_common(frames: &mut Vec<u8>, tx: &SpelledTx<'_>, common: Ballot) -> Result<(), Refusal>
    ensures ok { OnOk result (AddsFacts frames.old.items frames.new.items (common_facts tx.now common)) }
    ensures err { IfErr result (λ e. e ≡ NoMemory) }
{
    let _ = tx.count();
    if 0 < common {
        let rest = FactRest::PromiseAll { ballot: common };
        return FactView::new(tx.again(), rest).write(frames);
    }
    Ok(())
}

/// Writes the frame of the greatest ballot that an instance took part in, if it is above the one accepted in and above that of the promise
/// for all.
fn write_promise(
    frames: &mut Vec<u8>,
    tx: &SpelledTx<'_>,
    common: Ballot,
    instance: ManagerNumber,
    slot: Slot,
) -> Result<(), Refusal>
    requires { IsKept slot }
    ensures ok { OnOk result (AddsFacts frames.old.items frames.new.items (promise_facts tx.now common instance slot)) }
    ensures err { IfErr result (λ e. e ≡ NoMemory) }
{
    let _ = tx.count();
    let below = accepted_ballot(slot.report).max(common);
    if below < slot.mbal {
        let rest = FactRest::Promise {
            instance,
            ballot: slot.mbal,
        };
        return FactView::new(tx.again(), rest).write(frames);
    }
    Ok(())
}

/// Writes the frames of what each instance of a transaction accepted last, of which these are the managers and the slots.
fn write_accepts(
    frames: &mut Vec<u8>,
    tx: &SpelledTx<'_>,
    managers: &[ManagerNumber; MAX_BRANCHES],
    slots: &[KeptSlot],
) -> Result<(), Refusal>
    requires { (i : ℕ) → i < length tx.now.branches → slice_index managers.now i ≡ slice_index (participants tx.now) i }
    ensures ok { OnOk result (AddsFacts frames.old.items frames.new.items (accepts_of (slots_of tx.now slots.now) tx.now)) }
    ensures err { IfErr result (λ e. e ≡ NoMemory) }
{
    for place in 0..tx.count() {
        write_accept(frames, tx, managers[place], slot_at(slots, place).report)?;
    }
    Ok(())
}

/// Writes the frames of the promises of single instances of a transaction, of which these are the managers and the slots.
fn write_promises(
    frames: &mut Vec<u8>,
    tx: &SpelledTx<'_>,
    managers: &[ManagerNumber; MAX_BRANCHES],
    slots: &[KeptSlot],
    common: Ballot,
) -> Result<(), Refusal>
    requires managers { (i : ℕ) → i < length tx.now.branches → slice_index managers.now i ≡ slice_index (participants tx.now) i }
    requires common { common ≡ common_of (slots_of tx.now slots.now) tx.now }
    ensures ok { OnOk result (AddsFacts frames.old.items frames.new.items (promises_of (slots_of tx.now slots.now) tx.now)) }
    ensures err { IfErr result (λ e. e ≡ NoMemory) }
{
    for place in 0..tx.count() {
        write_promise(frames, tx, common, managers[place], slot_at(slots, place))?;
    }
    Ok(())
}

/// Writes the frames of the facts that lead each instance of a transaction to its slot, of which these are the slots.
fn write_transaction(
    frames: &mut Vec<u8>,
    tx: &SpelledTx<'_>,
    slots: &[KeptSlot],
) -> Result<(), Refusal>
    ensures ok { OnOk result (AddsFacts frames.old.items frames.new.items (transaction_facts (slots_of tx.now slots.now) tx.now)) }
    ensures err { IfErr result (λ e. e ≡ NoMemory) }
{
    let managers = tx.managers();
    write_accepts(frames, tx, &managers, slots)?;
    let common = common_ballot(tx, slots);
    write_common(frames, tx, common)?;
    write_promises(frames, tx, &managers, slots, common)
}

/// The frames of the facts that lead each transaction that has begun to its slots.
pub fn frames_of(alloc: Global, table: &Table, begun: &Order) -> Result<Vec<u8>, Refusal>
    requires { AreInside (length table.now.transactions) begun.now.numbers }
    ensures ok { IfOk result (λ frames. AreWritten frames.items
        (map kinds.Fact (compacted (at_places table.now.transactions begun.now.numbers) (slot_in table.now)))) }
    ensures err { IfErr result (λ e. e ≡ NoMemory) }
{
    let mut frames = Vec::new(alloc);
    for i in 0..table.begun_count(begun) {
        let Some(tx) = table.begun_view(begun, i) else {
            unreachable!();
        };
        write_transaction(&mut frames, &tx, table.begun_slots(begun, i, &tx))?;
    }
    Ok(frames)
}
