//! The frames of a compacted record, written from the spelled bytes of its transactions.

ghost use Rattle.std.specs.Prelude.{◌≡◌, map, OnOk, IfOk, IfErr};
ghost use Rattle.xid.specs.declared.refusals.Refusal.TheVariants.{NoMemory};
ghost use Rattle.stable_record.specs.declared.entry.EntryKind.TheVariants as kinds;
ghost use Rattle.stable_record.specs.Written.{AddsFacts, AreWritten};
ghost use Rattle.leader.specs.Places.{course_in};
ghost use Rattle.leader.specs.Compaction.{ballot_facts, compacted};

use crate::courses::Courses;
use stable_record::{FactRest, FactView};
use std::alloc::Global;
use wire::SpelledTx;
use xid::{Ballot, Refusal};

/// Writes the frame of the greatest ballot of a transaction, if it has one.
fn write_ballot(frames: &mut Vec<u8>, tx: SpelledTx<'_>, ballot: Ballot) -> Result<(), Refusal>
    ensures ok { OnOk result (AddsFacts frames.old.items frames.new.items (ballot_facts tx.entry ballot)) }
    ensures err { IfErr result (λ e. e ≡ NoMemory) }
{
    let _ = tx.count();
    if ballot > 0 {
        return FactView::new(tx, FactRest::Ballot { ballot }).write(frames);
    }
    Ok(())
}

/// The frames of the greatest ballot of each transaction that has one, in the order of those that begin.
pub fn frames_of(alloc: Global, courses: &Courses) -> Result<Vec<u8>, Refusal>
    ensures ok { IfOk result (λ frames. AreWritten frames.items
        (map kinds.Fact (compacted courses.now.begun (λ tx. (course_in courses.now tx).greatest)))) }
    ensures err { IfErr result (λ e. e ≡ NoMemory) }
{
    let mut frames = Vec::new(alloc);
    for i in 0..courses.begun_count() {
        let Some(tx) = courses.begun_view(i) else {
            unreachable!();
        };
        let ballot = courses.begun_greatest(i, &tx);
        write_ballot(&mut frames, tx, ballot)?;
    }
    Ok(frames)
}
