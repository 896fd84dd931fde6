//! Entries as they are written: in frames of version 2.

ghost use Rattle.std.specs.Prelude.{◌≡◌, IfOk, IfErr};
ghost use Rattle.xid.specs.declared.refusals.Refusal.TheVariants.{NoMemory};
ghost use Rattle.stable_record.specs.Written.{AreWritten};

use stable_record::Entry;
use std::alloc::Global;
use xid::Refusal;

/// The frames of entries. Refused: `NoMemory` alone.
pub(crate) fn entry_frames(alloc: Global, all: &[Entry]) -> Result<Vec<u8>, Refusal>
    ensures ok { IfOk result (λ frames. AreWritten frames.items all.now) }
    ensures err { IfErr result (λ e. e ≡ NoMemory) }
{
    let mut frames = Vec::new(alloc);
    for entry in all {
        entry.write(alloc, &mut frames)?;
    }
    Ok(frames)
}
