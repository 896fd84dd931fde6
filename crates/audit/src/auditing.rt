ghost use Rattle.std.specs.Prelude.{◌≡◌, IfOk, IfErr};
ghost use Rattle.xid.specs.declared.refusals.Refusal.TheVariants.{NoMemory};
ghost use Rattle.net_script.specs.TraceReading.{RefusesTrace};
ghost use Rattle.audit.specs.Consistent.{is_consistent};
ghost use Rattle.audit.specs.Faults.{IsJudged};
ghost use Rattle.audit.specs.Floors.{stays_above};
ghost use Rattle.audit.specs.Told.{each_step, history_of};

use crate::faults::Fault;
use crate::floors::Floors;
use crate::judge::Judge;
use crate::ledger::Ledger;
use crate::serial::is_serial;
use hashing::HashKey;
use net_script::{Trace, TraceReader};
use std::alloc::Global;
use xid::Refusal;

/// Whether a trace keeps what was promised, by looking at the trace alone. Each change of a view is a step of TCommit; each get that was
/// answered a value or none showed the table so far, with the writes of its branch over it; the last rows are the tables so made;
/// one serial order, that of the first commits anywhere, explains the last rows and the gets of committed transactions; and no step takes
/// part below a floor. Refused: `NoMemory` alone.
pub fn audit(alloc: Global, trace: &Trace) -> Result<bool, Refusal>
    ensures ok { IfOk result (λ yes. yes ≡ is_consistent trace.now) }
    ensures err { IfErr result (λ e. e ≡ NoMemory) }
{
    audit_with_hash_key(alloc, HashKey::fixed(), trace)
}

/// The same, with names hashed under a key, which the answer doesn't depend on. Refused: `NoMemory` alone.
pub fn audit_with_hash_key(alloc: Global, key: HashKey, trace: &Trace) -> Result<bool, Refusal>
    ensures ok { IfOk result (λ yes. yes ≡ is_consistent trace.now) }
    ensures err { IfErr result (λ e. e ≡ NoMemory) }
{
    let tables = trace.tables.as_slice();
    let finals = trace.finals.as_slice();
    let mut ledger = Ledger::new(alloc, key, tables)?;
    for entry in trace.entries.as_slice() {
        if !ledger.take(alloc, entry)? {
            return Ok(false);
        }
    }
    if !are_above(alloc, key, trace)? {
        return Ok(false);
    }
    if !ledger.tables.are(finals) {
        return Ok(false);
    }
    is_serial(alloc, &ledger, tables, finals)
}

/// Whether no step of a trace takes part below a floor. Refused: `NoMemory` alone.
fn are_above(alloc: Global, key: HashKey, trace: &Trace) -> Result<bool, Refusal>
    ensures ok { IfOk result (λ yes. yes ≡ each_step (stays_above trace.now.sizes.rms) (history_of trace.now.entries)) }
    ensures err { IfErr result (λ e. e ≡ NoMemory) }
{
    let mut floors = Floors::of(alloc, key.words(), trace.sizes.rms);
    for entry in trace.entries.as_slice() {
        if !floors.take_entry(alloc, entry)? {
            return Ok(false);
        }
    }
    Ok(true)
}

/// The first fault of the trace of which this is the text, in one pass and with no trace kept; none exactly where `audit` says yes of it.
/// It is at the first line with which the trace so far doesn't keep a question, and names the first that it doesn't; one serial order is
/// asked for from the first of the last rows on. The whole text is read, whatever the answer. Refused as `read_trace` refuses it, and
/// `NoMemory`.
pub fn audit_text(alloc: Global, bytes: &[u8]) -> Result<Option<Fault>, Refusal>
    ensures ok { IfOk result (IsJudged bytes.now) }
    ensures err { IfErr result (RefusesTrace bytes.now) }
{
    audit_text_with_hash_key(alloc, HashKey::fixed(), bytes)
}

/// The same, with names hashed under a key, which the answer doesn't depend on. Refused as `audit_text` is.
pub fn audit_text_with_hash_key(
    alloc: Global,
    key: HashKey,
    bytes: &[u8],
) -> Result<Option<Fault>, Refusal>
    ensures ok { IfOk result (IsJudged bytes.now) }
    ensures err { IfErr result (RefusesTrace bytes.now) }
{
    let mut reader = TraceReader::new(bytes);
    let mut judge = Judge::new(alloc, key)?;
    let mut lines = 0;
    while let Some(heard) = reader.hear(alloc)? {
        lines += 1;
        judge.hear(alloc, lines, &reader, heard)?;
    }
    judge.verdict(alloc, lines)
}
