//! Traces made line by line.

ghost use Rattle.std.specs.Prelude.{◌≡◌, [], ◌∷◌, ◌++◌, true, is_some, Some, IfOk, OnOk};
ghost use Rattle.net_script.specs.TraceReaders.{with_told, at_last, grown, begun_with};

use crate::trace_lines::TraceLine;
use crate::values::{Entry, Trace};
use protocol::Step;
use std::alloc::{AllocError, Global};
use std::mem;
use xid::Sequence;

/// Puts one more at the end.
pub(crate) fn push<T: Drop>(alloc: Global, all: &mut Sequence<T>, one: T) -> Result<(), AllocError>
    ensures { OnOk result (all.new ≡ all.old ++ one ∷ []) }
{
    let mut more = mem::replace(all, Sequence::new(Vec::new(alloc))).into_vec();
    more.push(one)?;
    *all = Sequence::new(more);
    Ok(())
}

/// Says of an entry that it changed a view, or that it sent one more datagram or told one more notice.
fn tell(alloc: Global, entry: &mut Entry, said: &TraceLine) -> Result<(), AllocError>
    ensures { OnOk result (entry.new ≡ with_told said.now entry.old) }
{
    match said {
        TraceLine::Changed(change) => match entry {
            Entry::Step(step) => step.now = Some(*change.get()),
            Entry::Serve { now, .. } => *now = Some(*change.get()),
        },
        TraceLine::Datagram(datagram) => match entry {
            Entry::Step(step) => push(alloc, &mut step.sent, *datagram.get())?,
            Entry::Serve { sent, .. } => push(alloc, sent, *datagram.get())?,
        },
        TraceLine::Notice(notice) => match entry {
            Entry::Step(step) => push(alloc, &mut step.told, *notice)?,
            Entry::Serve { .. } => (),
        },
        _ => (),
    }
    Ok(())
}

/// Says so of the last entry.
fn tell_last(
    alloc: Global,
    entries: &mut Sequence<Entry>,
    said: &TraceLine,
) -> Result<(), AllocError>
    ensures { OnOk result (entries.new ≡ at_last (with_told said.now) entries.old) }
{
    let mut all = mem::replace(entries, Sequence::new(Vec::new(alloc))).into_vec();
    if let Some(last) = all.last_mut() {
        tell(alloc, last, said)?;
    }
    *entries = Sequence::new(all);
    Ok(())
}

/// Adds a line that may follow.
fn grow(alloc: Global, trace: &mut Trace, said: TraceLine) -> Result<(), AllocError>
    ensures { OnOk result (trace.new ≡ grown trace.old said) }
{
    let sent = Sequence::new(Vec::new(alloc));
    let told = Sequence::new(Vec::new(alloc));
    let now = None;
    match said {
        TraceLine::Cluster(_) => (),
        TraceLine::Contents(table) => push(alloc, &mut trace.tables, table)?,
        TraceLine::Happened(event, answer) => {
            let step = Step {
                event,
                answer,
                now,
                sent,
                told,
            };
            push(alloc, &mut trace.entries, Entry::Step(step))?;
        }
        TraceLine::Served(node, answer) => {
            let entry = Entry::Serve {
                node,
                answer,
                now,
                sent,
            };
            push(alloc, &mut trace.entries, entry)?;
        }
        TraceLine::Final(_, rows) => push(alloc, &mut trace.finals, rows)?,
        said => tell_last(alloc, &mut trace.entries, &said)?,
    }
    Ok(())
}

/// The trace so far with one line more, which may follow.
pub(crate) fn with_line(
    alloc: Global,
    trace: Option<Trace>,
    said: TraceLine,
) -> Result<Trace, AllocError>
    requires { is_some (begun_with trace said) ≡ true }
    ensures { IfOk result (λ t. Some t ≡ begun_with trace said) }
{
    let Some(mut trace) = trace else {
        let TraceLine::Cluster(sizes) = said else {
            unreachable!();
        };
        return Ok(Trace {
            sizes,
            tables: Sequence::new(Vec::new(alloc)),
            entries: Sequence::new(Vec::new(alloc)),
            finals: Sequence::new(Vec::new(alloc)),
        });
    };
    grow(alloc, &mut trace, said)?;
    Ok(trace)
}
