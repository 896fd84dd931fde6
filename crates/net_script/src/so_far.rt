//! What of the lines read so far says which lines of a trace may follow.

ghost use Rattle.std.specs.Prelude.{◌≡◌, not, ◌==◌, OnOk};
ghost use Rattle.std.specs.List.{list_all};
ghost use Rattle.net_script.specs.TraceReaders.{filled, noticed, is_alone, takes_sent, takes_notice};
ghost use Rattle.net_script.specs.TraceReaders.{takes_table, may_follow, after_line, as_line, Follows};

use crate::said::Heard;
use crate::stop::Stop;
use crate::trace_drafts::push;
use crate::trace_lines::TraceLine;
use crate::values::Sizes;
use std::alloc::{AllocError, Global};
use xid::Sequence;

/// How much was told of the last thing that happened.
#[derive(Clone, Copy)]
pub enum LastEntry {
    /// Nothing happened yet.
    Missing,
    /// An event's answer alone.
    Bare,
    /// An event's changed view or a datagram too.
    Full,
    /// A notice of an event too.
    Noticed,
    /// The answer of a serve alone.
    BareServe,
    /// A changed view or a datagram of a serve too.
    FullServe,
}

impl LastEntry {
    /// The same with a changed view or a datagram more.
    fn filled(self) -> LastEntry
        ensures { result ≡ filled self }
    {
        match self {
            LastEntry::Bare => LastEntry::Full,
            LastEntry::BareServe => LastEntry::FullServe,
            last => last,
        }
    }

    /// The same with a notice more.
    fn noticed(self) -> LastEntry
        ensures { result ≡ noticed self }
    {
        match self {
            LastEntry::Bare | LastEntry::Full => LastEntry::Noticed,
            last => last,
        }
    }

    /// Whether it has its answer alone.
    fn is_alone(self) -> bool
        ensures { result ≡ is_alone self }
    {
        matches!(self, LastEntry::Bare | LastEntry::BareServe)
    }

    /// Whether a datagram may follow.
    fn takes_sent(self) -> bool
        ensures { result ≡ takes_sent self }
    {
        !matches!(self, LastEntry::Missing | LastEntry::Noticed)
    }

    /// Whether a notice may follow.
    fn takes_notice(self) -> bool
        ensures { result ≡ takes_notice self }
    {
        matches!(self, LastEntry::Bare | LastEntry::Full | LastEntry::Noticed)
    }
}

/// What was read so far, as far as it says which lines may follow.
#[derive(Drop)]
pub struct SoFar {
    /// The cluster.
    pub(crate) sizes: Sizes,
    /// The resource managers with a first table.
    managers: Sequence<u8>,
    /// What was told of the last thing that happened.
    last: LastEntry,
    /// How many resource managers have last rows.
    pub(crate) finals: usize,
}

impl SoFar {
    /// Whether no first table is this resource manager's.
    fn is_other(&self, rm: u8) -> bool
        ensures { result ≡ list_all (λ other. not (other == rm)) self.now.managers }
    {
        !self.managers.as_slice().contains(&rm)
    }

    /// Whether a first table of this resource manager may follow.
    fn takes_table(&self, rm: u8) -> bool
        ensures { result ≡ takes_table self.now rm }
    {
        matches!(self.last, LastEntry::Missing)
            && self.finals == 0
            && u32::from(rm) < self.sizes.rms
            && self.is_other(rm)
    }

    /// Whether a line may follow.
    fn may_follow(&self, heard: &Heard) -> bool
        ensures { result ≡ may_follow self.now (as_line heard.now) }
    {
        match heard {
            Heard::Line(TraceLine::Cluster(_)) => false,
            Heard::Line(TraceLine::Contents(table)) => self.takes_table(table.rm),
            Heard::Line(TraceLine::Happened(..) | TraceLine::Served(..)) => self.finals == 0,
            Heard::Line(TraceLine::Changed(_)) => { self.finals == 0 && self.last.is_alone() }
            Heard::Line(TraceLine::Datagram(_)) | Heard::Datagram(_) => {
                self.finals == 0 && self.last.takes_sent()
            }
            Heard::Line(TraceLine::Notice(_)) => self.finals == 0 && self.last.takes_notice(),
            Heard::Line(TraceLine::Final(rm, _)) => {
                usize::from(*rm) == self.finals && self.finals < self.sizes.rms as usize
            }
        }
    }

    /// Adds a line that may follow.
    fn add(&mut self, alloc: Global, heard: &Heard) -> Result<(), AllocError>
        ensures { OnOk result (self.new ≡ after_line self.old (as_line heard.now)) }
    {
        match heard {
            Heard::Line(TraceLine::Cluster(_)) => (),
            Heard::Line(TraceLine::Contents(table)) => push(alloc, &mut self.managers, table.rm)?,
            Heard::Line(TraceLine::Happened(..)) => self.last = LastEntry::Bare,
            Heard::Line(TraceLine::Served(..)) => self.last = LastEntry::BareServe,
            Heard::Line(TraceLine::Changed(_) | TraceLine::Datagram(_)) | Heard::Datagram(_) => {
                self.last = self.last.filled();
            }
            Heard::Line(TraceLine::Notice(_)) => self.last = self.last.noticed(),
            Heard::Line(TraceLine::Final(rm, _)) => self.finals = usize::from(*rm) + 1,
        }
        Ok(())
    }
}

/// Adds a line to what was read so far, if it may follow.
pub(crate) fn follow(alloc: Global, so_far: &mut Option<SoFar>, heard: &Heard) -> Result<(), Stop>
    ensures { Follows so_far.old so_far.new (as_line heard.now) result }
{
    let Some(begun) = so_far else {
        let Heard::Line(TraceLine::Cluster(sizes)) = heard else {
            return Err(Stop::Wrong);
        };
        *so_far = Some(SoFar {
            sizes: *sizes,
            managers: Sequence::new(Vec::new(alloc)),
            last: LastEntry::Missing,
            finals: 0,
        });
        return Ok(());
    };
    if !begun.may_follow(heard) {
        return Err(Stop::Wrong);
    }
    begun.add(alloc, heard)?;
    Ok(())
}
