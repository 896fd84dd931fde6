//! What nodes store: facts, one after the other, as frames in a record.
#![tactic(auto)]

mod behind;
mod entry;
mod fact;
mod failing;
mod file;
mod floor_frame;
mod frames;
pub mod laws;
mod memory;
mod reading;
mod record;
mod view;
mod view_writing;
mod writing;

pub use behind::Behind;
pub use entry::{Entry, EntryKind};
pub use fact::{Act, Fact, FactKind, Touched};
pub use failing::{FailRecord, Leaves};
pub use file::FileRecord;
pub use floor_frame::take_floor;
pub use frames::{MAX_BODY, entries, take_frame, view_frame};
pub use memory::MemRecord;
pub use record::{Record, RecordError, Tear};
pub use view::{EntryView, FactRest, FactView};
pub use writing::write_row;

#[cfg(test)]
mod file_tests;
