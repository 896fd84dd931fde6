//! Scripts and traces as text. A script says a cluster, its first tables and the events that happen to it; a trace says
//! what came of each event and what the tables hold at the end.
#![tactic(auto)]

mod answers;
mod byte_words;
mod commands;
mod events;
mod items;
mod known;
mod message_words;
mod messages;
mod nodes;
mod pieces;
mod said;
mod scripts;
mod so_far;
mod stop;
mod told;
mod trace_drafts;
mod trace_lines;
mod trace_readers;
mod traces;
mod values;
mod word;
mod words;
mod writing;
mod written;

pub use answers::{put_answer, write_datagram, write_notice};
pub use commands::Commands;
pub use events::read_command;
pub use pieces::{put_floor, put_node, put_rows, put_tx};
pub use said::Heard;
pub use scripts::{line_of, one_reading, read_script};
pub use trace_lines::TraceLine;
pub use trace_readers::{TraceReader, one_trace, read_trace};
pub use traces::{write_answered, write_finals, write_head, write_step, write_trace};
pub use values::{Command, Entry, Script, Sizes, Table, Trace};
pub use words::{is_over, last_node, last_tx, next_word, node};
pub use writing::{file_refusal, write_number, write_text};
pub use written::WrittenTx;
