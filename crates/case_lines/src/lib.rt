//! Cases as lines, for the programs that run them: reading the cases and the words in their lines, making a call of a part by each line,
//! and printing what each gave. Which parts there are says each program.
#![tactic(auto)]

mod calls;
mod page;
mod places;
mod program;
mod stop;
mod versions;
pub mod words;

pub use calls::{Part, run_calls};
pub use page::Page;
pub use places::{Place, in_memory};
pub use program::{Program, run_program};
pub use stop::{Stop, wanted};
