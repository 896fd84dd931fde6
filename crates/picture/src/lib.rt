//! Pictures of runs: a trace as an SVG. Time runs downwards, a row for each line of the trace; each node has a lane.
#![tactic(auto)]

mod backdrop;
mod datagrams;
mod elements;
mod happenings;
mod labels;
mod names;
mod pictures;
mod places;
mod rows;
mod style;
mod transcript;
mod views;
mod writing;

pub use elements::{Element, Lettering, Mark, Pen, Point};
pub use pictures::{picture, true_arrows};
pub use writing::no_markup;
