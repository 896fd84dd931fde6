//! A node that forgets: it has a floor, a place in the order of names, and takes no part any more in a transaction whose name stands below
//! it. The floor stands in front of the node's record; the node beneath sees what is behind it, and no input that is below.
#![tactic(auto)]

mod below;
mod node;
mod told;

pub use node::Floored;
pub use told::ToldFloors;
