//! The parts of a promise of which it can be asked whether they are ever at stake, and the promise that asks it.
//!
//! Parts are what is promised of nodes that show a fact, of one node that shows it, and of one value, from the left. That a node is down is no such part.
#![tactic(auto)]

mod asking;
mod leaf;
mod leaf_laws;
mod listing;
mod part;

pub use asking::asked;
pub use leaf_laws::{parts_are_leaves, questions_name_facts, topics_are_numbered};
pub use listing::parts;
pub use part::Part;
