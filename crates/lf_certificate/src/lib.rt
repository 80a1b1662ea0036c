//! What makes certificates and searches right: accepted trees, the first fault of a tree, the tree of a search, and why an accepted tree's answer is the
//! answer; and what a search is: its states, the events that change them, and what it finds whoever makes it and in whatever order.
//!
//! Nothing here says how a tree is found, or how a search is made. What is said holds of every machine, every network and all bounds.
#![tactic(auto)]

mod promises;
mod reason;
mod search_promises;

pub use promises::{accepted_answers, first_faults, one_tree, settings_are_bounded};
pub use reason::Reason;
pub use search_promises::{searches_find_the_answer, searches_stay_closed};
