//! What is wrong with a text that is refused, in words for a person.
//!
//! The engines tell a refusal by a fixed line. A hint says of the same text what stands where, and what may stand there:
//! `budget = 7: a whole number from 0 to 6`. It is one line, without its line feed. Places in lists are counted from 0, and
//! what a text says is quoted in short. Hints are for people: no contract fixes their words.
#![tactic(auto)]

mod delays;
mod faults;
mod formula;
mod full;
mod hint;
mod keys;
mod links;
mod misspelt;
mod nodes;
mod place;
mod protocols;
mod scenario;
mod see;
mod stand;
mod takes;
mod texts;
mod tree;
mod verdict;

pub use full::Wanted;
pub use scenario::{scenario_hint, toml_hint};
pub use texts::{
    combination_hint, delays_hint, judged_hint, level_hint, see_hint, see_late_hint, seed_note,
    set_hint,
};
pub use tree::tree_hint;
