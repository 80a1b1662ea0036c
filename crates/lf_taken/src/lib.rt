//! Which rules a node of a protocol of rules takes at a step of a run, by their numbers, in the order in which it takes them.
//!
//! Rules are numbered from 1, chain by chain, in the order in which they are written.
#![tactic(auto)]

mod letters;
mod numbers;
mod points;
mod readings;
mod turns;

pub use points::taken;
pub use readings::told_rules_are_done;
