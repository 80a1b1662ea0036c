//! The answer by a run of each allowed set, in order: over any machine, network, bounds and formula.
#![tactic(auto)]

mod first;
mod laws;

pub use first::first_missing;
