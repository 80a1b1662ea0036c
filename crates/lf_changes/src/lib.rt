//! The texts of a scenario and of a protocol with one thing changed.
#![tactic(auto)]

mod changed;

pub use changed::{changed_text, known, mutant};
