//! The words of the command `doubt`. What `sweep` reads too is read as it reads it.
#![tactic(auto)]

mod command;
mod laws;
mod types;
mod words;

pub use laws::doubts_asked_are_one;
pub use lf_sweep_words::SweepUnasked;
pub use types::DoubtAsked;
pub use words::{MOST_SECONDS, doubt_asked};
