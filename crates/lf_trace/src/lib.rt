//! The trace of a run, what changes in it, how it differs from another, and the words that name a set of faults.
//!
//! A trace tells a run line by line: at each step the state of every node and what becomes of every note, and at the end
//! whether the run reaches the outcome. That of a protocol of rules also tells the rules that nodes took. What changes from step to step, how a run
//! differs from another, and where first, are traces of that alone.
#![tactic(auto)]

mod beyond;
mod first;
mod naming;
mod promises;
mod rule_telling;
mod runs;
mod steps;
mod telling;
mod titled;
mod worded;

pub use beyond::elsewhere;
pub use first::first_difference;
pub use naming::{names_are_one, read_faults};
pub use promises::differences_are_first;
pub use rule_telling::trace_with_rules;
pub use runs::beside;
pub use steps::changes;
pub use telling::{Step, end_word, push_step, trace};
pub use worded::Worded;
