//! What is counted of each part of the promise of a scenario's outcome: in how many runs what it speaks of is so.
//!
//! Where an outcome is promised only of what never happens, no set of faults makes it fail.
#![tactic(auto)]

mod counting;
mod promise;
mod reading;

pub use reading::stakes;
