//! Working one set of faults: its run, what the outcome rests on in it, and the faults that are to be tried beneath it.
//!
//! It needs no search: a job is worked by itself, wherever that is.
#![tactic(auto)]

mod finding;
mod job;
mod running;
mod scratch;
mod spent;
mod working;

pub use finding::Finding;
pub use job::Job;
pub use scratch::Scratch;
pub use spent::Spent;
pub use working::{work, work_on, work_reusing, work_suited, work_up};
