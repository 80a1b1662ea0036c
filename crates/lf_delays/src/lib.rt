//! When notes arrive, whatever each takes between the least delay of its link and as many steps more as its spread has.
//!
//! An assignment gives each slot a step in its window. The answer over every delay is the first allowed set of faults that misses under
//! some assignment. Delays cost nothing, and no seed plays a part.
//!
//! A run whose notes arrive as chosen is told by its late notes, and played again from them: `0>1 @9 13` is the note that node 0 sends to node 1
//! at step 9, which arrives at step 13. Every other note arrives as early as it can. Not all that is late in an answer has to be: notes are left out, and then
//! arrive as early as they can, until none can be left out any more.
#![tactic(auto)]

mod arrival_laws;
mod delay;
mod facts;
mod passes;
mod reading;
mod telling;
mod trial;

pub use arrival_laws::{
    answers_agree_without_spread, answers_come_before_those_of_seeds, runs_agree_so_far,
};
pub use delay::{Delay, push_delays};
pub use facts::{delays_are_one, needed_delays_are_late, told_delays_are_late, told_delays_replay};
pub use passes::tight_arrivals;
pub use reading::{arrivals_of, read_delays};
pub use telling::told_delays;
