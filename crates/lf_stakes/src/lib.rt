//! What an answer hangs on: in how many runs, of those without a fault and with one allowed fault, each rule of a protocol is taken, something is entered
//! under a topic, and an outcome is reached.
//!
//! Rules are numbered from 1, chain by chain, in the order in which they are written.
#![tactic(auto)]

mod counting;
mod entered;
mod facts;
mod reached;
mod singles;
mod starting;

pub use counting::rules_taken;
pub use entered::times_entered;
pub use facts::{
    a_count_is_of_runs, a_rule_that_is_never_taken, a_rule_that_is_taken, an_entry_is_of_a_run,
    each_rule_that_is_taken_is_counted, single_sets_are_one,
};
pub use reached::times_true;
pub use singles::single_sets;
pub use starting::rules_of_start;
