//! Machines, and what they do under faults.
//!
//! Nodes are numbered from 0 and steps from 1. At each step every node that is up takes its inbox and its state, and
//! gives a new state and at most one note for each other node.
//!
//! The run of one set of faults is made that of another: only those points are worked again that come out otherwise.
#![tactic(auto)]

mod again;
mod change;
mod difference;
mod effects;
mod entry;
mod grid;
mod letter;
mod machine;
mod marks;
mod out;
mod past;
mod points;
mod record;
mod runs;
mod schedule;
mod sends;
mod setting;
mod turns;

pub use again::play_again;
pub use change::rerun;
pub use difference::Difference;
pub use effects::Effects;
pub use entry::Entry;
pub use letter::Letter;
pub use machine::Machine;
pub use marks::Marks;
pub use out::{Out, Stepped};
pub use points::{arrivals_are_later, by_points, inboxes_of, same_until};
pub use record::Run;
pub use runs::{run, runs_agree};
pub use schedule::Slot;
pub use sends::Alike;
pub use setting::Setting;
pub use turns::Turns;
