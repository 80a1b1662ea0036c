//! The words of the command `sweep`, and how those of its options are read that other commands have too.
#![tactic(auto)]

mod command;
mod facts;
mod names;
mod planning;
mod types;
mod unasked;
mod words;

pub use command::{file, flag, option, with_argument};
pub use facts::sweeps_asked_are_one;
pub use names::names_of;
pub use types::{By, SweepAsked};
pub use unasked::{SweepUnasked, wrong};
pub use words::{MOST_WORKERS, files_in, is_set, part_in, refused, sweep_asked, value, workers_in};
