//! Sweeps: the replies to all combinations of values of one scenario.
//!
//! A combination's line is made of its values, and of the reply to the scenario that has them. The lines are written in the order of the
//! combinations, whatever the number of workers.
#![tactic(auto)]

mod asking;
mod executing;
mod laws;
mod reading;
mod sweeping;

pub use executing::{Ended, SweepExecuted, execute};
pub use laws::sweeps_are_one;
pub use lf_sweep::{
    Counts, Defeated, Marks, Part, Place, Plan, PlanError, Study, SweepFault, Varied, VaryError,
    Words, read_varied,
};
pub use lf_sweep_words::{By, SweepAsked, SweepUnasked, names_of, sweep_asked};
pub use reading::SweepTexts;
pub use sweeping::{sweep, sweep_shared};
