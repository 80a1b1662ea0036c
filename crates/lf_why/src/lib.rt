//! Why an answer is one: of a set of faults, what each of them is needed for; of `none`, what was run and what the promise rests on.
#![tactic(auto)]

mod answers;
mod idle;
mod levels;
mod nones;
mod promises;
mod sets;
mod without;

pub use answers::why;
pub use levels::sets_at;
pub use nones::why_none;
pub use promises::{least_sets_need_each_fault, reasons_are_one};
pub use sets::why_set;
