//! Faults, sets of faults, which sets are allowed, and the order in which they are tried.
//!
//! A fault is an omission (one note is lost), a crash (a node takes no further step) or a pause (a node takes no
//! step for a while, and restarts). Nodes are numbered from 0 and steps from 1.
#![tactic(auto)]

mod allowed;
mod facts;
mod fault;
mod order;
mod set;
mod spec;
mod text;

pub use allowed::{admits, can_add, fits, with};
pub use facts::{first_set_is_one, orders_are_total, subsets_are_allowed, walks_end};
pub use fault::{Fault, Parts};
pub use order::next_set;
pub use set::FaultSet;
pub use spec::{Bounds, FaultSpec};
pub use text::{Slot, fault_text, read_fault, read_slot, read_step};
