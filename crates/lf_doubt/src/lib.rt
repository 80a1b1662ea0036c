//! What is asked of the answer to a scenario: what it hangs on.
//!
//! Each question is of the scenario or its protocol with one thing changed, or tells what was counted in the runs without a fault and with one.
#![tactic(auto)]

mod bounds;
mod change;
mod facts;
mod ground;
mod list;
mod name;
mod question;
mod told;

pub use bounds::has_spread;
pub use change::Change;
pub use facts::{bounds_grow, parts_are_told, rules_are_asked};
pub use ground::{Ground, Stake};
pub use list::questions;
pub use question::Question;
pub use told::{holds_reply, taken_reply};
