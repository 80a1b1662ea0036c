//! Doubt: what the answer to a scenario hangs on.
//!
//! Each question is of the scenario or of its protocol with one thing changed, or tells what was counted in the runs without a fault and with a single
//! one. The line of a question is made of what it is called and of the reply to it. The lines are written in the order of the questions, whatever the
//! number of workers.
#![tactic(auto)]

mod asking;
mod doubting;
mod facts;
mod ground;
mod limit;

pub use doubting::{Asking, Begun, Texts, ask, prepare};
pub use facts::each_rule_is_asked;
pub use lf_doubt::Question;
