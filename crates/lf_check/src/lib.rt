//! Judges certificates: whoever made a tree, a yes alone implies that its answer is the answer.
#![tactic(auto)]

mod branch;
mod excluded;
mod failing;
mod found;
mod judging;
mod leaf;
mod listing;
mod node;
mod part;
mod places;
mod rows;
mod same;
mod scenarios;
mod site;
mod tally;
mod verdict;
mod walk;

pub use judging::judge;
pub use lf_certificate::Reason;
pub use scenarios::{check, check_rows, check_rows_watched};
pub use verdict::Verdict;
