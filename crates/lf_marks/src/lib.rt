//! The tree of the sets of faults that a search has marked.
#![tactic(auto)]

mod answering;
mod building;
mod claim;
mod claims;
mod finding;
mod grown;
mod lowering;
mod marks;
mod reading;
mod room;
mod set;
mod sets;
mod steps;
mod taking;

pub use finding::Claimable;
pub use grown::{Answer, Grown};
pub use marks::Marks;
pub use reading::Counts;
pub use room::Room;
pub use steps::Steps;
