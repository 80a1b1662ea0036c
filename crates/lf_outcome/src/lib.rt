//! What a protocol promises, as formulas over runs, and when a run keeps it; and scenarios, which promise that of a protocol on a network.
//!
//! By which step a run is seen to miss an outcome: whatever comes after it.
#![tactic(auto)]

mod entries;
mod equal;
mod failing;
mod formula;
mod gathering;
mod limits;
mod measure;
mod outcome;
mod point;
mod promises;
mod reach;
mod scenario;
mod truth;
mod unfolding;
mod words;

pub use entries::push_up;
pub use equal::same;
pub use failing::{fails_by, first_failing};
pub use formula::{Formula, Formulas};
pub use gathering::evidence;
pub use limits::{DEEPEST, MOST_ATOMS, MOST_SETS};
pub use measure::{atoms, depth};
pub use outcome::{
    Outcome, agreement_by_nodes, delivered_by_nodes, durable_by_nodes, named, one_primary_by_nodes,
    unblocked_by_nodes,
};
pub use point::Point;
pub use promises::what_fails_stays_missed;
pub use reach::Reach;
pub use scenario::Scenario;
pub use truth::{by_cases, holds, holds_within, single_by_values};
pub use unfolding::unfold;
pub use words::outcome_named;
