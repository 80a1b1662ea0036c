//! The reader of scenarios of protocols that designers write themselves, and the formulas that promises are in a scenario.
//!
//! Such a scenario is read as any other, but that it names the protocol of a file, gives that protocol's constants in place of the shipped protocols' keys, and
//! may say its outcome in the protocol's words. A promise speaks of nodes and of steps: with how many there are of each, and with the constants that its sets
//! name, it is a formula.
#![tactic(auto)]

mod checking;
mod constants;
mod copying;
mod error;
mod keeping;
mod kept;
mod keys;
mod members;
mod outcomes;
mod quantities;
mod reader;
mod scenario_laws;
mod scene;
mod sizes;
mod spans;
mod telling;
mod topics;
mod unfolding;
mod uniqueness;
mod values;
mod zeros;

pub use error::UnfoldError;
pub use keeping::{nodes_keep, opposites_are_opposite, parts_are_kept};
pub use kept::outcomes_are_kept;
pub use outcomes::promise_in;
pub use reader::{Chosen, chosen_in, read_with};
pub use scenario_laws::{constants_fit, formulas_are_unfolded, promises_are_formulas};
pub use scene::Scene;
pub use topics::topics_in;
pub use unfolding::unfold;
pub use uniqueness::{refusals_are_one, scenarios_are_one};
