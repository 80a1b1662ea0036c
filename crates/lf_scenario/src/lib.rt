//! The reader of scenarios, which are TOML texts.
//!
//! A scenario says which protocol runs, among how many nodes and on which network, how many faults there may be, and
//! what the protocol promises. `specs/Reading.antt` has the table of its keys.
#![tactic(auto)]

mod error;
mod key;
mod limits;
mod links;
mod names;
mod outcomes;
mod reader;
mod reading;
mod uniqueness;
mod value;
mod votes;

pub use error::ScenarioError;
pub use key::{Key, is_key};
pub use lf_outcome::{DEEPEST, MOST_ATOMS, MOST_SETS, Scenario};
pub use limits::{LONGEST, MOST_LISTED};
pub use links::{Usual, all_links};
pub use outcomes::list_formula;
pub use reader::{assembled, read};
pub use reading::{Delays, Described, bounds_in, delays_in, max_sets_in};
pub use uniqueness::{refusals_are_one, scenarios_are_one};
pub use value::{absent, at};
