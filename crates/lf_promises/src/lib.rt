//! The promises of protocols of rules, as they are written: their type, and their reader, of tokens.
//!
//! A promise is read from the left, with one token of foresight.
#![tactic(auto)]

mod error;
mod fronts;
mod naming;
mod promise;
mod reading;
mod reading_laws;
mod units;

pub use error::PromiseError;
pub use naming::names_facts;
pub use promise::{Many, Promise, Promises};
pub use reading::read_promise;
pub use reading_laws::enough_steps_read_the_same;
