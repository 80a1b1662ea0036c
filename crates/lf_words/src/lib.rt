//! Which of some names is meant by a word that is none of them.
//!
//! The command line of the program `leastfault`.
#![tactic(auto)]

mod commands;
mod near;
mod refusals;
mod types;
mod unasked;
mod words;

pub use near::nearest;
pub use refusals::shell_word;
pub use types::{Asked, Shown};
pub use unasked::Unasked;
pub use words::{MOST_WORKERS, asked};
