//! How far a search, an answer or a check has come, told to whoever waits for it.
//!
//! What is told changes no answer: a watch takes what it is told, and gives back only whether the work is to go on. Work that isn't has no answer.
#![tactic(auto)]

mod progress;
mod watch;

pub use progress::Progress;
pub use watch::{NoWatch, Watch};
