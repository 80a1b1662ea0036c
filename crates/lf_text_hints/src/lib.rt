//! What is wrong with a text of a protocol file, or of a scenario of one, that says nothing, in words for a person.
//!
//! A text is read once more, up to where that stops: expressions and outcomes by the proved readers, whose refusals tell where and why. What is told is
//! the word at which it does, what is wrong there and what may stand there, and under that the line of the file. Of an outcome that is read it is told why
//! it is too large. Hints are for people: no contract fixes their words.
#![tactic(auto)]

mod atoms;
mod bodies;
mod calls;
mod chains;
mod events;
mod expressions;
mod kinds;
mod large;
mod lists;
mod notes;
mod outcomes;
mod shown;
mod size;
mod telling;
mod text;

pub use chains::misplaced;
pub use large::large_hint;
pub use text::{text_hint, text_told};
