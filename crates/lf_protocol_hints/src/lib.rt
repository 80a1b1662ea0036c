//! What is wrong with a protocol file, or a scenario of one, that is refused, and what in one that is read looks like a slip, in words for a person.
//!
//! The engine tells a refusal by a fixed line. A hint says of the same file what stands where, and what may stand there:
//! ``facts.blocked: `prepare`: no such name here; did you mean `prepared`?``. Under that it shows the line of the file, with the word marked.
//! Hints are for people: no contract fixes their words.
#![tactic(auto)]

mod clamped;
mod counts;
mod drafts;
mod given;
mod idle;
mod known;
mod names;
mod nobody;
mod nodes;
mod notes;
mod outcome;
mod places;
mod refusals;
mod replaced;
mod replay;
mod run;
mod scenario;
mod unfit;
mod used;
mod uses;
mod warnings;

pub use notes::protocol_notes;
pub use refusals::protocol_hint;
pub use run::run_notes;
pub use scenario::own_hint;
