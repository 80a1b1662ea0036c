//! The readers of the texts of a protocol that is written as rules, but for outcomes: constants, variables, notes, expressions with a name, and the parts
//! of a rule.
//!
//! A text is read from the left, with one token of foresight, and to its end.
#![tactic(auto)]

mod assignments;
mod error;
mod events;
mod forms;
mod fronts;
mod kinds;
mod lists;
mod names;
mod sends;
mod tables;
mod values;
mod variables;

pub use assignments::read_sets;
pub use error::TextError;
pub use events::{Heard, read_event};
pub use forms::read_note;
pub use fronts::{same_tokens, text_tokens};
pub use names::{is_name, is_note_name, is_reserved};
pub use sends::read_sends;
pub use values::{When, read_guard, read_nodes, read_value, read_when, with_it};
pub use variables::{VariableText, read_variable};
