//! What a protocol file says.

use lf_grammar::Meaning;
use lf_list::Listed;
use lf_promises::Promise;
use lf_rules::{Definition, Name};

/// What a protocol promises, with a name.
#[derive(Debug, Drop)]
pub struct Outcome {
    pub name: Name,
    pub promise: Promise,
}

/// What a protocol file says, section by section.
#[derive(Debug, Drop)]
pub struct Declared {
    /// What a scenario calls the protocol.
    pub name: Name,
    pub definition: Definition,
    /// What each name stands for that a text may use.
    pub names: Listed<Meaning>,
    /// What is promised, by name.
    pub outcomes: Listed<Outcome>,
}
