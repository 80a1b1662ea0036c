//! What a part of a promise says, and its words.

ghost use Rattle.std.specs.Prelude.{◌≡◌, ◌++◌, IfOk, string_bytes};
ghost use Rattle.lf_parts.specs.Words.{part_words};

use std::alloc::AllocError;

/// What a part of a promise says.
#[derive(Clone, Copy, Debug, PartialEq, Eq)]
pub enum Part {
    /// Each node of some shows a fact.
    Each,
    /// No node of some shows it.
    No,
    /// Some node of those shows it.
    Some,
    /// At most one node of those shows it.
    AtMostOne,
    /// This node is up and shows it.
    At { node: u32 },
    /// What nodes enter under a topic is one value. The topic has this number among those of the promise, from the left, where the first has the number 0.
    One { topic: usize },
}

impl Part {
    /// Appends the words of the part: `each`, `no`, `some`, `at most one`, `node 3` with the node in decimal digits, or `one value`. The error is that memory
    /// has run out.
    pub fn push_words(self, text: &mut String) -> Result<(), AllocError>
        ensures { IfOk result (λ _. string_bytes text.new ≡ string_bytes text.old ++ part_words self) }
    {
        match self {
            Part::Each => text.push_str("each"),
            Part::No => text.push_str("no"),
            Part::Some => text.push_str("some"),
            Part::AtMostOne => text.push_str("at most one"),
            Part::At { node } => write!(text, "node {node}"),
            Part::One { .. } => text.push_str("one value"),
        }
    }
}
