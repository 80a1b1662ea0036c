//! What is asked.

use crate::{Change, Stake};
use lf_mutations::Mutation;

/// What is asked of what the answer to a scenario hangs on.
#[derive(Clone, Copy, Debug, PartialEq, Eq)]
pub enum Question {
    /// The answer itself.
    Given,
    /// In how many runs the rule with a number is taken: in `times` of `runs`, those without a fault and with each single allowed fault.
    Taken { rule: u8, times: usize, runs: usize },
    /// The answer where one thing of one rule is changed.
    Rule(Mutation),
    /// In how many runs something is so of which a part of the promise speaks.
    Part(Stake),
    /// The answer where a key has another value.
    With(Change),
    /// The answer over every delay.
    EveryDelay,
    /// The same, where each link that has no delays of its own may take one step more.
    Spread,
}
