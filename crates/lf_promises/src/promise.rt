//! Promises.

use lf_list::Listed;
use lf_rule_machine::Fact;
use lf_rules::{Expr, Topic};

/// What a protocol promises, as it is written. It is kept at the last step of a run, or at other steps where it says so.
#[derive(Debug, Drop)]
pub enum Promise {
    /// Every part is kept.
    All(Promises),
    /// Some part is kept.
    Any(Promises),
    /// Every part is kept at each step. What is read has one part there.
    Always(Promises),
    /// Some part is kept at some step. What is read has one part there.
    Ever(Promises),
    /// So many of the nodes show a fact: of all nodes, or of those that are in the set which the expression gives at them.
    Nodes {
        many: Many,
        fact: Fact,
        of: Option<Expr>,
    },
    /// The node isn't up. What is read has a node of 0..=7.
    Down {
        node: u32,
    },
    /// The node is up and shows the fact. What is read has a node of 0..=7.
    At {
        node: u32,
        fact: Fact,
    },
    /// What the nodes enter under a topic by their states after all steps at which they are up is one value for each key. What is read has it outside of
    /// `Always` and `Ever`.
    One(Topic),
}

/// The parts of a promise.
pub type Promises = Listed<Promise>;

/// How many nodes are to show a fact.
#[derive(Clone, Copy, Debug, PartialEq, Eq)]
pub enum Many {
    /// Each that is up.
    Each,
    /// None that is up.
    No,
    /// At least one that is up.
    Some,
    /// At most one that is up.
    AtMostOne,
}
