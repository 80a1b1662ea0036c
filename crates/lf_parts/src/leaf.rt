//! Parts, with all that the promise says of them.

use lf_promises::Many;
use lf_rule_machine::Fact;
use lf_rules::{Expr, Topic};

/// A part of a promise, taken out of it.
#[derive(Debug, Drop)]
pub(crate) enum Leaf {
    /// So many of the nodes show a fact: of all, or of those in the set.
    Nodes {
        many: Many,
        fact: Fact,
        of: Option<Expr>,
    },
    /// The node is up and shows the fact.
    At {
        node: u32,
        fact: Fact,
    },
    /// What is entered under the topic is one value.
    One(Topic),
}
