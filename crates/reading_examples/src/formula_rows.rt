//! Outcomes that are lists, and those that have a name.

use crate::row_texts::are_told;
use crate::rows::{number, words};
use lf_list::Listed;
use lf_outcome::{Formula, Outcome, atoms, depth, named, same};
use lf_protocols::Fact;
use std::alloc::{AllocError, Global};

/// A formula of no parts: all of them, or any.
fn of_none(alloc: Global, is_all: bool) -> Formula<Fact> {
    let parts = Listed::from_vec(Vec::new(alloc));
    if is_all {
        Formula::All(parts)
    } else {
        Formula::Any(parts)
    }
}

/// That a node shows a fact after a step.
fn shows(node: u32, step: u32, fact: Fact) -> Formula<Fact> {
    Formula::Shows { node, step, fact }
}

/// That a node is down at a step.
fn down(node: u32, step: u32) -> Formula<Fact> {
    Formula::Down { node, step }
}

/// A formula of two parts: all of them, or any.
fn of_two(
    alloc: Global,
    is_all: bool,
    parts: [Formula<Fact>; 2],
) -> Result<Formula<Fact>, AllocError> {
    let parts = Listed::from_vec(Vec::from_array(alloc, parts)?);
    Ok(if is_all {
        Formula::All(parts)
    } else {
        Formula::Any(parts)
    })
}

/// The formula of a name, which the list of its row is to be.
fn by_hand(alloc: Global, name: &str) -> Result<Formula<Fact>, AllocError> {
    match name {
        "all of none" => Ok(of_none(alloc, true)),
        "any of none" => Ok(of_none(alloc, false)),
        "a fact" => Ok(shows(2, 2, Fact::Has)),
        "any of two" => of_two(alloc, false, [down(1, 2), shows(1, 2, Fact::Has)]),
        "a list in a list" => {
            let none = of_none(alloc, false);
            of_two(alloc, true, [none, shows(2, 1, Fact::Lacks)])
        }
        _ => of_two(alloc, true, [down(0, 1), down(2, 4)]),
    }
}

/// Whether this is the formula of a name, and how deep it is and how many atoms it has.
pub(crate) fn is_formula(alloc: Global, formula: &Formula<Fact>, name: &str, sizes: &str) -> bool {
    let (deep, many) = words(sizes);
    match by_hand(alloc, name) {
        Ok(by_hand) => {
            same(formula, &by_hand)
                && number(deep) == Some(depth(formula))
                && number(many) == Some(atoms(formula))
        }
        Err(_) => false,
    }
}

/// The outcome of a word.
fn outcome(word: &str) -> Option<Outcome> {
    match word {
        "delivered" => Some(Outcome::Delivered),
        "agreement" => Some(Outcome::Agreement),
        "unblocked" => Some(Outcome::Unblocked),
        "one_primary" => Some(Outcome::OnePrimary),
        "durable" => Some(Outcome::Durable),
        _ => None,
    }
}

/// Whether this is the formula of an outcome, among so many nodes by a step.
pub(crate) fn is_promised(alloc: Global, formula: &Formula<Fact>, text: &str) -> bool {
    let (word, rest) = words(text);
    let (nodes, horizon) = words(rest);
    match (outcome(word), number(nodes), number(horizon)) {
        (Some(outcome), Some(nodes), Some(horizon)) => {
            match named(alloc, outcome, nodes, horizon) {
                Ok(wanted) => same(formula, &wanted),
                Err(_) => false,
            }
        }
        _ => false,
    }
}

/// Lists that are formulas, with how deep these are and how many atoms they have.
const LISTS: &str = concat!(
    "outcome|outcome = [\"all\"]|formula all of none|1 0\n",
    "outcome|outcome = [\"any\"]|formula any of none|1 0\n",
    "outcome|outcome = [\"shows\", 2, 2, \"has\"]|formula a fact|1 1\n",
    "outcome|outcome = [\"any\", [\"down\", 1, 2], [\"shows\", 1, 2, \"has\"]]|formula any of two|2 2\n",
    "outcome|outcome = [\"all\", [\"any\"], [\"shows\", 0x2, +1, \"lacks\"]]|formula a list in a list|2 1\n",
    "outcome|outcome = [\"all\", [\"down\", 0, 1], [\"down\", 2, 4]]|formula all of two|2 2\n",
);

#[test]
fn lists_are_read_as_formulas(rt: HostRuntime) {
    are_told(&rt, rt.alloc(), LISTS);
}
