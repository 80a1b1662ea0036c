//! The formulas of the named outcomes.

use crate::formulas::formula;
use crate::texts::{agrees, columns, number, outcome, words};
use lf_outcome::{
    Formula, agreement_by_nodes, atoms, delivered_by_nodes, depth, durable_by_nodes, named,
    one_primary_by_nodes, same, unblocked_by_nodes,
};
use lf_protocols::{Fact, Note, State};
use std::alloc::Global;

/// Whether the formula of an outcome, a number of nodes and a last step is this one, how deep it is, and how many atoms it has.
fn compared(alloc: Global, text: &str, by_hand: &Formula<Fact>) -> Option<(bool, u32, u32)> {
    let (word, rest) = words(text);
    let (nodes, horizon) = words(rest);
    let outcome = outcome(word)?;
    let (nodes, horizon) = (number(nodes)?, number(horizon)?);
    match named(alloc, outcome, nodes, horizon) {
        Ok(found) => Some((same(&found, by_hand), depth(&found), atoms(&found))),
        Err(_) => None,
    }
}

/// Whether each of these outcomes has another formula than this one.
fn are_others(alloc: Global, others: &str, by_hand: &Formula<Fact>) -> bool {
    for other in others.split(',') {
        match compared(alloc, other, by_hand) {
            Some((false, _, _)) => {}
            _ => return false,
        }
    }
    true
}

/// Whether the outcome of a row has the formula that it says, which is so deep and has so many atoms, and the others have another.
fn is_formula(alloc: Global, row: &str) -> bool {
    let (head, rest) = columns(row);
    let (deep, rest) = columns(rest);
    let (many, rest) = columns(rest);
    let (others, text) = columns(rest);
    let (Some(deep), Some(many)) = (number(deep), number(many)) else {
        return false;
    };
    match formula(alloc, text) {
        Some(by_hand) => {
            are_others(alloc, others, &by_hand)
                && compared(alloc, head, &by_hand) == Some((true, deep, many))
        }
        None => false,
    }
}

/// Outcomes, of which three speak of all nodes and two of the nodes 0 to 2: each with how deep its formula is, how many atoms it
/// has, outcomes that have another formula, and the formula.
const FORMULAS: &str = concat!(
    "delivered 2 3|4|8|agreement 2 3,delivered 1 3,delivered 3 3,delivered 2 2|",
    "down 0 3,shows 0 3 has,any 2,down 1 3,shows 1 3 has,any 2,all 2,",
    "down 0 3,shows 0 3 lacks,any 2,down 1 3,shows 1 3 lacks,any 2,all 2,any 2\n",
    "agreement 2 3|4|8|delivered 2 3,agreement 1 3,agreement 3 3,agreement 2 2|",
    "down 0 3,shows 0 3 not_committed,any 2,down 1 3,shows 1 3 not_committed,any 2,all 2,",
    "down 0 3,shows 0 3 not_aborted,any 2,down 1 3,shows 1 3 not_aborted,any 2,all 2,any 2\n",
    "unblocked 2 3|3|4|unblocked 1 3,unblocked 3 3,unblocked 2 2|",
    "down 0 3,shows 0 3 free,any 2,down 1 3,shows 1 3 free,any 2,all 2\n",
    "one_primary 5 3|2|3|one_primary 5 2|down 0 3,down 1 3,shows 1 3 backup,any 3\n",
    "durable 5 3|2|4|durable 5 2|down 2 3,shows 2 3 not_done,shows 0 3 holds,shows 1 3 holds,any 4\n",
);

#[test]
fn outcomes_are_formulas(rt: HostRuntime) {
    delivered_by_nodes::<State, Note>();
    agreement_by_nodes::<State, Note>();
    unblocked_by_nodes::<State, Note>();
    one_primary_by_nodes::<State, Note>();
    durable_by_nodes::<State, Note>();
    for row in FORMULAS.lines() {
        agrees(&rt, is_formula(rt.alloc(), row), row);
    }
}
