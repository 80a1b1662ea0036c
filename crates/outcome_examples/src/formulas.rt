//! The formulas that the texts of examples stand for.

use crate::texts::{number, words};
use lf_list::Listed;
use lf_outcome::{Formula, Formulas};
use lf_protocols::Fact;
use std::alloc::Global;

/// The fact of a word.
fn fact(word: &str) -> Option<Fact> {
    match word {
        "has" => Some(Fact::Has),
        "lacks" => Some(Fact::Lacks),
        "not_committed" => Some(Fact::NotCommitted),
        "not_aborted" => Some(Fact::NotAborted),
        "free" => Some(Fact::Free),
        "backup" => Some(Fact::Backup),
        "not_done" => Some(Fact::NotDone),
        "holds" => Some(Fact::Holds),
        _ => None,
    }
}

/// The formula of these words: `down` with a node and a step, `shows` with these and a fact, or `all` or `any` with how many of
/// the last formulas are its parts, which are taken out.
fn item(
    alloc: Global,
    formulas: &mut Vec<Formula<Fact>>,
    name: &str,
    first: u32,
    rest: &str,
) -> Option<Formula<Fact>> {
    let (step, word) = words(rest);
    match name {
        "all" => Some(Formula::All(last(alloc, formulas, first)?)),
        "any" => Some(Formula::Any(last(alloc, formulas, first)?)),
        "down" => Some(Formula::Down {
            node: first,
            step: number(step)?,
        }),
        "shows" => Some(Formula::Shows {
            node: first,
            step: number(step)?,
            fact: fact(word)?,
        }),
        _ => None,
    }
}

/// The last so many formulas, which are taken out. Fewer where there are no more.
fn last(alloc: Global, formulas: &mut Vec<Formula<Fact>>, count: u32) -> Option<Formulas<Fact>> {
    let mut parts = Vec::new(alloc);
    for _ in 0..count {
        if let Some(part) = formulas.pop()
            && parts.push(part).is_err()
        {
            return None;
        }
    }
    parts.reverse();
    Some(Listed::from_vec(parts))
}

/// Puts the formula of an item behind the others, or tells that it is none.
fn is_put(alloc: Global, formulas: &mut Vec<Formula<Fact>>, text: &str) -> bool {
    let (name, rest) = words(text);
    let (first, rest) = words(rest);
    let Some(first) = number(first) else {
        return false;
    };
    match item(alloc, formulas, name, first, rest) {
        Some(found) => formulas.push(found).is_ok(),
        None => false,
    }
}

/// The formula of a list, in which the parts of each `all` and `any` stand before it.
pub(crate) fn formula(alloc: Global, text: &str) -> Option<Formula<Fact>> {
    let mut formulas = Vec::new(alloc);
    for item in text.split(',') {
        if !is_put(alloc, &mut formulas, item) {
            return None;
        }
    }
    if formulas.len() == 1 {
        formulas.pop()
    } else {
        None
    }
}
