//! Facts by their names.

use crate::build::{agrees, columns, definition, number, words};
use lf_naming::{fact_named, push_fact};
use lf_rule_machine::{Fact, Told};
use lf_rules::Definition;
use std::alloc::{AllocError, Global};
use std::process::Abort;

/// For each line a name, and the fact that has it. The guards are `stuck` and `late`, which hide no word and no flag.
const FACTS: &str = concat!(
    "stuck|is guard 0\n",
    "not_stuck|not guard 0\n",
    "late|is guard 1\n",
    "not_late|not guard 1\n",
    "idle|is word 0 0\n",
    "ready|is word 0 1\n",
    "done|is word 0 2\n",
    "not_idle|not word 0 0\n",
    "not_done|not word 0 2\n",
    "open|is flag 1\n",
    "not_open|not flag 1\n",
    "clamped|is clamped\n",
    "not_clamped|not clamped\n",
    "replaced|is replaced\n",
    "not_replaced|not replaced\n",
);

/// Of facts that have one name the first is meant: here that of a guard.
const HIDDEN: &str = concat!(
    "open|is guard 0\n",
    "not_open|not guard 0\n",
    "not_ready|is guard 1\n",
    "not_not_ready|not guard 1\n",
    "ready|is word 0 1\n",
    "clamped|is guard 2\n",
    "not_clamped|not guard 2\n",
    "replaced|is replaced\n",
);

/// Names that no fact has.
const NAMES_OF_NONE: &str =
    "|phase|since|seen|not_vote|Open|opened|ope|not_|not_not_open|not open|not_since|next|log|up|not_up";

/// What a fact is about.
fn told(text: &str) -> Option<Told> {
    let (sort, numbers) = words(text);
    let (first, second) = words(numbers);
    match sort {
        "guard" => Some(Told::Named(number(first))),
        "word" => Some(Told::Word {
            variable: number(first),
            word: number(second),
        }),
        "flag" => Some(Told::Flag(number(first))),
        "clamped" => Some(Told::Clamped),
        "replaced" => Some(Told::Replaced),
        _ => None,
    }
}

/// The fact of a column.
fn fact(text: &str) -> Option<Fact> {
    let (denial, rest) = words(text);
    let told = told(rest)?;
    let denied = denial == "not";
    Some(Fact { told, denied })
}

/// The name of a fact, after what stood there before.
fn name(alloc: Global, definition: &Definition, fact: Fact) -> Result<String, AllocError> {
    let mut text = String::from_str(alloc, "each ")?;
    push_fact(definition, fact, &mut text)?;
    Ok(text)
}

/// Whether the row's name is that of its fact, which is found by it.
fn is_found(alloc: Global, definition: &Definition, row: &str) -> bool {
    let (named, wanted) = columns(row);
    let Some(fact) = fact(wanted) else {
        return false;
    };
    match name(alloc, definition, fact) {
        Ok(text) => {
            text.as_str().strip_prefix("each ") == Some(named)
                && fact_named(definition, named) == Some(fact)
        }
        Err(_) => false,
    }
}

/// Whether a row's fact is found in the protocol with these guards.
fn is_found_among(alloc: Global, guards: &str, row: &str) -> bool {
    match definition(alloc, guards, "0") {
        Ok(definition) => is_found(alloc, &definition, row),
        Err(_) => false,
    }
}

/// Whether no fact of the protocol has the name.
fn is_no_name(alloc: Global, name: &str) -> bool {
    match definition(alloc, "stuck late", "0") {
        Ok(definition) => fact_named(&definition, name).is_none(),
        Err(_) => false,
    }
}

/// The facts of a table are found in the protocol with these guards.
fn are_found(rt: &impl Abort, alloc: Global, guards: &str, table: &str) {
    for row in table.lines() {
        agrees(rt, is_found_among(alloc, guards, row), row);
    }
}

#[test]
fn facts_are_found(rt: HostRuntime) {
    are_found(&rt, rt.alloc(), "stuck late", FACTS);
    are_found(&rt, rt.alloc(), "open not_ready clamped", HIDDEN);
}

#[test]
fn other_names_find_none(rt: HostRuntime) {
    for name in NAMES_OF_NONE.split('|') {
        agrees(&rt, is_no_name(rt.alloc(), name), name);
    }
}
