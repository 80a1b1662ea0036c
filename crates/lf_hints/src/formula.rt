//! What is wrong with the formula of a scenario.

use crate::hint::{Hint, Way, Words, item_of};
use crate::protocols::{fact_words, protocol_named};
use crate::takes::{at, number_at, numbers, refused, text_at, unfit};
use lf_outcome::DEEPEST;
use lf_protocols::Protocol;
use lf_scenario::{Key, MOST_LISTED};
use toml::{Table, Value};

/// What a formula may speak of.
#[derive(Drop)]
struct Subject {
    nodes: (i64, i64),
    steps: (i64, i64),
    protocol: Protocol,
}

/// What a list of a formula begins with.
const WORDS: &str = "\"all\", \"any\", \"down\" or \"shows\"";

/// What a formula is.
const FORMULA: &str = "a list that begins with \"all\", \"any\", \"down\" or \"shows\"";

/// What is wrong with the formula of a table: its first part that is none, or that it has too many atoms.
pub(crate) fn formula_hint(table: &Table) -> Option<Hint> {
    let subject = Subject {
        nodes: (0, number_at(table, Key::Nodes).saturating_sub(1)),
        steps: (1, number_at(table, Key::Horizon)),
        protocol: protocol_named(text_at(table, Key::Protocol))?,
    };
    let formula = at(table, Key::Outcome.name())?;
    wrong_in(formula, Way::of("outcome"), DEEPEST, &subject).or(Some(Hint::of(format_args!(
        "outcome has more than {MOST_LISTED} atoms, which are the lists with \"down\" and \"shows\""
    ))))
}

/// What is wrong first in a formula that may be so deep.
fn wrong_in(value: &Value, way: Way, room: u32, subject: &Subject) -> Option<Hint> {
    if room == 0 {
        return too_deep(value, way);
    }
    let found = wrong_above_parts(value, way, subject);
    if found.is_some() {
        return found;
    }
    for (i, part) in parts_of(value).iter().enumerate() {
        let found = wrong_in(part, item_of(way, i.saturating_add(1)), room - 1, subject);
        if found.is_some() {
            return found;
        }
    }
    None
}

/// That a part lies too deep.
fn too_deep(value: &Value, way: Way) -> Option<Hint> {
    let wanted = Words::of(format_args!("a formula is at most {DEEPEST} deep"));
    refused(way, value, wanted.as_str())
}

/// The first item of a list and those behind it.
fn list_of(value: &Value) -> Option<(&Value, &[Value])> {
    match value {
        Value::Array(items) => items.as_slice().split_first(),
        _ => None,
    }
}

/// The formulas that a formula joins.
fn parts_of(value: &Value) -> &[Value] {
    match list_of(value) {
        Some((first, parts)) if matches!(first.as_str(), Some("all" | "any")) => parts,
        _ => &[],
    }
}

/// What is wrong first in a formula, but for what it joins.
fn wrong_above_parts(value: &Value, way: Way, subject: &Subject) -> Option<Hint> {
    match list_of(value) {
        Some((first, parts)) => match first.as_str().unwrap_or("") {
            "all" | "any" => None,
            "down" => wrong_in_down(value, way, parts, subject),
            "shows" => wrong_in_shows(value, way, parts, subject),
            _ => refused(item_of(way, 0), first, WORDS),
        },
        None => refused(way, value, FORMULA),
    }
}

/// What is wrong first in an atom of these parts that says that a node is down.
fn wrong_in_down(value: &Value, way: Way, parts: &[Value], subject: &Subject) -> Option<Hint> {
    match parts {
        [node, step] => wrong_in_point(node, step, way, subject),
        _ => refused(way, value, "[\"down\", node, step]"),
    }
}

/// What is wrong first in an atom of these parts that says what a node shows.
fn wrong_in_shows(value: &Value, way: Way, parts: &[Value], subject: &Subject) -> Option<Hint> {
    match parts {
        [node, step, fact] => {
            wrong_in_point(node, step, way, subject).or(wrong_fact(fact, way, &subject.protocol))
        }
        _ => refused(way, value, "[\"shows\", node, step, \"fact\"]"),
    }
}

/// What is wrong first with the node and the step of an atom.
fn wrong_in_point(node: &Value, step: &Value, way: Way, subject: &Subject) -> Option<Hint> {
    let (nodes, steps) = (subject.nodes, subject.steps);
    let node_words = numbers("a node, which is a whole number", nodes);
    let step_words = numbers("a step, which is a whole number", steps);
    unfit(item_of(way, 1), node, nodes, node_words.as_str()).or(unfit(
        item_of(way, 2),
        step,
        steps,
        step_words.as_str(),
    ))
}

/// What is wrong with the fact of an atom, which has to be one of the protocol.
fn wrong_fact(value: &Value, way: Way, protocol: &Protocol) -> Option<Hint> {
    match protocol.fact(value.as_str().unwrap_or("")) {
        Some(_) => None,
        None => refused(item_of(way, 3), value, fact_words(protocol).as_str()),
    }
}
