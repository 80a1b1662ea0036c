//! Keys that protocol files or their rules don't have.

use crate::found::rule_at;
use crate::hint::{Hint, instead, is_one_of};
use crate::place::Place;
use std::alloc::{AllocError, Global};
use toml::{Table, Value};

/// All keys of a file.
const KEYS: [&str; 9] = [
    "name", "given", "state", "notes", "lets", "facts", "rules", "outcomes", "trace",
];

/// All keys of a rule.
const PARTS: [&str; 5] = ["who", "on", "when", "set", "send"];

/// A key that a file, or the rule at a place, doesn't have. The error is that memory has run out.
pub fn unknown_hint(alloc: Global, table: &Table, place: &Place<'_>) -> Result<Hint, AllocError> {
    let Some(number) = place.entry else {
        let all =
            "; the keys are name, given, state, notes, lets, facts, rules, outcomes and trace";
        let key = other_key(table, &KEYS);
        return instead(alloc, place.text, key, "no key of a protocol", &KEYS, all);
    };
    let key = match rule_at(table, number) {
        Some(Value::Table(rule)) => other_key(rule, &PARTS),
        _ => "",
    };
    let all = "; a rule has who, on, when, set and send";
    instead(alloc, place.text, key, "no key of a rule", &PARTS, all)
}

/// The first key of a table that is none of these, or the empty one.
fn other_key<'a>(table: &'a Table, names: &[&str]) -> &'a str {
    for (key, _value) in table.iter() {
        if !is_one_of(key.as_str(), names) {
            return key.as_str();
        }
    }
    ""
}
