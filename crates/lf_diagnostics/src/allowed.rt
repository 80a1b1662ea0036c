//! What may stand at a place.

use crate::found::found_at;
use crate::hint::{Hint, said};
use crate::place::Place;
use crate::spot::Spot;
use toml::{Table, Value};

/// What a name is.
pub const NAME: &str =
    "no name, which is a small letter and at most 23 small letters, digits and _, and doesn't begin with not_";

/// What a note's name is.
pub const NOTE_NAME: &str =
    "no note's name, which is a capital and at most 23 capitals, digits and _";

/// What may stand at a place.
pub fn wanted(place: &Place<'_>) -> &'static str {
    match Spot::of(place) {
        Spot::Name => "a name, such as \"two_phase\"",
        Spot::Section => section_wanted(place.section),
        Spot::Given => {
            "a number from 0 to 255, true or false, a set of nodes such as \"{1..}\", or a list of 1 to 8 of one of these"
        }
        Spot::State => {
            "\"flag\", \"nodes\", \"step\", a range such as \"0..3\", words such as \"idle | busy\", or another variable's name; behind [nodes] or [1..3] too"
        }
        Spot::Note => {
            "a name in capitals, with fields where it has any, such as \"PREPARE\" or \"VOTE(yes: flag, round: 0..9)\""
        }
        Spot::Let => "an expression, such as \"(me + 1) mod nodes\"",
        Spot::Fact => "a fact, such as \"phase = prepared and not refused\"",
        Spot::Outcome => {
            "an outcome, such as \"each done or each idle\", \"always at most one leads\" or \"down 0\"; neither always nor ever stands within one of the two"
        }
        Spot::Shown => "a variable that isn't named before",
        other => part_wanted(other),
    }
}

/// What may stand in a rule.
fn part_wanted(spot: Spot) -> &'static str {
    match spot {
        Spot::Who => "a set of nodes or a node, such as \"{1..}\" or \"0\"",
        Spot::On => {
            "start, wake, begin, end, or a note's name with a name or _ for each of its fields, such as \"VOTE(yes, _)\""
        }
        Spot::When => {
            "a guard, such as \"phase = idle and t > 2\"; else stands alone or before one"
        }
        Spot::Set => {
            "variables with values of their kinds, each once, such as \"phase = prepared, since = t\""
        }
        Spot::Send => {
            "notes with a value for each field, and to whom, such as \"VOTE(true, t) to sender, NO to all\""
        }
        _ => "a table with on, and with who, when, set and send where they are needed",
    }
}

/// What a section is.
fn section_wanted(section: &str) -> &'static str {
    match section {
        "given" => "a table of constants, such as { patience = 4 }",
        "state" => "a table of variables, such as { phase = \"idle | busy\", since = \"step\" }",
        "notes" => "a list of notes' names, such as [\"PREPARE\", \"VOTE(yes: flag)\"]",
        "lets" => "a table of named expressions, such as { next = \"(me + 1) mod nodes\" }",
        "facts" => "a table of facts, such as { free = \"phase != prepared\" }",
        "rules" => "a list of rules, such as [{ on = \"begin\", set = \"since = t\" }]",
        "outcomes" => "a table of outcomes, such as { agreement = \"each done or each idle\" }",
        _ => "a list of variables, such as [\"phase\"]",
    }
}

/// That nothing stands at a place, and what has to.
pub fn missing_hint(place: &Place<'_>) -> Hint {
    Hint::of(format_args!("{}: missing; {}", place.text, wanted(place)))
}

/// That what stands at a place is of the wrong kind.
pub fn kind_hint(table: &Table, place: &Place<'_>) -> Hint {
    match found_at(table, place) {
        Some(found) => Hint::of(format_args!(
            "{}: {}; there has to stand {}",
            place.text,
            kinds_of(found.value).as_str(),
            wanted(place)
        )),
        None => said(place.text, wanted(place)),
    }
}

/// What a value is, and of a list its first item of another kind than the first one.
fn kinds_of(value: &Value) -> Hint {
    let Value::Array(items) = value else {
        return Hint::of(kind_of(value));
    };
    let Some(first) = items.first() else {
        return Hint::of("a list");
    };
    for item in items.iter() {
        if kind_of(item) != kind_of(first) {
            return Hint::of(format_args!("a list with {} and {}", kind_of(first), kind_of(item)));
        }
    }
    Hint::of(format_args!("a list whose first item is {}", kind_of(first)))
}

/// What a value is.
fn kind_of(value: &Value) -> &'static str {
    match value {
        Value::String(_) => "a text",
        Value::Integer(_) => "a whole number",
        Value::Float(_) => "a number with a point or an exponent",
        Value::Boolean(_) => "a truth value",
        Value::Datetime(_) => "a date or a time",
        Value::Array(_) => "a list",
        Value::Table(_) => "a table",
    }
}
