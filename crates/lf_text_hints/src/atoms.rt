//! Names in expressions.

use lf_diagnostics::{Class, Near, Reader, Stop, Words, behind, first_named, instead_of};
use lf_rules::Sort;

/// Values that have a name in the language.
pub(crate) const VALUES: [&str; 10] = [
    "t", "me", "sender", "nodes", "all", "true", "false", "clamped", "replaced", "it",
];

/// Words of the language that are no values.
const JOINTS: [&str; 8] = ["and", "or", "not", "in", "mod", "to", "else", "where"];

/// Why a word is no value.
pub(crate) fn no_name(reader: &Reader<'_>, at: usize) -> Stop {
    let word = reader.piece(at);
    if let Some(words) = unknown_here(reader, word) {
        return Stop::at(at, Words::of(words));
    }
    match first_named(reader.names, word) {
        Some(known) => {
            let words = Words::of(format_args!(
                "{}, and {}",
                known.words().as_str(),
                where_named(known.class)
            ));
            Stop::at(at, words)
        }
        None if JOINTS.contains(&word) => reader.no_value(at),
        None => unknown(reader, at),
    }
}

/// That a word is no name.
fn unknown(reader: &Reader<'_>, at: usize) -> Stop {
    if let Some(words) = instead_of(reader.piece(at)) {
        return Stop::at(at, Words::of(words));
    }
    let stop = Stop::at(at, Words::of("no such name here"));
    if reader.piece(behind(at)) == "(" {
        stop.near(Near::Calls)
    } else {
        stop.near(Near::Values)
    }
}

/// Whether a word of the language is a value.
pub(crate) fn is_fixed(word: &str) -> bool {
    VALUES.contains(&word)
}

/// Why a word of the language that is a value can't stand here. None where it can.
pub(crate) fn unknown_here(reader: &Reader<'_>, word: &str) -> Option<&'static str> {
    let spot = reader.spot;
    match word {
        "sender" if first_named(reader.names, "sender").is_none() => {
            Some("who sent the note, which is known in rules on a note alone")
        }
        "sender" | "t" if !spot.is_in_rule() => {
            Some("the number of the step, which is known in `when`, `set` and `send` alone")
        }
        "me" | "clamped" | "replaced" if !spot.knows_state() => {
            Some("known where a node's state is, which is not here")
        }
        _ => None,
    }
}

/// Where what has a name of such a class may be named.
fn where_named(class: Class) -> &'static str {
    match class {
        Class::Constant => "a text of `given` names no constants",
        Class::Variable | Class::Flag | Class::Table | Class::Word => {
            "no node's state is known here: only constants and numbers of nodes are"
        }
        Class::Let => "lets are named in rules and facts alone",
        Class::Fact => "facts are named in rules and outcomes alone, and not in each other",
        Class::Note => "notes are named in `on` and `send` alone",
        Class::Field => "fields are named in `when`, `set` and `send` alone",
    }
}

/// Why a name can't have brackets behind it.
pub(crate) fn no_items(reader: &Reader<'_>, at: usize) -> Stop {
    let name = reader.piece(at);
    let what = match first_named(reader.names, name) {
        Some(known) => known.words(),
        None => Words::of("a single value"),
    };
    let more = if reader.sort_of(name) == Some(Sort::Nodes) {
        Words::of(format_args!("; whether a set has a node is written `me in {name}`"))
    } else {
        Words::of("")
    };
    Stop::at(
        at,
        Words::of(format_args!(
            "{}, and brackets stand behind tables and constants alone: `log[1]`{}",
            what.as_str(),
            more.as_str()
        )),
    )
}

/// Why a table can't stand without brackets.
pub(crate) fn no_cell(reader: &Reader<'_>, at: usize) -> Stop {
    if !reader.spot.knows_state() {
        return no_name(reader, at);
    }
    let name = reader.piece(at);
    Stop::at(
        at,
        Words::of(format_args!(
            "a table, and what is asked is one of its cells: `{name}[{}]`",
            reader.place_in(name)
        )),
    )
}

/// Why no item of a name is known at a place, which stands in brackets behind it.
pub(crate) fn no_item(reader: &Reader<'_>, at: usize) -> Stop {
    match first_named(reader.names, reader.piece(at)) {
        Some(known) if known.class == Class::Constant => Stop::at(
            at,
            Words::of("a constant has no brackets here: it is this node's"),
        ),
        _ => no_name(reader, at),
    }
}

/// Why `it` is no value.
pub(crate) fn no_it(at: usize) -> Stop {
    let words =
        "no node here: it is the node of a body, as in `{all where x[it] > 0}`, the receiver in the fields of `send`, and the node whose cell is set";
    Stop::at(at, Words::of(words))
}

/// Why no body can stand behind a piece.
pub(crate) fn no_body(reader: &Reader<'_>, at: usize) -> Stop {
    let words = if reader.spot.knows_state() {
        "no body stands within another one: what is within has to be a let, a fact or a variable"
    } else {
        "no node's state is known here, so nothing is worked out for each node"
    };
    Stop::at(at, Words::of(words))
}
