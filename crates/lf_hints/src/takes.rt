//! What the keys of a scenario take.

use crate::hint::{Hint, LONGEST_STEP, Quote, Way, Words, in_quotes, item_of, refusal};
use crate::protocols::outcome_words;
use lf_outcome::MOST_SETS;
use lf_scenario::Key;
use toml::{Table, Value};

/// All keys of a scenario, in the order in which they are read.
pub(crate) const KEYS: [Key; 17] = [
    Key::Nodes,
    Key::Horizon,
    Key::LastOmission,
    Key::Crashes,
    Key::Budget,
    Key::Pauses,
    Key::PauseLength,
    Key::MaxSets,
    Key::Seed,
    Key::Least,
    Key::Spread,
    Key::Protocol,
    Key::Tries,
    Key::Patience,
    Key::Votes,
    Key::Outcome,
    Key::Links,
];

/// All keys of a link.
pub(crate) const LINK_KEYS: [&str; 4] = ["from", "to", "least", "spread"];

/// What to do with a key that stands in a table of links and belongs to the scenario.
pub(crate) const MOVE: &str = "move it above the first [[links]]";

/// The fewest steps that a note takes, and the most that they may be set to.
pub(crate) const LEAST: (i64, i64) = (1, 16);

/// How many steps more it may take, at least and at most.
pub(crate) const SPREAD: (i64, i64) = (0, 15);

/// That this value stands at a way, and what may.
pub(crate) fn refused(way: Way, value: &Value, wanted: &str) -> Option<Hint> {
    let found = match value {
        Value::String(text) => in_quotes(text.as_str()),
        other => Quote::of(other),
    };
    Some(refusal(way, found, wanted))
}

/// That nothing stands at a way, and what has to.
pub(crate) fn missing(way: Way, wanted: &str) -> Option<Hint> {
    Some(Hint::of(format_args!("{}: missing; {wanted}", way.as_str())))
}

/// The value at a key.
pub(crate) fn at<'a>(table: &'a Table, name: &str) -> Option<&'a Value> {
    table.get(name)
}

/// The whole number at a key.
pub(crate) fn whole_at(table: &Table, name: &str) -> Option<i64> {
    match at(table, name) {
        Some(Value::Integer(number)) => Some(*number),
        _ => None,
    }
}

/// The whole number at a key, and 0 where none stands there.
pub(crate) fn number_at(table: &Table, key: Key) -> i64 {
    whole_at(table, key.name()).unwrap_or(0)
}

/// The text at a key, and the empty one where none stands there.
pub(crate) fn text_at<'a>(table: &'a Table, key: Key) -> &'a str {
    match at(table, key.name()) {
        Some(Value::String(text)) => text.as_str(),
        _ => "",
    }
}

/// The names of the keys of a scenario.
pub(crate) fn key_names() -> [&'static str; 17] {
    KEYS.map(|key: Key| key.name())
}

/// The first key of a table that isn't one of these names.
pub(crate) fn other_key<'a>(table: &'a Table, names: &[&str]) -> Option<&'a str> {
    for (name, _value) in table.iter() {
        if !is_one_of(name.as_str(), names) {
            return Some(name.as_str());
        }
    }
    None
}

/// Whether a name is one of these.
pub(crate) fn is_one_of(name: &str, names: &[&str]) -> bool {
    for other in names {
        if *other == name {
            return true;
        }
    }
    false
}

/// That a value is no whole number of a range, where it is none.
pub(crate) fn unfit(way: Way, value: &Value, range: (i64, i64), wanted: &str) -> Option<Hint> {
    match value {
        Value::Integer(number) if range.0 <= *number && *number <= range.1 => None,
        _ => refused(way, value, wanted),
    }
}

/// The numbers of a range, in words.
pub(crate) fn numbers(what: &str, range: (i64, i64)) -> Words {
    let (low, high) = range;
    Words::of(format_args!("{what} from {low} to {high}"))
}

/// What stands at a key, and what may.
pub(crate) fn value_hint(table: &Table, key: Key) -> Option<Hint> {
    let words = takes(table, key);
    let way = Way::of(key.name());
    match at(table, key.name()) {
        Some(value) => refused(way, value, words.as_str()),
        None => misplaced(table, key).or(missing(way, words.as_str())),
    }
}

/// That a missing key stands in a table of links, where it does.
fn misplaced(table: &Table, key: Key) -> Option<Hint> {
    let Some(Value::Array(links)) = at(table, Key::Links.name()) else {
        return None;
    };
    for (i, link) in links.iter().enumerate() {
        if let Value::Table(link) = link {
            if at(link, key.name()).is_some() {
                let is_last = i.saturating_add(1) == links.len();
                return Some(misplaced_in(key, i, is_last));
            }
        }
    }
    None
}

/// That a missing key stands in the table of links at a place, and where it belongs.
fn misplaced_in(key: Key, place: usize, is_last: bool) -> Hint {
    let name = key.name();
    if is_last {
        Hint::of(format_args!("{name}: missing; it stands in the last [[links]] table: {MOVE}"))
    } else {
        Hint::of(format_args!("{name}: missing; it stands in links[{place}]: {MOVE}"))
    }
}

/// The first item of the list at a key that is of another kind.
pub(crate) fn other_kind(key: Key, items: &[Value], kind: &str, wanted: &str) -> Option<Hint> {
    for (i, item) in items.iter().enumerate() {
        if item.type_str() != kind {
            return refused(item_of(Way::of(key.name()), i), item, wanted);
        }
    }
    None
}

/// The least and the greatest number that a key takes, where it takes a number, and what they rest on, in words.
fn range_of(table: &Table, key: Key) -> Option<(i64, i64, &'static str)> {
    match key {
        Key::Nodes => Some((2, 8, "")),
        Key::Horizon | Key::Tries | Key::Patience => Some((1, 48, "")),
        Key::LastOmission => {
            let last = number_at(table, Key::Horizon).saturating_sub(1);
            Some((0, last, ", below the horizon"))
        }
        Key::Crashes | Key::Pauses => {
            let nodes = number_at(table, Key::Nodes);
            Some((0, nodes, ", the number of nodes"))
        }
        Key::Budget => Some((0, 6, "")),
        Key::PauseLength => Some((1, 8, "")),
        Key::MaxSets => Some((1, i64::from(MOST_SETS), "")),
        Key::Least => Some((LEAST.0, LEAST.1, "")),
        Key::Spread => Some((SPREAD.0, SPREAD.1, "")),
        Key::Seed | Key::Protocol | Key::Votes | Key::Given | Key::Outcome | Key::Links => None,
    }
}

/// What a key takes, in words.
fn takes(table: &Table, key: Key) -> Words {
    if let Some((low, high, since)) = range_of(table, key) {
        return numbers("a whole number", (low, high)).and_str(since, LONGEST_STEP);
    }
    match key {
        Key::Seed => seed_words(table),
        Key::Votes => {
            let count = number_at(table, Key::Nodes).saturating_sub(1);
            Words::of(format_args!("a list of {count} truth values, for the nodes 1 to {count}"))
        }
        Key::Outcome => {
            outcome_words(text_at(table, Key::Protocol)).and_str(
                ", or a formula as a list",
                LONGEST_STEP,
            )
        }
        _ => Words::of(words_of(key)),
    }
}

/// What a key takes that takes the same in each scenario.
fn words_of(key: Key) -> &'static str {
    match key {
        Key::Protocol => {
            "\"retry\", \"redundant\", \"two_phase\", \"three_phase\", or with at least three nodes \"primary_backup\""
        }
        Key::Given => {
            "a table of the protocol's constants, each a number from 0 to 255, a truth value, a set of nodes as a text, or a list of one of these for each node"
        }
        _ => "a list of tables, each with from and to",
    }
}

/// What the seed takes, and how many characters stand there.
fn seed_words(table: &Table) -> Words {
    match at(table, Key::Seed.name()) {
        Some(Value::String(seed)) => {
            let count = seed.as_str().chars().count();
            Words::of(format_args!(
                "a text of 64 hexadecimal digits, and these are {count} characters"
            ))
        }
        _ => Words::of("a text of 64 hexadecimal digits"),
    }
}

/// The protocols that have a key, of those keys that not all of them have.
pub(crate) fn protocols_with(key: Key) -> &'static str {
    match key {
        Key::Tries => "retry and redundant",
        Key::Patience => "two_phase, three_phase and primary_backup",
        _ => "two_phase and three_phase",
    }
}
