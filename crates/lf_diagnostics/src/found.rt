//! What stands at a place in a protocol file.

use crate::place::Place;
use toml::{Table, Value};

/// The longest key that a place shows as it is, in bytes.
const LONGEST_KEY: usize = 24;

/// What stands at a place.
#[derive(Clone, Copy, Debug)]
pub struct Found<'a> {
    /// Its key, which is empty where it is an item.
    pub key: &'a str,
    pub value: &'a Value,
}

/// What stands at a place in a table. None where nothing does.
pub fn found_at<'a>(table: &'a Table, place: &Place<'_>) -> Option<Found<'a>> {
    let section = entry_at(table, place.section)?;
    let Some(entry) = place.entry else {
        return Some(section);
    };
    let found = within(section.value, entry)?;
    match place.part {
        Some(part) => within(found.value, part),
        None => Some(found),
    }
}

/// The entry with a name, or the item with a number.
fn within<'a>(value: &'a Value, step: &str) -> Option<Found<'a>> {
    match value {
        Value::Table(table) => entry_at(table, step),
        Value::Array(items) => {
            let value = item_at(items.as_slice(), step)?;
            Some(Found { key: "", value })
        }
        _ => None,
    }
}

/// The item with a number, from 1.
fn item_at<'a>(items: &'a [Value], number: &str) -> Option<&'a Value> {
    match number.parse::<usize>() {
        Ok(number) => items.get(number.checked_sub(1)?),
        Err(_) => None,
    }
}

/// The first entry by name that a place shows so.
fn entry_at<'a>(table: &'a Table, shown: &str) -> Option<Found<'a>> {
    for (key, value) in table.iter() {
        if key.as_str() == shown || (shown == "?" && !is_shown(key.as_str())) {
            return Some(Found {
                key: key.as_str(),
                value,
            });
        }
    }
    None
}

/// Whether a place shows a key as it is.
fn is_shown(key: &str) -> bool {
    !key.is_empty() && key.len() <= LONGEST_KEY && key.chars().all(is_plain)
}

/// Whether a character stands as it is in a place.
fn is_plain(c: char) -> bool {
    c.is_ascii_alphanumeric() || c == '_' || c == '-'
}

/// The table of a section. None where there is none, or the section is no table.
pub fn table_at<'a>(table: &'a Table, section: &str) -> Option<&'a Table> {
    match table.get(section) {
        Some(Value::Table(entries)) => Some(entries),
        _ => None,
    }
}

/// The items of a section. None where there is none, or the section is no list.
pub fn items_at<'a>(table: &'a Table, section: &str) -> &'a [Value] {
    match table.get(section) {
        Some(Value::Array(items)) => items.as_slice(),
        _ => &[],
    }
}

/// The text of a value, which is empty where it is none.
pub fn text_of(value: &Value) -> &str {
    match value {
        Value::String(text) => text.as_str(),
        _ => "",
    }
}

/// The text at a key of a table, which is empty where none stands there.
pub fn text_in<'a>(table: &'a Table, key: &str) -> &'a str {
    match table.get(key) {
        Some(value) => text_of(value),
        None => "",
    }
}

/// The text at a key of what may be a table, which is empty where none stands there.
pub fn text_at<'a>(value: &'a Value, key: &str) -> &'a str {
    match value {
        Value::Table(table) => text_in(table, key),
        _ => "",
    }
}

/// The rule with a number, from 1.
pub fn rule_at<'a>(table: &'a Table, number: &str) -> Option<&'a Value> {
    item_at(items_at(table, "rules"), number)
}
