//! What is wrong with the text of a scenario.

use crate::formula::formula_hint;
use crate::hint::{Hint, Words, said, told};
use crate::keys::unknown_hint;
use crate::links::links_hint;
use crate::place::said_at;
use crate::takes::{at, other_kind, protocols_with, text_at, value_hint};
use lf_scenario::{Key, LONGEST, ScenarioError};
use std::alloc::{AllocError, Global};
use toml::{Table, Value};

/// What is wrong with a text that `lf_scenario`'s `read` refuses with this error. The error here, also below, is that memory has run out.
pub fn scenario_hint(
    alloc: Global,
    text: &[u8],
    error: ScenarioError,
) -> Result<String, AllocError> {
    made_hint(alloc, text, text, error)
}

/// The same of a text that was made of another: lines are those of that one.
pub(crate) fn made_hint(
    alloc: Global,
    origin: &[u8],
    text: &[u8],
    error: ScenarioError,
) -> Result<String, AllocError> {
    match error {
        ScenarioError::TooLong => {
            format!(in alloc; "the scenario is longer than {LONGEST} bytes: its comments count")
        }
        ScenarioError::Memory => Err(AllocError),
        _ => match toml::table_from_slice(alloc, text) {
            Ok(table) => told(alloc, table_hint(alloc, origin, &table, error)?),
            Err(fault) => toml_hint(alloc, text, &fault),
        },
    }
}

/// Where a text is no TOML, and why.
pub fn toml_hint(
    alloc: Global,
    text: &[u8],
    fault: &toml::de::Error,
) -> Result<String, AllocError> {
    match fault.span() {
        Some(span) => told(alloc, Some(said_at(text, span.start, fault.message()))),
        None => Err(AllocError),
    }
}

/// What is wrong with the table of a text.
fn table_hint(
    alloc: Global,
    text: &[u8],
    table: &Table,
    error: ScenarioError,
) -> Result<Option<Hint>, AllocError> {
    match error {
        ScenarioError::UnknownKey => unknown_hint(alloc, text, table),
        ScenarioError::OtherProtocol(key) => Ok(Some(foreign_hint(table, key))),
        ScenarioError::Formula => Ok(formula_hint(table)),
        _ => match error.key() {
            Some(Key::Links) => links_hint(alloc, text, table),
            Some(Key::Votes) => Ok(votes_hint(table)),
            Some(key) => Ok(value_hint(table, key)),
            None => Ok(None),
        },
    }
}

/// A key that this protocol doesn't have.
fn foreign_hint(table: &Table, key: Key) -> Hint {
    let (protocol, owners) = (text_at(table, Key::Protocol), protocols_with(key));
    let words = Words::of(format_args!("{protocol} has no such key; {owners} have it"));
    said(key.name(), words.as_str())
}

/// What is wrong with the votes: an item that is no truth value, or how many they are.
fn votes_hint(table: &Table) -> Option<Hint> {
    let other = match at(table, Key::Votes.name()) {
        Some(Value::Array(items)) => {
            other_kind(Key::Votes, items.as_slice(), "boolean", "true or false")
        }
        _ => None,
    };
    other.or(value_hint(table, Key::Votes))
}
