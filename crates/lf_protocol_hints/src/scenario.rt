//! What is wrong with the text of a scenario of a protocol file.

use crate::given::given_hint;
use crate::names::{meant, outcomes};
use crate::outcome::outcome_hint;
use lf_diagnostics::text_in;
use lf_hints::scenario_hint;
use lf_protocol_file::ProtocolFile;
use lf_scenario::{Key, ScenarioError};
use std::alloc::{AllocError, Global};
use toml::Table;

/// All keys of a scenario of a protocol file.
const KEYS: [&str; 15] = [
    "nodes",
    "horizon",
    "last_omission",
    "crashes",
    "budget",
    "pauses",
    "pause_length",
    "max_sets",
    "seed",
    "least",
    "spread",
    "protocol",
    "given",
    "outcome",
    "links",
];

/// What is wrong with a text that `lf_own_scenario`'s `read_with` refuses with this error. The error here, also below, is that memory has
/// run out.
pub fn own_hint(
    alloc: Global,
    text: &[u8],
    file: &ProtocolFile,
    error: ScenarioError,
) -> Result<String, AllocError> {
    match toml::table_from_slice(alloc, text) {
        Ok(table) => table_hint(alloc, text, &table, file, error),
        Err(_) => scenario_hint(alloc, text, error),
    }
}

/// What is wrong with the table of a text.
fn table_hint(
    alloc: Global,
    text: &[u8],
    table: &Table,
    file: &ProtocolFile,
    error: ScenarioError,
) -> Result<String, AllocError> {
    match error {
        ScenarioError::Protocol => protocol_hint(alloc, table, file),
        ScenarioError::Missing(Key::Protocol) => name_hint(alloc, "missing", file),
        ScenarioError::WrongKind(Key::Protocol) => name_hint(alloc, "no text", file),
        ScenarioError::UnknownKey => unknown_hint(alloc, table),
        ScenarioError::OtherProtocol(Key::Given)
        | ScenarioError::WrongKind(Key::Given)
        | ScenarioError::OutOfRange(Key::Given) => given_hint(alloc, text, table, file),
        ScenarioError::OtherProtocol(key) => {
            let (key, name) = (key.name(), file.name());
            format!(in alloc;
                "{key}: a key of built-in protocols; constants of `{name}` stand in `given`"
            )
        }
        ScenarioError::Outcome => outcome_hint(alloc, text, table, file),
        ScenarioError::Missing(Key::Outcome) | ScenarioError::WrongKind(Key::Outcome) => {
            let names = outcome_names(alloc, file)?;
            format!(in alloc; "outcome: a text: {names}")
        }
        ScenarioError::Formula => {
            format!(in alloc;
                "outcome: a list that is no formula over the facts of `{}`; a text is shorter, such as \"no clamped\"",
                file.name()
            )
        }
        _ => scenario_hint(alloc, text, error),
    }
}

/// What is wrong where a scenario names no protocol, and which it has to name.
fn name_hint(alloc: Global, what: &str, file: &ProtocolFile) -> Result<String, AllocError> {
    let name = file.name();
    format!(in alloc; "protocol: {what}; the protocol file is of `{name}`: protocol = \"{name}\"")
}

/// That the scenario names another protocol than the file.
fn protocol_hint(alloc: Global, table: &Table, file: &ProtocolFile) -> Result<String, AllocError> {
    let (named, name) = (text_in(table, "protocol"), file.name());
    format!(in alloc;
        "protocol = {named:?}: the protocol file is of `{name}`: protocol = \"{name}\""
    )
}

/// The first key that scenarios of protocol files don't have.
fn unknown_hint(alloc: Global, table: &Table) -> Result<String, AllocError> {
    for (key, _value) in table.iter() {
        let key = key.as_str();
        if !KEYS.contains(&key) {
            let instead = meant(alloc, key, &KEYS)?;
            return format!(in alloc; "{key:?}: no such key{instead}");
        }
    }
    Ok(String::new(alloc))
}

/// What the key `outcome` takes: the names of the file's outcomes, or a text.
fn outcome_names(alloc: Global, file: &ProtocolFile) -> Result<String, AllocError> {
    let mut text = String::new(alloc);
    for name in outcomes(alloc, file)?.as_slice() {
        write!(&mut text, "\"{name}\", ")?;
    }
    text.push_str("or one in the protocol's words, such as \"no clamped\"")?;
    Ok(text)
}
