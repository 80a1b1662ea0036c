//! What a protocol file has, in numbers and names.

use lf_protocol_file::Outcome;
use lf_rules::Definition;
use std::alloc::{AllocError, Global};

/// The lines that tell what a file has. The error, also below, is that memory has run out.
pub(crate) fn summary(
    alloc: Global,
    name: &str,
    definition: &Definition,
    outcomes: &[Outcome],
) -> Result<String, AllocError> {
    let mut text = format!(in alloc; "protocol {name}")?;
    put_count(&mut text, "constants", definition.given.len())?;
    for (i, constant) in definition.given.as_slice().iter().enumerate() {
        put_name(&mut text, i, constant.name.as_str())?;
    }
    put_count(&mut text, "variables", definition.variables.len())?;
    for (i, variable) in definition.variables.as_slice().iter().enumerate() {
        put_name(&mut text, i, variable.name.as_str())?;
    }
    put_count(&mut text, "notes", definition.notes.len())?;
    for (i, form) in definition.notes.as_slice().iter().enumerate() {
        put_name(&mut text, i, form.name.as_str())?;
    }
    put_count(&mut text, "lets", definition.lets.len())?;
    for (i, named) in definition.lets.as_slice().iter().enumerate() {
        put_name(&mut text, i, named.name.as_str())?;
    }
    put_count(&mut text, "facts", definition.facts.len())?;
    for (i, guard) in definition.facts.as_slice().iter().enumerate() {
        put_name(&mut text, i, guard.name.as_str())?;
    }
    put_count(&mut text, "rules", rules_in(definition))?;
    put_count(&mut text, "outcomes", outcomes.len())?;
    for (i, outcome) in outcomes.iter().enumerate() {
        put_name(&mut text, i, outcome.name.as_str())?;
    }
    Ok(text)
}

/// How many rules a protocol has.
fn rules_in(definition: &Definition) -> usize {
    let mut count: usize = 0;
    for chain in definition.chains.as_slice() {
        count = count.saturating_add(chain.rules.len());
    }
    count
}

/// Begins a line that tells how many things of a kind there are.
fn put_count(text: &mut String, what: &str, count: usize) -> Result<(), AllocError> {
    write!(text, "\n{what} {count}")
}

/// Puts the name with a number, from 0, behind a count or another name.
fn put_name(text: &mut String, number: usize, name: &str) -> Result<(), AllocError> {
    let comma = if number == 0 { ":" } else { "," };
    write!(text, "{comma} {name}")
}
