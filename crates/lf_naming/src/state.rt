//! The text of a state.

ghost use Rattle.std.specs.Prelude.{◌≡◌, ◌++◌, IfOk, Some, string_bytes};
ghost use Rattle.lf_naming.specs.Texts.{shown_of, cell_value, cells_text, table_text, found_text, shown_text, state_text, variable_text};

use crate::names::{name_at, push_name, variable_at};
use crate::value::{push_separator, push_value};
use lf_rule_machine::{State, item};
use lf_rules::{Cells, Definition, Kind, Variable};
use std::alloc::AllocError;

/// Appends the text of a state in a trace, among so many nodes: the variables that a trace shows, in order, with single blanks between.
///
/// A variable with words of its own is told by its word, a flag by its name or by `not_` and its name, and any other by `NAME=VALUE`. A table is told by
/// `NAME=[VALUE,VALUE]`: by the values of its cells, in order, and where it has a cell for each node, by those of the nodes that there are. The error is that
/// memory has run out, and then the text may have a part of it.
pub fn push_state(
    definition: &Definition,
    nodes: u32,
    state: &State,
    text: &mut String,
) -> Result<(), AllocError>
    ensures { IfOk result (λ _. string_bytes text.new ≡ string_bytes text.old ++ state_text definition.now nodes state.now) }
{
    'shown: for (place, variable) in definition.trace.as_slice().iter().enumerate() {
        push_separator(place, ' ', text)?;
        push_shown(definition, nodes, *variable, state, text)?;
    }
    Ok(())
}

/// Appends the text of a variable in a state.
fn push_shown(
    definition: &Definition,
    nodes: u32,
    variable: u8,
    state: &State,
    text: &mut String,
) -> Result<(), AllocError>
    ensures { IfOk result (λ _. string_bytes text.new ≡ string_bytes text.old ++ shown_text definition.now nodes state.now variable) }
{
    match variable_at(definition, variable) {
        Some(found) => push_found(definition, nodes, variable, found, state, text),
        None => Ok(()),
    }
}

/// Appends the text of this variable, whose number is known, in a state.
fn push_found(
    definition: &Definition,
    nodes: u32,
    variable: u8,
    found: &Variable,
    state: &State,
    text: &mut String,
) -> Result<(), AllocError>
    ensures { IfOk result (λ _. string_bytes text.new
        ≡ string_bytes text.old ++ found_text definition.now nodes state.now variable (Some found.now)) }
{
    if found.cells.is_one() {
        return push_variable(definition, found, item(&state.values, variable), text);
    }
    push_table(definition, nodes, variable, found, state, text)
}

/// Appends the text of a table in a state.
fn push_table(
    definition: &Definition,
    nodes: u32,
    variable: u8,
    found: &Variable,
    state: &State,
    text: &mut String,
) -> Result<(), AllocError>
    ensures { IfOk result (λ _. string_bytes text.new ≡ string_bytes text.old ++ table_text definition.now nodes state.now variable found.now) }
{
    text.push_str(found.name.as_str())?;
    text.push_str("=[")?;
    push_cells(definition, nodes, variable, found, state, text)?;
    text.push(']')
}

/// Appends the values of a table's cells, with commas between.
fn push_cells(
    definition: &Definition,
    nodes: u32,
    variable: u8,
    found: &Variable,
    state: &State,
    text: &mut String,
) -> Result<(), AllocError>
    ensures { IfOk result (λ _. string_bytes text.new ≡ string_bytes text.old ++ cells_text definition.now nodes state.now variable found.now) }
{
    'cells: for k in 0..shown_of(nodes, found.cells) {
        push_separator(usize::from(k), ',', text)?;
        let value = cell_value(definition, state, variable, k);
        push_value(definition, found.kind, value, text)?;
    }
    Ok(())
}

/// How many cells of a table are shown among so many nodes.
fn shown_of(nodes: u32, cells: Cells) -> u8
    ensures { result ≡ shown_of nodes cells }
{
    match cells {
        Cells::EachNode => nodes.min(8) as u8,
        other => other.count(),
    }
}

/// The value of a variable's k-th cell, from 0 on, and 0 where there is none.
fn cell_value(definition: &Definition, state: &State, variable: u8, k: u8) -> u8
    ensures { result ≡ cell_value definition.now state.now variable k }
{
    if k == 0 {
        return item(&state.values, variable);
    }
    let place = definition
        .others_of(variable)
        .saturating_add(usize::from(k - 1));
    match state.values.get(place) {
        Some(value) => *value,
        None => 0,
    }
}

/// Appends the text of a variable with a value.
fn push_variable(
    definition: &Definition,
    variable: &Variable,
    value: u8,
    text: &mut String,
) -> Result<(), AllocError>
    ensures { IfOk result (λ _. string_bytes text.new ≡ string_bytes text.old ++ variable_text definition.now variable.now value) }
{
    if !variable.words.is_empty() {
        return text.push_str(name_at(variable.words.as_slice(), value));
    }
    match variable.kind {
        Kind::Flag => push_name(value == 0, variable.name.as_str(), text),
        kind => {
            text.push_str(variable.name.as_str())?;
            text.push('=')?;
            push_value(definition, kind, value, text)
        }
    }
}
