//! What goes past a range, or to a place that isn't there.

use crate::replay::{Cause, Mark, cause_of};
use lf_protocols::Protocol;
use lf_rule_machine::{assign_all, cell_at, sets, value_of};
use lf_rules::{Cells, Definition, Table, Target};
use lf_sim::{Run, Setting};
use std::alloc::{AllocError, Global};
use std::slice;

/// A place of a table that isn't there.
#[derive(Clone, Copy, Debug)]
struct Missing {
    table: Table,
    place: u64,
}

/// What a node has done at a step of this run, at which it is clamped for the first time, or at its start: that it has set a cell at a place that isn't there,
/// or else something past its range. The error, also below, is that memory has run out.
pub(crate) fn clamped_words(
    alloc: Global,
    setting: &Setting<Protocol>,
    played: &Run<Protocol>,
    node: u32,
    step: u32,
) -> Result<String, AllocError> {
    let cause = match cause_of(alloc, setting, played, node, step, Mark::Clamped)? {
        Some(cause) => Some(cause),
        None => cause_of(alloc, setting, played, node, 0, Mark::Clamped)?,
    };
    if let Some(cause) = cause {
        if let Some(missing) = missing_by(&cause) {
            return missing_words(alloc, &cause, missing);
        }
    }
    String::from_str(
        alloc,
        "a variable or a field past its range, and it was cut to the range",
    )
}

/// That a place isn't there, in words.
fn missing_words(alloc: Global, cause: &Cause<'_>, missing: Missing) -> Result<String, AllocError> {
    let name = table_name(cause.definition, missing.table);
    let (first, last) = match missing.table.cells {
        Cells::UpTo(last) => (1, u32::from(last)),
        _ => (0, cause.at.nodes.saturating_sub(1)),
    };
    format!(in alloc;
        "`{name}[{}]` by rule {}, and there is no such place: there are {first} to {last}",
        missing.place, cause.taken.number
    )
}

/// The name of a table.
fn table_name(definition: &Definition, table: Table) -> &str {
    match definition.variables.as_slice().get(usize::from(table.of)) {
        Some(variable) => variable.name.as_str(),
        None => "table",
    }
}

/// The first place at which a rule has set a cell that isn't there, where nothing went past its range before. None where there is none.
fn missing_by(cause: &Cause<'_>) -> Option<Missing> {
    let mut state = cause.before.state;
    for set in cause.taken.rule.sets.as_slice() {
        if let Target::Cell(table, place) = &set.target {
            let place = value_of(cause.definition, &cause.at, &state, place);
            if cell_at(cause.at.nodes, *table, place).is_none() {
                return Some(Missing {
                    table: *table,
                    place,
                });
            }
        }
        assign_all(
            cause.definition,
            &cause.at,
            &mut state,
            slice::from_ref(set),
        );
        if state.clamped {
            return None;
        }
    }
    None
}
