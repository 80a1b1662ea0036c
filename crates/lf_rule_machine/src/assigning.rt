//! How cells get values.

ghost use Rattle.std.specs.Prelude.{◌≡◌, slice_get};
ghost use Rattle.std.specs.List.{fold};
ghost use Rattle.lf_rule_machine.specs.Moments.{seen};
ghost use Rattle.lf_rule_machine.specs.Places.{cell_at};
ghost use Rattle.lf_rule_machine.specs.Events.{assign, missed, set_variable, set_found, set_cell, set_member, set_each};

use crate::fitting::set_fitted;
use crate::places::cell_at;
use crate::{Moment, State, sets, value_of};
use lf_rules::{Assignment, Definition, Expr, Kind, Table, Target};

/// Makes a rule's assignments, from the left.
pub fn assign_all(definition: &Definition, at: &Moment<'_>, state: &mut State, sets: &[Assignment])
    ensures { state.new ≡ fold (assign definition.now (seen at.now)) state.old sets.now }
{
    for set in sets {
        assign(definition, at, state, set);
    }
}

/// Makes one assignment: works out the place first, or the set of places.
fn assign(definition: &Definition, at: &Moment<'_>, state: &mut State, set: &Assignment)
    ensures { state.new ≡ assign definition.now (seen at.now) state.old set.now }
{
    match &set.target {
        Target::Variable(i) => set_variable(definition, at, state, *i, &set.value),
        Target::Cell(table, place) => {
            let place = value_of(definition, at, state, place);
            set_cell(definition, at, *table, &set.value, state, place);
        }
        Target::Cells(table, places) => {
            let nodes = value_of(definition, at, state, places);
            set_each(definition, at, nodes, *table, &set.value, state);
        }
    }
}

/// Sets a variable. Nothing is done where there is none with the number.
fn set_variable(definition: &Definition, at: &Moment<'_>, state: &mut State, i: u8, value: &Expr)
    ensures { state.new ≡ set_variable definition.now (seen at.now) state.old i (slice_get definition.now.variables i) value.now }
{
    match definition.variables.as_slice().get(usize::from(i)) {
        Some(variable) => {
            let value = value_of(definition, at, state, value);
            set_fitted(state, variable.kind, usize::from(i), value);
        }
        None => {}
    }
}

/// Sets the cells of a set of nodes, one after another.
fn set_each(
    definition: &Definition,
    at: &Moment<'_>,
    set: u64,
    table: Table,
    value: &Expr,
    state: &mut State,
)
    ensures { state.new
        ≡ set_each definition.now (seen at.now) set table (slice_get definition.now.variables table.of) value.now state.old }
{
    for node in 0..at.nodes {
        set_member(definition, at, set, table, value, state, node);
    }
}

/// Sets the cell of a node, if the set has it.
fn set_member(
    definition: &Definition,
    at: &Moment<'_>,
    set: u64,
    table: Table,
    value: &Expr,
    state: &mut State,
    node: u32,
)
    ensures { state.new
        ≡ set_member definition.now (seen at.now) set table (slice_get definition.now.variables table.of) value.now state.old node }
{
    if sets::has(set, u64::from(node)) {
        set_cell(definition, at, table, value, state, u64::from(node));
    }
}

/// Sets the cell at a place. Nothing is done where there is no variable with the table's number.
fn set_cell(
    definition: &Definition,
    at: &Moment<'_>,
    table: Table,
    value: &Expr,
    state: &mut State,
    place: u64,
)
    ensures { state.new ≡ set_cell definition.now (seen at.now) table (slice_get definition.now.variables table.of) value.now state.old place }
{
    match definition.variables.as_slice().get(usize::from(table.of)) {
        Some(variable) => set_found(definition, at, table, variable.kind, value, state, place),
        None => {}
    }
}

/// Sets the cell at a place to a value of its kind, which is worked out with the place for `It`. Where there is no such cell, clamped is remembered alone.
fn set_found(
    definition: &Definition,
    at: &Moment<'_>,
    table: Table,
    kind: Kind,
    value: &Expr,
    state: &mut State,
    place: u64,
)
    ensures { state.new ≡ set_found definition.now (seen at.now) state.old kind value.now place (cell_at at.now.nodes table place) }
{
    match cell_at(at.nodes, table, place) {
        Some(cell) => {
            let value = value_of(definition, &at.with_it(place as u32), state, value);
            set_fitted(state, kind, cell, value);
        }
        None => miss(state),
    }
}

/// Remembers that a cell wasn't there.
fn miss(state: &mut State)
    ensures { state.new ≡ missed state.old }
{
    state.clamped = true;
}
