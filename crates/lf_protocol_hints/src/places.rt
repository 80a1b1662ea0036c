//! Places that no table and no list has.

use crate::uses::{bit, has_bit};
use lf_rules::{
    Assignment, Cells, Chain, Definition, Expr, Leaf, Row, Rule, Send, Table, Target, Tree,
};
use std::alloc::AllocError;

/// Of which tables and constants a place was found that they haven't: a bit for each number.
#[derive(Clone, Copy, Debug)]
struct Found {
    tables: u64,
    constants: u64,
}

/// Puts a warning behind a text for each table and each constant behind which a number stands in brackets that is none of its places: the first such number.
/// The error, also below, is that memory has run out.
pub(crate) fn warn_of_places(text: &mut String, definition: &Definition) -> Result<(), AllocError> {
    let mut found = Found {
        tables: 0,
        constants: 0,
    };
    for named in definition.lets.as_slice() {
        warn_of_expr(text, definition, &mut found, &named.value)?;
    }
    for guard in definition.facts.as_slice() {
        warn_of_expr(text, definition, &mut found, &guard.value)?;
    }
    for chain in definition.chains.as_slice() {
        warn_of_chain(text, definition, &mut found, chain)?;
    }
    Ok(())
}

/// Of those in the rules of a chain.
fn warn_of_chain(
    text: &mut String,
    definition: &Definition,
    found: &mut Found,
    chain: &Chain,
) -> Result<(), AllocError> {
    for rule in chain.rules.as_slice() {
        warn_of_rule(text, definition, found, rule)?;
    }
    Ok(())
}

/// Of those in a rule.
fn warn_of_rule(
    text: &mut String,
    definition: &Definition,
    found: &mut Found,
    rule: &Rule,
) -> Result<(), AllocError> {
    warn_of_expr(text, definition, found, &rule.guard)?;
    for set in rule.sets.as_slice() {
        warn_of_set(text, definition, found, set)?;
    }
    for send in rule.sends.as_slice() {
        warn_of_send(text, definition, found, send)?;
    }
    Ok(())
}

/// Of those in an assignment.
fn warn_of_set(
    text: &mut String,
    definition: &Definition,
    found: &mut Found,
    set: &Assignment,
) -> Result<(), AllocError> {
    match &set.target {
        Target::Variable(_) => {}
        Target::Cell(table, place) => {
            warn_of_place(text, definition, found, Row::Table(*table), place.tree())?;
            warn_of_expr(text, definition, found, place)?;
        }
        Target::Cells(_, places) => warn_of_expr(text, definition, found, places)?,
    }
    warn_of_expr(text, definition, found, &set.value)
}

/// Of those in what is sent.
fn warn_of_send(
    text: &mut String,
    definition: &Definition,
    found: &mut Found,
    send: &Send,
) -> Result<(), AllocError> {
    for field in send.fields.as_slice() {
        warn_of_expr(text, definition, found, field)?;
    }
    warn_of_expr(text, definition, found, &send.to)
}

/// Of those in an expression.
fn warn_of_expr(
    text: &mut String,
    definition: &Definition,
    found: &mut Found,
    value: &Expr,
) -> Result<(), AllocError> {
    warn_of_tree(text, definition, found, value.tree())
}

/// Of those in a tree.
fn warn_of_tree(
    text: &mut String,
    definition: &Definition,
    found: &mut Found,
    tree: &Tree,
) -> Result<(), AllocError> {
    match tree {
        Tree::Leaf(_) => Ok(()),
        Tree::Unary(_, a) => warn_of_tree(text, definition, found, a),
        Tree::Binary(_, a, b) => {
            warn_of_tree(text, definition, found, a)?;
            warn_of_tree(text, definition, found, b)
        }
        Tree::At(row, place) => {
            warn_of_place(text, definition, found, *row, place)?;
            warn_of_tree(text, definition, found, place)
        }
        Tree::Over(_, set, body) => {
            warn_of_tree(text, definition, found, set)?;
            warn_of_tree(text, definition, found, body)
        }
    }
}

/// Of a place behind a table or a constant, where it is a number that is none of its places.
fn warn_of_place(
    text: &mut String,
    definition: &Definition,
    found: &mut Found,
    row: Row,
    place: &Tree,
) -> Result<(), AllocError> {
    let Tree::Leaf(Leaf::Number(place)) = place else {
        return Ok(());
    };
    let (first, last) = places_of(row);
    if (first <= *place && *place <= last) || !found.is_first(row) {
        return Ok(());
    }
    let name = name_of(definition, row);
    write!(
        text,
        "\nwarning: `{name}[{place}]` isn't there: its places are {first} to {last}"
    )
}

/// The first and the last place that there may be.
fn places_of(row: Row) -> (u8, u8) {
    match row {
        Row::Table(
            Table {
                cells: Cells::UpTo(last),
                ..
            },
        ) => (1, last),
        _ => (0, 7),
    }
}

/// The name of a table or a constant.
fn name_of(definition: &Definition, row: Row) -> &str {
    match row {
        Row::Table(table) => {
            match definition.variables.as_slice().get(usize::from(table.of)) {
                Some(variable) => variable.name.as_str(),
                None => "",
            }
        }
        Row::Given(i) => match definition.given.as_slice().get(usize::from(i)) {
            Some(constant) => constant.name.as_str(),
            None => "",
        },
    }
}

impl Found {
    /// Whether nothing was found of a table or a constant so far. Something is from then on.
    fn is_first(&mut self, row: Row) -> bool {
        match row {
            Row::Table(table) => {
                let number = usize::from(table.of);
                let is_first = !has_bit(self.tables, number);
                self.tables |= bit(number);
                is_first
            }
            Row::Given(i) => {
                let number = usize::from(i);
                let is_first = !has_bit(self.constants, number);
                self.constants |= bit(number);
                is_first
            }
        }
    }
}
