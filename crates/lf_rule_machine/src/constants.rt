//! The values of constants.

ghost use Rattle.std.specs.Prelude.{◌≡◌, slice_get};
ghost use Rattle.lf_rule_machine.specs.Constants.{constant_value, value_at, given_value, given_at, given_table, is_for, are_given};
ghost use Rattle.lf_rule_machine.specs.Moments.{row_of};

use crate::{fixed_value, sets, truth};
use lf_rules::{Constant, Definition, Given, Value};

/// Whether values fit the constants of a definition.
pub(crate) fn are_given(definition: &Definition, nodes: u32, given: &[Given]) -> bool
    ensures { result ≡ are_given definition.now nodes definition.now.given given.now }
{
    are_these(definition, nodes, definition.given.as_slice(), given)
}

/// Whether values fit these constants.
fn are_these(definition: &Definition, nodes: u32, constants: &[Constant], given: &[Given]) -> bool
    ensures { result ≡ are_given definition.now nodes constants.now given.now }
{
    match constants {
        [] => given.is_empty(),
        [constant, constants @ ..] => match given {
            [] => false,
            [value, given @ ..] => {
                definition.is_given(constant.sort, value)
                    && is_for(nodes, value)
                    && are_these(definition, nodes, constants, given)
            }
        },
    }
}

/// Whether a list has an item for each node.
fn is_for(nodes: u32, value: &Given) -> bool
    ensures { result ≡ is_for nodes value.now }
{
    match value {
        Given::One(_) => true,
        Given::Each(values) => values.len() == nodes as usize,
    }
}

/// The values of the constants, by node and number: what a machine among so many nodes works with. It is 0 where there is no such node in a list, or no such
/// constant.
pub fn given_table(nodes: u32, given: &[Given]) -> [[u8; 16]; 8]
    ensures { result ≡ given_table nodes given.now }
{
    [
        given_at(nodes, given, 0),
        given_at(nodes, given, 1),
        given_at(nodes, given, 2),
        given_at(nodes, given, 3),
        given_at(nodes, given, 4),
        given_at(nodes, given, 5),
        given_at(nodes, given, 6),
        given_at(nodes, given, 7),
    ]
}

/// The values of the constants at a node, from those at each node.
pub(crate) fn constants_at(given: &[[u8; 16]; 8], node: u32) -> [u8; 16]
    ensures { result ≡ row_of (slice_get given.now node) }
{
    match given.get(node as usize) {
        Some(row) => *row,
        None => [0; 16],
    }
}

/// The values of the constants at one node.
fn given_at(nodes: u32, given: &[Given], node: usize) -> [u8; 16]
    ensures { result ≡ given_at nodes given.now node }
{
    [
        given_value(nodes, node, given, 0),
        given_value(nodes, node, given, 1),
        given_value(nodes, node, given, 2),
        given_value(nodes, node, given, 3),
        given_value(nodes, node, given, 4),
        given_value(nodes, node, given, 5),
        given_value(nodes, node, given, 6),
        given_value(nodes, node, given, 7),
        given_value(nodes, node, given, 8),
        given_value(nodes, node, given, 9),
        given_value(nodes, node, given, 10),
        given_value(nodes, node, given, 11),
        given_value(nodes, node, given, 12),
        given_value(nodes, node, given, 13),
        given_value(nodes, node, given, 14),
        given_value(nodes, node, given, 15),
    ]
}

/// The value of a constant at a node, and 0 where there is none.
fn given_value(nodes: u32, node: usize, given: &[Given], i: usize) -> u8
    ensures { result ≡ given_value nodes node (slice_get given.now i) }
{
    match given.get(i) {
        Some(given) => value_at(nodes, node, given),
        None => 0,
    }
}

/// The value of a constant at a node: of a list that node's item, and 0 where there is none.
fn value_at(nodes: u32, node: usize, given: &Given) -> u8
    ensures { result ≡ value_at nodes node given.now }
{
    match given {
        Given::One(value) => constant_value(nodes, value),
        Given::Each(values) => match values.as_slice().get(node) {
            Some(value) => constant_value(nodes, value),
            None => 0,
        },
    }
}

/// A value of a constant as a number.
fn constant_value(nodes: u32, value: &Value) -> u8
    ensures { result ≡ constant_value nodes value.now }
{
    match value {
        Value::Number(number) => *number,
        Value::Truth(so) => truth(*so) as u8,
        Value::Nodes(expr) => sets::nodes_in(fixed_value(nodes, &[0; 16], expr)) as u8,
    }
}
