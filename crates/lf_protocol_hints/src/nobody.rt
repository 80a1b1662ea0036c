//! Rules that no node has.

use crate::uses::Uses;
use lf_rule_machine::{fixed_value, sets, truth};
use lf_rules::{Chain, Constant, Definition, Given, Value};

/// Why no node has the rules of a chain. None where some node has them, with some number of nodes, by the constants of the file.
pub(crate) fn why_nobody(definition: &Definition, chain: &Chain) -> Option<&'static str> {
    let names_constants = Uses::none().and(&chain.who).constants != 0;
    let mut is_tried = false;
    for nodes in 2..9 {
        if !names_constants || has_items(definition, nodes) {
            is_tried = true;
            if is_of_any(definition, chain, nodes) {
                return None;
            }
        }
    }
    if !is_tried {
        return None;
    }
    Some(if names_constants {
        "its who is empty, unless a scenario gives its constants anew"
    } else {
        "its who is empty, however many nodes there are"
    })
}

/// Whether each constant that is a list has an item for each of so many nodes.
fn has_items(definition: &Definition, nodes: u32) -> bool {
    for constant in definition.given.as_slice() {
        if let Given::Each(values) = &constant.value {
            if values.len() != nodes as usize {
                return false;
            }
        }
    }
    true
}

/// Whether one of so many nodes has the rules of a chain.
fn is_of_any(definition: &Definition, chain: &Chain, nodes: u32) -> bool {
    for node in 0..nodes {
        let given = constants_at(definition, nodes, node);
        if sets::has(fixed_value(nodes, &given, &chain.who), u64::from(node)) {
            return true;
        }
    }
    false
}

/// The values of the file's constants at one of so many nodes.
fn constants_at(definition: &Definition, nodes: u32, node: u32) -> [u8; 16] {
    let mut values = [0; 16];
    for (value, constant) in values.iter_mut().zip(definition.given.as_slice()) {
        *value = value_at(constant, nodes, node);
    }
    values
}

/// The value of a constant at one of so many nodes, as a number.
fn value_at(constant: &Constant, nodes: u32, node: u32) -> u8 {
    match &constant.value {
        Given::One(value) => number_of(value, nodes),
        Given::Each(values) => match values.as_slice().get(node as usize) {
            Some(value) => number_of(value, nodes),
            None => 0,
        },
    }
}

/// A value of a constant as a number.
fn number_of(value: &Value, nodes: u32) -> u8 {
    match value {
        Value::Number(number) => *number,
        Value::Truth(so) => truth(*so) as u8,
        Value::Nodes(expr) => sets::nodes_in(fixed_value(nodes, &[0; 16], expr)) as u8,
    }
}
