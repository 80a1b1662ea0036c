//! What comes of a set of nodes and a body.

ghost use Rattle.std.specs.Prelude.{◌≡◌, ◌<◌, ◌≤◌, ◌&&◌, slice_index, if◌then◌else◌, max, Some};
ghost use Rattle.lf_rule_machine.specs.Sets.{truth, those, is_true};
ghost use Rattle.lf_rule_machine.specs.Bodies.{is_member, lesser, least_below, least_of, greatest_below, over};

use crate::{sets, truth};
use lf_rules::Over;

/// Whether a node is one of a set, and one of so many.
pub(crate) fn is_member(nodes: u32, set: u64, node: u32) -> bool
    ensures { result ≡ is_member nodes set node }
{
    sets::has(set, u64::from(node)) && node < nodes
}

/// What comes of a set and a body, by the body's values for the nodes of the set.
pub(crate) fn over(nodes: u32, operator: Over, set: u64, values: &[u64; 8]) -> u64
    ensures { result ≡ over nodes operator set (slice_index values.now) }
{
    match operator {
        Over::Those => those(nodes, set, values),
        Over::Least => least_of(least(nodes, set, values)),
        Over::Greatest => greatest(nodes, set, values),
    }
}

/// The nodes of a set whose values are true.
fn those(nodes: u32, set: u64, values: &[u64; 8]) -> u64
    ensures { result ≡ those (λ n. is_member nodes set n && is_true (slice_index values.now n)) }
{
    let b0 = bit(nodes, set, values, 0);
    let b1 = bit(nodes, set, values, 1);
    let b2 = bit(nodes, set, values, 2);
    let b3 = bit(nodes, set, values, 3);
    let b4 = bit(nodes, set, values, 4);
    let b5 = bit(nodes, set, values, 5);
    let b6 = bit(nodes, set, values, 6);
    let b7 = bit(nodes, set, values, 7);
    b0 + 2 * b1 + 4 * b2 + 8 * b3 + 16 * b4 + 32 * b5 + 64 * b6 + 128 * b7
}

/// 1 where a node is one of a set whose value is true, and else 0.
fn bit(nodes: u32, set: u64, values: &[u64; 8], node: u32) -> u64
    requires { node < 8 }
    ensures value { result ≡ truth (is_member nodes set node && is_true (slice_index values.now node)) }
    ensures small { result ≤ 1 }
{
    truth(is_one_of(nodes, set, values, node))
}

/// Whether a node is one of a set whose value is true.
fn is_one_of(nodes: u32, set: u64, values: &[u64; 8], node: u32) -> bool
    requires { node < 8 }
    ensures { result ≡ (is_member nodes set node && is_true (slice_index values.now node)) }
{
    is_member(nodes, set, node) && values[node as usize] != 0
}

/// The least value of a node of a set. None where the set has none.
fn least(nodes: u32, set: u64, values: &[u64; 8]) -> Option<u64>
    ensures { result ≡ least_below 8 (is_member nodes set) (slice_index values.now) }
{
    let mut found = None;
    for node in 0..8 {
        found = least_with(nodes, set, values, node, found);
    }
    found
}

/// The least value so far with that of one node more, if the set has it.
fn least_with(nodes: u32, set: u64, values: &[u64; 8], node: u32, found: Option<u64>) -> Option<u64>
    requires { node < 8 }
    ensures { result ≡ (if is_member nodes set node then Some (lesser (slice_index values.now node) found) else found) }
{
    if is_member(nodes, set, node) {
        Some(lesser(values[node as usize], found))
    } else {
        found
    }
}

/// The lesser of a number and another one, if there is another.
fn lesser(value: u64, found: Option<u64>) -> u64
    ensures { result ≡ lesser value found }
{
    match found {
        Some(other) => value.min(other),
        None => value,
    }
}

/// The least value that was found, and 255 where there is none.
fn least_of(found: Option<u64>) -> u64
    ensures { result ≡ least_of found }
{
    match found {
        Some(value) => value,
        None => 255,
    }
}

/// The greatest value of a node of a set, and 0 where the set has none.
fn greatest(nodes: u32, set: u64, values: &[u64; 8]) -> u64
    ensures { result ≡ greatest_below 8 (is_member nodes set) (slice_index values.now) }
{
    let mut found = 0;
    for node in 0..8 {
        found = greatest_with(nodes, set, values, node, found);
    }
    found
}

/// The greatest value so far with that of one node more, if the set has it.
fn greatest_with(nodes: u32, set: u64, values: &[u64; 8], node: u32, found: u64) -> u64
    requires { node < 8 }
    ensures { result ≡ (if is_member nodes set node then max (slice_index values.now node) found else found) }
{
    if is_member(nodes, set, node) {
        values[node as usize].max(found)
    } else {
        found
    }
}
