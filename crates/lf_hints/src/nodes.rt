//! What is wrong with the parts of a certificate.

use crate::hint::{Hint, Quote, Way, Words, item_of, onward, refusal};
use lf_faults::{Fault, read_fault};
use serde_json::Value;

/// What a certificate is.
const TREE: &str = "an object with the keys answer, format and root, and no others";

/// The most faults of an answer.
const MOST_FAULTS: usize = 6;

/// What a fault is.
const FAULT: &str = "a fault, such as \"omit 0>1 @2\", \"crash 0 @2\" or \"pause 0 @2\"";

/// What comes behind a fault of an answer.
const LATER: &str = "a fault that comes after the one before it, in the order of faults";

/// What a leaf or a branch is.
const NODE: &str = "an object with the key misses alone, or with edges, kids and reach";

/// The most branches that may stand one in the other.
const MOST_BRANCHES: u32 = 6;

/// The fewest and the most nodes of a run.
const NODES: (usize, usize) = (2, 8);

/// The last step of a run.
const LAST_STEP: u64 = 48;

/// What is wrong first in a value that is to be a tree.
pub(crate) fn wrong_in_tree(value: &Value) -> Option<Hint> {
    match three_of(value, ("answer", "format", "root")) {
        Some((answer, format, root)) => wrong_in_answer(answer)
            .or(wrong_in_format(format))
            .or(wrong_in_node(root, Way::of("root"), MOST_BRANCHES)),
        None => refused(Way::of("the certificate"), value, TREE),
    }
}

/// The value at a key.
fn at<'a>(value: &'a Value, key: &str) -> Option<&'a Value> {
    value.get(key)
}

/// How many keys a value has.
fn keys_of(value: &Value) -> usize {
    match value {
        Value::Object(map) => map.len(),
        _ => 0,
    }
}

/// The values at three keys of an object that has no others.
fn three_of<'a>(
    value: &'a Value,
    keys: (&str, &str, &str),
) -> Option<(&'a Value, &'a Value, &'a Value)> {
    match (at(value, keys.0), at(value, keys.1), at(value, keys.2)) {
        (Some(first), Some(second), Some(third)) if keys_of(value) == 3 => {
            Some((first, second, third))
        }
        _ => None,
    }
}

/// What is wrong first in an answer.
fn wrong_in_answer(answer: &Value) -> Option<Hint> {
    let way = Way::of("answer");
    match answer {
        Value::Null => None,
        Value::Array(items) if items.len() <= MOST_FAULTS => {
            wrong_in_faults(items.as_slice(), way).or(wrong_in_order(items.as_slice(), way))
        }
        _ => {
            let wanted = Words::of(format_args!("null, or a list of at most {MOST_FAULTS} faults"));
            refused(way, answer, wanted.as_str())
        }
    }
}

/// The first item that is no fault.
fn wrong_in_faults(items: &[Value], way: Way) -> Option<Hint> {
    for (i, item) in items.iter().enumerate() {
        if fault_of(item).is_none() {
            return refused(item_of(way, i), item, FAULT);
        }
    }
    None
}

/// The first fault that doesn't come after the one before it.
fn wrong_in_order(items: &[Value], way: Way) -> Option<Hint> {
    let mut before: Option<Fault> = None;
    for (i, item) in items.iter().enumerate() {
        let fault = fault_of(item)?;
        match before {
            Some(earlier) if !earlier.is_before(&fault) => {
                return refused(item_of(way, i), item, LATER);
            }
            _ => before = Some(fault),
        }
    }
    None
}

/// The fault of a value.
fn fault_of(value: &Value) -> Option<Fault> {
    read_fault(value.as_str()?)
}

/// What is wrong with a format.
fn wrong_in_format(format: &Value) -> Option<Hint> {
    match format.as_u64() {
        Some(1) | Some(2) => None,
        _ => refused(Way::of("format"), format, "1 or 2"),
    }
}

/// What is wrong first in a node beneath which at most so many branches stand one in the other.
fn wrong_in_node(node: &Value, way: Way, room: u32) -> Option<Hint> {
    let found = wrong_above_kids(node, way, room);
    if found.is_some() || room == 0 {
        return found;
    }
    let way = onward(way, ".kids");
    for (i, kid) in kids_of(node).iter().enumerate() {
        let found = wrong_in_node(kid, item_of(way, i), room - 1);
        if found.is_some() {
            return found;
        }
    }
    None
}

/// The kids of a branch. None of another value.
fn kids_of(node: &Value) -> &[Value] {
    match at(node, "kids") {
        Some(Value::Array(items)) => items.as_slice(),
        _ => &[],
    }
}

/// What is wrong first in a node, but for what its kids are.
fn wrong_above_kids(node: &Value, way: Way, room: u32) -> Option<Hint> {
    match at(node, "misses") {
        Some(misses) if keys_of(node) == 1 => wrong_in_leaf(misses, way),
        _ => wrong_in_branch(node, way, room),
    }
}

/// What is wrong first in a branch, but for what its kids are.
fn wrong_in_branch(node: &Value, way: Way, room: u32) -> Option<Hint> {
    match three_of(node, ("edges", "reach", "kids")) {
        Some(_) if room == 0 => too_deep(node, way),
        Some((edges, reach, kids)) => wrong_in_edges(edges, onward(way, ".edges"))
            .or(wrong_in_reach(reach, onward(way, ".reach")))
            .or(wrong_in_list(kids, onward(way, ".kids"))),
        None => refused(way, node, NODE),
    }
}

/// That a branch stands where only a leaf may.
fn too_deep(node: &Value, way: Way) -> Option<Hint> {
    let wanted = Words::of(format_args!("a leaf, since {MOST_BRANCHES} branches stand above it"));
    refused(way, node, wanted.as_str())
}

/// What is wrong with a leaf's value.
fn wrong_in_leaf(misses: &Value, way: Way) -> Option<Hint> {
    match misses {
        Value::Bool(_) => None,
        _ => refused(onward(way, ".misses"), misses, "true or false"),
    }
}

/// What is wrong first in the edges of a branch.
fn wrong_in_edges(edges: &Value, way: Way) -> Option<Hint> {
    match edges {
        Value::Array(items) => wrong_in_faults(items.as_slice(), way),
        _ => refused(way, edges, "a list"),
    }
}

/// What is wrong first in the reach of a branch.
fn wrong_in_reach(reach: &Value, way: Way) -> Option<Hint> {
    match reach {
        Value::Array(items) if NODES.0 <= items.len() && items.len() <= NODES.1 => {
            wrong_in_steps(items.as_slice(), way)
        }
        _ => {
            let (fewest, most) = NODES;
            let wanted = Words::of(format_args!(
                "a list of {fewest} to {most} numbers, one for each node"
            ));
            refused(way, reach, wanted.as_str())
        }
    }
}

/// The first item that is no step, and not 0.
fn wrong_in_steps(items: &[Value], way: Way) -> Option<Hint> {
    for (i, item) in items.iter().enumerate() {
        if item.as_u64().unwrap_or(u64::MAX) > LAST_STEP {
            let wanted = Words::of(format_args!("a whole number from 0 to {LAST_STEP}"));
            return refused(item_of(way, i), item, wanted.as_str());
        }
    }
    None
}

/// That a value is no list, where it is none.
fn wrong_in_list(value: &Value, way: Way) -> Option<Hint> {
    match value {
        Value::Array(_) => None,
        _ => refused(way, value, "a list"),
    }
}

/// That this stands there, and what is wanted.
fn refused(way: Way, value: &Value, wanted: &str) -> Option<Hint> {
    Some(refusal(way, Quote::of(value), wanted))
}
