//! Outcomes that are too large for a scenario.

use crate::size::{Size, size_of};
use lf_promises::Promise;
use std::alloc::{AllocError, Global};
use toml::{Table, Value};

/// The most atoms of a formula.
const MOST_ATOMS: u64 = 4096;

/// The deepest formula.
const MOST_DEPTH: u32 = 8;

/// Why a promise is no outcome of a scenario: it names a node that there isn't, or its formula is too large. The error, also below, is that memory has
/// run out.
pub fn large_hint(
    alloc: Global,
    table: &Table,
    text: &str,
    promise: &Promise,
) -> Result<String, AllocError> {
    let (nodes, steps) = (number_at(table, "nodes"), number_at(table, "horizon"));
    let size = size_of(promise, nodes, steps);
    if nodes <= u64::from(size.highest) {
        let highest = size.highest;
        return format!(in alloc;
            "outcome = {text:?}: node {highest} is named, and the nodes are 0 to {}",
            nodes.saturating_sub(1)
        );
    }
    if MOST_ATOMS < size.atoms {
        return atoms_hint(alloc, text, size, nodes, steps);
    }
    if MOST_DEPTH < size.depth {
        return format!(in alloc;
            "outcome = {text:?}: its formula is {} deep, and may be {MOST_DEPTH}: leave out brackets, or ask its parts one by one",
            size.depth
        );
    }
    format!(in alloc;
        "outcome = {text:?}: a set behind `of` divides by a constant that is 0 here, or the formula is too large"
    )
}

/// That the formula of a promise has too many atoms, and how it has fewer.
fn atoms_hint(
    alloc: Global,
    text: &str,
    size: Size,
    nodes: u64,
    steps: u64,
) -> Result<String, AllocError> {
    let (upto, atoms) = (if size.has_sets { "up to " } else { "" }, size.atoms);
    let mut hint = format!(in alloc;
        "outcome = {text:?}: too large: its formula has {upto}{atoms} atoms, and may have {MOST_ATOMS}. "
    )?;
    write!(
        &mut hint,
        "An atom asks one node at one step; there are {nodes} nodes"
    )?;
    if size.has_steps {
        write!(
            &mut hint,
            " and {steps} steps, and `always` and `ever` ask at each of them"
        )?;
    }
    hint.push_str(". Ask the parts of it one by one, name fewer nodes behind `of`")?;
    hint.push_str(if size.has_steps {
        ", lower the horizon, or leave out `always`: what is asked of the last step alone is smaller"
    } else {
        ", or have fewer nodes"
    })?;
    Ok(hint)
}

/// The number at a key, and 0 where none stands there.
fn number_at(table: &Table, key: &str) -> u64 {
    match table.get(key) {
        Some(Value::Integer(number)) => u64::try_from(*number).unwrap_or(0),
        _ => 0,
    }
}
