//! The texts of examples, and how they are compared.

use lf_faults::{FaultSet, fault_text};
use lf_outcome::Scenario;
use lf_scenario::read;
use std::alloc::{AllocError, Global};
use std::process::Abort;
use std::sync::Arc;

/// The keys of the numbers that each scenario of a table has.
const BOUNDS: &str = "nodes horizon last_omission crashes budget";

/// What is found at the row is what it says. Each comparison ends here: an assertion is dear to prove.
pub(crate) fn agrees(rt: &impl Abort, truth: bool, row: &str) {
    assert!(rt; truth, "at {row}");
}

/// Whether a text is made, and is the wanted one.
pub(crate) fn is_text(made: Option<String>, wanted: &str) -> bool {
    match made {
        Some(text) => text.as_str() == wanted,
        None => false,
    }
}

/// The columns before and behind the first `|`.
pub(crate) fn columns(line: &str) -> (&str, &str) {
    line.split_once('|').unwrap_or((line, ""))
}

/// Adds a line for the protocol, and one for each bound.
fn push_bounds(text: &mut String, protocol: &str, numbers: &str) -> Result<(), AllocError> {
    write!(text, "protocol = \"{protocol}\"\n")?;
    for (key, number) in BOUNDS.split(' ').zip(numbers.split(' ')) {
        write!(text, "{key} = {number}\n")?;
    }
    Ok(())
}

/// Adds further lines, of which all but the last end with `;`. Four characters stand for the beginnings of the lists of formulas.
fn push_lines(text: &mut String, lines: &str) -> Result<(), AllocError> {
    for c in lines.chars() {
        match c {
            ';' => text.push('\n')?,
            '(' => text.push_str("[\"all\", ")?,
            '<' => text.push_str("[\"any\", ")?,
            '!' => text.push_str("[\"down\", ")?,
            '?' => text.push_str("[\"shows\", ")?,
            other => text.push(other)?,
        }
    }
    text.push('\n')
}

/// The scenario of a protocol, the numbers of its bounds and further lines. None where it is refused.
pub(crate) fn scenario(
    alloc: Global,
    protocol: &str,
    numbers: &str,
    lines: &str,
) -> Option<Arc<Scenario>> {
    let mut text = String::new(alloc);
    if push_bounds(&mut text, protocol, numbers).is_err() || push_lines(&mut text, lines).is_err() {
        return None;
    }
    match read(alloc, text.as_bytes()) {
        Ok(scenario) => Arc::new(alloc, scenario).ok(),
        Err(_) => None,
    }
}

/// The scenario of a row's first columns, which are a protocol, the numbers of its bounds and further lines, and the columns behind them.
pub(crate) fn asked(alloc: Global, row: &str) -> Option<(Arc<Scenario>, &str)> {
    let (protocol, rest) = columns(row);
    let (numbers, rest) = columns(rest);
    let (lines, rest) = columns(rest);
    Some((scenario(alloc, protocol, numbers, lines)?, rest))
}

/// Adds the faults of a set, the first one behind `first`, each other one behind `gap`.
pub(crate) fn push_faults(
    alloc: Global,
    text: &mut String,
    set: &FaultSet,
    first: &str,
    gap: &str,
) -> Result<(), AllocError> {
    let mut before = first;
    for fault in set.items() {
        text.push_str(before)?;
        text.push_str(fault_text(alloc, fault)?.as_str())?;
        before = gap;
    }
    Ok(())
}
