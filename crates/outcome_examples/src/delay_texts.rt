//! The texts of examples, and how they are compared.

use lf_faults::{FaultSet, fault_text};
use lf_latency::Arrivals;
use lf_outcome::Scenario;
use lf_scenario::read;
use std::alloc::{AllocError, Global};
use std::process::Abort;

/// What is found at the row is what it says. Each comparison ends here: an assertion is dear to prove.
pub(crate) fn agrees(rt: &impl Abort, truth: bool, row: &str) {
    assert!(rt; truth, "at {row}");
}

/// The scenario of lines that end with `;`. None where it is refused.
pub(crate) fn scenario(alloc: Global, lines: &str) -> Option<Scenario> {
    let mut text = String::new(alloc);
    for c in lines.chars() {
        let end = if c == ';' { '\n' } else { c };
        if text.push(end).is_err() {
            return None;
        }
    }
    read(alloc, text.as_bytes()).ok()
}

/// Adds the faults of a set, each behind `;`.
fn push_faults(alloc: Global, text: &mut String, set: &FaultSet) -> Result<(), AllocError> {
    for fault in set.items() {
        text.push(';')?;
        text.push_str(fault_text(alloc, fault)?.as_str())?;
    }
    Ok(())
}

/// A set as it is told, or that there is none up to the budget.
fn told(alloc: Global, set: Option<FaultSet>, budget: u32) -> Result<String, AllocError> {
    let mut text = String::new(alloc);
    match set {
        None => write!(text, "none {budget}")?,
        Some(set) => {
            let count = set.len();
            write!(text, "least {count}")?;
            push_faults(alloc, &mut text, &set)?;
        }
    }
    Ok(text)
}

/// What is found for a scenario without an exchange of names: its set, and when the notes come.
fn found(alloc: Global, scenario: &Scenario) -> Option<Option<(FaultSet, Arrivals)>> {
    lf_windows::answer_every_delay(alloc, scenario).ok()
}

/// Whether an answer to a scenario is told so.
pub(crate) fn is_told(
    alloc: Global,
    answer: Option<Option<(FaultSet, Arrivals)>>,
    budget: u32,
    wanted: &str,
) -> bool {
    let Some(found) = answer else {
        return false;
    };
    let set = match found {
        Some(pair) => Some(pair.0),
        None => None,
    };
    match told(alloc, set, budget) {
        Ok(text) => text.as_str() == wanted,
        Err(_) => false,
    }
}

/// The scenario of a row, and what the row says of it. None where the scenario is refused.
pub(crate) fn asked(alloc: Global, row: &str) -> Option<(Scenario, &str)> {
    let (lines, wanted) = row.split_once('|').unwrap_or((row, ""));
    Some((scenario(alloc, lines)?, wanted))
}

/// Whether the scenario of a row is answered as the row says.
fn row_agrees(alloc: Global, row: &str) -> bool {
    match asked(alloc, row) {
        Some((scenario, wanted)) => {
            let budget = scenario.setting().spec.budget();
            is_told(alloc, found(alloc, &scenario), budget, wanted)
        }
        None => false,
    }
}

/// Each scenario of the table is answered as its row says.
pub(crate) fn answers(rt: &impl Abort, alloc: Global, table: &str) {
    for row in table.lines() {
        agrees(rt, row_agrees(alloc, row), row);
    }
}

/// The step at which the note of a slot comes in the run that the answer to a table's first scenario shows: nodes in 0..=7, and a step in
/// 1..=48. None where there is no such run.
pub(crate) fn comes(alloc: Global, table: &str, from: u32, to: u32, step: u32) -> Option<u32> {
    if from > 7 || to > 7 || step < 1 || step > 48 {
        return None;
    }
    let (lines, _) = table.split_once('|').unwrap_or((table, ""));
    let scenario = scenario(alloc, lines)?;
    match found(alloc, &scenario)? {
        Some(pair) => Some(pair.1.arrival(from, to, step)),
        None => None,
    }
}
