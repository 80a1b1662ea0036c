//! The texts of examples, and how they are compared.

use lf_outcome::Scenario;
use lf_scenario::read;
use std::alloc::Global;
use std::process::Abort;

/// What is found at the row is what it says. Each comparison ends here: an assertion is dear to prove.
pub(crate) fn agrees(rt: &impl Abort, truth: bool, row: &str) {
    assert!(rt; truth, "at {row}");
}

/// The columns before and behind the first `|`.
pub(crate) fn columns(line: &str) -> (&str, &str) {
    line.split_once('|').unwrap_or((line, ""))
}

/// The scenario of lines with `;` between any two. None where they are refused.
pub(crate) fn scenario(alloc: Global, lines: &str) -> Option<Scenario> {
    let Ok(text) = lines.replace(alloc, ';', "\n") else {
        return None;
    };
    read(alloc, text.as_bytes()).ok()
}
