//! The texts of scenarios, and how they are told.

use crate::rows::{agrees, columns};
use crate::told::is_told;
use std::alloc::{AllocError, Global};
use std::process::Abort;

/// A scenario, in the order of its keys.
pub(crate) const SCENARIO: &str = concat!(
    "nodes = 3\nhorizon = 4\nlast_omission = 3\ncrashes = 0\nbudget = 2\n",
    "protocol = \"retry\"\ntries = 1\noutcome = \"delivered\"\n",
);

/// The lines of a scenario with no faults.
const PATIENT: &str = "horizon = 4\nlast_omission = 0\ncrashes = 0\nbudget = 0\n";

/// A scenario with optional keys.
const OPTIONAL: &str = concat!(
    "nodes = 3\nhorizon = 4\nlast_omission = 3\ncrashes = 0\nbudget = 2\n",
    "protocol = \"redundant\"\npauses = 2\npause_length = 8\nmax_sets = 1_0\nleast = 0x2\nspread = +3\n",
    "seed = \"000102030405060708090a0b0c0d0e0f101112131415161718191a1b1c1d1E1F\"\n",
    "links = [{from = 0, to = 2, least = 4}, {to = 0, from = 2, spread = 0}]\n",
    "tries = 1\noutcome = \"delivered\"\n",
);

/// A scenario whose numbers are written in other ways.
const NUMBERS: &str = concat!(
    "nodes = +2\nhorizon = 3\nlast_omission = 1\ncrashes = -0\nbudget = 0x1\n",
    "protocol = \"retry\"\ntries = 1_0\noutcome = \"delivered\"\n",
);

/// A scenario whose delays are those of the seed of zeros.
const LATE: &str = concat!(
    "nodes = 2\nhorizon = 3\nlast_omission = 2\ncrashes = 0\nbudget = 1\nspread = 3\n",
    "seed = \"0000000000000000000000000000000000000000000000000000000000000000\"\n",
    "protocol = \"retry\"\ntries = 2\noutcome = \"delivered\"\n",
);

/// Adds lines, of which all but the last end with `;`.
fn push_lines(text: &mut String, lines: &str) -> Result<(), AllocError> {
    for c in lines.chars() {
        text.push(if c == ';' { '\n' } else { c })?;
    }
    Ok(())
}

/// Adds the scenario with these lines in place of the one of the key, or at its end where it has no line of that key. Some keys, of
/// no line, name other scenarios.
pub(crate) fn push_changed(text: &mut String, key: &str, lines: &str) -> Result<(), AllocError> {
    let scenario = match key {
        "patient" => PATIENT,
        "optional" => OPTIONAL,
        "numbers" => NUMBERS,
        "late" => LATE,
        _ => SCENARIO,
    };
    let mut is_more = true;
    for line in scenario.lines() {
        if line.starts_with(key) {
            push_lines(text, lines)?;
            is_more = false;
        } else {
            text.push_str(line)?;
        }
        text.push('\n')?;
    }
    if is_more {
        push_lines(text, lines)?;
    }
    Ok(())
}

/// Whether the scenario with the lines of a row is read or refused as it says.
fn row_is_told(alloc: Global, row: &str) -> bool {
    let (key, rest) = columns(row);
    let (lines, rest) = columns(rest);
    let (what, expected) = columns(rest);
    let mut text = String::new(alloc);
    push_changed(&mut text, key, lines).is_ok() && is_told(alloc, text.as_bytes(), what, expected)
}

/// The scenarios with the lines of a table's rows are read or refused as these say.
pub(crate) fn are_told(rt: &impl Abort, alloc: Global, table: &str) {
    for row in table.lines() {
        agrees(rt, row_is_told(alloc, row), row);
    }
}
