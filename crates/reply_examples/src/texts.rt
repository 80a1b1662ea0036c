//! How a row of a table is taken apart, and how replies are compared with what it says.

use std::alloc::{AllocError, Global};
use std::process::Abort;

/// Three nodes, of which node 0 sends the value once.
pub(crate) const ONCE: &str =
    "nodes = 3\nhorizon = 4\nlast_omission = 3\ncrashes = 0\nbudget = 2\nprotocol = \"retry\"\ntries = 1\noutcome = \"delivered\"\n";

/// What is found at the row is what it says. Each comparison ends here: an assertion is dear to prove.
pub(crate) fn agrees(rt: &impl Abort, truth: bool, row: &str) {
    assert!(rt; truth, "at {row}");
}

/// The columns before and behind the first `|`.
pub(crate) fn columns(line: &str) -> (&str, &str) {
    line.split_once('|').unwrap_or((line, ""))
}

/// What stands behind the two columns that tell a scenario.
pub(crate) fn behind(row: &str) -> &str {
    columns(columns(row).1).1
}

/// The word at a place of words with blanks between any two.
fn word(words: &str, place: usize) -> &str {
    words.split(' ').nth(place).unwrap_or("")
}

/// The scenario of the numbers of its bounds and further lines.
fn bounded(alloc: Global, numbers: &str, lines: &str) -> Result<String, AllocError> {
    format!(in alloc;
        "nodes = {}\nhorizon = {}\nlast_omission = {}\ncrashes = {}\nbudget = {}\n{lines}\n",
        word(numbers, 0),
        word(numbers, 1),
        word(numbers, 2),
        word(numbers, 3),
        word(numbers, 4)
    )
}

/// The text of the scenario that the first two columns of a row tell, in which `;` stands for the end of a line: the numbers of its bounds, and its
/// further lines.
pub(crate) fn text_of(alloc: Global, row: &str) -> Result<String, AllocError> {
    let row = row.replace(alloc, ';', "\n")?;
    let (numbers, rest) = columns(row.as_str());
    let (lines, _) = columns(rest);
    bounded(alloc, numbers, lines)
}

/// Whether what was written and its status are those of a row: the status, and lines with `;` between any two.
pub(crate) fn is_reply(out: &[u8], status: u8, wanted: &str) -> bool {
    let (digit, lines) = columns(wanted);
    let mut rest = out;
    for line in lines.split(';') {
        match rest.strip_prefix(line.as_bytes()) {
            Some([b'\n', more @ ..]) => rest = more,
            _ => return false,
        }
    }
    rest.is_empty() && digit.parse::<u8>() == Ok(status)
}
