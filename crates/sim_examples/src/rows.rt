//! How the rows of tables are compared. Each comparison ends here: an assertion is dear to prove.

use std::process::Abort;

/// What is found at the row of this text is what it says.
pub(crate) fn agrees(rt: &impl Abort, truth: bool, row: &str) {
    assert!(rt; truth, "at {row}");
}

/// What is found at the row of these numbers is what it says.
pub(crate) fn agrees_at(rt: &impl Abort, truth: bool, row: &[u64]) {
    assert!(rt; truth, "at {row:?}");
}
