//! Pairs of texts that say the same scenario of a protocol file, or the same formula once it is unfolded.

use lf_outcome::{Scenario, same, unfold};
use lf_own_scenario::read_with;
use lf_protocol_file::{ProtocolFile, read_protocol};
use std::alloc::{AllocError, Global};
use std::process::Abort;

/// A protocol.
const FILE: &str = concat!(
    "name = \"relay\"\n",
    "given = { limit = 3, peers = \"{1..}\" }\n",
    "state = { phase = \"idle | busy\", done = \"flag\" }\n",
    "notes = [\"ASK\"]\n",
    "facts = { late = \"phase = busy\" }\n",
    "rules = [{ on = \"begin\", when = \"t < limit\", set = \"phase = busy\", send = \"ASK to peers\" }]\n",
    "outcomes = { done = \"no late\" }\n",
);

/// A scenario of it, without its last lines.
const SCENARIO: &str =
    "nodes = 3\nhorizon = 2\nlast_omission = 1\ncrashes = 1\nbudget = 1\nprotocol = \"relay\"\n";

/// Two texts of its last lines, with `~` between, by which the scenario is the same. In each `;` stands for the end of a line.
const SAME: &str = concat!(
    "outcome = \"done at 1\"~outcome = [\"shows\", 1, 2, \"done\"]\n",
    // The name of an outcome comes before what it says itself.
    "outcome = \"done\"~outcome = \"no late\"\n",
    "outcome = \"some not done of peers\"~outcome = [\"any\", [\"shows\", 1, 2, \"not_done\"], [\"shows\", 2, 2, \"not_done\"]]\n",
    "outcome = \"down 0 or down 1 and down 2\"~outcome = [\"any\", [\"down\", 0, 2], [\"all\", [\"down\", 1, 2], [\"down\", 2, 2]]]\n",
    "outcome = \"done\";given = { peers = \"all - 0\" }~outcome = \"done\";given = { limit = 3, peers = \"{1, 2}\" }\n",
);

/// The same of scenarios whose formulas are the same where they are unfolded.
const UNFOLDED: &str = concat!(
    "outcome = \"always down 0\"~outcome = [\"all\", [\"down\", 0, 1], [\"down\", 0, 2]]\n",
    "outcome = \"ever done at 1\"~outcome = [\"any\", [\"shows\", 1, 1, \"done\"], [\"shows\", 1, 2, \"done\"]]\n",
    "outcome = \"ever down 2 or down 1\"~outcome = [\"any\", [\"any\", [\"down\", 2, 1], [\"down\", 2, 2]], [\"down\", 1, 2]]\n",
);

/// The scenario with these last lines. None where it is refused.
fn with_lines(
    alloc: Global,
    file: &ProtocolFile,
    lines: &str,
) -> Result<Option<Scenario>, AllocError> {
    let lines = lines.replace(alloc, ";", "\n")?;
    let text = format!(in alloc; "{SCENARIO}{lines}\n")?;
    Ok(read_with(alloc, text.as_bytes(), file).ok())
}

/// Whether the two scenarios that a row says are the same.
fn row_is_same(alloc: Global, file: &ProtocolFile, row: &str) -> bool {
    let (one, other) = row.split_once('~').unwrap_or((row, ""));
    let (Ok(Some(one)), Ok(Some(other))) = (
        with_lines(alloc, file, one),
        with_lines(alloc, file, other),
    ) else {
        return false;
    };
    one.same(&other)
}

/// Whether the two scenarios that a row says have, unfolded, one formula, and aren't the same.
fn row_unfolds_to_one(alloc: Global, file: &ProtocolFile, row: &str) -> bool {
    let (one, other) = row.split_once('~').unwrap_or((row, ""));
    let (Ok(Some(one)), Ok(Some(other))) = (
        with_lines(alloc, file, one),
        with_lines(alloc, file, other),
    ) else {
        return false;
    };
    let (Ok(unfolded), Ok(others)) = (unfold(alloc, one.formula()), unfold(alloc, other.formula()))
    else {
        return false;
    };
    same(&unfolded, &others) && !one.same(&other)
}

/// Each row's scenarios are the same.
fn are_same(rt: &impl Abort, alloc: Global, file: &ProtocolFile) {
    for row in SAME.lines() {
        assert!(rt; row_is_same(alloc, file, row), "at {row}");
    }
}

/// Each row's scenarios have one formula once it is unfolded.
fn unfold_to_one(rt: &impl Abort, alloc: Global, file: &ProtocolFile) {
    for row in UNFOLDED.lines() {
        assert!(rt; row_unfolds_to_one(alloc, file, row), "at {row}");
    }
}

#[test]
fn texts_say_the_same(rt: HostRuntime) {
    match read_protocol(rt.alloc(), FILE.as_bytes()) {
        Ok(file) => are_same(&rt, rt.alloc(), &file),
        Err(_) => assert!(&rt; false),
    }
}

#[test]
fn spans_say_what_each_step_does(rt: HostRuntime) {
    match read_protocol(rt.alloc(), FILE.as_bytes()) {
        Ok(file) => unfold_to_one(&rt, rt.alloc(), &file),
        Err(_) => assert!(&rt; false),
    }
}
