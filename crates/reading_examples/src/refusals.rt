//! The words of refusals.

use crate::rows::agrees;
use lf_scenario::{Key, ScenarioError};
use std::alloc::Global;

/// Whether the refusal is told in these words.
fn is_told_as(alloc: Global, refusal: ScenarioError, words: &str) -> bool {
    match format!(in alloc; "{refusal}") {
        Ok(told) => told.as_str() == words,
        Err(_) => false,
    }
}

#[test]
fn refusals_are_told_in_words(rt: HostRuntime) {
    let out_of_range = ScenarioError::OutOfRange(Key::Nodes);
    let missing = ScenarioError::Missing(Key::Protocol);
    let have_words = is_told_as(
        rt.alloc(),
        out_of_range,
        "a number of `nodes` is out of range: it takes a whole number from 2 to 8",
    ) && is_told_as(
        rt.alloc(),
        missing,
        concat!(
            "the key `protocol` is missing: it takes a text: \"retry\", \"redundant\", \"two_phase\", \"three_phase\", ",
            "or with at least three nodes \"primary_backup\"",
        ),
    ) && is_told_as(
        rt.alloc(),
        ScenarioError::NoDocument,
        "the text is not TOML",
    );
    agrees(&rt, have_words, "refusals in words");
}
