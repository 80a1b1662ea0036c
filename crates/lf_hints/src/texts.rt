//! What is wrong with what an engine was given, and how to see what it found.

use crate::delays::delays_hint as delays_hint_of;
use crate::faults::faults_hint;
use crate::full::{Wanted, full_hint};
use crate::hint::told;
use crate::scenario::made_hint;
use crate::see::{late_run_command, run_command};
use crate::takes::at;
use crate::verdict::verdict_hint;
use lf_certificate::Reason;
use lf_delays::Delay;
use lf_faults::FaultSet;
use lf_outcome::Scenario;
use lf_scenario::{Key, read};
use lf_tree::Tree;
use std::alloc::{AllocError, Global};

/// What is wrong with the text of a combination of a sweep, which was made of this scenario's: lines are those of the scenario. Nothing
/// where it isn't refused. The error, also below, is that memory has run out.
pub fn combination_hint(alloc: Global, scenario: &[u8], text: &[u8]) -> Result<String, AllocError> {
    match read(alloc, text) {
        Ok(_) => Ok(String::new(alloc)),
        Err(error) => made_hint(alloc, scenario, text, error),
    }
}

/// What to do where a level of a search has `count` sets, and the scenario lets it keep `most`.
pub fn level_hint(
    alloc: Global,
    wanted: Wanted,
    level: u32,
    count: u64,
    most: u32,
) -> Result<String, AllocError> {
    told(alloc, Some(full_hint(wanted, level, count, most)))
}

/// What is wrong with the words for a set of faults of a scenario.
pub fn set_hint(alloc: Global, scenario: &Scenario, faults: &str) -> Result<String, AllocError> {
    told(alloc, faults_hint(&scenario.setting().spec, faults))
}

/// What is wrong with the words for the arrivals of late notes of a scenario.
pub fn delays_hint(alloc: Global, scenario: &Scenario, delays: &str) -> Result<String, AllocError> {
    told(alloc, delays_hint_of(&scenario.setting().network, delays))
}

/// Why a certificate isn't accepted for a scenario: which set of faults stands at the path, and what is wrong there.
pub fn judged_hint(
    alloc: Global,
    scenario: &Scenario,
    tree: &Tree,
    reason: Reason,
    path: &[usize],
) -> Result<String, AllocError> {
    told(
        alloc,
        verdict_hint(&scenario.setting().spec, tree, reason, path),
    )
}

/// How to see what the first of the sets of faults does that were found: the command `leastfault run FILE FAULTS`, with `--protocol PROTOCOL`
/// where a protocol's file is named, for files as a shell takes them. Nothing where there is no set.
pub fn see_hint(
    alloc: Global,
    file: &str,
    protocol: Option<&str>,
    sets: &[FaultSet],
) -> Result<String, AllocError> {
    told(alloc, run_command(file, protocol, sets))
}

/// The same of an answer over every delay, whose late notes the command has behind `--delays`.
pub fn see_late_hint(
    alloc: Global,
    file: &str,
    protocol: Option<&str>,
    set: &FaultSet,
    delays: &[Delay],
) -> Result<String, AllocError> {
    late_run_command(alloc, file, protocol, set, delays)
}

/// That the seed of a scenario plays no part in an answer over every delay, where its text has one.
pub fn seed_note(alloc: Global, text: &[u8]) -> Result<String, AllocError> {
    match toml::table_from_slice(alloc, text) {
        Ok(table) if at(&table, Key::Seed.name()).is_some() => {
            String::from_str(alloc, "seed: it plays no part over every delay")
        }
        _ => Ok(String::new(alloc)),
    }
}
