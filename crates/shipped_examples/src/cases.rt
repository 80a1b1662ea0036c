//! Cases: a made protocol, and a made scenario of it.

use crate::grammar::{Choices, made};
use crate::protocols::CASES;
use lf_faults::FaultSet;
use lf_outcome::{Scenario, holds};
use lf_own_scenario::read_with;
use lf_protocol_file::read_protocol;
use lf_sim::run;
use std::alloc::{AllocError, Global};

/// So many promises are tried at most.
const TRIES: u8 = 8;

/// The text of a protocol file, and that of a scenario of it.
#[derive(Drop)]
pub(crate) struct Case {
    pub(crate) file: String,
    pub(crate) scenario: String,
}

/// The scenario of these texts. None where one is refused.
pub(crate) fn scenario_of(alloc: Global, file: &str, scenario: &str) -> Option<Scenario> {
    let Ok(file) = read_protocol(alloc, file.as_bytes()) else {
        return None;
    };
    read_with(alloc, scenario.as_bytes(), &file).ok()
}

/// Whether the run without faults keeps the promise.
fn is_kept(alloc: Global, file: &str, scenario: &str) -> bool {
    let Some(scenario) = scenario_of(alloc, file, scenario) else {
        return false;
    };
    let setting = scenario.setting();
    match run(alloc, setting, &FaultSet::empty()) {
        Ok(played) => holds(setting, scenario.formula(), &played),
        Err(_) => false,
    }
}

/// The case of a number, with such notes. Of some promises it has the first one that is kept without faults, or else the last. None where
/// the grammar has a gap.
pub(crate) fn case_of(alloc: Global, notes: &str, of: u64) -> Result<Option<Case>, AllocError> {
    let Some(both) = made(alloc, CASES, notes, Choices::new(of, 0))? else {
        return Ok(None);
    };
    let (file, bounds) = both.as_str().split_once('^').unwrap_or(("", ""));
    let mut scenario = String::new(alloc);
    for part in 1..=TRIES {
        let Some(outcome) = made(alloc, CASES, "$outcome$", Choices::new(of, part))? else {
            return Ok(None);
        };
        scenario = format!(in alloc; "outcome = {outcome}\n{bounds}")?;
        if is_kept(alloc, file, scenario.as_str()) {
            break;
        }
    }
    let file = String::from_str(alloc, file)?;
    Ok(Some(Case { file, scenario }))
}
