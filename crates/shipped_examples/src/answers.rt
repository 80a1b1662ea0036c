//! Answers to scenarios, found in several ways.

use lf_book::{Ended, solve};
use lf_faults::FaultSet;
use lf_outcome::Scenario;
use lf_plain::first_missing;
use lf_symmetry::merged_answer;
use std::alloc::Global;
use std::sync::Arc;

/// Why there is no answer in which all ways agree.
pub(crate) type Why = &'static str;

/// Why there is none where memory has run out.
const NO_MEMORY: Why = "no memory";

/// The answer of a search by one thread.
fn searched(alloc: Global, scenario: &Arc<Scenario>) -> Result<Option<FaultSet>, Why> {
    let Ok(shared) = Arc::try_clone(scenario) else {
        return Err(NO_MEMORY);
    };
    match solve(alloc, shared) {
        Ok(Ended::Finished(book)) => Ok(book.answer()),
        Ok(Ended::Full { .. }) => Err("a level is full"),
        Err(_) => Err(NO_MEMORY),
    }
}

/// The answer by merged states.
fn merged(alloc: Global, scenario: &Scenario) -> Result<Option<FaultSet>, Why> {
    merged_answer(alloc, scenario).map_err(|_| NO_MEMORY)
}

/// The answer by a run of each allowed set.
fn plain(alloc: Global, scenario: &Scenario) -> Result<Option<FaultSet>, Why> {
    first_missing(alloc, scenario.setting(), scenario.formula()).map_err(|_| NO_MEMORY)
}

/// The answer to a scenario by a search and by merged states, and where it is asked for by a run of each set.
pub(crate) fn answer(
    alloc: Global,
    scenario: Scenario,
    plainly: bool,
) -> Result<Option<FaultSet>, Why> {
    let Ok(scenario) = Arc::new(alloc, scenario) else {
        return Err(NO_MEMORY);
    };
    let found = searched(alloc, &scenario)?;
    if found != merged(alloc, &scenario)? {
        return Err("search and answer differ");
    }
    if plainly && found != plain(alloc, &scenario)? {
        return Err("search and a run of each set differ");
    }
    Ok(found)
}
