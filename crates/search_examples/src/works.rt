//! One set that reaches, and the one beneath it, which misses.

use crate::texts::{agrees, scenario};
use lf_faults::{Fault, FaultSet};
use lf_outcome::Scenario;
use lf_work::{Finding, Job, work};
use std::alloc::Global;
use std::sync::Arc;

/// What is found of a set.
fn found(
    alloc: Global,
    scenario: &Arc<Scenario>,
    set: FaultSet,
    path: Vec<usize>,
    ticket: u64,
) -> Option<Finding> {
    match Arc::try_clone(scenario) {
        Ok(shared) => work(&Job::new(shared, set, Vec::new(alloc), path, ticket)).ok(),
        Err(_) => None,
    }
}

/// Whether the empty set, with ticket 7, reaches within three steps, and this fault alone may change that.
fn reaches(found: Option<Finding>, fault: Fault) -> bool {
    let Some(root) = found else {
        return false;
    };
    match root.branch() {
        Some((reach, edges)) => {
            reach.items() == [3, 3].as_slice()
                && edges == [fault].as_slice()
                && !root.misses()
                && root.ticket() == 7
        }
        None => false,
    }
}

/// Whether the first kid misses.
fn misses(found: Option<Finding>) -> bool {
    match found {
        Some(kid) => kid.misses() && kid.branch().is_none() && kid.path() == [0].as_slice(),
        None => false,
    }
}

/// Whether the empty set reaches, and the one of the fault beneath it misses.
fn are_worked(alloc: Global, scenario: &Arc<Scenario>, fault: Fault) -> bool {
    let empty = FaultSet::empty();
    let (Some(larger), Ok(path)) = (empty.insert(fault), vec![in alloc; 0]) else {
        return false;
    };
    reaches(found(alloc, scenario, empty, Vec::new(alloc), 7), fault)
        && misses(found(alloc, scenario, larger, path, 8))
}

/// The same, where one try of node 0 is to be delivered, and one omission may be.
fn try_is_worked(alloc: Global) -> bool {
    let lines = "tries = 1;outcome = \"delivered\"";
    match (
        scenario(alloc, "retry", "2 3 1 0 1", lines),
        Fault::omit(0, 1, 1),
    ) {
        (Some(scenario), Some(lost)) => are_worked(alloc, &scenario, lost),
        _ => false,
    }
}

#[test]
fn works_the_empty_set_and_the_one_beneath_it(rt: HostRuntime) {
    agrees(&rt, try_is_worked(rt.alloc()), "one try");
}
