//! The sets of small bounds that have at most one fault.

use lf_faults::{FaultSet, FaultSpec, read_fault};
use lf_stakes::single_sets;
use std::alloc::Global;

/// Whether the set has the one fault of this text, or none where the text is `-`.
fn is_set(set: &FaultSet, text: &str) -> bool {
    match read_fault(text) {
        Some(fault) => set.len() == 1 && set.contains(&fault),
        None => text == "-" && set.is_empty(),
    }
}

/// Whether the sets are those of the texts, in order.
fn are_sets(sets: &[FaultSet], texts: &[&str]) -> bool {
    if sets.len() != texts.len() {
        return false;
    }
    for (set, text) in sets.iter().zip(texts) {
        if !is_set(set, text) {
            return false;
        }
    }
    true
}

/// Whether the single sets of bounds are those of the texts.
fn has_sets(alloc: Global, spec: Option<FaultSpec>, texts: &[&str]) -> bool {
    let Some(spec) = spec else {
        return false;
    };
    match single_sets(alloc, &spec) {
        Ok(sets) => are_sets(sets.as_slice(), texts),
        Err(_) => false,
    }
}

/// Two nodes up to step 2, with omissions at step 1.
fn spec(crashes: u32, budget: u32) -> Option<FaultSpec> {
    FaultSpec::new(2, 2, 1, crashes, budget)
}

#[test]
fn by_step_and_then_omissions_first(rt: HostRuntime) {
    let with_crashes = [
        "-",
        "omit 0>1 @1",
        "omit 1>0 @1",
        "crash 0 @1",
        "crash 1 @1",
        "crash 0 @2",
        "crash 1 @2",
    ];
    assert!(rt; has_sets(rt.alloc(), spec(1, 3), &with_crashes));
    assert!(rt; has_sets(rt.alloc(), spec(0, 1), &["-", "omit 0>1 @1", "omit 1>0 @1"]));
}

#[test]
fn without_a_budget_the_empty_set_alone(rt: HostRuntime) {
    assert!(rt; has_sets(rt.alloc(), spec(1, 0), &["-"]));
}
