//! Made protocols, a scenario of each, and its answer.

use crate::answers::{Why, answer};
use crate::cases::{Case, case_of, scenario_of};
use crate::tally::Tally;
use lf_faults::FaultSet;
use std::alloc::Global;
use std::process::Abort;

/// One case of this many is answered by a run of each allowed set, too.
const PLAIN: u64 = 5;

/// The answer to a case, in which all ways agree.
fn agreed(alloc: Global, case: &Case, plainly: bool) -> Result<Option<FaultSet>, Why> {
    match scenario_of(alloc, case.file.as_str(), case.scenario.as_str()) {
        Some(scenario) => answer(alloc, scenario, plainly),
        None => Err("refused"),
    }
}

/// Counts the answer to a case. Where the ways don't agree it ends, and tells the case.
fn count(rt: &impl Abort, alloc: Global, tally: &mut Tally, case: &Case, plainly: bool) {
    match agreed(alloc, case, plainly) {
        Ok(answer) => tally.count(&answer),
        Err(why) => assert!(rt; false, "{why}\n{}\n{}", case.file, case.scenario),
    }
}

/// Sixty-four made protocols with such notes, from a number on, have one answer each, whoever finds it. Of both kinds there are enough.
fn have_one_answer(rt: &impl Abort, alloc: Global, notes: &str, first: u64) {
    let mut tally = Tally::new();
    for of in first..first.saturating_add(64) {
        match case_of(alloc, notes, of) {
            Ok(Some(case)) => count(rt, alloc, &mut tally, &case, of % PLAIN == 0),
            _ => assert!(rt; false, "no case {of}"),
        }
    }
    assert!(rt; tally.has(15, 15), "{tally:?}");
}

#[test]
fn protocols_with_bare_notes_have_one_answer(rt: HostRuntime) {
    have_one_answer(&rt, rt.alloc(), "$asking$", 0);
}

#[test]
fn protocols_with_numbers_in_notes_have_one_answer(rt: HostRuntime) {
    have_one_answer(&rt, rt.alloc(), "$telling$", 64);
}

#[test]
fn protocols_with_sets_in_notes_have_one_answer(rt: HostRuntime) {
    have_one_answer(&rt, rt.alloc(), "$showing$", 128);
}

#[test]
fn protocols_with_words_in_notes_have_one_answer(rt: HostRuntime) {
    have_one_answer(&rt, rt.alloc(), "$passing$", 192);
}

#[test]
fn protocols_with_two_kinds_of_notes_have_one_answer(rt: HostRuntime) {
    have_one_answer(&rt, rt.alloc(), "$both$", 256);
}
