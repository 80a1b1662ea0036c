//! In how many runs the rules of a small protocol are taken, and its nodes enter something under its topics.

use crate::asking::asking;
use lf_faults::{FaultSet, FaultSpec};
use lf_latency::{Links, Network};
use lf_protocols::Protocol;
use lf_sim::Setting;
use lf_stakes::{rules_of_start, rules_taken, single_sets, times_entered};
use std::alloc::Global;

/// A protocol of two nodes up to step 3, whose notes arrive at the next step, with omissions up to step 2, one crash and no pause.
fn setting(protocol: Option<Protocol>) -> Option<Setting<Protocol>> {
    let network = Network::new([0; 32], Links::new(2, 1, 1), 2, 3);
    Setting::new(protocol?, network, FaultSpec::new(2, 3, 2, 1, 2)?)
}

/// Whether the counts over these sets are those wanted.
fn counts(alloc: Global, setting: &Setting<Protocol>, sets: &[FaultSet], wanted: &[usize]) -> bool {
    match rules_taken(alloc, setting, sets) {
        Ok(counts) => counts.as_slice() == wanted,
        Err(_) => false,
    }
}

/// Whether the counts over so many single sets are those wanted.
fn single_counts(alloc: Global, protocol: Option<Protocol>, runs: usize, wanted: &[usize]) -> bool {
    let Some(setting) = setting(protocol) else {
        return false;
    };
    match single_sets(alloc, &setting.spec) {
        Ok(sets) => sets.len() == runs && counts(alloc, &setting, sets.as_slice(), wanted),
        Err(_) => false,
    }
}

// Of 11 runs, node 0 sends in all but that in which it crashes at step 1. Node 1 hears no note where node 0 does so, or where it crashes itself at step 1 or 2:
// a note that is lost is followed by another.
#[test]
fn each_run_counts_once(rt: HostRuntime) {
    assert!(rt; single_counts(rt.alloc(), asking(rt.alloc()), 11, &[10, 0, 8, 0]));
}

#[test]
fn a_set_that_is_given_twice_counts_twice(rt: HostRuntime) {
    let twice = [FaultSet::empty(), FaultSet::empty()];
    let holds = match setting(asking(rt.alloc())) {
        Some(setting) => {
            counts(rt.alloc(), &setting, &twice, &[2, 0, 2, 0])
                && counts(rt.alloc(), &setting, &[], &[0, 0, 0, 0])
        }
        None => false,
    };
    assert!(rt; holds);
}

#[test]
fn a_protocol_that_is_not_one_of_rules_has_no_count(rt: HostRuntime) {
    assert!(rt; single_counts(rt.alloc(), Protocol::retry(2, 1), 11, &[]));
}

/// Whether those of the start are wanted.
fn starts(alloc: Global, protocol: Option<Protocol>, wanted: &[bool]) -> bool {
    let Some(protocol) = protocol else {
        return false;
    };
    match rules_of_start(alloc, &protocol) {
        Ok(starts) => starts.as_slice() == wanted,
        Err(_) => false,
    }
}

// Node 0 takes rule 4 in each run, before step 1, and so at no step.
#[test]
fn a_rule_of_the_start_is_told_apart(rt: HostRuntime) {
    let alloc = rt.alloc();
    let own = starts(alloc, asking(alloc), &[false, false, false, true]);
    assert!(rt; own && starts(alloc, Protocol::retry(2, 1), &[]));
}

/// In how many of the runs of the single sets something is entered under a topic. None where memory has run out.
fn single_entered(alloc: Global, topic: u8) -> Option<usize> {
    let setting = setting(asking(alloc))?;
    let sets = single_sets(alloc, &setting.spec).ok()?;
    times_entered(alloc, &setting, sets.as_slice(), topic).ok()
}

// Under topic 0 each node enters something, under topic 1 node 1 where it has heard a note, as it does by rule 3, and under topic 2 none. There is no topic 3.
#[test]
fn each_run_counts_for_a_topic(rt: HostRuntime) {
    let alloc = rt.alloc();
    let each = single_entered(alloc, 0) == Some(11);
    let heard = single_entered(alloc, 1) == Some(8);
    let none = single_entered(alloc, 2) == Some(0) && single_entered(alloc, 3) == Some(0);
    assert!(rt; each && heard && none);
}
