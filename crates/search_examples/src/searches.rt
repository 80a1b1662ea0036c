//! Whole searches, by one worker and by more.

use crate::texts::{agrees, asked, columns, is_text, scenario};
use crate::told::{found, found_all};
use lf_outcome::Scenario;
use lf_pool::NoGate;
use std::alloc::Global;
use std::rt::Clock;
use std::sync::{Arc, Wait};
use std::thread::Threads;

/// What so many workers find: the answer, and all least sets.
fn found_both(
    rt: &(impl Threads + Wait + Clock + Sync),
    alloc: Global,
    scenario: &Arc<Scenario>,
    workers: u32,
) -> Option<String> {
    match (
        found(rt, alloc, scenario, workers, &NoGate),
        found_all(rt, alloc, scenario, workers),
    ) {
        (Some(one), Some(all)) => {
            let (sets, _) = columns(all.as_str());
            format!(in alloc; "{one} of{sets}").ok()
        }
        _ => None,
    }
}

/// Whether so many workers find this.
fn is_found(
    rt: &(impl Threads + Wait + Clock + Sync),
    alloc: Global,
    scenario: &Arc<Scenario>,
    workers: u32,
    wanted: &str,
) -> bool {
    is_text(found_both(rt, alloc, scenario, workers), wanted)
}

/// For each row the protocol, the bounds, the further lines, and what is found: the answer and how many sets are run, or a level with too many sets.
const FOUND: &str = concat!(
    "retry|3 4 3 0 2|tries = 1;outcome = \"delivered\"|omit 0>1 @1|3|",
    r#"{"answer":["omit 0>1 @1"],"format":1,"root":{"edges":["omit 0>1 @1","omit 0>2 @1"],"#,
    r#""kids":[{"misses":true},{"misses":true}],"reach":[4,4,4]}} of;omit 0>1 @1;omit 0>2 @1"#,
    "\nretry|3 4 2 0 6|tries = 3;outcome = \"delivered\"|none|\n",
    "retry|3 4 3 0 3|tries = 3;outcome = \"delivered\"|omit 0>1 @1,omit 0>1 @2,omit 0>1 @3|\n",
    "retry|3 4 1 1 2|tries = 3;outcome = \"delivered\"|omit 0>1 @1,crash 0 @2|\n",
    "redundant|3 4 1 1 3|tries = 4;outcome = \"delivered\"|none|\n",
    "redundant|3 2 1 0 1|tries = 2;outcome = \"delivered\"|omit 0>1 @1|\n",
    "retry|2 1 0 0 0|tries = 1;outcome = \"delivered\"|-|1|",
    r#"{"answer":[],"format":1,"root":{"misses":true}} of;-"#,
    "\nretry|2 3 2 0 1|tries = 2;outcome = \"delivered\";spread = 3;",
    "seed = \"0000000000000000000000000000000000000000000000000000000000000000\"|omit 0>1 @2|\n",
    "two_phase|3 6 0 1 1|patience = 4;outcome = \"unblocked\"|crash 0 @2|\n",
    "three_phase|3 10 3 0 2|patience = 3;outcome = \"agreement\"|omit 0>1 @3|\n",
    "three_phase|3 10 0 2 2|patience = 3;outcome = \"agreement\"|none|\n",
    "primary_backup|3 6 2 0 2|patience = 3;outcome = \"one_primary\"|omit 0>1 @1,omit 0>1 @2|\n",
    "primary_backup|3 6 2 0 2|patience = 3;outcome = [\"shows\", 2, 6, \"unclaimed\"]|",
    r#"omit 0>1 @1,omit 0>1 @2|7|{"answer":["omit 0>1 @1","omit 0>1 @2"],"format":1,"root":"#,
    r#"{"edges":["omit 0>1 @1","omit 2>0 @1","omit 0>1 @2"],"kids":[{"edges":["omit 2>0 @1","omit 0>1 @2"],"#,
    r#""kids":[{"misses":false},{"misses":true}],"reach":[5,5,6]},{"edges":["omit 0>1 @2"],"kids":[{"misses":false}],"#,
    r#""reach":[5,5,6]},{"edges":[],"kids":[],"reach":[5,5,6]}],"reach":[5,5,6]}} of;omit 0>1 @1,omit 0>1 @2"#,
    "\nprimary_backup|3 6 0 2 2|patience = 3;outcome = \"durable\"|crash 1 @4,crash 0 @5|\n",
    "primary_backup|3 6 0 0 1|patience = 3;outcome = \"one_primary\";pauses = 1;pause_length = 2|pause 0 @1|\n",
    "redundant|4 6 3 0 2|tries = 6;outcome = \"delivered\"|none|370|\n",
    "retry|3 4 3 0 3|tries = 3;outcome = \"delivered\";max_sets = 5|full 1 6 offull 1 6\n",
    "retry|3 4 3 0 3|tries = 3;outcome = \"delivered\";max_sets = 14|full 2 15 offull 2 15\n",
    "retry|3 4 3 0 3|tries = 3;outcome = \"delivered\";max_sets = 15|full 3 20 offull 3 20\n",
    "retry|3 4 3 0 3|tries = 3;outcome = \"delivered\";max_sets = 20|omit 0>1 @1,omit 0>1 @2,omit 0>1 @3|\n",
);

/// Whether one worker finds what begins so, and more workers find the same.
fn each_finds(
    rt: &(impl Threads + Wait + Clock + Sync),
    alloc: Global,
    scenario: &Arc<Scenario>,
    wanted: &str,
) -> bool {
    let Some(alone) = found_both(rt, alloc, scenario, 1) else {
        return false;
    };
    let alone = alone.as_str();
    alone.starts_with(wanted)
        && is_found(rt, alloc, scenario, 2, alone)
        && is_found(rt, alloc, scenario, 3, alone)
        && is_found(rt, alloc, scenario, 32, alone)
}

/// Whether one worker finds for a row what it says, and more workers the same.
fn row_is_found(rt: &(impl Threads + Wait + Clock + Sync), alloc: Global, row: &str) -> bool {
    match asked(alloc, row) {
        Some((scenario, wanted)) => each_finds(rt, alloc, &scenario, wanted),
        None => false,
    }
}

#[test]
fn each_number_of_workers_finds_the_same(rt: HostRuntime) {
    for row in FOUND.lines() {
        agrees(&rt, row_is_found(&rt, rt.alloc(), row), row);
    }
}

/// Whether no workers and too many are refused.
fn are_refused(rt: &(impl Threads + Wait + Clock + Sync), alloc: Global) -> bool {
    let lines = "tries = 1;outcome = \"delivered\"";
    let Some(scenario) = scenario(alloc, "retry", "3 4 3 0 2", lines) else {
        return false;
    };
    is_found(rt, alloc, &scenario, 0, "pool 1 ofpool 1")
        && is_found(rt, alloc, &scenario, 33, "pool 1 ofpool 1")
        && is_found(rt, alloc, &scenario, 4_294_967_295, "pool 1 ofpool 1")
}

#[test]
fn no_workers_and_too_many_are_refused(rt: HostRuntime) {
    agrees(
        &rt,
        are_refused(&rt, rt.alloc()),
        "0, 33 and 4294967295 workers",
    );
}
