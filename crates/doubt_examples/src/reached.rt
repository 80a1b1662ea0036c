//! In how many runs of a small scenario its outcome is reached.

use lf_scenario::read;
use lf_stakes::{single_sets, times_true};
use std::alloc::Global;

/// Node 0 sends the data to node 1 at step 1, once. It arrives at step 2, and the last step is 3.
const ONE_TRY: &str = concat!(
    "nodes = 2\n",
    "horizon = 3\n",
    "last_omission = 2\n",
    "crashes = 1\n",
    "budget = 2\n",
    "protocol = \"retry\"\n",
    "tries = 1\n",
);

/// In how many of the runs of its single sets it reaches an outcome. None where it has no such outcome, or memory has run out.
fn reached(alloc: Global, outcome: &str) -> Option<usize> {
    let mut text = String::new(alloc);
    write!(text, "{ONE_TRY}outcome = {outcome}\n").ok()?;
    let scenario = read(alloc, text.as_str().as_bytes()).ok()?;
    let sets = single_sets(alloc, &scenario.setting().spec).ok()?;
    times_true(
        alloc,
        scenario.setting(),
        scenario.formula(),
        sets.as_slice(),
    )
    .ok()
}

// Of 11 runs, one note is lost that matters, and then node 1 lacks at step 3 what node 0 has. Node 1 isn't up at step 3 in three other runs, and in one node 0
// crashes before it sends.
#[test]
fn each_run_reaches_it_or_misses(rt: HostRuntime) {
    let alloc = rt.alloc();
    let delivered = reached(alloc, "\"delivered\"") == Some(10);
    let has = reached(alloc, "[\"shows\", 1, 3, \"has\"]") == Some(6);
    let none = reached(alloc, "[\"any\"]") == Some(0);
    assert!(rt; delivered && has && none);
}
