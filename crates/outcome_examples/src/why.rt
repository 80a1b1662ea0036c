//! Why answers are ones: what each fault of a set is needed for, and what stands behind `none`, by hand.

use crate::formulas::formula;
use crate::texts::{agrees, columns, outcome, setting};
use lf_faults::FaultSet;
use lf_outcome::{Formula, holds, named};
use lf_protocols::{Fact, Protocol};
use lf_sim::{Setting, run};
use lf_trace::read_faults;
use lf_tree::{Tree, read_tree};
use lf_why::{why_none, why_set};
use std::alloc::Global;

/// What is told of the faults of a list, where the outcome of a word is promised.
fn told_of_set(
    alloc: Global,
    setting: &Setting<Protocol>,
    word: &str,
    faults: &str,
) -> Option<String> {
    let outcome = outcome(word)?;
    let faults = read_faults(faults)?;
    let (nodes, horizon) = (setting.network.nodes(), setting.network.horizon());
    match (
        named(alloc, outcome, nodes, horizon),
        run(alloc, setting, &faults),
    ) {
        (Ok(formula), Ok(run)) => why_set(alloc, setting, &formula, &run).ok(),
        _ => None,
    }
}

/// Sets of faults, in blocks with `#` between any two. A block's first line is a protocol, the numbers of its setting, an outcome and a
/// list of faults, and the others are what is told of the set.
const SETS: &str = concat!(
    // Nothing is told of no fault.
    "retry 2 1|3 1 0 2 1 1 1 0 0|delivered|\n",
    // One fault.
    "#retry 2 1|3 1 0 2 1 1 1 0 0|delivered|omit 0>1 @1\n",
    "without omit 0>1 @1: reaches\nstep 2\n- 1 has\n+ 1 lacks\n",
    // Two faults, which are both needed.
    "#primary_backup 3 3|6 2 0 2 0 1 1 0 0|one_primary|omit 0>1 @1,omit 0>1 @2\n",
    "without omit 0>1 @1: reaches\n",
    "step 3\n- 1 empty not_done backup unclaimed\n+ 1 empty not_done primary unclaimed\n",
    "without omit 0>1 @2: reaches\n",
    "step 3\n- 1 holds not_done backup unclaimed\n+ 1 empty not_done primary unclaimed\n",
    // A node that is down sends nothing, here until it wakes; the last step after which another differs is told, with all nodes.
    "#redundant 2 1|3 1 0 2 1 1 1 0 0|delivered|pause 0 @1\n",
    "without pause 0 @1: reaches\nstep 1\n- 0>1 data 2\nstep 2\n- 1 has\n+ 1 lacks\n",
    "#retry 3 1|3 1 0 2 1 1 1 0 0|delivered|pause 0 @1\n",
    "without pause 0 @1: reaches\nstep 1\n- 0>1 data 2\n- 0>2 data 2\nstep 3\n- 1 has\n+ 1 lacks\n- 2 has\n+ 2 lacks\n",
    // That votes to a node that is down are lost isn't told.
    "#two_phase 3 3|5 0 1 1 0 1 1 0 0|unblocked|crash 0 @2\n",
    "without crash 0 @2: reaches\nstep 3\n- 0>1 commit 4\n- 0>2 commit 4\n",
    "step 5\n- 1 committed\n+ 1 prepared\n- 2 committed\n+ 2 prepared\n",
    // Nor is a note that arrives after the end, or one to a node that is down, too.
    "#retry 2 1|3 0 2 2 0 1 3 0 0|delivered|crash 0 @1\n",
    "without crash 0 @1: misses\nstep 1\n- 0 has\n+ 0 down\n",
    "#retry 2 1|3 0 2 2 0 1 1 0 0|delivered|crash 0 @1,crash 1 @2\n",
    "without crash 0 @1: reaches\nstep 1\n- 0 has\n+ 0 down\n",
    "without crash 1 @2: reaches\nstep 2\n- 1 lacks\n+ 1 down\n",
    // A fault without which the run misses, a pause that has nothing but its node down, and an omission that changes nothing.
    "#retry 2 1|3 1 1 2 1 2 1 0 0|delivered|omit 0>1 @1,pause 0 @3\n",
    "without omit 0>1 @1: reaches\nstep 2\n- 1 has\n+ 1 lacks\n",
    "without pause 0 @3: misses\nstep 3\n- 0 has\n+ 0 down\n",
    "#retry 2 1|3 1 0 2 1 1 1 0 0|delivered|omit 0>1 @1,omit 1>0 @1\n",
    "without omit 0>1 @1: reaches\nstep 2\n- 1 has\n+ 1 lacks\n",
    "without omit 1>0 @1: misses\n",
    // Two nodes differ after the same step, and the first of them is told.
    "#retry 3 1|3 1 0 2 1 1 1 0 0|delivered|omit 0>1 @1,omit 0>2 @1\n",
    "without omit 0>1 @1: misses\nstep 2\n- 1 has\n+ 1 lacks\n",
    "without omit 0>2 @1: misses\nstep 2\n- 2 has\n+ 2 lacks\n",
);

/// Whether of the set of the first line the others are told.
fn set_is_told(alloc: Global, block: &str) -> bool {
    let (head, lines) = block.split_once('\n').unwrap_or((block, ""));
    let (protocol, rest) = columns(head);
    let (numbers, rest) = columns(rest);
    let (word, faults) = columns(rest);
    match setting(protocol, numbers) {
        Some(setting) => match told_of_set(alloc, &setting, word, faults) {
            Some(found) => found.as_str() == lines,
            None => false,
        },
        None => false,
    }
}

#[test]
fn each_fault_of_a_set_is_told_with_what_it_is_needed_for(rt: HostRuntime) {
    for block in SETS.split('#') {
        agrees(&rt, set_is_told(rt.alloc(), block), block);
    }
}

/// What stands behind `none`, where the run without faults keeps the promise.
fn told_of_none(
    alloc: Global,
    setting: &Setting<Protocol>,
    formula: &Formula<Fact>,
    tree: &Tree,
) -> Option<String> {
    match run(alloc, setting, &FaultSet::empty()) {
        Ok(run) if holds(setting, formula, &run) => { why_none(alloc, setting, formula, tree).ok() }
        _ => None,
    }
}

/// Trees without an answer, in blocks with `#` between any two. A block's first line is a protocol, the numbers of its setting, a
/// formula and a tree, and the others are what is told.
const NONES: &str = concat!(
    // Two tries are enough for one loss.
    "retry 2 2|3 1 0 1 0 1 1 0 0|shows 0 3 has,shows 1 3 has,all 2|",
    r#"{"answer":null,"format":1,"root":{"edges":["omit 0>1 @1"],"kids":[{"misses":false}],"reach":[3,3]}}"#,
    "\nruns at level 0: 1\nruns at level 1: 1\nrests on node 0 up to step 3\nrests on node 1 up to step 3\n",
    // A node on which nothing rests, and a promise that nodes keep that do nothing.
    "#retry 3 1|3 1 0 1 0 1 1 0 0|shows 0 2 has|",
    r#"{"answer":null,"format":1,"root":{"edges":[],"kids":[],"reach":[2,1,1]}}"#,
    "\nruns at level 0: 1\nruns at level 1: 0\n",
    "rests on node 0 up to step 2\nrests on node 1 up to step 1\nrests on node 2 up to step 1\ntrue before step 1\n",
    "#retry 2 1|3 1 0 0 0 1 1 0 0|shows 0 1 has|",
    r#"{"answer":null,"format":1,"root":{"misses":false}}"#,
    "\nruns at level 0: 1\nrests on node 0 up to step 1\nrests on no step of node 1\ntrue before step 1\n",
    // A promise that rests on nothing.
    "#retry 2 1|3 1 0 0 0 1 1 0 0|down 1 4|",
    r#"{"answer":null,"format":1,"root":{"misses":false}}"#,
    "\nruns at level 0: 1\nrests on nothing\ntrue before step 1\n",
    // Levels of a tree are told whatever its reach is: here of five sets.
    "#retry 2 1|3 1 0 2 0 1 1 0 0|all 0|",
    r#"{"answer":null,"format":1,"root":{"edges":["omit 0>1 @1","omit 1>0 @1"],"kids":["#,
    r#"{"edges":["omit 1>0 @1"],"kids":[{"misses":false}],"reach":[0,0]},{"edges":[],"kids":[],"reach":[0,0]}],"reach":[0,0]}}"#,
    "\nruns at level 0: 1\nruns at level 1: 2\nruns at level 2: 1\nrests on nothing\ntrue before step 1\n",
);

/// Whether of the tree of the first line the others are told.
fn none_is_told(alloc: Global, block: &str) -> bool {
    let (head, lines) = block.split_once('\n').unwrap_or((block, ""));
    let (protocol, rest) = columns(head);
    let (numbers, rest) = columns(rest);
    let (promise, text) = columns(rest);
    let Some(setting) = setting(protocol, numbers) else {
        return false;
    };
    let Some(formula) = formula(alloc, promise) else {
        return false;
    };
    let Ok(tree) = read_tree(alloc, text.as_bytes()) else {
        return false;
    };
    match told_of_none(alloc, &setting, &formula, &tree) {
        Some(found) => found.as_str() == lines,
        None => false,
    }
}

#[test]
fn what_stands_behind_none_is_told_line_by_line(rt: HostRuntime) {
    for block in NONES.split('#') {
        agrees(&rt, none_is_told(rt.alloc(), block), block);
    }
}
