//! Trees of small scenarios, and all changes of them.
//!
//! In each line of a table stand a scenario, in which `;` ends a line, and its answer: its faults with `,` between them, or `none`.

use crate::changes::{DIFFER, judged, with_answers, with_changes};
use crate::growing::grown;
use crate::plain::Case;
use crate::required::every_fault;
use crate::texts::{agrees, columns, scenario};
use lf_faults::{FaultSet, read_fault};
use lf_tree::{Tree, count};
use std::alloc::Global;

/// The answer of a text.
fn answer(text: &str) -> Option<FaultSet> {
    if text == "none" {
        return None;
    }
    let mut set = FaultSet::empty();
    for word in text.split(',') {
        if let Some(fault) = read_fault(word) {
            set = set.insert(fault).unwrap_or(set);
        }
    }
    Some(set)
}

/// What both checkers say of the tree and of each change of it. They differ where the tree hasn't the answer of the text or isn't accepted.
fn tree_agrees(case: &Case<'_>, tree: &mut Tree, wanted: &str) -> u32 {
    if tree.answer != answer(wanted) || judged(case, tree) != 1 {
        return DIFFER;
    }
    let mut met = with_answers(case, tree);
    for place in 0..count(tree) {
        met |= with_changes(case, tree, place);
    }
    met
}

/// The same of the tree of a row's scenario.
fn row_agrees(alloc: Global, row: &str) -> u32 {
    let (lines, wanted) = columns(row);
    let Some(scenario) = scenario(alloc, lines) else {
        return DIFFER;
    };
    let Ok(faults) = every_fault(alloc, &scenario.setting().spec) else {
        return DIFFER;
    };
    let Ok(mut tree) = grown(alloc, &scenario) else {
        return DIFFER;
    };
    let case = Case {
        alloc,
        scenario: &scenario,
        faults: faults.as_slice(),
    };
    tree_agrees(&case, &mut tree, wanted)
}

/// One try or two among two nodes or three, with any kind of fault, and without any.
const SMALL: &str = concat!(
    "nodes = 2;horizon = 3;last_omission = 1;crashes = 0;budget = 1;",
    "protocol = \"retry\";tries = 1;outcome = \"delivered\"|omit 0>1 @1\n",
    "nodes = 2;horizon = 3;last_omission = 1;crashes = 0;budget = 0;",
    "protocol = \"retry\";tries = 1;outcome = \"delivered\"|none\n",
    "nodes = 2;horizon = 1;last_omission = 0;crashes = 0;budget = 0;protocol = \"retry\";tries = 1;outcome = \"delivered\"|\n",
    "nodes = 2;horizon = 3;last_omission = 2;crashes = 0;budget = 1;",
    "protocol = \"retry\";tries = 2;outcome = \"delivered\";spread = 1|none\n",
    "nodes = 2;horizon = 3;last_omission = 2;crashes = 0;budget = 1;",
    "protocol = \"retry\";tries = 2;outcome = \"delivered\";",
    "spread = 3;seed = \"0000000000000000000000000000000000000000000000000000000000000000\"|omit 0>1 @2\n",
    "nodes = 2;horizon = 3;last_omission = 0;crashes = 0;budget = 1;",
    "protocol = \"retry\";tries = 1;outcome = \"delivered\";pauses = 1|pause 0 @1\n",
    "nodes = 2;horizon = 3;last_omission = 0;crashes = 0;budget = 1;",
    "protocol = \"redundant\";tries = 1;outcome = \"delivered\";pauses = 1|pause 1 @2\n",
    "nodes = 3;horizon = 4;last_omission = 3;crashes = 0;budget = 2;",
    "protocol = \"retry\";tries = 1;outcome = \"delivered\"|omit 0>1 @1\n",
    "nodes = 3;horizon = 4;last_omission = 3;crashes = 0;budget = 2;",
    "protocol = \"retry\";tries = 1;outcome = [\"any\", [\"down\", 1, 2], [\"shows\", 1, 2, \"has\"]]|omit 0>1 @1\n",
);

#[test]
fn all_reasons_are_met_in_small_trees(rt: HostRuntime) {
    let mut met = 0;
    for row in SMALL.lines() {
        let found = row_agrees(rt.alloc(), row);
        agrees(&rt, found < DIFFER, row);
        met |= found;
    }
    agrees(&rt, met == 0b1111_1111_1111, "all reasons");
}

/// Larger trees of each protocol.
const LARGER: &str = concat!(
    // retry
    "nodes = 2;horizon = 4;last_omission = 3;crashes = 0;budget = 3;",
    "protocol = \"retry\";tries = 3;outcome = \"delivered\"|omit 0>1 @1,omit 0>1 @2,omit 0>1 @3\n",
    "nodes = 3;horizon = 4;last_omission = 2;crashes = 0;budget = 3;",
    "protocol = \"retry\";tries = 3;outcome = \"delivered\"|none\n",
    "nodes = 3;horizon = 4;last_omission = 1;crashes = 1;budget = 2;",
    "protocol = \"retry\";tries = 3;outcome = \"delivered\"|omit 0>1 @1,crash 0 @2\n",
    // redundant
    "nodes = 3;horizon = 4;last_omission = 1;crashes = 1;budget = 3;",
    "protocol = \"redundant\";tries = 4;outcome = \"delivered\"|none\n",
    // commits
    "nodes = 3;horizon = 5;last_omission = 0;crashes = 1;budget = 1;",
    "protocol = \"two_phase\";patience = 3;outcome = \"unblocked\"|crash 0 @2\n",
    "nodes = 3;horizon = 10;last_omission = 3;crashes = 0;budget = 2;",
    "protocol = \"three_phase\";patience = 3;outcome = \"agreement\"|omit 0>1 @3\n",
    // two primaries
    "nodes = 3;horizon = 6;last_omission = 2;crashes = 0;budget = 2;",
    "protocol = \"primary_backup\";patience = 3;outcome = \"one_primary\"|omit 0>1 @1,omit 0>1 @2\n",
    "nodes = 3;horizon = 6;last_omission = 2;crashes = 0;budget = 2;",
    "protocol = \"primary_backup\";patience = 3;outcome = [\"shows\", 2, 6, \"unclaimed\"]|omit 0>1 @1,omit 0>1 @2\n",
    // a lost write
    "nodes = 3;horizon = 6;last_omission = 0;crashes = 2;budget = 2;",
    "protocol = \"primary_backup\";patience = 3;outcome = \"durable\"|crash 1 @4,crash 0 @5\n",
);

#[test]
fn both_agree_on_all_changes_of_trees_of_each_protocol(rt: HostRuntime) {
    for row in LARGER.lines() {
        agrees(&rt, row_agrees(rt.alloc(), row) < DIFFER, row);
    }
}
