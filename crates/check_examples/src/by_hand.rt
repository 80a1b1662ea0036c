//! Trees made by hand, and what they are judged as, in one thread and in several.

use crate::growing::grown;
use crate::texts::{agrees, columns, scenario};
use lf_check::{Verdict, check, check_rows};
use lf_outcome::Scenario;
use lf_tree::{read_tree, to_text};
use std::alloc::{AllocError, Global};
use std::process::Abort;
use std::thread::Threads;

/// Scenarios and their trees, in blocks with `#` between any two. A block's first line is a scenario, in which `;` stands for the end of a
/// line. Each further line is a tree and its verdict: `yes`, or the number of the reason and the path. `grown` is a yes to the very tree of
/// the scenario's search.
const TREES: &str = concat!(
    // one note, which may be lost, and a budget of one fault
    "nodes = 2;horizon = 3;last_omission = 1;crashes = 0;budget = 1;protocol = \"retry\";tries = 1;outcome = \"delivered\"\n",
    r#"{"answer":["omit 0>1 @1"],"format":1,"root":{"edges":["omit 0>1 @1"],"kids":[{"misses":true}],"reach":[3,3]}}|grown"#, "\n",
    r#"{"answer":["omit 0>1 @1"],"format":1,"root":{"edges":["omit 0>1 @1","omit 0>1 @1"],"kids":[{"misses":true},"#,
    r#"{"misses":true}],"reach":[3,3]}}|7 []"#, "\n",
    r#"{"answer":["omit 0>1 @1"],"format":1,"root":{"edges":["omit 1>0 @1","omit 0>1 @1"],"kids":[{"misses":true},"#,
    r#"{"misses":true}],"reach":[3,3]}}|7 []"#, "\n",
    r#"{"answer":["omit 0>1 @1"],"format":1,"root":{"edges":["omit 1>0 @1"],"kids":[{"misses":true}],"reach":[3,3]}}|6 []"#, "\n",
    r#"{"answer":["omit 0>1 @1"],"format":1,"root":{"edges":["omit 0>1 @1"],"kids":[{"misses":true},{"misses":true}],"reach":[3,3]}}|8 []"#, "\n",
    r#"{"answer":["omit 0>1 @1"],"format":1,"root":{"edges":["omit 0>1 @1"],"kids":[{"misses":true}],"reach":[3,3,3]}}|4 []"#, "\n",
    r#"{"answer":["omit 0>1 @1"],"format":1,"root":{"edges":["omit 0>1 @1"],"kids":[{"misses":true}],"reach":[4,4]}}|4 []"#, "\n",
    r#"{"answer":["omit 0>1 @1"],"format":1,"root":{"misses":true}}|9 []"#, "\n",
    r#"{"answer":["omit 0>1 @2"],"format":1,"root":{"misses":true}}|1 []"#, "\n",
    r#"{"answer":["omit 0>1 @1"],"format":1,"root":{"edges":["omit 0>1 @1"],"kids":[{"misses":true}],"reach":[3,1]}}|4 []"#, "\n",
    r#"{"answer":["omit 0>1 @1"],"format":1,"root":{"edges":["omit 0>1 @1"],"kids":[{"misses":true}],"reach":[0,3]}}|4 []"#, "\n",
    r#"{"answer":["omit 0>1 @1"],"format":1,"root":{"edges":[],"kids":[],"reach":[3,3]}}|6 []"#, "\n",
    r#"{"answer":["omit 0>1 @1"],"format":1,"root":{"edges":["omit 0>1 @1"],"kids":[],"reach":[3,3]}}|8 []"#, "\n",
    r#"{"answer":["omit 0>1 @1"],"format":1,"root":{"edges":["omit 0>1 @1"],"kids":[{"misses":false}],"reach":[3,3]}}|2 [0]"#, "\n",
    r#"{"answer":null,"format":1,"root":{"edges":["omit 0>1 @1"],"kids":[{"misses":true}],"reach":[3,3]}}|10 []"#, "\n",
    r#"{"answer":["omit 1>0 @1"],"format":1,"root":{"edges":["omit 0>1 @1"],"kids":[{"misses":true}],"reach":[3,3]}}|10 []"#, "\n",
    r#"{"answer":["omit 0>1 @2"],"format":1,"root":{"edges":["omit 0>1 @1"],"kids":[{"misses":true}],"reach":[3,3]}}|1 []"#, "\n",
    r#"{"answer":[],"format":1,"root":{"edges":["omit 0>1 @1"],"kids":[{"misses":true}],"reach":[3,3]}}|9 []"#, "\n",
    r#"{"answer":[],"format":1,"root":{"misses":true}}|3 []"#, "\n",
    // the same with a budget of two
    "#nodes = 2;horizon = 3;last_omission = 1;crashes = 0;budget = 2;protocol = \"retry\";tries = 1;outcome = \"delivered\"\n",
    r#"{"answer":null,"format":1,"root":{"edges":["omit 0>1 @1"],"kids":[{"edges":[],"kids":[],"reach":[3,3]}],"reach":[3,3]}}|11 [0]"#, "\n",
    r#"{"answer":null,"format":1,"root":{"edges":["omit 0>1 @1"],"kids":[{"misses":true}],"reach":[3,3]}}|9 [0]"#, "\n",
    // and with none
    "#nodes = 2;horizon = 3;last_omission = 1;crashes = 0;budget = 0;protocol = \"retry\";tries = 1;outcome = \"delivered\"\n",
    r#"{"answer":null,"format":1,"root":{"misses":false}}|grown"#, "\n",
    r#"{"answer":null,"format":1,"root":{"misses":true}}|3 []"#, "\n",
    r#"{"answer":[],"format":1,"root":{"misses":false}}|10 []"#, "\n",
    // two notes, of which each may be lost
    "#nodes = 3;horizon = 4;last_omission = 3;crashes = 0;budget = 2;protocol = \"retry\";tries = 1;outcome = \"delivered\"\n",
    r#"{"answer":["omit 0>1 @1"],"format":1,"root":{"edges":["omit 0>1 @1","omit 0>2 @1"],"kids":[{"misses":true},"#,
    r#"{"misses":true}],"reach":[4,4,4]}}|grown"#, "\n",
    r#"{"answer":["omit 0>1 @1"],"format":1,"root":{"edges":["omit 0>1 @1","omit 0>2 @1"],"kids":[{"misses":false},"#,
    r#"{"misses":false}],"reach":[4,4,4]}}|2 [0]"#, "\n",
    r#"{"answer":["omit 0>1 @1"],"format":1,"root":{"edges":["omit 0>1 @1","omit 0>2 @1"],"kids":[{"misses":true},"#,
    r#"{"misses":false}],"reach":[4,4,4]}}|2 [1]"#, "\n",
    r#"{"answer":["omit 0>1 @1"],"format":1,"root":{"edges":["omit 0>2 @1","omit 0>1 @1"],"kids":[{"misses":true},"#,
    r#"{"misses":true}],"reach":[4,4,4]}}|7 []"#, "\n",
    r#"{"answer":["omit 0>2 @1"],"format":1,"root":{"edges":["omit 0>1 @1","omit 0>2 @1"],"kids":[{"misses":true},"#,
    r#"{"misses":true}],"reach":[4,4,4]}}|10 []"#, "\n",
    // an outcome that is missed without faults
    "#nodes = 2;horizon = 3;last_omission = 1;crashes = 0;budget = 1;protocol = \"retry\";tries = 1;outcome = [\"shows\", 1, 1, \"has\"]\n",
    r#"{"answer":[],"format":1,"root":{"misses":true}}|grown"#, "\n",
    r#"{"answer":null,"format":1,"root":{"edges":[],"kids":[],"reach":[3,3]}}|11 []"#, "\n",
    // pauses
    "#nodes = 2;horizon = 3;last_omission = 0;crashes = 0;budget = 1;protocol = \"retry\";tries = 1;outcome = \"delivered\";pauses = 1\n",
    r#"{"answer":["pause 0 @1"],"format":2,"root":{"edges":["pause 0 @1","pause 1 @1","pause 0 @2","pause 1 @2","pause 0 @3","pause 1 @3"],"#,
    r#""kids":[{"misses":true},{"misses":false},{"misses":false},{"misses":true},{"misses":false},{"misses":false}],"reach":[3,3]}}|grown"#, "\n",
    r#"{"answer":["pause 0 @1"],"format":2,"root":{"edges":["pause 0 @1","pause 1 @1","pause 0 @2","pause 1 @2","pause 0 @3","pause 1 @3"],"#,
    r#""kids":[{"misses":true},{"misses":false},{"misses":false},{"misses":true},{"misses":false},{"misses":true}],"reach":[3,3]}}|3 [5]"#, "\n",
    // what node 1 shows at the end: its reach need not go as far as the run
    "#nodes = 2;horizon = 3;last_omission = 1;crashes = 0;budget = 1;protocol = \"retry\";tries = 1;outcome = [\"shows\", 1, 3, \"has\"]\n",
    r#"{"answer":["omit 0>1 @1"],"format":1,"root":{"edges":["omit 0>1 @1"],"kids":[{"misses":true}],"reach":[2,3]}}|grown"#, "\n",
    r#"{"answer":["omit 0>1 @1"],"format":1,"root":{"edges":["omit 0>1 @1"],"kids":[{"misses":true}],"reach":[3,3]}}|yes"#, "\n",
    r#"{"answer":["omit 0>1 @1"],"format":1,"root":{"edges":["omit 0>1 @1"],"kids":[{"misses":true}],"reach":[1,3]}}|5 []"#, "\n",
    r#"{"answer":["omit 0>1 @1"],"format":1,"root":{"edges":["omit 0>1 @1"],"kids":[{"misses":true}],"reach":[0,3]}}|5 []"#, "\n",
    r#"{"answer":["omit 0>1 @1"],"format":1,"root":{"edges":["omit 0>1 @1"],"kids":[{"misses":true}],"reach":[3,2]}}|4 []"#, "\n",
    r#"{"answer":["omit 0>1 @1"],"format":1,"root":{"edges":["omit 0>1 @1"],"kids":[{"misses":true}],"reach":[2,4]}}|4 []"#, "\n",
    // node 0 sends to four others once: the leaves of the first edge come first, and the set of the last leaf comes first in the
    // order of sets; beneath the second edge the first is excluded
    "#nodes = 5;horizon = 2;last_omission = 1;crashes = 0;budget = 2;protocol = \"retry\";tries = 1;outcome = [\"all\", ",
    "[\"any\", [\"shows\", 2, 2, \"has\"], [\"shows\", 4, 2, \"has\"]], [\"any\", [\"shows\", 3, 2, \"has\"], [\"shows\", 1, 2, \"has\"]]]\n",
    r#"{"answer":["omit 0>1 @1","omit 0>3 @1"],"format":1,"root":{"edges":["omit 0>2 @1","omit 0>3 @1"],"kids":["#,
    r#"{"edges":["omit 0>3 @1","omit 0>4 @1"],"kids":[{"misses":false},{"misses":true}],"reach":[1,1,1,2,2]},{"edges":["omit 0>1 @1"],"kids":["#,
    r#"{"misses":true}],"reach":[1,2,2,1,1]}],"reach":[1,1,2,2,1]}}|grown"#, "\n",
    r#"{"answer":["omit 0>2 @1","omit 0>4 @1"],"format":1,"root":{"edges":["omit 0>2 @1","omit 0>3 @1"],"kids":["#,
    r#"{"edges":["omit 0>3 @1","omit 0>4 @1"],"kids":[{"misses":false},{"misses":true}],"reach":[1,1,1,2,2]},{"edges":["omit 0>1 @1"],"kids":["#,
    r#"{"misses":true}],"reach":[1,2,2,1,1]}],"reach":[1,1,2,2,1]}}|10 []"#, "\n",
    r#"{"answer":["omit 0>1 @1","omit 0>3 @1"],"format":1,"root":{"edges":["omit 0>2 @1","omit 0>3 @1"],"kids":["#,
    r#"{"edges":["omit 0>3 @1","omit 0>4 @1"],"kids":[{"misses":true},{"misses":true}],"reach":[1,1,1,2,2]},{"edges":["omit 0>1 @1"],"kids":["#,
    r#"{"misses":true}],"reach":[1,2,2,1,1]}],"reach":[1,1,2,2,1]}}|3 [0, 0]"#, "\n",
    r#"{"answer":["omit 0>1 @1","omit 0>3 @1"],"format":1,"root":{"edges":["omit 0>2 @1","omit 0>3 @1"],"kids":["#,
    r#"{"edges":["omit 0>3 @1","omit 0>4 @1"],"kids":[{"misses":false},{"misses":true}],"reach":[1,1,1,2,2]},"#,
    r#"{"edges":["omit 0>1 @1","omit 0>2 @1"],"kids":[{"misses":true},{"misses":false}],"reach":[1,2,2,1,1]}],"reach":[1,1,2,2,1]}}|7 [1]"#, "\n",
    r#"{"answer":["omit 0>1 @1","omit 0>3 @1"],"format":1,"root":{"edges":["omit 0>2 @1","omit 0>3 @1"],"kids":["#,
    r#"{"edges":["omit 0>3 @1","omit 0>4 @1"],"kids":[{"misses":false},{"misses":true}],"reach":[1,1,1,2,2]},{"edges":[],"kids":["#,
    r#"],"reach":[1,2,2,1,1]}],"reach":[1,1,2,2,1]}}|6 [1]"#, "\n",
);

/// Whether this is said of a tree.
fn is_said(alloc: Global, said: Result<Verdict, AllocError>, wanted: &str) -> bool {
    match said {
        Ok(Verdict::Yes) => wanted == "yes",
        Ok(Verdict::No { reason, path }) => {
            match format!(in alloc; "{} {path:?}", reason.number()) {
                Ok(found) => found.as_str() == wanted,
                Err(_) => false,
            }
        }
        Err(_) => false,
    }
}

/// Whether the tree of the scenario's search has this text.
fn is_grown(alloc: Global, scenario: &Scenario, text: &str) -> bool {
    let Ok(tree) = grown(alloc, scenario) else {
        return false;
    };
    match to_text(alloc, &tree) {
        Ok(found) => found.as_slice() == text.as_bytes(),
        Err(_) => false,
    }
}

/// Whether the tree of a row is judged as it says, in one thread and in several.
fn row_is_judged(
    rt: &(impl Threads + Sync),
    alloc: Global,
    scenario: &Scenario,
    row: &str,
) -> bool {
    let (text, wanted) = columns(row);
    let Ok(tree) = read_tree(alloc, text.as_bytes()) else {
        return false;
    };
    let is_wanted = wanted != "grown" || is_grown(alloc, scenario, text);
    let verdict = if wanted == "grown" { "yes" } else { wanted };
    is_wanted
        && is_said(alloc, check(alloc, scenario, &tree), verdict)
        && is_said(alloc, check_rows(rt, alloc, scenario, &tree), verdict)
}

/// Each tree of a block is judged as it says.
pub(crate) fn block_is_judged(rt: &(impl Abort + Threads + Sync), alloc: Global, block: &str) {
    let (lines, rows) = block.split_once('\n').unwrap_or((block, ""));
    let scenario = scenario(alloc, lines);
    agrees(rt, scenario.is_some(), lines);
    if let Some(scenario) = scenario {
        for row in rows.lines() {
            agrees(rt, row_is_judged(rt, alloc, &scenario, row), row);
        }
    }
}

#[test]
fn trees_made_by_hand_are_judged_alike_by_one_thread_and_by_several(rt: HostRuntime) {
    for block in TREES.split('#') {
        block_is_judged(&rt, rt.alloc(), block);
    }
}
