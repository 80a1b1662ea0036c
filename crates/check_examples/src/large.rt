//! Trees of many nodes, most of which are dear to judge: judged alike in one thread and in several.

use crate::by_hand::block_is_judged;
use crate::growing::grown;
use crate::texts::{agrees, scenario};
use lf_check::{Verdict, check, check_rows};
use lf_outcome::Scenario;
use lf_tree::{read_tree, to_text};
use std::alloc::{AllocError, Global};
use std::thread::Threads;

/// A scenario of one note.
const ONE_NOTE: &str =
    "nodes = 2;horizon = 3;last_omission = 1;crashes = 0;budget = 1;protocol = \"retry\";tries = 1;outcome = \"delivered\"";

/// One of four notes, of which some two defeat it.
const FOUR_NOTES: &str = concat!(
    "nodes = 5;horizon = 2;last_omission = 1;crashes = 0;budget = 2;protocol = \"retry\";tries = 1;outcome = [\"all\", ",
    "[\"any\", [\"shows\", 2, 2, \"has\"], [\"shows\", 4, 2, \"has\"]], [\"any\", [\"shows\", 3, 2, \"has\"], [\"shows\", 1, 2, \"has\"]]]",
);

/// Sixteen notes, of which no three defeat it: 137 branches and 560 leaves.
const SIXTEEN_NOTES: &str =
    "nodes = 5;horizon = 8;last_omission = 4;crashes = 0;budget = 3;protocol = \"retry\";tries = 5;outcome = \"delivered\"";

/// So many of an item, with commas between.
fn listed(alloc: Global, item: &str, count: usize) -> Result<String, AllocError> {
    let mut all = item.repeat(alloc, count.min(1))?;
    for _ in 1..count {
        all.push(',')?;
        all.push_str(item)?;
    }
    Ok(all)
}

/// A tree of one note whose root has its edge and its kid so many times, and what it is judged as, as a block.
fn wide_root(
    alloc: Global,
    edges: usize,
    kids: usize,
    verdict: &str,
) -> Result<String, AllocError> {
    let edges = listed(alloc, "\"omit 0>1 @1\"", edges)?;
    let kids = listed(alloc, "{\"misses\":true}", kids)?;
    format!(in alloc;
        "{ONE_NOTE}\n{{\"answer\":[\"omit 0>1 @1\"],\"format\":1,\"root\":{{\"edges\":[{edges}],\"kids\":[{kids}],\"reach\":[3,3]}}}}|{verdict}"
    )
}

/// A tree of four notes whose root and first kid are right, and whose second kid has its edge and its kid so many times, as
/// a block.
fn wide_kid(alloc: Global, count: usize) -> Result<String, AllocError> {
    let edges = listed(alloc, "\"omit 0>1 @1\"", count)?;
    let kids = listed(alloc, "{\"misses\":true}", count)?;
    let first =
        "{\"edges\":[\"omit 0>3 @1\",\"omit 0>4 @1\"],\"kids\":[{\"misses\":false},{\"misses\":true}],\"reach\":[1,1,1,2,2]}";
    let second = format!(in alloc;
        "{{\"edges\":[{edges}],\"kids\":[{kids}],\"reach\":[1,2,2,1,1]}}"
    )?;
    let root = "\"edges\":[\"omit 0>2 @1\",\"omit 0>3 @1\"],\"kids\":";
    format!(in alloc;
        "{FOUR_NOTES}\n{{\"answer\":[\"omit 0>1 @1\",\"omit 0>3 @1\"],\"format\":1,\"root\":{{{root}[{first},{second}],\"reach\":[1,1,2,2,1]}}}}|7 [1]"
    )
}

#[test]
fn of_a_branch_with_too_many_edges_or_kids_what_is_wrong_first_is_named(rt: HostRuntime) {
    let alloc = rt.alloc();
    for block in [
        wide_root(alloc, 0, 3000, "6 []"),
        wide_root(alloc, 1, 3000, "8 []"),
        wide_root(alloc, 3000, 1, "7 []"),
        wide_root(alloc, 3000, 3000, "7 []"),
        wide_root(alloc, 5000, 5000, "7 []"),
        wide_kid(alloc, 3000),
        wide_kid(alloc, 5000),
    ] {
        agrees(&rt, block.is_ok(), "a wide branch");
        if let Ok(block) = block {
            block_is_judged(&rt, alloc, block.as_str());
        }
    }
}

/// Whether two verdicts are the same.
fn are_same(one: &Verdict, other: &Verdict) -> bool {
    match (one, other) {
        (Verdict::Yes, Verdict::Yes) => true,
        (
            Verdict::No { reason, path },
            Verdict::No {
                reason: other_reason,
                path: other_path,
            },
        ) => reason == other_reason && path.as_slice() == other_path.as_slice(),
        _ => false,
    }
}

/// Whether the tree of a text is judged alike in one thread and in several, and accepted as it is said.
fn is_judged_alike(
    rt: &(impl Threads + Sync),
    alloc: Global,
    scenario: &Scenario,
    text: &str,
    is_accepted: bool,
) -> bool {
    let Ok(tree) = read_tree(alloc, text.as_bytes()) else {
        return false;
    };
    match (
        check(alloc, scenario, &tree),
        check_rows(rt, alloc, scenario, &tree),
    ) {
        (Ok(one), Ok(other)) => {
            are_same(&one, &other) && matches!(one, Verdict::Yes) == is_accepted
        }
        _ => false,
    }
}

/// The text with the last leaf that reaches turned round, and the text with the first one turned round.
fn turned(alloc: Global, text: &str) -> Result<Option<(String, String)>, AllocError> {
    let reaches = "{\"misses\":false}";
    let Some((before, after)) = text.rsplit_once(reaches) else {
        return Ok(None);
    };
    let last = format!(in alloc; "{before}{{\"misses\":true}}{after}")?;
    let Some((before, after)) = text.split_once(reaches) else {
        return Ok(None);
    };
    let first = format!(in alloc; "{before}{{\"misses\":true}}{after}")?;
    Ok(Some((last, first)))
}

/// Whether a tree is judged alike as it is, with its last leaf turned round, and with its first.
fn turns_are_judged_alike(
    rt: &(impl Threads + Sync),
    alloc: Global,
    scenario: &Scenario,
    text: &str,
) -> bool {
    let Ok(Some((last, first))) = turned(alloc, text) else {
        return false;
    };
    is_judged_alike(rt, alloc, scenario, text, true)
        && is_judged_alike(rt, alloc, scenario, last.as_str(), false)
        && is_judged_alike(rt, alloc, scenario, first.as_str(), false)
}

/// The text of the tree of a scenario's search.
fn text_of(alloc: Global, scenario: &Scenario) -> Option<String> {
    let tree = grown(alloc, scenario).ok()?;
    let text = to_text(alloc, &tree).ok()?;
    String::from_utf8(text).ok()
}

#[test]
fn a_tree_of_many_nodes_is_judged_alike_by_one_thread_and_by_several(rt: HostRuntime) {
    let alloc = rt.alloc();
    let Some(scenario) = scenario(alloc, SIXTEEN_NOTES) else {
        return agrees(&rt, false, SIXTEEN_NOTES);
    };
    let Some(text) = text_of(alloc, &scenario) else {
        return agrees(&rt, false, "its tree");
    };
    agrees(
        &rt,
        turns_are_judged_alike(&rt, alloc, &scenario, text.as_str()),
        "its leaves",
    );
}
