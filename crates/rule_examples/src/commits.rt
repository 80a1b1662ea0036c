//! Two-phase and three-phase commit, rule by rule.

use crate::states::{first_of, nodes};
use crate::steps::are_right;
use crate::texts::{agrees, number, words};

/// The rules that both have in common, where node 2 of three votes no.
const SHARED: &str = concat!(
    // Node 0 asks at the first step, and at no other.
    "0 1|idle @0||voting - @1|1 prepare,2 prepare\n",
    "0 2|idle @0||idle @0|\n",
    "1 1|idle @0||idle @0|\n",
    // It notes votes by their sender.
    "0 2|voting - @1|2 yes|voting 2 @1|\n",
    "0 2|voting - @1|2 yes,2 yes|voting 2 @1|\n",
    "0 2|voting 0,3 @1|1 yes|voting 0,1,3 @1|\n",
    // A no comes before all else, also before all yes.
    "0 2|voting - @1|2 no|aborted @1|1 abort,2 abort\n",
    "0 2|voting - @1|1 yes,2 yes,2 no|aborted @1|1 abort,2 abort\n",
    "0 4|voting 1,2 refused @1||aborted @1|1 abort,2 abort\n",
    // The time-out.
    "0 3|voting 1 @1||voting 1 @1|\n",
    "0 4|voting 1 @1||aborted @1|1 abort,2 abort\n",
    "0 4|voting 1 @2||voting 1 @2|\n",
    "0 48|voting - @1||aborted @1|1 abort,2 abort\n",
    // Elsewhere node 0 ignores its letters.
    "0 9|committed @1|1 yes,2 yes,2 no|committed @1|\n",
    "0 9|aborted @1|1 yes,2 yes|aborted @1|\n",
    "0 2|voting - @1|0 commit,0 abort,0 prepare|voting - @1|\n",
    // A participant votes.
    "1 5|idle @0|0 prepare|prepared @5|0 yes\n",
    "2 5|idle @0|0 prepare|aborted @0|0 no\n",
    // It votes in the same step as it learns that all is given up.
    "1 5|idle @0|0 prepare,0 abort|aborted @5|0 yes\n",
    "1 5|idle @0|0 abort,0 prepare|aborted @0|\n",
    // It does as it is told.
    "1 5|idle @0|0 commit|committed @0|\n",
    "1 5|prepared @4|0 commit|committed @4|\n",
    "1 5|idle @0|0 abort|aborted @0|\n",
    "1 5|prepared @4|0 abort|aborted @4|\n",
    "1 5|prepared @4|0 prepare|prepared @4|\n",
    "1 5|committed @4|0 abort,0 prepare|committed @4|\n",
    "1 5|aborted @4|0 commit,0 prepare|aborted @4|\n",
);

/// The rules of two_phase alone.
const TWO_PHASE: &str = concat!(
    // All yes, also at the step of the time-out.
    "0 2|voting - @1|1 yes,2 yes|committed @1|1 commit,2 commit\n",
    "0 4|voting 1 @1|2 yes|committed @1|1 commit,2 commit\n",
    // A participant has no time-out, and knows no PRECOMMIT.
    "1 48|prepared @1|0 precommit|prepared @1|\n",
    "1 48|precommitted @1||precommitted @1|\n",
    "0 48|precommitting 1,2 @1||precommitting 1,2 @1|\n",
);

#[test]
fn two_phase_by_its_rules(rt: HostRuntime) {
    let machine = "two_phase 3 3 yyn";
    are_right(&rt, rt.alloc(), "starts", machine, "0|idle @0");
    are_right(&rt, rt.alloc(), "steps", machine, SHARED);
    are_right(&rt, rt.alloc(), "steps", machine, TWO_PHASE);
}

/// The rules of three_phase alone.
const THREE_PHASE: &str = concat!(
    // All yes, also at the step of the time-out.
    "0 2|voting - @1|1 yes,2 yes|precommitting - @2|1 precommit,2 precommit\n",
    "0 4|voting 1 @1|2 yes,1 ack|precommitting - @4|1 precommit,2 precommit\n",
    // Acks are noted by their sender.
    "0 3|precommitting - @2|2 ack|precommitting 2 @2|\n",
    "0 3|precommitting - @2|2 ack,0 ack|precommitting 0,2 @2|\n",
    "0 3|precommitting - @2|1 ack,2 ack|committed @2|1 commit,2 commit\n",
    // The time-out counts from the PRECOMMIT.
    "0 4|precommitting - @2||precommitting - @2|\n",
    "0 5|precommitting - @2||committed @2|1 commit,2 commit\n",
    "0 3|precommitting - @2|1 no,0 abort|precommitting - @2|\n",
    // A participant answers, and waits anew.
    "1 6|prepared @5|0 precommit|precommitted @6|0 ack\n",
    "1 8|prepared @5|0 precommit|precommitted @8|0 ack\n",
    "1 6|precommitted @5|0 commit|committed @5|\n",
    "1 6|precommitted @5|0 abort|precommitted @5|\n",
    "1 6|precommitted @5|0 precommit|precommitted @5|\n",
    // Its time-outs.
    "1 7|prepared @5||prepared @5|\n",
    "1 8|prepared @5||aborted @5|\n",
    "1 7|precommitted @5||precommitted @5|\n",
    "1 8|precommitted @5||committed @5|\n",
    "1 48|idle @0||idle @0|\n",
);

#[test]
fn three_phase_by_its_rules(rt: HostRuntime) {
    let machine = "three_phase 3 3 yyn";
    are_right(&rt, rt.alloc(), "starts", machine, "0|idle @0");
    are_right(&rt, rt.alloc(), "steps", machine, SHARED);
    are_right(&rt, rt.alloc(), "steps", machine, THREE_PHASE);
}

/// Wakings of node 0.
const WAKINGS: &str = concat!(
    "0 9|idle @2|idle @9\n",
    "0 9|voting 1 refused @2|voting 1 refused @9\n",
    "0 9|prepared @2|prepared @9\n",
    "0 9|precommitting 2 @2|precommitting 2 @9\n",
);

/// Wakings of node 1.
const WAKINGS_OF_THE_NEXT: &str = concat!(
    "1 9|idle @2|idle @9\n",
    "1 9|voting 1 refused @2|voting 1 refused @9\n",
    "1 9|prepared @2|prepared @9\n",
    "1 9|precommitting 2 @2|precommitting 2 @9\n",
);

#[test]
fn waking_starts_the_time_out_anew(rt: HostRuntime) {
    are_right(&rt, rt.alloc(), "wakings", "two_phase 3 3", WAKINGS);
    are_right(
        &rt,
        rt.alloc(),
        "wakings",
        "three_phase 3 3",
        WAKINGS_OF_THE_NEXT,
    );
}

/// Whether the number of an item is one of the nodes, or none, as the item says.
fn is_member(some: &str, item: &str) -> bool {
    let (node, is) = words(item);
    match (nodes(some), number(node)) {
        (Some(nodes), Some(node)) => first_of(is, "yes", "no") == Some(nodes.contains(node)),
        _ => false,
    }
}

#[test]
fn sets_of_nodes(rt: HostRuntime) {
    let some = "1,7,8,4294967295";
    for item in "0 no,1 yes,2 no,7 yes,8 no".split(',') {
        agrees(&rt, is_member(some, item), item);
    }
    agrees(&rt, nodes(some) == nodes("7,1"), "another order");
}

/// The yes of the last node is missing, or that of the first.
const ONE_MISSING: &str = concat!(
    "0 2|voting 1,2,3,4,5,6 @2||voting 1,2,3,4,5,6 @2|\n",
    "0 2|voting 2,3,4,5,6,7 @2||voting 2,3,4,5,6,7 @2|\n",
);

/// Each yes is noted.
const NONE_MISSING: &str = concat!(
    "0 2|voting 1,2,3,4,5,6,7 @2||committed @2|",
    "1 commit,2 commit,3 commit,4 commit,5 commit,6 commit,7 commit\n",
);

#[test]
fn all_yes_are_those_of_the_nodes_that_there_are(rt: HostRuntime) {
    let alloc = rt.alloc();
    are_right(
        &rt,
        alloc,
        "steps",
        "two_phase 2 1",
        "0 2|voting 1,7 @2||committed @2|1 commit",
    );
    are_right(
        &rt,
        alloc,
        "steps",
        "two_phase 3 1",
        "0 2|voting 1,7 @2||voting 1,7 @2|",
    );
    are_right(&rt, alloc, "steps", "two_phase 8 1", NONE_MISSING);
    are_right(&rt, alloc, "steps", "two_phase 8 1", ONE_MISSING);
}
