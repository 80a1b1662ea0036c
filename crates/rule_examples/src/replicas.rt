//! Primary and backup, rule by rule.

use crate::steps::are_right;

/// What each of four nodes does.
const RULES: &str = concat!(
    // The primary beats, unless it hands on a write. It takes any node's letters.
    "0 1|empty not_done primary unclaimed @0||empty not_done primary unclaimed @0|1 beat\n",
    "0 2|empty not_done primary unclaimed @0|2 write|holds not_done primary unclaimed @0|1 repl\n",
    "0 2|empty not_done primary unclaimed @0|2 write,2 write|holds not_done primary unclaimed @0|1 repl\n",
    "0 3|holds not_done primary unclaimed @0|1 ack|holds not_done primary unclaimed @0|1 beat,2 done\n",
    "0 3|empty not_done primary unclaimed @0|1 ack,2 write|holds not_done primary unclaimed @0|1 repl,2 done\n",
    "0 9|empty not_done primary unclaimed @0|0 done,1 claim,0 beat,0 repl|empty not_done primary unclaimed @0|1 beat\n",
    // The backup copies, answers, and takes over.
    "1 3|empty not_done backup unclaimed @0|0 repl|holds not_done backup unclaimed @3|0 ack\n",
    "1 3|empty not_done backup unclaimed @0|0 beat|empty not_done backup unclaimed @3|\n",
    "1 3|empty not_done backup unclaimed @1|2 write,1 ack,0 done,1 claim|empty not_done backup unclaimed @1|\n",
    "1 2|empty not_done backup unclaimed @0||empty not_done backup unclaimed @0|\n",
    "1 3|empty not_done backup unclaimed @0||empty not_done primary unclaimed @0|2 claim,3 claim\n",
    "1 6|empty not_done backup unclaimed @4||empty not_done backup unclaimed @4|\n",
    "1 9|holds not_done backup unclaimed @4||holds not_done primary unclaimed @4|2 claim,3 claim\n",
    // It goes on listening, and claims once.
    "1 9|empty not_done primary unclaimed @0|0 repl|holds not_done primary unclaimed @9|0 ack\n",
    "1 9|empty not_done primary unclaimed @0|0 beat|empty not_done primary unclaimed @9|\n",
    "1 9|empty not_done primary unclaimed @0||empty not_done primary unclaimed @0|\n",
    // The client writes once, and learns of the answer. All from it on learn of a claim.
    "2 1|empty not_done backup unclaimed @0||empty not_done backup unclaimed @0|0 write\n",
    "2 2|empty not_done backup unclaimed @0||empty not_done backup unclaimed @0|\n",
    "2 5|empty not_done backup unclaimed @0|0 done|empty done backup unclaimed @0|\n",
    "2 5|empty not_done backup unclaimed @0|1 claim|empty not_done backup claimed @0|\n",
    "3 1|empty not_done backup unclaimed @0||empty not_done backup unclaimed @0|\n",
    "3 5|empty not_done backup unclaimed @0|0 done,0 beat,0 repl|empty not_done backup unclaimed @0|\n",
    "3 5|empty not_done backup unclaimed @0|1 claim|empty not_done backup claimed @0|\n",
);

#[test]
fn primary_backup_by_its_rules(rt: HostRuntime) {
    are_right(&rt, rt.alloc(), "steps", "primary_backup 4 3", RULES);
}

/// A letter that is read starts the time-out anew.
const ANSWER: &str =
    "1 9|empty not_done backup unclaimed @0|0 repl|holds not_done backup unclaimed @9|0 ack";

#[test]
fn an_answer_and_a_claim_are_never_sent_at_once(rt: HostRuntime) {
    are_right(&rt, rt.alloc(), "steps", "primary_backup 3 1", ANSWER);
}

/// What the nodes know before the first step.
const STARTS: &str = concat!(
    "0|empty not_done primary unclaimed @0\n",
    "1|empty not_done backup unclaimed @0\n",
    "2|empty not_done backup unclaimed @0\n",
);

/// A node that knows everything wakes.
const WAKING: &str = "1 7|holds done primary claimed @4|holds done primary claimed @7";

#[test]
fn waking_replicas_keep_what_they_know(rt: HostRuntime) {
    are_right(&rt, rt.alloc(), "starts", "primary_backup 3 3", STARTS);
    are_right(&rt, rt.alloc(), "wakings", "primary_backup 3 3", WAKING);
}
