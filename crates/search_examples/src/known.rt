//! Scenarios whose answers are known.

use crate::merged::{answers, row_tells};
use crate::texts::agrees;

/// One lost note is enough; what is sent past the last omission arrives; each of three tries has to be lost; a lost note and a crash;
/// values that are sent on; a second try that comes too late; no fault is needed; delays of a seed; a slow link.
const DELIVERED: &str = concat!(
    "retry|3 4 3 0 2|tries = 1;outcome = \"delivered\"|least 1;omit 0>1 @1\n",
    "retry|3 4 2 0 6|tries = 3;outcome = \"delivered\"|none 6\n",
    "retry|3 4 3 0 3|tries = 3;outcome = \"delivered\"|least 3;omit 0>1 @1;omit 0>1 @2;omit 0>1 @3\n",
    "retry|3 4 3 0 3|tries = 3;outcome = \"delivered\";max_sets = 5|least 3;omit 0>1 @1;omit 0>1 @2;omit 0>1 @3\n",
    "retry|3 4 1 1 2|tries = 3;outcome = \"delivered\"|least 2;omit 0>1 @1;crash 0 @2\n",
    "redundant|3 4 1 1 3|tries = 4;outcome = \"delivered\"|none 3\n",
    "redundant|3 2 1 0 1|tries = 2;outcome = \"delivered\"|least 1;omit 0>1 @1\n",
    "retry|2 1 0 0 0|tries = 1;outcome = \"delivered\"|least 0\n",
    "retry|2 3 2 0 1|tries = 2;outcome = \"delivered\";spread = 3;",
    "seed = \"0000000000000000000000000000000000000000000000000000000000000000\"|least 1;omit 0>1 @2\n",
    "retry|2 3 2 0 1|tries = 2;outcome = \"delivered\";spread = 1|none 1\n",
    "retry|2 3 1 0 1|tries = 1;outcome = \"delivered\"|least 1;omit 0>1 @1\n",
    "retry|2 3 1 0 0|tries = 1;outcome = \"delivered\"|none 0\n",
    "retry|2 3 1 0 2|tries = 1;outcome = \"delivered\";pauses = 1|least 1;omit 0>1 @1\n",
    "retry|3 4 3 0 2|tries = 1;outcome = \"delivered\";[[links]];from = 0;to = 2;least = 4|least 0\n",
    "retry|3 4 3 0 2|tries = 1;outcome = \"delivered\";[[links]];from = 0;to = 2;least = 3|least 1;omit 0>1 @1\n",
);

#[test]
fn deliveries(rt: HostRuntime) {
    answers(&rt, rt.alloc(), DELIVERED);
}

/// A crash blocks; one lost note splits; crashes alone don't; a backup takes over too early, by lost beats or by a pause; a write that was
/// done is lost.
const COMMITS_AND_BACKUPS: &str = concat!(
    "two_phase|3 6 0 1 1|patience = 4;outcome = \"unblocked\"|least 1;crash 0 @2\n",
    "three_phase|3 10 3 0 2|patience = 3;outcome = \"agreement\"|least 1;omit 0>1 @3\n",
    "three_phase|3 10 0 2 2|patience = 3;outcome = \"agreement\"|none 2\n",
    "primary_backup|3 6 2 0 2|patience = 3;outcome = \"one_primary\"|least 2;omit 0>1 @1;omit 0>1 @2\n",
    "primary_backup|3 6 0 2 2|patience = 3;outcome = \"durable\"|least 2;crash 1 @4;crash 0 @5\n",
    "primary_backup|3 6 0 0 1|pauses = 1;pause_length = 2;patience = 3;outcome = \"one_primary\"|least 1;pause 0 @1\n",
    "primary_backup|3 6 0 0 1|pauses = 1;pause_length = 1;patience = 3;outcome = \"one_primary\"|none 1\n",
);

#[test]
fn commits_and_backups(rt: HostRuntime) {
    answers(&rt, rt.alloc(), COMMITS_AND_BACKUPS);
}

/// No part misses, and no part reaches; one node's fact; a node that is down is excused; a claim; an earlier step; the first of two sets; one
/// of two true parts is enough.
const FORMULAS: &str = concat!(
    "retry|3 4 3 0 2|tries = 1;outcome = [\"all\"]|none 2\n",
    "retry|3 4 3 0 2|tries = 1;outcome = [\"any\"]|least 0\n",
    "retry|2 3 1 0 6|tries = 1;outcome = [\"any\"]|least 0\n",
    "retry|3 4 3 0 2|tries = 1;outcome = [\"shows\", 2, 2, \"has\"]|least 1;omit 0>2 @1\n",
    "retry|3 4 3 0 2|tries = 1;outcome = [\"any\", [\"down\", 1, 2], [\"shows\", 1, 2, \"has\"]]|least 1;omit 0>1 @1\n",
    "primary_backup|3 6 2 0 2|patience = 3;outcome = [\"shows\", 2, 6, \"unclaimed\"]|least 2;omit 0>1 @1;omit 0>1 @2\n",
    "retry|2 3 0 1 1|tries = 2;spread = 3;outcome = [\"shows\", 1, 2, \"lacks\"]|least 1;crash 1 @1\n",
    "retry|5 2 1 0 2|tries = 1;outcome = [\"all\", [\"any\", [\"shows\", 4, 2, \"has\"], [\"shows\", 1, 2, \"has\"]], ",
    "[\"any\", [\"shows\", 2, 2, \"has\"], [\"shows\", 3, 2, \"has\"]]]|least 2;omit 0>1 @1;omit 0>4 @1\n",
    "retry|2 3 1 0 1|tries = 1;outcome = [\"any\", [\"shows\", 0, 1, \"has\"], [\"shows\", 1, 2, \"has\"]]|none 1\n",
);

#[test]
fn formulas(rt: HostRuntime) {
    answers(&rt, rt.alloc(), FORMULAS);
}

/// The files of `examples/` that aren't among those above: `blocked_commit`, `paused_sender` and the same with `redundant`, and `guided`.
const FILES: &str = concat!(
    "two_phase|3 5 0 1 1|patience = 3;votes = [true, true];outcome = \"unblocked\"|least 1;crash 0 @2\n",
    "retry|2 3 0 0 1|pauses = 1;pause_length = 1;tries = 1;outcome = \"delivered\"|least 1;pause 0 @1\n",
    "redundant|2 3 0 0 1|pauses = 1;pause_length = 1;tries = 1;outcome = \"delivered\"|least 1;pause 1 @2\n",
    "primary_backup|3 10 4 1 3|pauses = 1;pause_length = 2;least = 1;spread = 1;",
    "seed = \"5eed000000000000000000000000000000000000000000000000000000000000\";patience = 5;outcome = \"one_primary\";",
    "[[links]];from = 0;to = 1;least = 2|least 2;omit 0>1 @1;pause 0 @2\n",
);

#[test]
fn files_of_examples(rt: HostRuntime) {
    answers(&rt, rt.alloc(), FILES);
}

/// A primary and its backup among eight nodes, with 515,503,517 allowed sets.
const LARGE: &str = "primary_backup|8 24 23 1 3|patience = 6;outcome = \"one_primary\"|none 3";

#[test]
fn more_sets_than_can_be_run(rt: HostRuntime) {
    agrees(&rt, row_tells(rt.alloc(), LARGE), LARGE);
}
