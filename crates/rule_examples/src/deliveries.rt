//! Retry and redundant, rule by rule.

use crate::steps::{are_right, is_step};
use crate::texts::agrees;

/// Node 0 of retry.
const RETRY_SENDER: &str = concat!(
    "0 1|has||has|1 data,2 data\n",
    "0 2|has||has|1 data,2 data\n",
    "0 3|has||has|\n",
    "0 48|has||has|\n",
);

#[test]
fn retry_sends_by_the_step_number(rt: HostRuntime) {
    let wakings = "0 1|has|has\n0 2|has|has\n0 3|has|has\n0 48|has|has";
    are_right(&rt, rt.alloc(), "starts", "retry 3 2", "0|has");
    are_right(&rt, rt.alloc(), "steps", "retry 3 2", RETRY_SENDER);
    are_right(&rt, rt.alloc(), "wakings", "retry 3 2", wakings);
}

/// Node 1 of retry.
const RETRY_RECEIVER: &str = concat!(
    "1 1|lacks||lacks|\n",
    "1 2|lacks|0 data,0 data|has|\n",
    "1 3|has||has|\n",
    "1 4|has|0 data|has|\n",
);

#[test]
fn retry_receivers_only_listen(rt: HostRuntime) {
    are_right(&rt, rt.alloc(), "starts", "retry 3 2", "1|lacks");
    are_right(&rt, rt.alloc(), "steps", "retry 3 2", RETRY_RECEIVER);
}

/// Node 1 of redundant, which is paused at the steps 6 to 8, and node 0.
const RELAYS: &str = concat!(
    "1 1|lacks||lacks|\n",
    "1 5|lacks|0 data,0 data|has 1|0 data,2 data\n",
    "1 9|has 1||has 2|0 data,2 data\n",
    "1 10|has 2|0 data|has 2|\n",
    "0 48|has 0||has 1|1 data,2 data\n",
);

#[test]
fn redundant_relays_at_once_and_counts_steps(rt: HostRuntime) {
    let wakings = "1 1|lacks|lacks\n1 5|lacks|lacks\n1 9|has 1|has 1\n1 10|has 2|has 2";
    are_right(
        &rt,
        rt.alloc(),
        "starts",
        "redundant 3 2",
        "1|lacks\n0|has 0",
    );
    are_right(&rt, rt.alloc(), "steps", "redundant 3 2", RELAYS);
    are_right(&rt, rt.alloc(), "wakings", "redundant 3 2", wakings);
}

#[test]
fn states_of_others_are_ignored(rt: HostRuntime) {
    let row = "0 1|has 0|0 data|has 0|";
    agrees(&rt, is_step(rt.alloc(), "retry 2 1", "redundant", row), row);
    let row = "1 1|lacks|0 data|lacks|";
    agrees(&rt, is_step(rt.alloc(), "redundant 2 1", "retry", row), row);
}
