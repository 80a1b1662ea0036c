//! Which facts last in which states.

use crate::states::state;
use crate::texts::{agrees, columns, number, protocol};
use crate::words::is_among;
use lf_protocols::{Protocol, State};
use lf_residual::{lasting_facts, lasts};
use std::process::Abort;

/// Whether the machine has a fact of this word, and the fact lasts in the state or not.
fn is_lasting(machine: &Protocol, state: &State, word: &str, lasting: bool) -> bool {
    match machine.fact(word) {
        Some(fact) => lasts(machine, state, &fact) == lasting,
        None => false,
    }
}

/// Whether of the facts of the protocol that the list names these alone last in the state.
fn last_these(machine: &Protocol, state: &State, facts: &str, lasting: &str) -> bool {
    for word in facts.split(' ') {
        if !is_lasting(machine, state, word, is_among(word, lasting)) {
            return false;
        }
    }
    true
}

/// Whether in the row's state, one of the protocol of that name, the row's facts alone last, and so many.
fn is_right(machine: &str, states: &str, facts: &str, row: &str) -> bool {
    let (before, rest) = columns(row);
    let (lasting, count) = columns(rest);
    match (protocol(machine), state(states, before)) {
        (Some(machine), Some(state)) => {
            last_these(&machine, &state, facts, lasting)
                && number(count) == Some(lasting_facts(&machine, &state))
        }
        _ => false,
    }
}

/// For each line of the table a state, which of the protocol's facts last in it, and how many do.
fn last(rt: &impl Abort, machine: &str, states: &str, facts: &str, table: &str) {
    for row in table.lines() {
        agrees(rt, is_right(machine, states, facts, row), row);
    }
}

#[test]
fn the_data_lasts(rt: HostRuntime) {
    last(
        &rt,
        "retry 2 1",
        "retry",
        "has lacks",
        "has|has|1\nlacks||0",
    );
    let relayed = "has 0|has|1\nhas 1|has|1\nlacks||0";
    last(&rt, "redundant 2 1", "redundant", "has lacks", relayed);
    // A node keeps no state of another protocol.
    last(&rt, "retry 2 1", "redundant", "has lacks", "has 0||0");
    last(&rt, "redundant 2 1", "retry", "has lacks", "has||0");
}

/// The facts of a commit.
const COMMITS: &str = "committed not_committed aborted not_aborted blocked free";

/// The phases.
const PHASES: &str = concat!(
    "idle @0||0\n",
    "voting - @0||0\n",
    "prepared @0||0\n",
    "precommitting - @0||0\n",
    "precommitted @0||0\n",
    "committed @0|committed not_aborted free|3\n",
    "aborted @0|not_committed aborted free|3\n",
);

#[test]
fn a_decision_lasts(rt: HostRuntime) {
    last(&rt, "two_phase 2 1", "two_phase", COMMITS, PHASES);
    last(&rt, "three_phase 2 1", "three_phase", COMMITS, PHASES);
    let other = "committed @0||0";
    last(&rt, "two_phase 2 1", "three_phase", COMMITS, other);
}

/// The facts of a primary and a backup.
const REPLICAS: &str = "holds empty done not_done primary backup claimed unclaimed";

/// What a replica may know.
const KNOWN: &str = concat!(
    "empty not_done backup unclaimed @0||0\n",
    "holds not_done backup unclaimed @0|holds|1\n",
    "empty done backup unclaimed @0|done|1\n",
    "empty not_done primary unclaimed @0|primary|1\n",
    "empty not_done backup claimed @0|claimed|1\n",
    "holds done primary claimed @9|holds done primary claimed|4\n",
);

#[test]
fn what_a_replica_knows_lasts(rt: HostRuntime) {
    last(&rt, "primary_backup 3 1", "primary_backup", REPLICAS, KNOWN);
}
