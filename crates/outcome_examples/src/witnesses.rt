//! The runs that answers show.

use crate::delay_texts::{agrees, answers, comes};

/// A commit of three phases among three nodes, by how long a node waits: delays alone split it where that is less than twice the least delay
/// and three times the spread.
const THREE_PHASES: &str = concat!(
    "protocol = \"three_phase\";nodes = 3;horizon = 24;last_omission = 0;crashes = 1;budget = 2;spread = 3;patience = 10;",
    "outcome = \"agreement\"|least 0\n",
    "protocol = \"three_phase\";nodes = 3;horizon = 24;last_omission = 0;crashes = 1;budget = 2;spread = 3;patience = 11;",
    "outcome = \"agreement\"|none 2\n",
);

#[test]
fn three_phases_are_split_by_delays_alone(rt: HostRuntime) {
    answers(&rt, rt.alloc(), THREE_PHASES);
}

#[test]
fn three_late_notes_split_the_first(rt: HostRuntime) {
    let alloc = rt.alloc();
    agrees(
        &rt,
        comes(alloc, THREE_PHASES, 0, 2, 1) == Some(5),
        "0>2 @1",
    );
    agrees(
        &rt,
        comes(alloc, THREE_PHASES, 2, 0, 5) == Some(9),
        "2>0 @5",
    );
    agrees(
        &rt,
        comes(alloc, THREE_PHASES, 0, 1, 9) == Some(13),
        "0>1 @9",
    );
    agrees(
        &rt,
        comes(alloc, THREE_PHASES, 0, 1, 1) == Some(2),
        "0>1 @1",
    );
}
