//! Reaches.

use crate::texts::{agrees, columns, numbers};
use lf_outcome::Reach;

/// Whether the reach gives these numbers back.
fn has_steps(reach: &Reach, steps: &[u32]) -> bool {
    let mut node: u32 = 0;
    for step in steps {
        if reach.at(node) != *step {
            return false;
        }
        node = node.saturating_add(1);
    }
    reach.len() == steps.len()
        && reach.items().len() == steps.len()
        && reach.at(node) == 0
        && reach.at(4294967295) == 0
}

/// Numbers that are a reach, and numbers that are none.
const REACHES: &str = concat!(
    "0 0|reach\n48 0 3|reach\n1 2 3 4 5 6 7 48|reach\n",
    "|none\n5|none\n5 49|none\n4294967295 5|none\n256 5|none\n1 2 3 4 5 6 7 8 9|none\n",
);

/// Whether the numbers of a row are a reach or not, as it says.
fn row_is_judged(row: &str) -> bool {
    let (text, wanted) = columns(row);
    let mut list = [0; 9];
    let Some(count) = numbers(text, &mut list) else {
        return false;
    };
    let Some(steps) = list.get(..count) else {
        return false;
    };
    match Reach::new(steps) {
        Some(reach) => wanted == "reach" && has_steps(&reach, steps),
        None => wanted == "none",
    }
}

#[test]
fn a_reach_has_two_to_eight_numbers_up_to_forty_eight(rt: HostRuntime) {
    for row in REACHES.lines() {
        agrees(&rt, row_is_judged(row), row);
    }
}

#[test]
fn a_reach_is_raised_at_one_node_and_never_lowered(rt: HostRuntime) {
    let none = Reach::none(3);
    let raised = none.raised(2, 5).raised(0, 48).raised(2, 4);
    let are_raised = Reach::new(&[0, 0, 0]) == Some(none)
        && Reach::new(&[48, 0, 5]) == Some(raised)
        && none != raised;
    agrees(&rt, are_raised, "raised");
}
