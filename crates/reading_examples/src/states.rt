//! The texts of states.

use crate::build::{agrees, columns, definition, fill};
use lf_naming::push_state;
use lf_rule_machine::State;
use std::alloc::{AllocError, Global};

/// For each line the variables that a trace shows among three nodes, the values of all cells, and the text. What isn't there has no text.
const STATES: &str = concat!(
    "0 1 2 3 4|0 0 0 0 0|idle not_open since=0 seen={} vote=idle\n",
    "0 1 2 3 4|1 1 48 5 2|ready open since=48 seen={0,2} vote=done\n",
    "0 1 2 3 4|2 1 7 255 1|done open since=7 seen={0,1,2,3,4,5,6,7} vote=ready\n",
    "3|0 0 0 128 0|seen={7}\n",
    "2 0|1 0 255 0 0|since=255 ready\n",
    "1|0 0 0 0 0|not_open\n",
    "0 9 1|3 2 0 0 0|  open\n",
    "4 4|0 0 0 0 3|vote= vote=\n",
    "5|0 0 0 0 0 4 0 0 5 6 7 8 9 3 2|next=[4,5,6]\n",
    "6|0 0 0 0 0 0 2 0 1 1 1 1 1 1 1 1 0|log=[done,ready,idle]\n",
    "7 0 6|2 0 0 0 0 0 1 1 0 0 0 0 0 0 0 2 3 0|up=[true,false] done log=[ready,done,]\n",
    "7|0 0 0 0 0 0 0 0 0 0 0 0 0 0 0 0 0 1|up=[false,true]\n",
);

/// The text of the row's state, after what stood there before.
fn text(alloc: Global, row: &str) -> Result<String, AllocError> {
    let (shown, rest) = columns(row);
    let (values, _) = columns(rest);
    let mut state = State::zeros();
    fill(&mut state.values, values);
    let mut text = String::from_str(alloc, "1 ")?;
    push_state(&definition(alloc, "stuck", shown)?, 3, &state, &mut text)?;
    Ok(text)
}

fn is_told(alloc: Global, row: &str) -> bool {
    let (_, rest) = columns(row);
    let (_, wanted) = columns(rest);
    match text(alloc, row) {
        Ok(text) => text.as_str().strip_prefix("1 ") == Some(wanted),
        Err(_) => false,
    }
}

#[test]
fn states_are_told(rt: HostRuntime) {
    for row in STATES.lines() {
        agrees(&rt, is_told(rt.alloc(), row), row);
    }
}
