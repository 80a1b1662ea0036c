//! What is told on a terminal of a set that was found. What is told elsewhere stands in `examples/cases/`.

use lf_delays::Delay;
use lf_faults::{FaultSet, read_slot, read_step};
use lf_hints::{see_hint, see_late_hint};
use lf_trace::read_faults;
use std::alloc::{AllocError, Global};

/// Sets that were found with `;` between them, the late notes, and what is told of them; also of a protocol file.
const HINTS: &str = concat!(
    "see|omit 0>1 @1,crash 0 @2||to see it: leastfault run a.toml 'omit 0>1 @1,crash 0 @2'\n",
    "see|||to see it: leastfault run a.toml ''\n",
    "see|pause 0 @1;pause 1 @2||to see the first: leastfault run a.toml 'pause 0 @1'\n",
    "see late||0>1 @1 3,0>2 @1 4|to see it: leastfault run a.toml '' --delays '0>1 @1 3,0>2 @1 4'\n",
    "see late|omit 0>1 @1,crash 0 @2||to see it: leastfault run a.toml 'omit 0>1 @1,crash 0 @2' --delays ''\n",
    "see late|crash 0 @2|0>1 @1 3|to see it: leastfault run a.toml 'crash 0 @2' --delays '0>1 @1 3'\n",
    "see own|crash 0 @2|0>1 @1 3|to see it: leastfault run a.toml 'crash 0 @2' --delays '0>1 @1 3' --protocol p.toml\n",
);

/// The columns before and behind the first `|`.
fn columns(line: &str) -> (&str, &str) {
    line.split_once('|').unwrap_or((line, ""))
}

/// The sets of faults that are written with `;` between them.
fn sets_of(alloc: Global, text: &str) -> Result<Vec<FaultSet>, AllocError> {
    let mut sets = Vec::new(alloc);
    for words in text.split(';') {
        if let Some(set) = read_faults(words) {
            sets.push(set)?;
        }
    }
    Ok(sets)
}

/// The late notes that are written with commas between them.
fn delays_of(alloc: Global, text: &str) -> Result<Vec<Delay>, AllocError> {
    let mut delays = Vec::new(alloc);
    for word in text.split(',') {
        if let Some(delay) = delay_of(word) {
            delays.push(delay)?;
        }
    }
    Ok(delays)
}

/// The late note that a word is.
fn delay_of(word: &str) -> Option<Delay> {
    let (slot, at) = word.rsplit_once(' ')?;
    Some(Delay {
        slot: read_slot(slot.as_bytes())?,
        at: read_step(at.as_bytes())?,
    })
}

/// What is told of sets, or of the first with late notes.
fn hint(alloc: Global, what: &str, sets: &str, delays: &str) -> Result<String, AllocError> {
    let sets = sets_of(alloc, sets)?;
    let delays = delays_of(alloc, delays)?;
    let protocol = if what == "see own" {
        Some("p.toml")
    } else {
        None
    };
    match (what, sets.as_slice().first()) {
        ("see", _) => see_hint(alloc, "a.toml", None, sets.as_slice()),
        (_, Some(set)) => see_late_hint(alloc, "a.toml", protocol, set, delays.as_slice()),
        _ => Ok(String::new(alloc)),
    }
}

/// Whether the hint of a row is what the row says.
fn is_told(alloc: Global, row: &str) -> bool {
    let (what, rest) = columns(row);
    let (sets, rest) = columns(rest);
    let (delays, expected) = columns(rest);
    matches!(hint(alloc, what, sets, delays), Ok(found) if found.as_str() == expected)
}

#[test]
fn sets_that_were_found_are_to_be_seen(rt: HostRuntime) {
    for row in HINTS.lines() {
        let is_told = is_told(rt.alloc(), row);
        assert!(&rt; is_told, "at {row}");
    }
}
