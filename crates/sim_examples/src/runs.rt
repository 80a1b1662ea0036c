//! Runs are the plain ones.

use crate::machines::{Hub, Ring};
use crate::plain::{is_plain, plain};
use crate::texts::{agrees, set, setting};
use lf_faults::FaultSet;
use lf_sim::{Machine, Setting, Stepped, rerun, run, runs_agree};
use std::alloc::Global;
use std::process::Abort;

/// Sets with each kind of fault, and with pauses in each place to crashes, other pauses and the end.
const SETS: &str = concat!(
    "\n",
    "omit 0>1 @1,omit 2>0 @2,omit 1>0 @4\n",
    "omit 1>0 @1,omit 1>0 @2,omit 1>0 @3,omit 0>2 @3,omit 1>2 @3\n",
    "crash 1 @4\n",
    "crash 0 @1,crash 2 @14\n",
    "pause 0 @3\n",
    "pause 1 @5,crash 1 @6\n",
    "crash 2 @3,pause 2 @5\n",
    "pause 1 @5,crash 1 @8\n",
    "pause 0 @12,pause 1 @13,pause 2 @1\n",
    "pause 0 @3,pause 0 @4,pause 0 @6\n",
    "omit 1>0 @5,omit 2>0 @6,crash 3 @7,pause 0 @4,pause 1 @4,crash 2 @11\n",
);

/// Whether the run of a set is the one of these cells, and so is the run of another set that is made that of this one.
fn has_cells<M: Machine>(
    alloc: Global,
    setting: &Setting<M>,
    before: &FaultSet,
    set: &FaultSet,
    cells: &[Stepped<M::State, M::Note>],
) -> bool {
    match (run(alloc, setting, set), run(alloc, setting, before)) {
        (Ok(found), Ok(mut changed)) => {
            rerun(setting, &mut changed, set);
            runs_agree(setting, &found, &changed);
            is_plain(setting, &found, set, cells) && is_plain(setting, &changed, set, cells)
        }
        _ => false,
    }
}

/// Whether the set of a row makes the run that the plain evaluation finds, by itself and out of the run of another set, in place of which it
/// is put.
fn is_plain_run<M: Machine>(
    alloc: Global,
    setting: &Setting<M>,
    before: &mut FaultSet,
    row: &str,
) -> bool {
    let Some(set) = set(row) else {
        return false;
    };
    let last = *before;
    *before = set;
    match plain(alloc, setting, &set) {
        Ok(cells) => has_cells(alloc, setting, &last, &set, cells.as_slice()),
        Err(_) => false,
    }
}

/// Each of the sets makes the run that the plain evaluation finds, by itself and out of the run of the set before.
fn are_plain<M: Machine>(rt: &impl Abort, alloc: Global, setting: &Setting<M>) {
    let mut before = FaultSet::empty();
    for row in SETS.lines() {
        agrees(rt, is_plain_run(alloc, setting, &mut before, row), row);
    }
}

/// The same of the setting, and there is one.
fn is_plain_setting<M: Machine + Drop>(
    rt: &impl Abort,
    alloc: Global,
    setting: Option<Setting<M>>,
) {
    match setting {
        Some(setting) => are_plain(rt, alloc, &setting),
        None => agrees(rt, false, "no setting"),
    }
}

#[test]
fn runs_are_the_plain_ones(rt: HostRuntime) {
    for (least, spread, length) in [(1, 0, 2), (1, 3, 3), (2, 5, 1), (1, 9, 8)] {
        is_plain_setting(&rt, rt.alloc(), setting(Ring, least, spread, length));
        is_plain_setting(&rt, rt.alloc(), setting(Hub, least, spread, length));
    }
}
