//! Walks of a player over sets.

use crate::beacons::{Beacon, Rumour, Tally};
use crate::player::Player;
use crate::settings::setting;
use crate::texts::{agrees, set};
use lf_faults::{FaultSet, admits, next_set};
use lf_sim::{Machine, Run, Setting, run};
use std::alloc::{AllocError, Global};
use std::process::Abort;

/// Sets near to each other and far apart: crashes in pauses of both sets, of one, and after them, pauses that overlap, faults that do nothing.
const SETS: &str = concat!(
    "\n",
    "omit 0>1 @1\n",
    "omit 0>1 @1,omit 2>0 @2\n",
    "omit 0>1 @1,omit 2>0 @2,omit 1>0 @4\n",
    "omit 1>0 @4\n",
    "pause 1 @5\n",
    "pause 1 @5,crash 1 @6\n",
    "pause 1 @5,crash 1 @8\n",
    "crash 1 @6\n",
    "pause 1 @4\n",
    "pause 1 @5,pause 1 @4\n",
    "pause 1 @6,pause 1 @4,pause 1 @9\n",
    "crash 2 @3,pause 2 @5\n",
    "crash 2 @4,pause 2 @5\n",
    "crash 2 @5,omit 2>1 @3\n",
    "crash 0 @1,crash 1 @1,crash 2 @1\n",
    "\n",
    "crash 7 @2,omit 6>0 @1,pause 5 @1\n",
    "crash 0 @48,omit 0>1 @40,pause 0 @47\n",
    "omit 1>0 @5,omit 2>0 @6,crash 2 @7,pause 0 @4,pause 1 @4,crash 0 @11\n",
    "omit 1>0 @5,omit 2>0 @6,crash 2 @7,pause 0 @4,pause 1 @3,crash 0 @11\n",
    "pause 0 @12,pause 1 @13,pause 2 @1\n",
    "crash 0 @14\n",
    "crash 0 @13,pause 0 @10\n",
    "pause 0 @10\n",
);

/// More sets than any of these settings allows.
const MOST_SETS: u32 = 100_000;

/// Whether two runs are the same at a point.
fn is_same_point<M: Machine>(one: &Run<M>, other: &Run<M>, node: u32, step: u32) -> bool {
    if node >= one.nodes() || step > one.horizon() {
        return false;
    }
    if node >= other.nodes() || step > other.horizon() {
        return false;
    }
    let mut same = one.up(node, step) == other.up(node, step)
        && one.state(node, step) == other.state(node, step);
    for to in 0..9 {
        same = same && one.sent(node, to, step) == other.sent(node, to, step);
    }
    same
}

/// Whether two runs are the same at a step.
fn is_same_step<M: Machine>(one: &Run<M>, other: &Run<M>, step: u32) -> bool {
    let mut same = true;
    for node in 0..one.nodes() {
        same = same && is_same_point(one, other, node, step);
    }
    same
}

/// Whether two runs are the same: in their sets, and at every point and slot.
fn is_same<M: Machine>(one: &Run<M>, other: &Run<M>) -> bool {
    let mut same = one.set() == other.set()
        && one.nodes() == other.nodes()
        && one.horizon() == other.horizon();
    for step in 0..one.horizon() + 1 {
        same = same && is_same_step(one, other, step);
    }
    same
}

/// Whether a player that plays a set has its run.
fn plays<M: Machine>(
    alloc: Global,
    player: &mut Player<'_, M>,
    set: &FaultSet,
) -> Result<bool, AllocError> {
    player.play(set);
    let own = run(alloc, player.setting, set)?;
    Ok(is_same(player.run(), &own))
}

/// Whether a player has the runs of two sets that it plays in turn.
fn plays_both<M: Machine>(
    alloc: Global,
    player: &mut Player<'_, M>,
    one: &FaultSet,
    other: &FaultSet,
) -> bool {
    for set in [other, one, other] {
        if !plays(alloc, player, set).unwrap_or(false) {
            return false;
        }
    }
    true
}

/// Each set of the list, after the one before and back again.
fn plays_rows<M: Machine>(rt: &impl Abort, alloc: Global, player: &mut Player<'_, M>) {
    let mut before = FaultSet::empty();
    for row in SETS.lines() {
        let next = set(row).unwrap_or(before);
        agrees(rt, plays_both(alloc, player, &before, &next), row);
        before = next;
    }
}

/// Whether a player has the run of each allowed set, one after another, and of a set far from it in between.
fn plays_all<M: Machine>(alloc: Global, player: &mut Player<'_, M>, far: &FaultSet) -> bool {
    let spec = player.setting.spec;
    let mut set = FaultSet::empty();
    for number in 1..MOST_SETS {
        if !admits(&spec, &set) {
            return false;
        }
        let Some(next) = next_set(&spec, &set) else {
            return true;
        };
        if number % 7 == 0 && !plays(alloc, player, far).unwrap_or(false) {
            return false;
        }
        if !plays(alloc, player, &next).unwrap_or(false) {
            return false;
        }
        set = next;
    }
    false
}

/// A player of the setting, if there are both.
fn walk<M: Machine + Drop>(rt: &impl Abort, alloc: Global, setting: Option<Setting<M>>) {
    let Some(setting) = setting else {
        agrees(rt, false, "no setting");
        return;
    };
    match Player::new(alloc, &setting, &FaultSet::empty()) {
        Ok(mut player) => plays_rows(rt, alloc, &mut player),
        Err(_) => agrees(rt, false, "no memory"),
    }
}

/// The same over all sets.
fn walk_all<M: Machine + Drop>(rt: &impl Abort, alloc: Global, setting: Option<Setting<M>>) {
    let Some(setting) = setting else {
        agrees(rt, false, "no setting");
        return;
    };
    let far = set("crash 1 @2,pause 0 @1,omit 2>1 @1").unwrap_or(FaultSet::empty());
    match Player::new(alloc, &setting, &far) {
        Ok(mut player) => agrees(rt, plays_all(alloc, &mut player, &far), "all sets"),
        Err(_) => agrees(rt, false, "no memory"),
    }
}

#[test]
fn a_player_has_the_run_of_each_set(rt: HostRuntime) {
    for (least, spread, length) in [(1, 0, 2), (1, 3, 3), (2, 5, 1), (1, 9, 8)] {
        walk(&rt, rt.alloc(), setting(Beacon, 14, least, spread, length));
        walk(&rt, rt.alloc(), setting(Tally, 14, least, spread, length));
        walk(&rt, rt.alloc(), setting(Rumour, 14, least, spread, length));
    }
}

#[test]
fn a_player_goes_through_all_sets_in_order(rt: HostRuntime) {
    walk_all(&rt, rt.alloc(), setting(Tally, 5, 1, 1, 2));
    walk_all(&rt, rt.alloc(), setting(Rumour, 4, 1, 0, 1));
    walk_all(&rt, rt.alloc(), setting(Beacon, 4, 1, 2, 3));
}
