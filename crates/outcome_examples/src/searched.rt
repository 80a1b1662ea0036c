//! Reaches and edges beside a plain search over all reaches and all faults, for two and three nodes and up to three steps.

ghost use Rattle.lf_sim.specs.Settings.{IsRun, world_of};

use crate::cones::{has_edges, reaches_of};
use crate::plain;
use crate::texts::{agrees, setting};
use lf_cone::is_closed;
use lf_outcome::Reach;
use lf_protocols::Protocol;
use lf_sim::{Run, Setting, run};
use lf_trace::read_faults;
use std::alloc::Global;
use std::process::Abort;

/// The reach of this number.
fn numbered(nodes: u32, number: u32) -> Option<Reach> {
    let steps = [number % 5, number / 5 % 5, number / 25 % 5];
    if nodes == 2 {
        Reach::new(&steps[..2])
    } else {
        Reach::new(&steps)
    }
}

/// Whether one reach is at most another.
fn is_at_most(one: &Reach, other: &Reach) -> bool {
    for node in 0..3 {
        if one.at(node) > other.at(node) {
            return false;
        }
    }
    true
}

/// Whether the reach is closed, and has the edges, as the plain search finds, and no edge where these are excluded.
fn reach_is_plain(
    alloc: Global,
    setting: &Setting<Protocol>,
    run: &Run<Protocol>,
    reach: &Reach,
) -> bool
    requires { IsRun (world_of setting.now) run.now }
{
    let is_same = is_closed(setting, run, reach) == plain::is_closed(setting, run, reach);
    match plain::edges(alloc, setting, run, reach) {
        Ok(by_hand) => {
            is_same
                && has_edges(alloc, setting, run, reach, &[], by_hand.as_slice())
                && has_edges(alloc, setting, run, reach, by_hand.as_slice(), &[])
        }
        Err(_) => false,
    }
}

/// Whether a reach that covers the point has the cone in it, if it keeps to the least delays, and the sharp reach, if it is
/// closed.
fn is_above(
    setting: &Setting<Protocol>,
    run: &Run<Protocol>,
    wide: &Reach,
    narrow: &Reach,
    reach: &Reach,
) -> bool {
    (!plain::is_closed(setting, run, reach) || is_at_most(narrow, reach))
        && (!plain::keeps(setting, reach) || is_at_most(wide, reach))
}

/// Whether the cone and the sharp reach of a point are the least of all reaches, where its node is up.
fn point_is_plain(setting: &Setting<Protocol>, run: &Run<Protocol>, node: u32, step: u32) -> bool
    requires { IsRun (world_of setting.now) run.now }
{
    let Some((wide, narrow)) = reaches_of(setting, run, node, step) else {
        return true;
    };
    if step > narrow.at(node) || step > wide.at(node) {
        return false;
    }
    let nodes = setting.spec.nodes();
    let count = if nodes == 2 { 25 } else { 125 };
    for number in 0..count {
        if let Some(reach) = numbered(nodes, number)
            && step <= reach.at(node)
            && !is_above(setting, run, &wide, &narrow, &reach)
        {
            return false;
        }
    }
    plain::is_closed(setting, run, &narrow)
        && plain::is_closed(setting, run, &wide)
        && plain::keeps(setting, &wide)
}

/// Whether the points of a run are as the plain search finds.
fn points_are_plain(setting: &Setting<Protocol>, run: &Run<Protocol>) -> bool
    requires { IsRun (world_of setting.now) run.now }
{
    for point in 0..9 {
        if !point_is_plain(setting, run, point % 3, point / 3 + 1) {
            return false;
        }
    }
    true
}

/// Whether all reaches of a run are as the plain search finds.
fn reaches_are_plain(alloc: Global, setting: &Setting<Protocol>, run: &Run<Protocol>) -> bool
    requires { IsRun (world_of setting.now) run.now }
{
    let nodes = setting.spec.nodes();
    let count = if nodes == 2 { 25 } else { 125 };
    for number in 0..count {
        match numbered(nodes, number) {
            Some(reach) if reach_is_plain(alloc, setting, run, &reach) => {}
            _ => return false,
        }
    }
    true
}

/// Whether the run of the row's set is as the plain search finds.
fn is_plain(alloc: Global, setting: &Setting<Protocol>, row: &str) -> bool {
    let Some(faults) = read_faults(row) else {
        return false;
    };
    match run(alloc, setting, &faults) {
        Ok(run) => { points_are_plain(setting, &run) && reaches_are_plain(alloc, setting, &run) }
        Err(_) => false,
    }
}

/// Sets, of which the last has a crash too many.
const SETS: &str = concat!(
    "\nomit 0>1 @1\npause 0 @2\nomit 1>0 @2,pause 1 @1\n",
    "omit 0>1 @1,crash 1 @2,pause 0 @2\ncrash 1 @2,crash 0 @1\n",
);

/// The numbers of settings: with notes that all take a step, and with notes that take up to two steps more.
const NUMBERS: &str = concat!(
    "2 1 1 4 1 1 1 0 7\n3 2 1 4 1 2 1 0 7\n3 2 1 4 1 2 1 1 7\n3 2 1 4 1 2 1 2 7\n",
    "3 2 1 4 1 1 1 1 7\n",
);

/// Whether the runs of a setting are as the plain search finds.
fn are_plain(alloc: Global, protocol: &str, numbers: &str) -> bool {
    let Some(setting) = setting(protocol, numbers) else {
        return false;
    };
    for row in SETS.lines() {
        if !is_plain(alloc, &setting, row) {
            return false;
        }
    }
    true
}

/// The runs of each protocol with all numbers are as the plain search finds.
fn protocols_are_plain(rt: &impl Abort, alloc: Global, protocols: &str) {
    for protocol in protocols.lines() {
        for numbers in NUMBERS.lines() {
            agrees(rt, are_plain(alloc, protocol, numbers), protocol);
        }
    }
}

#[test]
fn reaches_and_edges_of_two_nodes_are_the_plain_ones(rt: HostRuntime) {
    let protocols = "retry 2 2\nredundant 2 2\ntwo_phase 2 2\nthree_phase 2 2";
    protocols_are_plain(&rt, rt.alloc(), protocols);
}

#[test]
fn reaches_and_edges_of_three_nodes_are_the_plain_ones(rt: HostRuntime) {
    let protocols = "retry 3 2\nredundant 3 2\ntwo_phase 3 2\nthree_phase 3 2\nprimary_backup 3 2";
    protocols_are_plain(&rt, rt.alloc(), protocols);
}
