//! Closed reaches and required edges, by plain looks at all slots and all faults.

use lf_faults::{Fault, FaultSpec, Parts, can_add};
use lf_latency::Network;
use lf_outcome::Reach;
use lf_protocols::Protocol;
use lf_sim::{Run, Setting};
use std::alloc::{AllocError, Global};

/// The fault of a row and a column at a step: a row for each sender, one of crashes, and one of pauses.
fn fault_at(nodes: u32, row: u32, column: u32, step: u32) -> Option<Fault> {
    if row < nodes {
        Fault::omit(row, column, step)
    } else if row == nodes {
        Fault::crash(column, step)
    } else {
        Fault::pause(column, step)
    }
}

/// All faults of a scenario's nodes and steps, ascending, allowed or not.
pub(crate) fn every_fault(alloc: Global, spec: &FaultSpec) -> Result<Vec<Fault>, AllocError> {
    let nodes = spec.nodes();
    let mut faults = Vec::new(alloc);
    for step in 1..spec.horizon() + 1 {
        for row in 0..nodes + 2 {
            for column in 0..nodes {
                if let Some(fault) = fault_at(nodes, row, column, step) {
                    faults.push(fault)?;
                }
            }
        }
    }
    Ok(faults)
}

/// The step at which a note would arrive. None where there is no such slot.
fn arrival(network: &Network, from: u32, to: u32, step: u32) -> Option<u32> {
    let is_pair = from < network.nodes() && to < network.nodes() && from != to;
    if is_pair && 1 <= step && step <= network.horizon() {
        Some(network.arrival(from, to, step))
    } else {
        None
    }
}

/// Whether a node hears within the reach what another does at a step: that one is up there, its note would arrive and isn't
/// omitted, and the node is up at the arrival, which is within the reach. Whether a note is sent plays no part.
fn is_heard(
    setting: &Setting<Protocol>,
    run: &Run<Protocol>,
    reach: &Reach,
    from: u32,
    to: u32,
    step: u32,
) -> bool {
    let Some(arrival) = arrival(&setting.network, from, to, step) else {
        return false;
    };
    let set = run.set();
    run.up(from, step)
        && !set.omits(from, to, step)
        && run.up(to, arrival)
        && arrival <= reach.at(to)
}

/// Whether what is heard within the reach was done within it, of all slots, which the omissions among the faults name.
pub(crate) fn is_closed(
    setting: &Setting<Protocol>,
    run: &Run<Protocol>,
    reach: &Reach,
    faults: &[Fault],
) -> bool {
    for fault in faults {
        if let Parts::Omit { from, to, step } = fault.parts()
            && is_heard(setting, run, reach, from, to, step)
            && reach.at(from) < step
        {
            return false;
        }
    }
    true
}

/// Whether a note was sent in a slot.
fn was_sent(run: &Run<Protocol>, from: u32, to: u32, step: u32) -> bool {
    from < run.nodes() && step <= run.horizon() && run.sent(from, to, step).is_some()
}

/// Whether a node is up within the reach at one of `count` steps, from a first one on.
fn lives(run: &Run<Protocol>, reach: &Reach, node: u32, first: u32, count: u32) -> bool {
    for more in 0..count {
        let step = first.saturating_add(more);
        if run.up(node, step) && step <= reach.at(node) {
            return true;
        }
    }
    false
}

/// Whether the fault could change what is within the reach.
fn supports(
    setting: &Setting<Protocol>,
    run: &Run<Protocol>,
    reach: &Reach,
    fault: &Fault,
) -> bool {
    match fault.parts() {
        Parts::Omit { from, to, step } => {
            was_sent(run, from, to, step) && is_heard(setting, run, reach, from, to, step)
        }
        Parts::Crash { node, step } => lives(run, reach, node, step, run.horizon()),
        Parts::Pause { node, step } => {
            lives(run, reach, node, step, setting.spec.pause_length())
        }
    }
}

/// The number of the reason for which the edges aren't the required faults, in order, or 0. Required are those of the faults that
/// could change what is within the reach, can be added to the run's set and aren't excluded.
pub(crate) fn wrong_edges(
    setting: &Setting<Protocol>,
    run: &Run<Protocol>,
    reach: &Reach,
    excluded: &[Fault],
    faults: &[Fault],
    edges: &[Fault],
) -> u32 {
    let (mut count, mut misses, mut differs) = (0_usize, false, false);
    for fault in faults {
        if supports(setting, run, reach, fault)
            && can_add(&setting.spec, &run.set(), *fault)
            && !excluded.contains(fault)
        {
            misses |= !edges.contains(fault);
            differs |= edges.get(count) != Some(fault);
            count = count.saturating_add(1);
        }
    }
    if misses {
        6
    } else if differs || count != edges.len() {
        7
    } else {
        0
    }
}
