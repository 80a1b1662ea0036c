//! The definitions of closed reaches, cones and required edges, tried plainly for two and three nodes and up to three steps.

use lf_faults::{Fault, Parts, can_add};
use lf_outcome::Reach;
use lf_protocols::Protocol;
use lf_sim::{Run, Setting};
use std::alloc::{AllocError, Global};

/// Whether the note of a slot comes while its receiver is up, at a step within the reach.
fn is_heard(
    setting: &Setting<Protocol>,
    run: &Run<Protocol>,
    reach: &Reach,
    from: u32,
    to: u32,
    step: u32,
) -> bool {
    let network = &setting.network;
    if from == to || from >= network.nodes() || to >= network.nodes() {
        return false;
    }
    if step < 1 || step > network.horizon() || !run.up(from, step) {
        return false;
    }
    let arrival = network.arrival(from, to, step);
    !run.set().omits(from, to, step) && run.up(to, arrival) && arrival <= reach.at(to)
}

/// Whether a reach goes no further than the last step.
fn ends_in_time(setting: &Setting<Protocol>, reach: &Reach) -> bool {
    for node in 0..8 {
        if reach.at(node) > setting.spec.horizon() {
            return false;
        }
    }
    true
}

/// Whether a reach is closed, by each slot.
pub(crate) fn is_closed(setting: &Setting<Protocol>, run: &Run<Protocol>, reach: &Reach) -> bool {
    for slot in 0..27 {
        let (from, to, step) = (slot % 3, slot / 3 % 3, slot / 9 + 1);
        if step > reach.at(from) && is_heard(setting, run, reach, from, to, step) {
            return false;
        }
    }
    ends_in_time(setting, reach)
}

/// Whether a reach keeps to the least delays, by each pair.
pub(crate) fn keeps(setting: &Setting<Protocol>, reach: &Reach) -> bool {
    let network = &setting.network;
    for from in 0..network.nodes() {
        for to in 0..network.nodes() {
            if from != to && reach.at(to) > reach.at(from) + network.least(from, to) {
                return false;
            }
        }
    }
    ends_in_time(setting, reach)
}

/// Whether a node is up at a step within the reach, of those from one on, before another.
fn lives(run: &Run<Protocol>, reach: &Reach, node: u32, first: u32, end: u32) -> bool {
    for step in first..end {
        if run.up(node, step) && step <= reach.at(node) {
            return true;
        }
    }
    false
}

/// Whether a fault could change something within the reach, by its definition.
fn is_supported(
    setting: &Setting<Protocol>,
    run: &Run<Protocol>,
    reach: &Reach,
    fault: &Fault,
) -> bool {
    match fault.parts() {
        Parts::Omit { from, to, step } => {
            from < run.nodes()
                && step <= run.horizon()
                && is_heard(setting, run, reach, from, to, step)
                && run.sent(from, to, step).is_some()
        }
        Parts::Crash { node, step } => lives(run, reach, node, step, run.horizon() + 1),
        Parts::Pause { node, step } => {
            let end = step + setting.spec.pause_length();
            lives(run, reach, node, step, end)
        }
    }
}

/// The fault of this number: of each step first the omissions, then the crashes, and then the pauses.
fn fault_numbered(number: u32) -> Option<Fault> {
    let step = number / 15 + 1;
    match number % 15 {
        slot if slot < 9 => Fault::omit(slot / 3, slot % 3, step),
        node if node < 12 => Fault::crash(node - 9, step),
        node => Fault::pause(node - 12, step),
    }
}

/// The required edges, by looking at each fault.
pub(crate) fn edges(
    alloc: Global,
    setting: &Setting<Protocol>,
    run: &Run<Protocol>,
    reach: &Reach,
) -> Result<Vec<Fault>, AllocError> {
    let mut found = Vec::new(alloc);
    for number in 0..45 {
        if let Some(fault) = fault_numbered(number)
            && is_supported(setting, run, reach, &fault)
            && can_add(&setting.spec, &run.set(), fault)
        {
            found.push(fault)?;
        }
    }
    Ok(found)
}
