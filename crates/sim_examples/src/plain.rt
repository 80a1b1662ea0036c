//! A plain evaluation of runs, which walks all slots.

ghost use Rattle.std.specs.Prelude.{◌<◌, ◌≤◌};

use lf_faults::{Fault, FaultSet, Parts};
use lf_latency::Network;
use lf_sim::{Letter, Machine, Out, Run, Setting, Stepped};
use std::alloc::{AllocError, Global};

/// Whether a node is up, fault by fault.
fn is_up(set: &FaultSet, length: u32, at: u32, t: u32) -> bool {
    let mut up = true;
    for fault in set.items() {
        match fault.parts() {
            Parts::Crash { node, step } => {
                if node == at && step <= t {
                    up = false;
                }
            }
            Parts::Pause { node, step } => {
                if node == at && step <= t && t - step < length {
                    up = false;
                }
            }
            Parts::Omit { .. } => {}
        }
    }
    up
}

/// Whether a pause of a node has just ended, fault by fault.
fn ends_pause(set: &FaultSet, length: u32, at: u32, t: u32) -> bool {
    let mut ends = false;
    for fault in set.items() {
        if let Parts::Pause { node, step } = fault.parts()
            && node == at
            && step <= t
            && t - step == length
        {
            ends = true;
        }
    }
    ends
}

/// Where the cell of a node and a step stands, of those step by step and node by node. A sum that may wrap is dear to prove.
fn place(nodes: u32, node: u32, t: u32) -> usize {
    t.saturating_mul(nodes).saturating_add(node) as usize
}

/// What every node does, step by step and node by node, from before the first step on.
pub(crate) fn plain<M: Machine>(
    alloc: Global,
    setting: &Setting<M>,
    set: &FaultSet,
) -> Result<Vec<Stepped<M::State, M::Note>>, AllocError> {
    let nodes = setting.machine.nodes();
    let mut cells = Vec::new(alloc);
    for t in 0..setting.spec.horizon() + 1 {
        for node in 0..nodes {
            let cell = cell(alloc, setting, set, &cells, node, t)?;
            cells.push(cell)?;
        }
    }
    Ok(cells)
}

/// What a node does at a step, or its start before the first.
fn cell<M: Machine>(
    alloc: Global,
    setting: &Setting<M>,
    set: &FaultSet,
    cells: &[Stepped<M::State, M::Note>],
    node: u32,
    t: u32,
) -> Result<Stepped<M::State, M::Note>, AllocError>
    requires node { node < (M.rules setting.now.machine).nodes }
    requires last { t ≤ 48 }
{
    if t > 0 {
        return turn(alloc, setting, set, cells, node, t);
    }
    Ok(Stepped {
        state: setting.machine.start(node),
        out: Out::none(),
    })
}

/// What a node does at a step.
fn turn<M: Machine>(
    alloc: Global,
    setting: &Setting<M>,
    set: &FaultSet,
    cells: &[Stepped<M::State, M::Note>],
    node: u32,
    t: u32,
) -> Result<Stepped<M::State, M::Note>, AllocError>
    requires node { node < (M.rules setting.now.machine).nodes }
    requires first { 1 ≤ t }
    requires last { t ≤ 48 }
{
    let length = setting.spec.pause_length();
    let last = last_state(setting, cells, node, t);
    if !is_up(set, length, node, t) {
        return Ok(Stepped {
            state: last,
            out: Out::none(),
        });
    }
    let inbox = inbox(alloc, setting, set, cells, node, t)?;
    let state = if ends_pause(set, length, node, t) {
        setting.machine.wake(node, t, last)
    } else {
        last
    };
    Ok(setting.machine.step(node, t, state, &inbox))
}

/// The state of a node before a step.
fn last_state<M: Machine>(
    setting: &Setting<M>,
    cells: &[Stepped<M::State, M::Note>],
    node: u32,
    t: u32,
) -> M::State
    requires node { node < (M.rules setting.now.machine).nodes }
    requires first { 1 ≤ t }
{
    let nodes = setting.machine.nodes();
    match cells.get(place(nodes, node, t - 1)) {
        Some(cell) => cell.state,
        None => setting.machine.start(node),
    }
}

/// What reaches a node at a step: each sender, and of it each step before.
fn inbox<M: Machine>(
    alloc: Global,
    setting: &Setting<M>,
    set: &FaultSet,
    cells: &[Stepped<M::State, M::Note>],
    to: u32,
    t: u32,
) -> Result<Vec<Letter<M::Note>>, AllocError> {
    let mut inbox = Vec::new(alloc);
    for from in 0..setting.network.nodes() {
        for sent in 1..t {
            if let Some(note) = note(setting, set, cells, from, to, sent, t) {
                inbox.push(Letter { from, sent, note })?;
            }
        }
    }
    Ok(inbox)
}

/// Whether a note from one node to another of a step arrives at the step `t`.
fn arrives(network: &Network, from: u32, to: u32, sent: u32, t: u32) -> bool {
    let nodes = network.nodes();
    if from >= nodes || to >= nodes || from == to || sent < 1 || sent > network.horizon() {
        return false;
    }
    network.arrival(from, to, sent) == t
}

/// What one node sent to another at a step, if it arrives at the step `t`.
fn note<M: Machine>(
    setting: &Setting<M>,
    set: &FaultSet,
    cells: &[Stepped<M::State, M::Note>],
    from: u32,
    to: u32,
    sent: u32,
    t: u32,
) -> Option<M::Note> {
    if !arrives(&setting.network, from, to, sent, t) {
        return None;
    }
    if set.contains(&Fault::omit(from, to, sent)?) {
        return None;
    }
    let place = place(setting.network.nodes(), from, sent);
    cells.get(place)?.out.to(to)
}

/// Whether a run is what the plain evaluation finds, at every point and slot.
pub(crate) fn is_plain<M: Machine>(
    setting: &Setting<M>,
    found: &Run<M>,
    set: &FaultSet,
    cells: &[Stepped<M::State, M::Note>],
) -> bool {
    let mut same = found.set() == *set
        && found.nodes() == setting.machine.nodes()
        && found.horizon() == setting.spec.horizon();
    for t in 0..found.horizon() + 1 {
        same = same && is_plain_at(setting, found, set, cells, t);
    }
    same
}

/// The same at a step.
fn is_plain_at<M: Machine>(
    setting: &Setting<M>,
    found: &Run<M>,
    set: &FaultSet,
    cells: &[Stepped<M::State, M::Note>],
    t: u32,
) -> bool {
    let length = setting.spec.pause_length();
    let nodes = found.nodes();
    let mut same = true;
    for node in 0..nodes {
        let up = t > 0 && is_up(set, length, node, t);
        let cell = cells.get(place(nodes, node, t));
        same = same && found.up(node, t) == up && is_cell(found, node, t, cell);
    }
    same
}

/// Whether a run holds a cell.
fn is_cell<M: Machine>(
    found: &Run<M>,
    node: u32,
    t: u32,
    cell: Option<&Stepped<M::State, M::Note>>,
) -> bool {
    let Some(cell) = cell else {
        return false;
    };
    if node >= found.nodes() || t > found.horizon() {
        return false;
    }
    let mut same = found.state(node, t) == cell.state;
    for to in 0..9 {
        same = same && found.sent(node, to, t) == cell.out.to(to);
    }
    same
}
