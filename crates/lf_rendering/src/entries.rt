//! What nodes enter under a topic, and which of it differs.

ghost use Rattle.lf_sim.specs.Settings.{IsRun, world_of};

use lf_outcome::Point;
use lf_sim::{Entry, Machine, Run, Setting};
use std::alloc::{AllocError, Global};

/// What a node enters at a point at which it is up.
#[derive(Clone, Copy)]
pub(crate) struct Entered {
    pub(crate) point: Point,
    entry: Entry,
}

/// What so many nodes enter under a topic at the steps 1 to the last, by step and then by node.
pub(crate) fn entries<M: Machine>(
    alloc: Global,
    setting: &Setting<M>,
    run: &Run<M>,
    nodes: u32,
    last: u32,
    topic: u8,
) -> Result<Vec<Entered>, AllocError>
    requires { IsRun (world_of setting.now) run.now }
{
    let few = nodes.min(run.nodes());
    let end = last.min(run.horizon());
    let mut entries = Vec::new(alloc);
    for past in 0..end {
        for node in 0..few {
            let point = Point {
                node,
                step: past + 1,
            };
            if let Some(entry) = entry_at(setting, run, point, topic) {
                entries.push(Entered { point, entry })?;
            }
        }
    }
    Ok(entries)
}

/// What a point's node enters under a topic, if it is up.
fn entry_at<M: Machine>(
    setting: &Setting<M>,
    run: &Run<M>,
    point: Point,
    topic: u8,
) -> Option<Entry>
    requires { IsRun (world_of setting.now) run.now }
{
    let node = point.node;
    let step = point.step;
    if !run.up(node, step) {
        return None;
    }
    setting.machine.entry(node, &run.state(node, step), topic)
}

/// The points of these nodes and steps whose entry has the key of another one, and another value.
pub(crate) fn differing<M: Machine>(
    alloc: Global,
    setting: &Setting<M>,
    run: &Run<M>,
    nodes: u32,
    last: u32,
    topic: u8,
) -> Result<Vec<Point>, AllocError>
    requires { IsRun (world_of setting.now) run.now }
{
    let entries = entries(alloc, setting, run, nodes, last, topic)?;
    let mut points = Vec::new(alloc);
    for entered in entries.as_slice() {
        if differs(entered.entry, entries.as_slice()) {
            points.push(entered.point)?;
        }
    }
    Ok(points)
}

/// Whether one of these has the entry's key and another value.
fn differs(entry: Entry, entries: &[Entered]) -> bool {
    entries.iter().any(|other| other.entry.key == entry.key && other.entry.value != entry.value)
}
