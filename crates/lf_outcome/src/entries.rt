//! What nodes enter under a topic, and whether it is one value for each key.

ghost use Rattle.std.specs.Prelude.{◌≡◌, ◌+◌, ◌<◌, ◌≤◌, ◌||◌, ◌++◌, ◌∷◌, [], not, OnOk, length, take};
ghost use Rattle.std.specs.List.{filter, list_all};
ghost use Rattle.lf_sim.specs.Settings.{IsRun, set_of, world_of};
ghost use Rattle.lf_outcome.specs.Evidence.{points_up};
ghost use Rattle.lf_outcome.specs.Truth.{agree, all_agree, counts, entered, entries_at, is_down, is_single, points_at, points_to};

use crate::truth::is_within;
use crate::{Point, Reach};
use lf_sim::{Entry, Machine, Run, Setting};
use std::alloc::AllocError;

/// The most entries of a run: 8 nodes and 48 steps.
const MOST: usize = 384;

/// Entries: so many of the items.
#[derive(Drop)]
struct Entries {
    count: usize,
    items: [Entry; MOST],
}

/// Whether of what so many nodes enter under a topic, at the steps 1 to the last, each two entries agree. It takes no memory.
pub(crate) fn is_single<M: Machine>(
    setting: &Setting<M>,
    run: &Run<M>,
    nodes: u32,
    last: u32,
    topic: u8,
) -> bool
    requires { IsRun (world_of setting.now) run.now }
    ensures { result ≡ is_single (world_of setting.now) (set_of run.now) nodes last topic }
{
    let few = nodes.min(run.nodes());
    let end = last.min(run.horizon());
    let mut entries = Entries {
        count: 0,
        items: [Entry { key: 0, value: 0 }; MOST],
    };
    'steps: for before in 0..end {
        enter(setting, run, few, before + 1, topic, &mut entries);
    }
    let count = entries.count;
    all_agree(&mut entries.items[..count])
}

/// Puts what so many nodes enter under a topic after a step behind other entries.
fn enter<M: Machine>(
    setting: &Setting<M>,
    run: &Run<M>,
    nodes: u32,
    step: u32,
    topic: u8,
    entries: &mut Entries,
)
    requires run { IsRun (world_of setting.now) run.now }
    requires room { entries.old.count + nodes ≤ 384 }
    ensures items { take entries.new.count entries.new.items ≡
        take entries.old.count entries.old.items ++ entries_at (entered (world_of setting.now) (set_of run.now) topic) (points_at nodes step) }
    ensures count { entries.new.count ≤ entries.old.count + nodes }
{
    'nodes: for node in 0..nodes {
        if let Some(entry) = entered(setting, run, topic, node, step) {
            entries.push(entry);
        }
    }
}

/// What a node enters under a topic after a step, if it is up.
fn entered<M: Machine>(
    setting: &Setting<M>,
    run: &Run<M>,
    topic: u8,
    node: u32,
    step: u32,
) -> Option<Entry>
    requires { IsRun (world_of setting.now) run.now }
    ensures { result ≡ entered (world_of setting.now) (set_of run.now) topic node step }
{
    if !run.up(node, step) {
        return None;
    }
    setting.machine.entry(node, &run.state(node, step), topic)
}

impl Entries {
    /// Puts an entry behind the others.
    fn push(&mut self, entry: Entry)
        requires { self.old.count < 384 }
        ensures items { take self.new.count self.new.items ≡ take self.old.count self.old.items ++ entry ∷ [] }
        ensures count { self.new.count ≡ self.old.count + 1 }
    {
        self.items[self.count] = entry;
        self.count += 1;
    }
}

/// Whether each two entries agree. It sorts them: those of one key then stand together.
fn all_agree(entries: &mut [Entry]) -> bool
    ensures { result ≡ all_agree entries.old }
{
    entries.sort_unstable_by_key(|entry| entry.key);
    'entries: for i in 1..entries.len() {
        if !agree(entries[i - 1], entries[i]) {
            return false;
        }
    }
    true
}

/// Whether two entries agree: unless they have one key and different values.
fn agree(one: Entry, other: Entry) -> bool
    ensures { result ≡ agree one other }
{
    one.key != other.key || one.value == other.value
}

/// Whether each of the points of so many nodes up to a last step counts, or its node isn't up then.
pub(crate) fn are_within<M: Machine>(
    setting: &Setting<M>,
    limit: &Option<Reach>,
    run: &Run<M>,
    nodes: u32,
    last: u32,
) -> bool
    requires { IsRun (world_of setting.now) run.now }
    ensures { result ≡ list_all (λ p. is_down (world_of setting.now) (set_of run.now) p.node p.step || counts limit.now p.node p.step) (points_to nodes last) }
{
    if limit.is_none() {
        return true;
    }
    let few = nodes.min(run.nodes());
    let end = last.min(run.horizon());
    'steps: for before in 0..end {
        if !are_within_at(setting, limit, run, few, before + 1) {
            return false;
        }
    }
    true
}

/// The same for one step.
fn are_within_at<M: Machine>(
    setting: &Setting<M>,
    limit: &Option<Reach>,
    run: &Run<M>,
    nodes: u32,
    step: u32,
) -> bool
    requires { IsRun (world_of setting.now) run.now }
    ensures { result ≡ list_all (λ p. is_down (world_of setting.now) (set_of run.now) p.node p.step || counts limit.now p.node p.step) (points_at nodes step) }
{
    let _setting = setting;
    'nodes: for node in 0..nodes {
        if run.up(node, step) && !is_within(limit, node, step) {
            return false;
        }
    }
    true
}

/// Puts the points of so many nodes up to a last step at which their nodes are up behind others.
pub fn push_up<M: Machine>(
    setting: &Setting<M>,
    run: &Run<M>,
    nodes: u32,
    last: u32,
    points: &mut Vec<Point>,
) -> Result<(), AllocError>
    requires { IsRun (world_of setting.now) run.now }
    ensures { OnOk result (points.new.items ≡ points.old.items ++ points_up (is_down (world_of setting.now) (set_of run.now)) nodes last) }
{
    let few = nodes.min(run.nodes());
    let end = last.min(run.horizon());
    'steps: for before in 0..end {
        push_up_at(setting, run, few, before + 1, points)?;
    }
    Ok(())
}

/// The same for one step.
fn push_up_at<M: Machine>(
    setting: &Setting<M>,
    run: &Run<M>,
    nodes: u32,
    step: u32,
    points: &mut Vec<Point>,
) -> Result<(), AllocError>
    requires { IsRun (world_of setting.now) run.now }
    ensures { OnOk result (points.new.items
        ≡ points.old.items ++ filter (λ p. not (is_down (world_of setting.now) (set_of run.now) p.node p.step)) (points_at nodes step)) }
{
    let _setting = setting;
    'nodes: for node in 0..nodes {
        if run.up(node, step) {
            points.push(Point { node, step })?;
        }
    }
    Ok(())
}
