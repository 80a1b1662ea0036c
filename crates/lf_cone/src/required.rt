//! The faults that are to be tried.

ghost use Rattle.std.specs.Prelude.{◌≡◌, ◌≢◌, ℕ, ◌+◌, ◌-◌, ◌*◌, ◌<◌, ◌≤◌, ◌↔◌, true, IsTrue, IsSome, IfOk, OnOk, length};
ghost use Rattle.lf_faults.specs.declared.fault.Parts.TheVariants.{Omit, Crash, Pause};
ghost use Rattle.lf_faults.specs.Faults.{IsFault};
ghost use Rattle.lf_faults.specs.Allowed.{IsAllowed};
ghost use Rattle.lf_sim.specs.Runs.{is_up, sent};
ghost use Rattle.lf_sim.specs.Settings.{world_of, set_of, IsRun};
ghost use Rattle.lf_cone.specs.Cones.{IsHeard, IsRequired, AreRequired};
ghost use Rattle.lf_cone.specs.Places.{sender_row, crash_row, pause_row, place_at};
ghost use Rattle.lf_cone.specs.Places.{IsGathered, AreMarks, AreEnds, AreSent, AreOpen, IsRoom, LivesBetween};

use crate::hearing::{goes, hears};
use crate::marks::{Marks, ROWS, crash_row, pause_row, sender_row};
use crate::room::{Room, room_in};
use lf_faults::{Fault, Parts, admits};
use lf_outcome::Reach;
use lf_sim::{Effects, Machine, Run, Setting};
use std::alloc::{AllocError, Global};

/// A reach has no more required edges than this: there are no more places of faults.
pub const MOST_EDGES: usize = ROWS * 8;

/// What the required edges are looked up in: what the set does, the reach, which faults are excluded, and at which nodes
/// the bounds leave room for a crash or a pause.
#[derive(Drop)]
struct View<'a> {
    effects: Effects,
    reach: Reach,
    // By node, the last step of the run within the reach.
    ends: [u32; 8],
    marks: Marks<'a>,
    room: Room,
}

/// The required edges of a run within a reach: of the faults that could change what is within it, ascending, those that
/// may be added to the run's set and aren't excluded.
///
/// The error is that memory has run out.
pub fn edges<M: Machine>(
    alloc: Global,
    setting: &Setting<M>,
    run: &Run<M>,
    reach: &Reach,
    excluded: &[Fault],
) -> Result<Vec<Fault>, AllocError>
    requires { IsRun (world_of setting.now) run.now }
    ensures { IfOk result (λ found. AreRequired (world_of setting.now) (set_of run.now) setting.now.spec
        reach.now excluded.now found.items) }
{
    let mut found = Vec::new(alloc);
    put_edges(setting, run, reach, excluded, &mut found)?;
    Ok(found)
}

/// The same, in place of what a list holds. It takes memory only where the list has no room.
pub fn put_edges<M: Machine>(
    setting: &Setting<M>,
    run: &Run<M>,
    reach: &Reach,
    excluded: &[Fault],
    found: &mut Vec<Fault>,
) -> Result<(), AllocError>
    requires { IsRun (world_of setting.now) run.now }
    ensures { OnOk result (AreRequired (world_of setting.now) (set_of run.now) setting.now.spec
        reach.now excluded.now found.new.items) }
{
    found.clear();
    let set = run.set();
    if set.len() >= setting.spec.budget() as usize {
        return Ok(());
    }
    if !admits(&setting.spec, &set) {
        return Ok(());
    }
    let view = View {
        effects: Effects::new(&set),
        reach: *reach,
        ends: ends_of(reach, setting.spec.horizon()),
        marks: Marks::new(excluded),
        room: room_in(&setting.spec, &set),
    };
    for step in 1..setting.spec.horizon() + 1 {
        put_omissions(setting, run, &view, step, found)?;
        put_crashes(setting, &view, step, found)?;
        put_pauses(setting, &view, step, found)?;
    }
    Ok(())
}

/// Puts the omissions of a step that are to be tried.
fn put_omissions<M: Machine>(
    setting: &Setting<M>,
    run: &Run<M>,
    view: &View,
    step: u32,
    found: &mut Vec<Fault>,
) -> Result<(), AllocError>
    requires run { IsRun (world_of setting.now) run.now }
    requires set { view.now.effects.set ≡ set_of run.now }
    requires marks { AreMarks view.now.marks.faults.now view.now.marks.rows }
    requires allowed { IsAllowed setting.now.spec view.now.effects.set }
    requires few { length view.now.effects.set < setting.now.spec.budget }
    requires ends { AreEnds view.now.reach setting.now.spec.horizon view.now.ends }
    requires first { 1 ≤ step }
    requires last { step ≤ setting.now.spec.horizon }
    requires so_far { IsGathered (IsRequired (world_of setting.now) view.now.effects.set setting.now.spec
        view.now.reach view.now.marks.faults.now) (place_at (sender_row 0 step) 0) found.old.items }
    ensures { OnOk result (IsGathered (IsRequired (world_of setting.now) view.now.effects.set setting.now.spec
        view.now.reach view.now.marks.faults.now) (place_at (crash_row step) 0) found.new.items) }
{
    if step > setting.spec.last_omission() {
        return Ok(());
    }
    for from in 0..setting.spec.nodes() {
        if goes(setting, &view.effects, from, step) {
            put_omissions_of(setting, run, view, from, step, found)?;
        }
    }
    Ok(())
}

/// Puts the omissions of what a node sends at a step that are to be tried.
fn put_omissions_of<M: Machine>(
    setting: &Setting<M>,
    run: &Run<M>,
    view: &View,
    from: u32,
    step: u32,
    found: &mut Vec<Fault>,
) -> Result<(), AllocError>
    requires run { IsRun (world_of setting.now) run.now }
    requires set { view.now.effects.set ≡ set_of run.now }
    requires marks { AreMarks view.now.marks.faults.now view.now.marks.rows }
    requires allowed { IsAllowed setting.now.spec view.now.effects.set }
    requires few { length view.now.effects.set < setting.now.spec.budget }
    requires ends { AreEnds view.now.reach setting.now.spec.horizon view.now.ends }
    requires from { from < setting.now.spec.nodes }
    requires first { 1 ≤ step }
    requires last { step ≤ setting.now.spec.last_omission }
    requires up { is_up (world_of setting.now) view.now.effects.set from step ≡ true }
    requires so_far { IsGathered (IsRequired (world_of setting.now) view.now.effects.set setting.now.spec
        view.now.reach view.now.marks.faults.now) (place_at (sender_row from step) 0) found.old.items }
    ensures { OnOk result (IsGathered (IsRequired (world_of setting.now) view.now.effects.set setting.now.spec
        view.now.reach view.now.marks.faults.now) (place_at (sender_row (from + 1) step) 0) found.new.items) }
{
    let nodes = setting.spec.nodes();
    let slots = open_slots(setting, run, &view.marks, from, step);
    for to in 0..nodes {
        if tries_omission(setting, view, slots, from, to, step) {
            found.push(omission(from, to, step))?;
        }
    }
    Ok(())
}

/// Puts the crashes at a step that are to be tried.
fn put_crashes<M: Machine>(
    setting: &Setting<M>,
    view: &View,
    step: u32,
    found: &mut Vec<Fault>,
) -> Result<(), AllocError>
    requires marks { AreMarks view.now.marks.faults.now view.now.marks.rows }
    requires allowed { IsAllowed setting.now.spec view.now.effects.set }
    requires room { IsRoom setting.now.spec view.now.effects.set view.now.room.crashes view.now.room.pauses }
    requires ends { AreEnds view.now.reach setting.now.spec.horizon view.now.ends }
    requires first { 1 ≤ step }
    requires last { step ≤ setting.now.spec.horizon }
    requires so_far { IsGathered (IsRequired (world_of setting.now) view.now.effects.set setting.now.spec
        view.now.reach view.now.marks.faults.now) (place_at (crash_row step) 0) found.old.items }
    ensures { OnOk result (IsGathered (IsRequired (world_of setting.now) view.now.effects.set setting.now.spec
        view.now.reach view.now.marks.faults.now) (place_at (pause_row step) 0) found.new.items) }
{
    for node in 0..setting.spec.nodes() {
        if tries_crash(setting, view, node, step) {
            found.push(crash(node, step))?;
        }
    }
    Ok(())
}

/// Puts the pauses at a step that are to be tried.
fn put_pauses<M: Machine>(
    setting: &Setting<M>,
    view: &View,
    step: u32,
    found: &mut Vec<Fault>,
) -> Result<(), AllocError>
    requires marks { AreMarks view.now.marks.faults.now view.now.marks.rows }
    requires allowed { IsAllowed setting.now.spec view.now.effects.set }
    requires room { IsRoom setting.now.spec view.now.effects.set view.now.room.crashes view.now.room.pauses }
    requires ends { AreEnds view.now.reach setting.now.spec.horizon view.now.ends }
    requires first { 1 ≤ step }
    requires last { step ≤ setting.now.spec.horizon }
    requires so_far { IsGathered (IsRequired (world_of setting.now) view.now.effects.set setting.now.spec
        view.now.reach view.now.marks.faults.now) (place_at (pause_row step) 0) found.old.items }
    ensures { OnOk result (IsGathered (IsRequired (world_of setting.now) view.now.effects.set setting.now.spec
        view.now.reach view.now.marks.faults.now) (place_at (sender_row 0 (step + 1)) 0) found.new.items) }
{
    for node in 0..setting.spec.nodes() {
        if tries_pause(setting, view, node, step) {
            found.push(pause(node, step))?;
        }
    }
    Ok(())
}

/// The loss of what a node sends to another at a step.
fn omission(from: u32, to: u32, step: u32) -> Fault
    requires { IsFault (Omit from to step) }
    ensures { result ≡ Omit from to step }
{
    Fault::from_parts(Parts::Omit { from, to, step })
}

/// The crash of a node at a step.
pub(crate) fn crash(node: u32, step: u32) -> Fault
    requires { IsFault (Crash node step) }
    ensures { result ≡ Crash node step }
{
    Fault::from_parts(Parts::Crash { node, step })
}

/// The pause of a node from a step on.
pub(crate) fn pause(node: u32, step: u32) -> Fault
    requires { IsFault (Pause node step) }
    ensures { result ≡ Pause node step }
{
    Fault::from_parts(Parts::Pause { node, step })
}

/// Whether the omission in a slot is to be tried: a note was sent in it that is heard within the reach, and the omission
/// isn't excluded. The set doesn't have it, and there is room for one.
fn tries_omission<M: Machine>(
    setting: &Setting<M>,
    view: &View,
    slots: u8,
    from: u32,
    to: u32,
    step: u32,
) -> bool
    requires slots { AreOpen (world_of setting.now) view.now.effects.set view.now.marks.rows from step slots }
    requires marks { AreMarks view.now.marks.faults.now view.now.marks.rows }
    requires allowed { IsAllowed setting.now.spec view.now.effects.set }
    requires few { length view.now.effects.set < setting.now.spec.budget }
    requires ends { AreEnds view.now.reach setting.now.spec.horizon view.now.ends }
    requires from { from < setting.now.spec.nodes }
    requires to { to < setting.now.spec.nodes }
    requires first { 1 ≤ step }
    requires last { step ≤ setting.now.spec.last_omission }
    requires up { is_up (world_of setting.now) view.now.effects.set from step ≡ true }
    ensures { IsTrue result ↔ IsRequired (world_of setting.now) view.now.effects.set setting.now.spec
        view.now.reach view.now.marks.faults.now (Omit from to step) }
{
    let _nodes = setting.spec.nodes();
    if from == to {
        return false;
    }
    if slots >> to & 1 == 0 {
        return false;
    }
    is_heard(setting, view, from, to, step)
}

/// Whether the crash of a node at a step is to be tried.
fn tries_crash<M: Machine>(setting: &Setting<M>, view: &View, node: u32, step: u32) -> bool
    requires marks { AreMarks view.now.marks.faults.now view.now.marks.rows }
    requires allowed { IsAllowed setting.now.spec view.now.effects.set }
    requires room { IsRoom setting.now.spec view.now.effects.set view.now.room.crashes view.now.room.pauses }
    requires ends { AreEnds view.now.reach setting.now.spec.horizon view.now.ends }
    requires node { node < setting.now.spec.nodes }
    requires first { 1 ≤ step }
    requires last { step ≤ setting.now.spec.horizon }
    ensures { IsTrue result ↔ IsRequired (world_of setting.now) view.now.effects.set setting.now.spec
        view.now.reach view.now.marks.faults.now (Crash node step) }
{
    let _nodes = setting.spec.nodes();
    if !view.room.crashes[node as usize] {
        return false;
    }
    if view.marks.at(crash_row(step), node) {
        return false;
    }
    lives(setting, view, node, step, setting.spec.horizon() + 1)
}

/// Whether the pause of a node from a step on is to be tried.
fn tries_pause<M: Machine>(setting: &Setting<M>, view: &View, node: u32, step: u32) -> bool
    requires marks { AreMarks view.now.marks.faults.now view.now.marks.rows }
    requires allowed { IsAllowed setting.now.spec view.now.effects.set }
    requires room { IsRoom setting.now.spec view.now.effects.set view.now.room.crashes view.now.room.pauses }
    requires ends { AreEnds view.now.reach setting.now.spec.horizon view.now.ends }
    requires node { node < setting.now.spec.nodes }
    requires first { 1 ≤ step }
    requires last { step ≤ setting.now.spec.horizon }
    ensures { IsTrue result ↔ IsRequired (world_of setting.now) view.now.effects.set setting.now.spec
        view.now.reach view.now.marks.faults.now (Pause node step) }
{
    let _nodes = setting.spec.nodes();
    if !view.room.pauses[node as usize] {
        return false;
    }
    if view.marks.at(pause_row(step), node) {
        return false;
    }
    lives(
        setting,
        view,
        node,
        step,
        step + setting.spec.pause_length(),
    )
}

/// Whether what a node does at a step is heard by another within the reach.
fn is_heard<M: Machine>(setting: &Setting<M>, view: &View, from: u32, to: u32, step: u32) -> bool
    requires ends { AreEnds view.now.reach setting.now.spec.horizon view.now.ends }
    requires from { from < setting.now.spec.nodes }
    requires to { to < setting.now.spec.nodes }
    requires apart { from ≢ to }
    requires first { 1 ≤ step }
    requires last { step ≤ setting.now.spec.horizon }
    requires up { is_up (world_of setting.now) view.now.effects.set from step ≡ true }
    ensures { IsTrue result ↔ IsHeard (world_of setting.now) view.now.effects.set view.now.reach from step to }
{
    let _nodes = setting.spec.nodes();
    let last = view.ends[to as usize];
    hears(setting, &view.effects, last, from, to, step)
}

/// By receiver, a bit where a note to it was sent by a node at a step and its loss isn't excluded.
fn open_slots<M: Machine>(
    setting: &Setting<M>,
    run: &Run<M>,
    marks: &Marks,
    from: u32,
    step: u32,
) -> u8
    requires run { IsRun (world_of setting.now) run.now }
    requires from { from < setting.now.spec.nodes }
    requires first { 1 ≤ step }
    requires last { step ≤ setting.now.spec.horizon }
    ensures { AreOpen (world_of setting.now) (set_of run.now) marks.now.rows from step result }
{
    let _nodes = setting.spec.nodes();
    sent_by(setting, run, from, step) & !marks.row(sender_row(from, step))
}

/// By receiver, a bit where a note to it was sent by a node at a step.
fn sent_by<M: Machine>(setting: &Setting<M>, run: &Run<M>, from: u32, step: u32) -> u8
    requires run { IsRun (world_of setting.now) run.now }
    requires from { from < setting.now.spec.nodes }
    requires last { step ≤ setting.now.spec.horizon }
    ensures { AreSent (world_of setting.now) (set_of run.now) from step result }
{
    let mut sent = 0;
    for to in 0..8 {
        if was_sent(setting, run, from, to, step) {
            sent |= 1 << to;
        }
    }
    sent
}

/// Whether a note was sent in a slot.
fn was_sent<M: Machine>(setting: &Setting<M>, run: &Run<M>, from: u32, to: u32, step: u32) -> bool
    requires run { IsRun (world_of setting.now) run.now }
    requires from { from < setting.now.spec.nodes }
    requires last { step ≤ setting.now.spec.horizon }
    ensures { IsTrue result ↔ IsSome (sent (world_of setting.now) (set_of run.now) from to step) }
{
    let _setting = setting;
    run.sent(from, to, step).is_some()
}

/// Whether a node is up at a step within the reach, of those from one step on, before another.
fn lives<M: Machine>(setting: &Setting<M>, view: &View, node: u32, first: u32, end: u32) -> bool
    requires ends { AreEnds view.now.reach setting.now.spec.horizon view.now.ends }
    requires node { node < setting.now.spec.nodes }
    requires first { 1 ≤ first }
    requires end { end < 100 }
    ensures { IsTrue result ↔ LivesBetween (world_of setting.now) view.now.effects.set view.now.reach node first end }
{
    let _nodes = setting.spec.nodes();
    let end = end.min(view.ends[node as usize] + 1);
    for step in first..end {
        if goes(setting, &view.effects, node, step) {
            return true;
        }
    }
    false
}

/// By node, the last step up to the horizon that is within a reach, or 0.
fn ends_of(reach: &Reach, horizon: u32) -> [u32; 8]
    ensures { AreEnds reach.now horizon result }
{
    let mut ends = [0; 8];
    for node in 0..8 {
        ends[node as usize] = reach.at(node).min(horizon);
    }
    ends
}
