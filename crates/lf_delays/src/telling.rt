//! The late notes of a run.

ghost use Rattle.std.specs.Prelude.{◌≡◌, ◌++◌, ◌<◌, ◌≤◌, IfOk, OnOk};
ghost use Rattle.lf_sim.specs.Runs.{each_below};
ghost use Rattle.lf_sim.specs.Settings.{IsRun, set_of, world_of};
ghost use Rattle.lf_delays.specs.Told.{late_note, told, told_at, told_from, told_in};

use crate::Delay;
use lf_faults::Slot;
use lf_sim::{Machine, Run, Setting};
use std::alloc::{AllocError, Global};

/// The late notes of a run of this setting: those that are sent, that its set doesn't omit, and that arrive later than they could. By sending step,
/// then by sender, then by receiver. The error is that memory has run out.
pub fn told_delays<M: Machine>(
    alloc: Global,
    setting: &Setting<M>,
    run: &Run<M>,
) -> Result<Vec<Delay>, AllocError>
    requires { IsRun (world_of setting.now) run.now }
    ensures { IfOk result (λ delays. delays.items ≡ told (world_of setting.now) (set_of run.now) setting.now.network.links) }
{
    let mut delays = Vec::new(alloc);
    'steps: for past in 0..run.horizon() {
        push_step(setting, run, past + 1, &mut delays)?;
    }
    Ok(delays)
}

/// Puts the late notes that are sent at a step behind the others.
fn push_step<M: Machine>(
    setting: &Setting<M>,
    run: &Run<M>,
    step: u32,
    delays: &mut Vec<Delay>,
) -> Result<(), AllocError>
    requires run { IsRun (world_of setting.now) run.now }
    requires first { 1 ≤ step }
    requires last { step ≤ (world_of setting.now).horizon }
    ensures { OnOk result (delays.new.items ≡ delays.old.items
        ++ told_at (world_of setting.now) (set_of run.now) setting.now.network.links step) }
{
    'senders: for from in 0..run.nodes() {
        push_sender(setting, run, step, from, delays)?;
    }
    Ok(())
}

/// Puts the late notes that a node sends at a step behind the others.
fn push_sender<M: Machine>(
    setting: &Setting<M>,
    run: &Run<M>,
    step: u32,
    from: u32,
    delays: &mut Vec<Delay>,
) -> Result<(), AllocError>
    requires run { IsRun (world_of setting.now) run.now }
    requires first { 1 ≤ step }
    requires last { step ≤ (world_of setting.now).horizon }
    requires from { from < (world_of setting.now).rules.nodes }
    ensures { OnOk result (delays.new.items ≡ delays.old.items
        ++ told_from (world_of setting.now) (set_of run.now) setting.now.network.links step from) }
{
    'receivers: for to in 0..run.nodes() {
        push_slot(setting, run, Slot { from, to, step }, delays)?;
    }
    Ok(())
}

/// Puts the note of a slot behind the others, if it is late.
fn push_slot<M: Machine>(
    setting: &Setting<M>,
    run: &Run<M>,
    slot: Slot,
    delays: &mut Vec<Delay>,
) -> Result<(), AllocError>
    requires run { IsRun (world_of setting.now) run.now }
    requires first { 1 ≤ slot.step }
    requires last { slot.step ≤ (world_of setting.now).horizon }
    requires from { slot.from < (world_of setting.now).rules.nodes }
    requires to { slot.to < (world_of setting.now).rules.nodes }
    ensures { OnOk result (delays.new.items ≡ delays.old.items
        ++ told_in (world_of setting.now) (set_of run.now) setting.now.network.links slot.step slot.from slot.to) }
{
    match late_note(setting, run, slot) {
        Some(delay) => {
            delays.push(delay)?;
            Ok(())
        }
        None => Ok(()),
    }
}

/// When the note of a slot arrives, if it is late.
fn late_note<M: Machine>(setting: &Setting<M>, run: &Run<M>, slot: Slot) -> Option<Delay>
    requires run { IsRun (world_of setting.now) run.now }
    requires first { 1 ≤ slot.step }
    requires last { slot.step ≤ (world_of setting.now).horizon }
    requires from { slot.from < (world_of setting.now).rules.nodes }
    requires to { slot.to < (world_of setting.now).rules.nodes }
    ensures { result ≡ late_note (world_of setting.now) (set_of run.now) setting.now.network.links slot.step slot.from slot.to }
{
    let Slot { from, to, step } = slot;
    if from == to || run.set().omits(from, to, step) {
        return None;
    }
    run.sent(from, to, step)?;
    let at = setting.network.arrival(from, to, step);
    if step + setting.network.least(from, to) < at {
        Some(Delay { slot, at })
    } else {
        None
    }
}
