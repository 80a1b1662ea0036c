//! In how many runs something is entered under a topic.

ghost use Rattle.std.specs.Prelude.{◌≡◌, is_some, IfOk};
ghost use Rattle.std.specs.List.{count_by};
ghost use Rattle.lf_sim.specs.Settings.{IsRun, set_of, world_of};
ghost use Rattle.lf_outcome.specs.Truth.{entered};
ghost use Rattle.lf_stakes.specs.Entered.{is_entered_by, is_entered_in};

use lf_faults::FaultSet;
use lf_protocols::Protocol;
use lf_sim::{Machine, Run, Setting, run};
use std::alloc::{AllocError, Global};

/// In how many of these sets' runs some node, up at some step, enters something under the topic by its state after that step. Topics are numbered from 0, as
/// in `Formula::One`; under a number that isn't one of a topic nothing is entered. A set that stands twice in the list counts twice. Each set is run once.
/// The error is that memory has run out.
pub fn times_entered(
    alloc: Global,
    setting: &Setting<Protocol>,
    sets: &[FaultSet],
    topic: u8,
) -> Result<usize, AllocError>
    ensures { IfOk result (λ times. times ≡ count_by (λ faults. is_entered_in (world_of setting.now) faults topic) sets.now) }
{
    let mut times = 0;
    for set in sets {
        if is_entered(alloc, setting, set, topic)? {
            times += 1;
        }
    }
    Ok(times)
}

/// Whether some node enters something under the topic after some step of the run of a set.
fn is_entered(
    alloc: Global,
    setting: &Setting<Protocol>,
    set: &FaultSet,
    topic: u8,
) -> Result<bool, AllocError>
    ensures { IfOk result (λ entered. entered ≡ is_entered_in (world_of setting.now) set.now topic) }
{
    let run = run(alloc, setting, set)?;
    Ok(is_entered_in(setting, &run, topic))
}

/// The same of a run.
fn is_entered_in(setting: &Setting<Protocol>, run: &Run<Protocol>, topic: u8) -> bool
    requires { IsRun (world_of setting.now) run.now }
    ensures { result ≡ is_entered_in (world_of setting.now) (set_of run.now) topic }
{
    for node in 0..run.nodes() {
        if is_entered_by(setting, run, topic, node) {
            return true;
        }
    }
    false
}

/// Whether this node does.
fn is_entered_by(setting: &Setting<Protocol>, run: &Run<Protocol>, topic: u8, node: u32) -> bool
    requires { IsRun (world_of setting.now) run.now }
    ensures { result ≡ is_entered_by (world_of setting.now) (set_of run.now) topic node }
{
    for past in 0..run.horizon() {
        if is_entered_at(setting, run, topic, node, past + 1) {
            return true;
        }
    }
    false
}

/// Whether it does after this step.
fn is_entered_at(
    setting: &Setting<Protocol>,
    run: &Run<Protocol>,
    topic: u8,
    node: u32,
    step: u32,
) -> bool
    requires { IsRun (world_of setting.now) run.now }
    ensures { result ≡ is_some (entered (world_of setting.now) (set_of run.now) topic node step) }
{
    if !run.up(node, step) {
        return false;
    }
    setting
        .machine
        .entry(node, &run.state(node, step), topic)
        .is_some()
}
