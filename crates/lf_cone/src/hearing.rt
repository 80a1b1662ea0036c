//! Closed reaches, by what is really heard.

ghost use Rattle.std.specs.Prelude.{◌≡◌, ◌≢◌, ℕ, ◌<◌, ◌≤◌, ◌↔◌, true, IsTrue, All};
ghost use Rattle.lf_faults.specs.Allowed.{IsInLimits};
ghost use Rattle.lf_sim.specs.Runs.{is_up};
ghost use Rattle.lf_sim.specs.Settings.{world_of, set_of, IsRun};
ghost use Rattle.lf_outcome.specs.Evidence.{AreUp};
ghost use Rattle.lf_outcome.specs.Reaches.{IsReachOf};
ghost use Rattle.lf_cone.specs.Cones.{CanHear, IsHeard, IsClosed, IsSharp};
ghost use Rattle.lf_cone.specs.Sweeps.{IsRaised, SomeBelow, IsDone, IsLeastFrom, HearsBy};

use crate::points::covering;
use lf_outcome::{Point, Reach};
use lf_sim::{Effects, Machine, Run, Setting, arrivals_are_later};

/// The sharp reach of points at which nodes are up: the least closed reach that covers them. It takes no memory.
pub fn sharp<M: Machine>(setting: &Setting<M>, run: &Run<M>, points: &[Point]) -> Reach
    requires run { IsRun (world_of setting.now) run.now }
    requires up { AreUp (world_of setting.now) (set_of run.now) points.now }
    ensures { IsSharp (world_of setting.now) (set_of run.now) points.now result }
{
    let start = covering(setting.spec.nodes(), points);
    swept(setting, &Effects::new(&run.set()), start)
}

/// Whether the reach is closed for the run: what is heard within it was done within it, also where nothing is sent.
/// It takes no memory.
pub fn is_closed<M: Machine>(setting: &Setting<M>, run: &Run<M>, reach: &Reach) -> bool
    requires { IsRun (world_of setting.now) run.now }
    ensures { IsTrue result ↔ IsClosed (world_of setting.now) (set_of run.now) reach.now }
{
    if !reach.has_form(setting.spec.nodes(), setting.spec.horizon()) {
        return false;
    }
    let least = swept(setting, &Effects::new(&run.set()), *reach);
    are_same(&least, reach)
}

/// Whether two reaches are the same.
fn are_same(one: &Reach, other: &Reach) -> bool
    ensures { IsTrue result ↔ (one.now ≡ other.now) }
{
    one.items() == other.items()
}

/// The least closed reach in which the start is, by one sweep over the steps, the last first: what is done at a step is
/// heard after it, so how far the hearers reach then is known.
fn swept<M: Machine>(setting: &Setting<M>, effects: &Effects, start: Reach) -> Reach
    requires { IsReachOf setting.now.spec.nodes setting.now.spec.horizon start }
    ensures { IsLeastFrom (CanHear (world_of setting.now) effects.now.set)
        setting.now.spec.nodes setting.now.spec.horizon start result }
{
    arrivals_are_later(setting);
    let nodes = setting.spec.nodes();
    let horizon = setting.spec.horizon();
    let mut reach = start;
    for back in 0..horizon {
        reach = heard(setting, effects, nodes, reach, horizon - back);
    }
    reach
}

/// The reach with what is done at a step and heard within it.
fn heard<M: Machine>(
    setting: &Setting<M>,
    effects: &Effects,
    nodes: u32,
    reach: Reach,
    step: u32,
) -> Reach
    requires nodes { nodes ≡ setting.now.spec.nodes }
    requires few { nodes ≤ 8 }
    requires form { IsReachOf setting.now.spec.nodes setting.now.spec.horizon reach }
    requires first { 1 ≤ step }
    requires step { step ≤ setting.now.spec.horizon }
    requires short { step ≤ 48 }
    ensures { IsRaised (SomeBelow (IsDone (CanHear (world_of setting.now) effects.now.set) reach step) nodes)
        reach result }
{
    let before = reach;
    let mut reach = reach;
    for from in 0..nodes {
        if before.at(from) < step && is_done(setting, effects, nodes, &before, from, step) {
            reach = reach.raised(from, step);
        }
    }
    reach
}

/// Whether some node hears, within the reach, what another does at a step.
fn is_done<M: Machine>(
    setting: &Setting<M>,
    effects: &Effects,
    nodes: u32,
    reach: &Reach,
    from: u32,
    step: u32,
) -> bool
    requires nodes { nodes ≡ setting.now.spec.nodes }
    requires form { IsReachOf setting.now.spec.nodes setting.now.spec.horizon reach.now }
    requires from { from < setting.now.spec.nodes }
    requires first { 1 ≤ step }
    requires step { step ≤ setting.now.spec.horizon }
    ensures { IsTrue result ↔ ((to : ℕ) × IsHeard (world_of setting.now) effects.now.set reach.now from step to) }
{
    if !goes(setting, effects, from, step) {
        return false;
    }
    for to in 0..nodes {
        if from != to && hears(setting, effects, reach.at(to), from, to, step) {
            return true;
        }
    }
    false
}

/// Whether a node hears, up to a last step, what another that is up does at a step.
pub(crate) fn hears<M: Machine>(
    setting: &Setting<M>,
    effects: &Effects,
    last: u32,
    from: u32,
    to: u32,
    step: u32,
) -> bool
    requires last { last ≤ setting.now.spec.horizon }
    requires from { from < setting.now.spec.nodes }
    requires to { to < setting.now.spec.nodes }
    requires apart { from ≢ to }
    requires first { 1 ≤ step }
    requires step { step ≤ setting.now.spec.horizon }
    requires up { is_up (world_of setting.now) effects.now.set from step ≡ true }
    ensures { IsTrue result ↔ HearsBy (world_of setting.now) effects.now.set last from step to }
{
    let _nodes = setting.spec.nodes();
    let arrival = setting.network.arrival(from, to, step);
    if last < arrival {
        return false;
    }
    if effects.omits(from, to, step) {
        return false;
    }
    goes(setting, effects, to, arrival)
}

/// Whether a node is up at a step of the run.
pub(crate) fn goes<M: Machine>(
    setting: &Setting<M>,
    effects: &Effects,
    node: u32,
    step: u32,
) -> bool
    requires node { node < setting.now.spec.nodes }
    requires first { 1 ≤ step }
    requires step { step ≤ setting.now.spec.horizon }
    ensures value { result ≡ is_up (world_of setting.now) effects.now.set node step }
    ensures limits { IsInLimits setting.now.spec }
{
    effects.leaves_up(node, step, setting.spec.pause_length())
}
