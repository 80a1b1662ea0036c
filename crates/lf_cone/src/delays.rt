//! The reach by the least delays of the links.

ghost use Rattle.std.specs.Prelude.{◌≡◌, ◌<◌, ◌≤◌, length};
ghost use Rattle.lf_latency.specs.Links.{least_of};
ghost use Rattle.lf_sim.specs.Settings.{world_of, set_of, IsRun};
ghost use Rattle.lf_outcome.specs.Evidence.{AreUp};
ghost use Rattle.lf_cone.specs.Cones.{IsClosed, IsCone};
ghost use Rattle.lf_cone.specs.Sweeps.{IsRaised, SomeBelow, RestsAt, RestsByLeast};

use crate::points::covering;
use lf_latency::{Network, keeps_limits};
use lf_outcome::{Point, Reach};
use lf_sim::{Machine, Run, Setting};

/// The cone of points at which nodes are up: the least reach that covers them, and in which each node reaches so far
/// that it is heard by the others within it, by the least delays of the links. It takes no memory.
pub fn cone<M: Machine>(setting: &Setting<M>, run: &Run<M>, points: &[Point]) -> Reach
    requires run { IsRun (world_of setting.now) run.now }
    requires up { AreUp (world_of setting.now) (set_of run.now) points.now }
    ensures cone { IsCone setting.now.spec.nodes setting.now.spec.horizon (least_of setting.now.network.links)
        points.now result }
    ensures closed { IsClosed (world_of setting.now) (set_of run.now) result }
{
    let _run = run;
    let nodes = setting.spec.nodes();
    let horizon = setting.spec.horizon();
    keeps_limits(&setting.network);
    let mut reach = covering(nodes, points);
    for back in 0..horizon {
        reach = told(&setting.network, nodes, reach, horizon - back);
    }
    reach
}

/// The reach with what the nodes whose reach has the step can know at it.
fn told(network: &Network, nodes: u32, reach: Reach, step: u32) -> Reach
    requires nodes { nodes ≡ network.now.nodes }
    requires few { nodes ≤ 8 }
    requires count { length reach ≡ nodes }
    requires step { step ≤ 48 }
    ensures { IsRaised (SomeBelow (RestsAt (RestsByLeast nodes (least_of network.now.links)) reach step) nodes)
        reach result }
{
    let before = reach;
    let mut reach = reach;
    for to in 0..nodes {
        if step <= before.at(to) {
            reach = told_to(network, nodes, reach, to, step);
        }
    }
    reach
}

/// The reach with what one node can know at a step.
fn told_to(network: &Network, nodes: u32, reach: Reach, to: u32, step: u32) -> Reach
    requires nodes { nodes ≡ network.now.nodes }
    requires to { to < nodes }
    requires few { nodes ≤ 8 }
    requires count { length reach ≡ nodes }
    requires step { step ≤ 48 }
    ensures { IsRaised (λ n t. RestsByLeast nodes (least_of network.now.links) n t to step) reach result }
{
    let mut reach = reach;
    for from in 0..nodes {
        if from != to {
            let least = network.least(from, to);
            if least <= step {
                reach = reach.raised(from, step - least);
            }
        }
    }
    reach
}
