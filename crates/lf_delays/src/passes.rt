//! Late notes are left out, from the last one up, until none can be left out any more.

ghost use Rattle.std.specs.Prelude.{◌≡◌, ◌≤◌, false, length, IfOk};
ghost use Rattle.lf_delays.specs.Windows.{under};
ghost use Rattle.lf_delays.specs.Tight.{IsTight};
ghost use Rattle.lf_latency.specs.Arrivals.{IsArrivals, arrival_in};
ghost use Rattle.lf_outcome.specs.Truth.{reaches};
ghost use Rattle.lf_sim.specs.Settings.{world_of};
ghost use Rattle.lf_delays.specs.Trials.{AreLeft, IsLike, IsTightBy, MissesBy, NoneSpared};

use crate::trial::{misses_by, without};
use crate::{Delay, arrivals_of, told_delays};
use lf_faults::FaultSet;
use lf_latency::{Arrivals, keeps_limits};
use lf_outcome::Scenario;
use lf_sim::run;
use std::alloc::{AllocError, Global};

/// Arrivals by which a set misses the scenario's outcome, where it does by those that are given: no late note of its run can be spared, which is
/// to say that with any one of them as early as it can be, and all others as they are, the set reaches. They come with the scenario, in which notes arrive
/// somehow. The error is that memory has run out.
pub fn tight_arrivals(
    alloc: Global,
    scenario: Scenario,
    set: &FaultSet,
    arrivals: &Arrivals,
) -> Result<(Scenario, Arrivals), AllocError>
    requires arrivals { IsArrivals scenario.setting.network arrivals.now }
    requires misses { MissesBy scenario set.now arrivals.now }
    ensures like { IfOk result (λ found. IsLike scenario found.0) }
    ensures arrivals { IfOk result (λ found. IsArrivals scenario.setting.network found.1) }
    ensures own { IfOk result (λ found. IsArrivals found.0.setting.network found.1) }
    ensures misses { IfOk result (λ found. MissesBy scenario set.now found.1) }
    ensures tight { IfOk result (λ found. IsTightBy scenario set.now found.1) }
{
    keeps_limits(&scenario.setting().network);
    let scenario = scenario.choosing(arrivals);
    let setting = scenario.setting();
    let played = run(alloc, setting, set)?;
    let delays = told_delays(alloc, setting, &played)?;
    let (scenario, delays) = needed_delays(alloc, scenario, set, delays)?;
    let arrivals = arrivals_of(&scenario.setting().network, delays.as_slice());
    Ok((scenario, arrivals))
}

/// What is left of delays, where none can be spared any more. The error is that memory has run out.
fn needed_delays(
    alloc: Global,
    scenario: Scenario,
    set: &FaultSet,
    delays: Vec<Delay>,
) -> Result<(Scenario, Vec<Delay>), AllocError>
    requires { AreLeft scenario set.now delays.items }
    ensures like { IfOk result (λ found. IsLike scenario found.0) }
    ensures left { IfOk result (λ found. AreLeft scenario set.now found.1.items) }
    ensures needed { IfOk result (λ found. NoneSpared scenario set.now found.1.items 0) }
{
    let (mut now, mut left) = (scenario, delays);
    'passes: for _pass in 0..left.len() {
        let before = left.len();
        let (next, fewer) = pass(alloc, now, set, left)?;
        now = next;
        left = fewer;
        if left.len() == before {
            return Ok((now, left));
        }
    }
    Ok((now, left))
}

/// What is left of delays after each has been left out once, from the last one up, and put back where the set reaches without it. The error is that
/// memory has run out.
fn pass(
    alloc: Global,
    scenario: Scenario,
    set: &FaultSet,
    delays: Vec<Delay>,
) -> Result<(Scenario, Vec<Delay>), AllocError>
    requires { AreLeft scenario set.now delays.items }
    ensures like { IfOk result (λ found. IsLike scenario found.0) }
    ensures left { IfOk result (λ found. AreLeft scenario set.now found.1.items) }
    ensures fewer { IfOk result (λ found. length found.1.items ≤ length delays.items) }
    ensures needed { IfOk result (λ found. length delays.items ≤ length found.1.items → NoneSpared scenario set.now found.1.items 0) }
{
    let (mut now, mut left) = (scenario, delays);
    let count = left.len();
    'places: for past in 0..count {
        let fewer = without(alloc, left.as_slice(), count - 1 - past)?;
        let (next, misses) = misses_by(alloc, now, set, fewer.as_slice())?;
        now = next;
        if misses {
            left = fewer;
        }
    }
    Ok((now, left))
}
