//! Whether a set misses where notes arrive as delays say.

ghost use Rattle.std.specs.Prelude.{◌≡◌, ◌+◌, ◌++◌, ◌<◌, not, length, take, drop, IfOk};
ghost use Rattle.lf_delays.specs.Delays.{AreDelays};
ghost use Rattle.lf_delays.specs.Trials.{IsLike, reaches_where};

use crate::{Delay, arrivals_of};
use lf_faults::FaultSet;
use lf_outcome::{Scenario, holds};
use lf_sim::run;
use std::alloc::{AllocError, Global};

/// Whether the set misses the scenario's outcome where notes arrive as these delays say, and all others as early as they can; and the scenario, in
/// which they do. The error is that memory has run out.
pub(crate) fn misses_by(
    alloc: Global,
    scenario: Scenario,
    set: &FaultSet,
    delays: &[Delay],
) -> Result<(Scenario, bool), AllocError>
    requires { AreDelays scenario.setting.network delays.now }
    ensures { IfOk result (λ tried. IsLike scenario tried.0 × (tried.1 ≡ not (reaches_where scenario set.now delays.now))) }
{
    let arrivals = arrivals_of(&scenario.setting().network, delays);
    let scenario = scenario.choosing(&arrivals);
    let setting = scenario.setting();
    let played = run(alloc, setting, set)?;
    let reached = holds(setting, scenario.formula(), &played);
    Ok((scenario, !reached))
}

/// The delays without the one at a place. The error is that memory has run out.
pub(crate) fn without(
    alloc: Global,
    delays: &[Delay],
    place: usize,
) -> Result<Vec<Delay>, AllocError>
    requires { place < length delays.now }
    ensures { IfOk result (λ left. left.items ≡ take place delays.now ++ drop (place + 1) delays.now) }
{
    let mut left = delays.to_vec(alloc)?;
    left.remove(place);
    Ok(left)
}
