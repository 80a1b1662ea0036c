//! In how many runs a formula is true.

ghost use Rattle.std.specs.Prelude.{◌≡◌, IfOk};
ghost use Rattle.std.specs.List.{count_by};
ghost use Rattle.lf_sim.specs.Settings.{world_of};
ghost use Rattle.lf_outcome.specs.Truth.{reaches};

use lf_faults::FaultSet;
use lf_outcome::{Formula, holds};
use lf_protocols::{Fact, Protocol};
use lf_sim::{Setting, run};
use std::alloc::{AllocError, Global};

/// In how many of these sets' runs the formula is true. A set that stands twice in the list counts twice. Each set is run
/// once. The error is that memory has run out.
pub fn times_true(
    alloc: Global,
    setting: &Setting<Protocol>,
    formula: &Formula<Fact>,
    sets: &[FaultSet],
) -> Result<usize, AllocError>
    ensures { IfOk result (λ times. times ≡ count_by (λ faults. reaches (world_of setting.now) faults formula.now) sets.now) }
{
    let mut times = 0;
    for set in sets {
        if is_true(alloc, setting, formula, set)? {
            times += 1;
        }
    }
    Ok(times)
}

/// Whether it is in the run of a set.
fn is_true(
    alloc: Global,
    setting: &Setting<Protocol>,
    formula: &Formula<Fact>,
    set: &FaultSet,
) -> Result<bool, AllocError>
    ensures { IfOk result (λ reached. reached ≡ reaches (world_of setting.now) set.now formula.now) }
{
    let run = run(alloc, setting, set)?;
    Ok(holds(setting, formula, &run))
}
