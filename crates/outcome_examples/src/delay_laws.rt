//! Late notes that can't be spared, at the answer to a scenario: the call's premises are what the answer is, and none is left.

ghost use Rattle.std.specs.Prelude.{IfOk, Some};
ghost use Rattle.lf_delays.specs.Answers.{IsFirstUnder};
ghost use Rattle.lf_sim.specs.Settings.{world_of};
ghost use Rattle.lf_delays.specs.Trials.{IsTightBy, MissesBy};

use crate::delay_texts::{agrees, scenario};
use lf_delays::tight_arrivals;
use lf_faults::FaultSet;
use lf_latency::Arrivals;
use lf_outcome::Scenario;
use lf_symmetry::answer_every_delay;
use std::alloc::{AllocError, Global};

/// Arrivals by which the set of the answer misses, where no late note can be spared.
fn spared(
    alloc: Global,
    scenario: Scenario,
    answer: (FaultSet, Arrivals),
) -> Result<(Scenario, Arrivals), AllocError>
    requires { IsFirstUnder scenario.setting.network scenario.setting.spec (world_of scenario.setting) scenario.formula (Some answer) }
    ensures misses { IfOk result (λ found. MissesBy scenario answer.0 found.1) }
    ensures tight { IfOk result (λ found. IsTightBy scenario answer.0 found.1) }
{
    let (set, arrivals) = answer;
    tight_arrivals(alloc, scenario, &set, &arrivals)
}

/// Whether the answer to a scenario is a set, with such arrivals.
fn has_tight(alloc: Global, scenario: Scenario) -> Result<bool, AllocError> {
    let found = answer_every_delay(alloc, &scenario)?;
    match found {
        Some(answer) => {
            let _tight = spared(alloc, scenario, answer)?;
            Ok(true)
        }
        None => Ok(false),
    }
}

/// Two tries, each of which may come after the last step.
const LATE: &str = concat!(
    "nodes = 2;horizon = 4;last_omission = 1;crashes = 0;budget = 4;protocol = \"retry\";spread = 3;tries = 2;",
    "outcome = \"delivered\"",
);

#[test]
fn late_notes_are_needed(rt: HostRuntime) {
    let is_tight = match scenario(rt.alloc(), LATE) {
        Some(scenario) => has_tight(rt.alloc(), scenario) == Ok(true),
        None => false,
    };
    agrees(&rt, is_tight, "two tries");
}
