//! What is counted of one part.

ghost use Rattle.std.specs.Prelude.{◌≡◌, ◌+◌, ◌<◌, ◌^◌, IfOk, suc, take, option_map};
ghost use Rattle.lf_sim.specs.Settings.{world_of};
ghost use Rattle.lf_staked.specs.Stakes.{asked_formula, asked_stake, entered_stake, stake_of};

use lf_doubt::Stake;
use lf_faults::FaultSet;
use lf_outcome::Formula;
use lf_own_scenario::{Scene, UnfoldError, unfold};
use lf_parts::{Part, asked};
use lf_promises::Promise;
use lf_protocols::{Fact, Protocol};
use lf_sim::Setting;
use lf_stakes::{times_entered, times_true};
use std::alloc::{AllocError, Global};

/// The runs in which is counted: what runs, what the formulas of promises depend on, and the sets of faults, of which the first is the empty one.
#[derive(Clone, Copy)]
pub(crate) struct Runs<'a> {
    pub setting: &'a Setting<Protocol>,
    pub scene: Scene,
    pub sets: &'a [FaultSet],
}

/// What is counted of the part of a promise with a place, from 0 on, that says this, where it can be asked for.
pub(crate) fn stake_of(
    alloc: Global,
    runs: &Runs<'_>,
    promise: Promise,
    place: usize,
    part: Part,
) -> Result<Option<Stake>, AllocError>
    requires { place + 1 < 2 ^ 64 }
    ensures { IfOk result (λ stake. stake ≡ stake_of (world_of runs.now.setting.now) runs.now.scene runs.now.sets.now promise place part) }
{
    match part {
        Part::One { topic } => entered_stake(alloc, runs, place, topic),
        Part::No | Part::AtMostOne => asked_stake(alloc, runs, promise, place, part),
        Part::Each | Part::Some | Part::At { .. } => {
            let runs = Runs {
                sets: first_of(runs.sets),
                ..*runs
            };
            asked_stake(alloc, &runs, promise, place, part)
        }
    }
}

/// The first of some sets, if there is one.
fn first_of(sets: &[FaultSet]) -> &[FaultSet]
    ensures { result.now ≡ take 1 sets.now }
{
    sets.get(..1).unwrap_or(sets)
}

/// In how many runs something is entered under the topic with a number.
fn entered_stake(
    alloc: Global,
    runs: &Runs<'_>,
    place: usize,
    topic: usize,
) -> Result<Option<Stake>, AllocError>
    requires { place + 1 < 2 ^ 64 }
    ensures { IfOk result (λ stake. stake ≡ entered_stake (world_of runs.now.setting.now) runs.now.sets.now place topic) }
{
    match u8::try_from(topic) {
        Ok(number) => {
            let times = times_entered(alloc, runs.setting, runs.sets, number)?;
            Ok(Some(Stake {
                place: place + 1,
                part: Part::One { topic },
                times,
                runs: runs.sets.len(),
            }))
        }
        Err(_) => Ok(None),
    }
}

/// In how many runs the question about a part is answered with yes.
fn asked_stake(
    alloc: Global,
    runs: &Runs<'_>,
    promise: Promise,
    place: usize,
    part: Part,
) -> Result<Option<Stake>, AllocError>
    requires { place + 1 < 2 ^ 64 }
    ensures { IfOk result (λ stake. stake
        ≡ asked_stake (world_of runs.now.setting.now) runs.now.sets.now place part (asked_formula runs.now.scene promise place)) }
{
    match asked_formula(alloc, runs.scene, promise, place)? {
        Some(formula) => {
            let times = times_true(alloc, runs.setting, &formula, runs.sets)?;
            Ok(Some(Stake {
                place: place + 1,
                part,
                times,
                runs: runs.sets.len(),
            }))
        }
        None => Ok(None),
    }
}

/// The formula of the question about a part, where there is one.
fn asked_formula(
    alloc: Global,
    scene: Scene,
    promise: Promise,
    place: usize,
) -> Result<Option<Formula<Fact>>, AllocError>
    ensures { IfOk result (λ formula. formula ≡ asked_formula scene promise place) }
{
    let Some(question) = asked(alloc, promise, place)? else {
        return Ok(None);
    };
    match unfold(alloc, &scene, &question) {
        Ok(formula) => Ok(Some(formula)),
        Err(UnfoldError::Memory) => Err(AllocError),
        Err(_) => Ok(None),
    }
}
