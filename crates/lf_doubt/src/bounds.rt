//! The questions about bounds.

ghost use Rattle.std.specs.Prelude.{◌≡◌, ◌++◌, ◌<◌, IfOk};
ghost use Rattle.std.specs.List.{list_any, range_with_len};
ghost use Rattle.lf_faults.specs.Allowed.{IsInLimits};
ghost use Rattle.lf_doubt.specs.Bounds.{bounds_asked, delays_asked, has_spread, has_spread_from, longer, twice, when};

use crate::{Change, Question};
use lf_faults::FaultSpec;
use lf_latency::Network;
use std::alloc::AllocError;

/// The longest horizon, in steps.
const LONGEST: u32 = 48;
/// The largest budget, in faults.
const LARGEST: u32 = 6;
/// The longest pause, in steps.
const LONGEST_PAUSE: u32 = 8;

/// Whether some link of a network has a spread.
pub fn has_spread(network: &Network) -> bool
    ensures { result ≡ has_spread network.now }
{
    (0..network.nodes()).any(|from| has_spread_from(network, from))
}

/// Whether some link from a node has.
fn has_spread_from(network: &Network, from: u32) -> bool
    requires { from < network.now.nodes }
    ensures { result ≡ has_spread_from network.now from }
{
    (0..network.nodes()).any(|to| from != to && network.spread(from, to) > 0)
}

/// Adds the questions about the bounds of a scenario.
pub(crate) fn push_bounds(questions: &mut Vec<Question>, spec: &FaultSpec) -> Result<(), AllocError>
    ensures { IfOk result (λ _. questions.new.items ≡ questions.old.items ++ bounds_asked spec.now) }
{
    let bounds = spec.bounds();
    let horizon = longer(bounds.horizon);
    let pause = twice(bounds.pause_length);
    push_when(
        questions,
        bounds.horizon < horizon,
        Change::Horizon(horizon),
    )?;
    push_when(
        questions,
        bounds.budget < LARGEST,
        Change::Budget(bounds.budget + 1),
    )?;
    push_when(
        questions,
        bounds.crashes < bounds.nodes,
        Change::Crashes(bounds.crashes + 1),
    )?;
    push_when(
        questions,
        bounds.pauses > 0 && bounds.pause_length < pause,
        Change::PauseLength(pause),
    )
}

/// Adds the question about the delays of notes.
pub(crate) fn push_delays(questions: &mut Vec<Question>, has_spread: bool) -> Result<(), AllocError>
    ensures { IfOk result (λ _. questions.new.items ≡ questions.old.items ++ delays_asked has_spread) }
{
    questions.push(if has_spread {
        Question::EveryDelay
    } else {
        Question::Spread
    })?;
    Ok(())
}

/// Adds the question about a change, where it is asked.
fn push_when(
    questions: &mut Vec<Question>,
    is_asked: bool,
    change: Change,
) -> Result<(), AllocError>
    ensures { IfOk result (λ _. questions.new.items ≡ questions.old.items ++ when is_asked (Question.With change)) }
{
    if is_asked {
        questions.push(Question::With(change))?;
    }
    Ok(())
}

/// A horizon half as long again, rounded up, but no longer than the longest.
fn longer(horizon: u32) -> u32
    requires { horizon < 1000 }
    ensures { result ≡ longer horizon }
{
    (horizon + (horizon + 1) / 2).min(LONGEST)
}

/// A pause twice as long, but no longer than the longest.
fn twice(pause: u32) -> u32
    requires { pause < 1000 }
    ensures { result ≡ twice pause }
{
    (2 * pause).min(LONGEST_PAUSE)
}
