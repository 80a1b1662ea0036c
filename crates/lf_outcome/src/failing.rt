//! By which step a run is seen to miss an outcome.

ghost use Rattle.std.specs.Prelude.{◌≡◌, ◌≤◌, IfSome};
ghost use Rattle.std.specs.List.{list_all, list_any};
ghost use Rattle.lf_sim.specs.Settings.{IsRun, set_of, world_of};
ghost use Rattle.lf_outcome.specs.Truth.{is_shown, truth};
ghost use Rattle.lf_outcome.specs.Failing.{down_or_later, fails_by, first_failing, shown_or_later, single_by};
ghost use Rattle.lf_outcome.specs.Unfolding.{later, steps, unfold_at};

use crate::Formula;
use crate::entries::is_single;
use crate::unfolding::later;
use lf_sim::{Machine, Run, Setting};

/// Whether a run of this setting is seen to miss the outcome by a step: the formula is false even if all that it asks of later steps turns out true. It takes
/// no memory.
pub fn fails_by<M: Machine>(
    setting: &Setting<M>,
    formula: &Formula<M::Fact>,
    run: &Run<M>,
    step: u32,
) -> bool
    requires { IsRun (world_of setting.now) run.now }
    ensures { result ≡ fails_by (world_of setting.now) (set_of run.now) step formula.now }
{
    !may_reach(setting, formula, run, step, 0)
}

/// The first step by which it is seen so, of the steps 0 to the last; 0 where the formula is false whatever a run shows. None where the run reaches the
/// outcome, and where it misses it only by points past the last step. It takes no memory.
pub fn first_failing<M: Machine>(
    setting: &Setting<M>,
    formula: &Formula<M::Fact>,
    run: &Run<M>,
) -> Option<u32>
    requires { IsRun (world_of setting.now) run.now }
    ensures step { result ≡ first_failing (world_of setting.now) (set_of run.now) formula.now }
    ensures within { IfSome result (λ step. step ≤ (world_of setting.now).horizon) }
{
    'steps: for step in 0..run.horizon() + 1 {
        if fails_by(setting, formula, run, step) {
            return Some(step);
        }
    }
    None
}

/// Whether the formula, its steps counted from a step, is true if all that it asks of steps past the last turns out true.
#[cycle(may_reach)]
fn may_reach<M: Machine>(
    setting: &Setting<M>,
    formula: &Formula<M::Fact>,
    run: &Run<M>,
    last: u32,
    offset: u32,
) -> bool
    requires { IsRun (world_of setting.now) run.now }
    ensures { result ≡ truth (down_or_later (world_of setting.now) (set_of run.now) last) (shown_or_later (world_of setting.now) (set_of run.now) last)
        (single_by (world_of setting.now) (set_of run.now) last) (unfold_at formula.now offset) }
{
    match formula {
        Formula::All(parts) => all_may(setting, parts.as_slice(), run, last, offset),
        Formula::Any(parts) => any_may(setting, parts.as_slice(), run, last, offset),
        Formula::Down { node, step } => {
            let step = later(offset, *step);
            last < step || !run.up(*node, step)
        }
        Formula::Shows { node, step, fact } => {
            let step = later(offset, *step);
            last < step || shows(setting, run, *node, step, *fact)
        }
        Formula::One {
            nodes,
            last: end,
            topic,
        } => is_single(setting, run, *nodes, (*end).min(last), *topic),
        Formula::Over {
            every,
            first,
            last: end,
            parts,
        } => {
            if *every {
                all_over(setting, *first, *end, parts.as_slice(), run, last, offset)
            } else {
                any_over(setting, *first, *end, parts.as_slice(), run, last, offset)
            }
        }
    }
}

/// The same of all parts.
#[cycle(may_reach)]
fn all_may<M: Machine>(
    setting: &Setting<M>,
    parts: &[Formula<M::Fact>],
    run: &Run<M>,
    last: u32,
    offset: u32,
) -> bool
    requires { IsRun (world_of setting.now) run.now }
    ensures { result ≡ list_all (λ part. truth (down_or_later (world_of setting.now) (set_of run.now) last)
        (shown_or_later (world_of setting.now) (set_of run.now) last) (single_by (world_of setting.now) (set_of run.now) last)
        (unfold_at part offset)) parts.now }
{
    'all: for part in parts {
        if !may_reach(setting, part, run, last, offset) {
            return false;
        }
    }
    true
}

/// The same of one of the parts.
#[cycle(may_reach)]
fn any_may<M: Machine>(
    setting: &Setting<M>,
    parts: &[Formula<M::Fact>],
    run: &Run<M>,
    last: u32,
    offset: u32,
) -> bool
    requires { IsRun (world_of setting.now) run.now }
    ensures { result ≡ list_any (λ part. truth (down_or_later (world_of setting.now) (set_of run.now) last)
        (shown_or_later (world_of setting.now) (set_of run.now) last) (single_by (world_of setting.now) (set_of run.now) last)
        (unfold_at part offset)) parts.now }
{
    'any: for part in parts {
        if may_reach(setting, part, run, last, offset) {
            return true;
        }
    }
    false
}

/// The same of all parts at each of the steps.
#[cycle(may_reach)]
fn all_over<M: Machine>(
    setting: &Setting<M>,
    first: u32,
    end: u32,
    parts: &[Formula<M::Fact>],
    run: &Run<M>,
    last: u32,
    offset: u32,
) -> bool
    requires { IsRun (world_of setting.now) run.now }
    ensures { result ≡ list_all (λ t. list_all (λ part. truth (down_or_later (world_of setting.now) (set_of run.now) last)
        (shown_or_later (world_of setting.now) (set_of run.now) last) (single_by (world_of setting.now) (set_of run.now) last)
        (unfold_at part (later offset t))) parts.now) (steps first end) }
{
    'steps: for step in first..=end {
        if !all_may(setting, parts, run, last, later(offset, step)) {
            return false;
        }
    }
    true
}

/// The same of one of the parts at one of the steps.
#[cycle(may_reach)]
fn any_over<M: Machine>(
    setting: &Setting<M>,
    first: u32,
    end: u32,
    parts: &[Formula<M::Fact>],
    run: &Run<M>,
    last: u32,
    offset: u32,
) -> bool
    requires { IsRun (world_of setting.now) run.now }
    ensures { result ≡ list_any (λ t. list_any (λ part. truth (down_or_later (world_of setting.now) (set_of run.now) last)
        (shown_or_later (world_of setting.now) (set_of run.now) last) (single_by (world_of setting.now) (set_of run.now) last)
        (unfold_at part (later offset t))) parts.now) (steps first end) }
{
    'steps: for step in first..=end {
        if any_may(setting, parts, run, last, later(offset, step)) {
            return true;
        }
    }
    false
}

/// Whether a node is up at a step, and its state after it shows a fact.
fn shows<M: Machine>(
    setting: &Setting<M>,
    run: &Run<M>,
    node: u32,
    step: u32,
    fact: M::Fact,
) -> bool
    requires { IsRun (world_of setting.now) run.now }
    ensures { result ≡ is_shown (world_of setting.now) (set_of run.now) node step fact }
{
    run.up(node, step) && setting.machine.shows(node, run.state(node, step), fact)
}
