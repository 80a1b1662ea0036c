//! Truth of a formula.

ghost use Rattle.std.specs.Prelude.{◌≡◌, ◌↔◌, ℕ, Bool, true, not, ◌&&◌, List, map};
ghost use Rattle.std.specs.List.{flat_map, list_all, list_any};
ghost use Rattle.lf_faults.specs.declared.fault.Parts.{Parts};
ghost use Rattle.lf_sim.specs.Runs.{World, is_up, view};
ghost use Rattle.lf_outcome.specs.declared.formula.Formula.{Formula};
ghost use Rattle.lf_outcome.specs.declared.formula.Formula.TheVariants as kind;
ghost use Rattle.lf_sim.specs.Settings.{IsRun, set_of, world_of};
ghost use Rattle.lf_outcome.specs.Entries.{EachKeyHasOne, NoTwoDiffer};
ghost use Rattle.lf_outcome.specs.Unfolding.{joined, later, steps, unfold_at};
ghost use Rattle.lf_outcome.specs.Truth.{truth, counts, is_down, is_shown, is_shown_where, is_single, is_single_where, reaches, reaches_within};

use crate::entries::{are_within, is_single};
use crate::unfolding::later;
use crate::{Formula, Reach};
use lf_sim::{Machine, Run, Setting};

/// When a set of faults reaches an outcome, by the six kinds of formulas, for every world and every list of faults.
pub fn by_cases<State, Note, Fact>()
    // all parts are true, as they are where there is none
    ensures all { (w : World State Note Fact) (faults : List Parts) (parts : List (Formula Fact)) →
        reaches w faults (kind.All parts) ≡ list_all (reaches w faults) parts }
    // some part is true, as none is where there is none
    ensures any { (w : World State Note Fact) (faults : List Parts) (parts : List (Formula Fact)) →
        reaches w faults (kind.Any parts) ≡ list_any (reaches w faults) parts }
    // n isn't up at t
    ensures down { (w : World State Note Fact) (faults : List Parts) (n t : ℕ) →
        reaches w faults (kind.Down n t) ≡ not (is_up w faults n t) }
    // n is up at t, and its view after t shows the fact
    ensures shows { (w : World State Note Fact) (faults : List Parts) (n t : ℕ) (fact : Fact) →
        reaches w faults (kind.Shows n t fact) ≡ (is_up w faults n t && w.rules.shows n (view w faults n t) fact) }
    // of what the nodes enter under the topic at the steps up to the last, each two entries agree
    ensures one { (w : World State Note Fact) (faults : List Parts) (nodes last topic : ℕ) →
        reaches w faults (kind.One nodes last topic) ≡ is_single w faults nodes last topic }
    // all of the parts at each of the steps are true, or some of them is
    ensures over { (w : World State Note Fact) (faults : List Parts) (every : Bool) (first last : ℕ) (parts : List (Formula Fact)) →
        reaches w faults (kind.Over every first last parts) ≡
        reaches w faults (joined every (flat_map (λ t. map (λ part. unfold_at part t) parts) (steps first last))) }
{}

/// When what nodes enter is of one value for each key, for every world and every list of faults: what One is, point by point.
pub fn single_by_values<State, Note, Fact>()
    // no two points have entries with one key and different values
    ensures pairs { (w : World State Note Fact) (faults : List Parts) (nodes last topic : ℕ) →
        (is_single w faults nodes last topic ≡ true) ↔ NoTwoDiffer w faults nodes last topic }
    // each key has a value, and at each point nothing is entered, or something for another key, or this value
    ensures values { (w : World State Note Fact) (faults : List Parts) (nodes last topic : ℕ) →
        (is_single w faults nodes last topic ≡ true) ↔ EachKeyHasOne w faults nodes last topic }
{}

/// Whether the run reaches the outcome, where it is a run of this setting. It takes no memory.
pub fn holds<M: Machine>(setting: &Setting<M>, formula: &Formula<M::Fact>, run: &Run<M>) -> bool
    requires { IsRun (world_of setting.now) run.now }
    ensures { result ≡ reaches (world_of setting.now) (set_of run.now) formula.now }
{
    is_true(setting, formula, run, &None, 0)
}

/// Whether the run reaches the outcome by what it shows within the reach: a fact at a step past the reach counts as not
/// shown, and One as false if one of its points at which nodes are up is past the reach. It takes no memory.
pub fn holds_within<M: Machine>(
    setting: &Setting<M>,
    formula: &Formula<M::Fact>,
    run: &Run<M>,
    reach: &Reach,
) -> bool
    requires { IsRun (world_of setting.now) run.now }
    ensures { result ≡ reaches_within (world_of setting.now) (set_of run.now) reach.now formula.now }
{
    is_true(setting, formula, run, &Some(*reach), 0)
}

/// Whether the formula, its steps counted from a step, is true in the run, by what it shows anywhere, or within a reach.
#[cycle(is_true)]
fn is_true<M: Machine>(
    setting: &Setting<M>,
    formula: &Formula<M::Fact>,
    run: &Run<M>,
    limit: &Option<Reach>,
    offset: u32,
) -> bool
    requires { IsRun (world_of setting.now) run.now }
    ensures { result ≡ truth (is_down (world_of setting.now) (set_of run.now))
        (is_shown_where (world_of setting.now) (set_of run.now) limit.now) (is_single_where (world_of setting.now) (set_of run.now) limit.now)
        (unfold_at formula.now offset) }
{
    match formula {
        Formula::All(parts) => all_true(setting, parts.as_slice(), run, limit, offset),
        Formula::Any(parts) => any_true(setting, parts.as_slice(), run, limit, offset),
        Formula::Down { node, step } => !run.up(*node, later(offset, *step)),
        Formula::Shows { node, step, fact } => {
            let step = later(offset, *step);
            is_within(limit, *node, step) && shows(setting, run, *node, step, *fact)
        }
        Formula::One { nodes, last, topic } => {
            are_within(setting, limit, run, *nodes, *last)
                && is_single(setting, run, *nodes, *last, *topic)
        }
        Formula::Over {
            every,
            first,
            last,
            parts,
        } => {
            if *every {
                all_over(setting, *first, *last, parts.as_slice(), run, limit, offset)
            } else {
                any_over(setting, *first, *last, parts.as_slice(), run, limit, offset)
            }
        }
    }
}

/// Whether all parts are true.
#[cycle(is_true)]
fn all_true<M: Machine>(
    setting: &Setting<M>,
    parts: &[Formula<M::Fact>],
    run: &Run<M>,
    limit: &Option<Reach>,
    offset: u32,
) -> bool
    requires { IsRun (world_of setting.now) run.now }
    ensures { result ≡ list_all (λ part. truth (is_down (world_of setting.now) (set_of run.now))
        (is_shown_where (world_of setting.now) (set_of run.now) limit.now) (is_single_where (world_of setting.now) (set_of run.now) limit.now)
        (unfold_at part offset)) parts.now }
{
    'all: for part in parts {
        if !is_true(setting, part, run, limit, offset) {
            return false;
        }
    }
    true
}

/// Whether one of the parts is true.
#[cycle(is_true)]
fn any_true<M: Machine>(
    setting: &Setting<M>,
    parts: &[Formula<M::Fact>],
    run: &Run<M>,
    limit: &Option<Reach>,
    offset: u32,
) -> bool
    requires { IsRun (world_of setting.now) run.now }
    ensures { result ≡ list_any (λ part. truth (is_down (world_of setting.now) (set_of run.now))
        (is_shown_where (world_of setting.now) (set_of run.now) limit.now) (is_single_where (world_of setting.now) (set_of run.now) limit.now)
        (unfold_at part offset)) parts.now }
{
    'any: for part in parts {
        if is_true(setting, part, run, limit, offset) {
            return true;
        }
    }
    false
}

/// Whether all parts are true at each of the steps.
#[cycle(is_true)]
fn all_over<M: Machine>(
    setting: &Setting<M>,
    first: u32,
    last: u32,
    parts: &[Formula<M::Fact>],
    run: &Run<M>,
    limit: &Option<Reach>,
    offset: u32,
) -> bool
    requires { IsRun (world_of setting.now) run.now }
    ensures { result ≡ list_all (λ t. list_all (λ part. truth (is_down (world_of setting.now) (set_of run.now))
        (is_shown_where (world_of setting.now) (set_of run.now) limit.now) (is_single_where (world_of setting.now) (set_of run.now) limit.now)
        (unfold_at part (later offset t))) parts.now) (steps first last) }
{
    'steps: for step in first..=last {
        if !all_true(setting, parts, run, limit, later(offset, step)) {
            return false;
        }
    }
    true
}

/// Whether one of the parts is true at one of the steps.
#[cycle(is_true)]
fn any_over<M: Machine>(
    setting: &Setting<M>,
    first: u32,
    last: u32,
    parts: &[Formula<M::Fact>],
    run: &Run<M>,
    limit: &Option<Reach>,
    offset: u32,
) -> bool
    requires { IsRun (world_of setting.now) run.now }
    ensures { result ≡ list_any (λ t. list_any (λ part. truth (is_down (world_of setting.now) (set_of run.now))
        (is_shown_where (world_of setting.now) (set_of run.now) limit.now) (is_single_where (world_of setting.now) (set_of run.now) limit.now)
        (unfold_at part (later offset t))) parts.now) (steps first last) }
{
    'steps: for step in first..=last {
        if any_true(setting, parts, run, limit, later(offset, step)) {
            return true;
        }
    }
    false
}

/// Whether a step of a node counts.
pub(crate) fn is_within(limit: &Option<Reach>, node: u32, step: u32) -> bool
    ensures { result ≡ counts limit.now node step }
{
    match limit {
        Some(reach) => step <= reach.at(node),
        None => true,
    }
}

/// Whether a node is up at a step, and its state after it shows a fact.
pub(crate) fn shows<M: Machine>(
    setting: &Setting<M>,
    run: &Run<M>,
    node: u32,
    step: u32,
    fact: M::Fact,
) -> bool
    requires { IsRun (world_of setting.now) run.now }
    ensures { result ≡ is_shown (world_of setting.now) (set_of run.now) node step fact }
{
    run.up(node, step) && setting.machine.shows(node, run.state(node, step), fact)
}
