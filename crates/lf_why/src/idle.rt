//! Whether nodes that do nothing keep a promise.

ghost use Rattle.std.specs.Prelude.{◌≡◌, [], not};
ghost use Rattle.std.specs.List.{list_all, list_any, range_with_len};
ghost use Rattle.lf_outcome.specs.Truth.{reaches};
ghost use Rattle.lf_outcome.specs.Unfolding.{later, steps, unfold_at};
ghost use Rattle.lf_sim.specs.Runs.{is_up};
ghost use Rattle.lf_sim.specs.Settings.{IsRun, set_of, world_of};
ghost use Rattle.lf_why.specs.Idle.{begun, begun_agree, both_agree, idle_world};

use lf_outcome::{Formula, by_cases, single_by_values};
use lf_sim::{Entry, Machine, Run, Setting};

/// Whether nodes that stay as they start, and send nothing, keep the promise where there are no faults. The run is one without faults, by which
/// it is known who is up.
pub(crate) fn idle_keeps<M: Machine>(
    setting: &Setting<M>,
    formula: &Formula<M::Fact>,
    unharmed: &Run<M>,
) -> bool
    requires run { IsRun (world_of setting.now) unharmed.now }
    requires set { set_of unharmed.now ≡ [] }
    ensures { result ≡ reaches (idle_world (world_of setting.now)) [] formula.now }
{
    is_kept(setting, formula, unharmed, 0)
}

/// The same of what the formula says where its steps are counted from a step.
#[cycle(is_kept)]
fn is_kept<M: Machine>(
    setting: &Setting<M>,
    formula: &Formula<M::Fact>,
    unharmed: &Run<M>,
    offset: u32,
) -> bool
    requires run { IsRun (world_of setting.now) unharmed.now }
    requires set { set_of unharmed.now ≡ [] }
    ensures { result ≡ reaches (idle_world (world_of setting.now)) [] (unfold_at formula.now offset) }
{
    by_cases::<M::State, M::Note, M::Fact>();
    single_by_values::<M::State, M::Note, M::Fact>();
    match formula {
        Formula::All(parts) => all_kept(setting, parts.as_slice(), unharmed, offset),
        Formula::Any(parts) => any_kept(setting, parts.as_slice(), unharmed, offset),
        Formula::Down { node, step } => !unharmed.up(*node, later(offset, *step)),
        Formula::Shows { node, step, fact } => {
            unharmed.up(*node, later(offset, *step))
                && setting
                    .machine
                    .shows(*node, setting.machine.start(*node), *fact)
        }
        Formula::One { nodes, last, topic } => {
            if *last == 0 {
                return true;
            }
            let few = (*nodes).min(unharmed.nodes());
            starts_agree(setting, unharmed, few, *topic)
        }
        Formula::Over {
            every,
            first,
            last,
            parts,
        } => {
            if *every {
                all_over(setting, *first, *last, parts.as_slice(), unharmed, offset)
            } else {
                any_over(setting, *first, *last, parts.as_slice(), unharmed, offset)
            }
        }
    }
}

/// The same for all parts.
#[cycle(is_kept)]
fn all_kept<M: Machine>(
    setting: &Setting<M>,
    parts: &[Formula<M::Fact>],
    unharmed: &Run<M>,
    offset: u32,
) -> bool
    requires run { IsRun (world_of setting.now) unharmed.now }
    requires set { set_of unharmed.now ≡ [] }
    ensures { result ≡ list_all (λ part. reaches (idle_world (world_of setting.now)) [] (unfold_at part offset)) parts.now }
{
    'all: for part in parts {
        if !is_kept(setting, part, unharmed, offset) {
            return false;
        }
    }
    true
}

/// The same for one of the parts.
#[cycle(is_kept)]
fn any_kept<M: Machine>(
    setting: &Setting<M>,
    parts: &[Formula<M::Fact>],
    unharmed: &Run<M>,
    offset: u32,
) -> bool
    requires run { IsRun (world_of setting.now) unharmed.now }
    requires set { set_of unharmed.now ≡ [] }
    ensures { result ≡ list_any (λ part. reaches (idle_world (world_of setting.now)) [] (unfold_at part offset)) parts.now }
{
    'any: for part in parts {
        if is_kept(setting, part, unharmed, offset) {
            return true;
        }
    }
    false
}

/// The same for all parts at each of the steps.
#[cycle(is_kept)]
fn all_over<M: Machine>(
    setting: &Setting<M>,
    first: u32,
    last: u32,
    parts: &[Formula<M::Fact>],
    unharmed: &Run<M>,
    offset: u32,
) -> bool
    requires run { IsRun (world_of setting.now) unharmed.now }
    requires set { set_of unharmed.now ≡ [] }
    ensures { result ≡ list_all (λ t. list_all (λ part. reaches (idle_world (world_of setting.now)) [] (unfold_at part (later offset t))) parts.now)
        (steps first last) }
{
    'steps: for step in first..=last {
        if !all_kept(setting, parts, unharmed, later(offset, step)) {
            return false;
        }
    }
    true
}

/// The same for one of the parts at one of the steps.
#[cycle(is_kept)]
fn any_over<M: Machine>(
    setting: &Setting<M>,
    first: u32,
    last: u32,
    parts: &[Formula<M::Fact>],
    unharmed: &Run<M>,
    offset: u32,
) -> bool
    requires run { IsRun (world_of setting.now) unharmed.now }
    requires set { set_of unharmed.now ≡ [] }
    ensures { result ≡ list_any (λ t. list_any (λ part. reaches (idle_world (world_of setting.now)) [] (unfold_at part (later offset t))) parts.now)
        (steps first last) }
{
    'steps: for step in first..=last {
        if any_kept(setting, parts, unharmed, later(offset, step)) {
            return true;
        }
    }
    false
}

/// A step counted from another, past 2^32 - 1 that.
fn later(offset: u32, step: u32) -> u32
    ensures { result ≡ later offset step }
{
    step.saturating_add(offset)
}

/// Whether of what so many nodes enter under a topic by their starts, where they are up at step 1, each two entries agree.
fn starts_agree<M: Machine>(setting: &Setting<M>, unharmed: &Run<M>, nodes: u32, topic: u8) -> bool
    requires run { IsRun (world_of setting.now) unharmed.now }
    requires set { set_of unharmed.now ≡ [] }
    ensures { result ≡ list_all (λ n. list_all (begun_agree (world_of setting.now) topic n) (range_with_len 0 nodes)) (range_with_len 0 nodes) }
{
    'nodes: for node in 0..nodes {
        if !start_agrees(setting, unharmed, nodes, topic, node) {
            return false;
        }
    }
    true
}

/// Whether what a node enters so agrees with what each of them does.
fn start_agrees<M: Machine>(
    setting: &Setting<M>,
    unharmed: &Run<M>,
    nodes: u32,
    topic: u8,
    node: u32,
) -> bool
    requires run { IsRun (world_of setting.now) unharmed.now }
    requires set { set_of unharmed.now ≡ [] }
    ensures { result ≡ list_all (begun_agree (world_of setting.now) topic node) (range_with_len 0 nodes) }
{
    'others: for other in 0..nodes {
        if !both_agree(
            begun(setting, unharmed, topic, node),
            begun(setting, unharmed, topic, other),
        ) {
            return false;
        }
    }
    true
}

/// What a node enters under a topic by its start, where it is up at step 1.
fn begun<M: Machine>(setting: &Setting<M>, unharmed: &Run<M>, topic: u8, node: u32) -> Option<Entry>
    requires run { IsRun (world_of setting.now) unharmed.now }
    requires set { set_of unharmed.now ≡ [] }
    ensures { result ≡ begun (world_of setting.now) topic node }
{
    if !unharmed.up(node, 1) {
        return None;
    }
    let start = setting.machine.start(node);
    setting.machine.entry(node, &start, topic)
}

/// Whether two entries agree, where there are two.
fn both_agree(one: Option<Entry>, other: Option<Entry>) -> bool
    ensures { result ≡ both_agree one other }
{
    match (one, other) {
        (Some(one), Some(other)) => one.key != other.key || one.value == other.value,
        _ => true,
    }
}
