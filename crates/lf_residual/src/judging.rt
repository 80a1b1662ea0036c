//! How a formula is judged again.

ghost use Rattle.std.specs.Prelude.{◌≡◌, ◌+◌, ◌<◌, ◌≤◌, ◌++◌, ℕ, Bool, true, false, List, take, drop, length, slice_index_or};
ghost use Rattle.std.specs.List.{flat_map, list_all, list_any};
ghost use Rattle.lf_faults.specs.declared.fault.Parts.{Parts};
ghost use Rattle.lf_outcome.specs.Unfolding.{unfolded};
ghost use Rattle.lf_sim.specs.Changes.{AreSameBut};
ghost use Rattle.lf_sim.specs.Marks.{is_marked};
ghost use Rattle.lf_sim.specs.Settings.{IsRun, set_of, world_of};
ghost use Rattle.lf_residual.specs.declared.part.Part.{Part};
ghost use Rattle.lf_residual.specs.Judging.{said, truths_of};
ghost use Rattle.lf_residual.specs.Parts.{IsWithin, all_parts, part_of, parts_of, scope_at, size_of};

use crate::Part;
use lf_outcome::{Formula, holds};
use lf_protocols::{Fact, Protocol};
use lf_sim::{Marks, Run, Setting};

/// A run, the points at which it may differ from the one before, and the parts of the formula that is judged, in preorder.
#[derive(Drop)]
pub(crate) struct Change<'a> {
    pub setting: &'a Setting<Protocol>,
    pub run: &'a Run<Protocol>,
    pub changed: &'a Marks,
    pub parts: &'a [Part],
    ghost plays: { IsRun (world_of setting.now) run.now },
}

impl Change<'_> {
    /// Whether a point of which a part speaks may have changed.
    fn touches(&self, part: &Part) -> bool
        ensures { result ≡ false → (n t : ℕ) → n < (world_of self.now.setting.now).rules.nodes → IsWithin part.now.scope n t →
            is_marked self.now.changed.now.points n t ≡ false }
    {
        let _nodes = self.run.nodes();
        let nodes = part.scope.nodes;
        let steps = part.scope.steps;
        self.changed
            .may_have(nodes.first, nodes.last, steps.first, steps.last)
    }

    /// How many parts the part at a place has, with itself.
    fn size_at(&self, at: usize) -> usize
        requires { at < length self.now.parts.now }
        ensures { (part : Part) → result ≡ (slice_index_or self.now.parts.now at part).size }
    {
        self.parts[at].size
    }

    /// Whether a point may have changed, if it is one.
    fn has(&self, node: u32, step: u32) -> bool
        ensures { result ≡ false → node < (world_of self.now.setting.now).rules.nodes → step ≤ (world_of self.now.setting.now).horizon →
            is_marked self.now.changed.now.points node step ≡ false }
    {
        node < self.run.nodes() && step <= self.run.horizon() && self.changed.has(node, step)
    }
}

/// Judges again a formula without Over whose truth stands at a place, with those of its parts behind it: they are of a run which differs at no points but those
/// that are marked. The truth now.
// Inlined, so that a part of which no point changed costs no call.
#[inline(always)]
#[cycle(judge_again)]
pub(crate) fn judge_again(
    change: &Change,
    formula: &Formula<Fact>,
    at: usize,
    truths: &mut [bool],
) -> bool
    requires parts { take (size_of formula.now) (drop at change.now.parts.now) ≡ parts_of formula.now }
    requires truths { length change.now.parts.now ≤ length truths.old }
    ensures { let w = world_of change.now.setting.now in let to = set_of change.now.run.now in
        (from : List Parts) (before behind : List Bool) → AreSameBut w from to change.now.changed.now.points → length before ≡ at →
        truths.old ≡ before ++ (truths_of w from formula.now ++ behind) →
        (result ≡ said w to formula.now) × (truths.new ≡ before ++ (truths_of w to formula.now ++ behind)) }
{
    let part = change.parts[at];
    if change.touches(&part) {
        judge_touched(change, formula, at, truths)
    } else {
        truths[at]
    }
}

/// The same of a formula of which a point may have changed.
#[inline(never)]
#[cycle(judge_again)]
fn judge_touched(change: &Change, formula: &Formula<Fact>, at: usize, truths: &mut [bool]) -> bool
    requires parts { take (size_of formula.now) (drop at change.now.parts.now) ≡ parts_of formula.now }
    requires truths { length change.now.parts.now ≤ length truths.old }
    ensures { let w = world_of change.now.setting.now in let to = set_of change.now.run.now in
        (from : List Parts) (before behind : List Bool) → AreSameBut w from to change.now.changed.now.points → length before ≡ at →
        truths.old ≡ before ++ (truths_of w from formula.now ++ behind) →
        (result ≡ said w to formula.now) × (truths.new ≡ before ++ (truths_of w to formula.now ++ behind)) }
{
    let truth = match formula {
        Formula::All(parts) => judge_all(change, parts.as_slice(), at + 1, truths),
        Formula::Any(parts) => judge_any(change, parts.as_slice(), at + 1, truths),
        Formula::Down { node, step } => judge_atom(change, formula, *node, *step, truths[at]),
        Formula::Shows { node, step, .. } => judge_atom(change, formula, *node, *step, truths[at]),
        Formula::One { .. } => holds(change.setting, formula, change.run),
        Formula::Over { .. } => false,
    };
    truths[at] = truth;
    truth
}

/// The same of an atom that speaks of one point, and has this truth.
fn judge_atom(change: &Change, formula: &Formula<Fact>, node: u32, step: u32, truth: bool) -> bool
    requires scope { (part_of formula.now).scope ≡ scope_at node step }
    requires plain { unfolded formula.now ≡ formula.now }
    ensures { let w = world_of change.now.setting.now in let to = set_of change.now.run.now in
        (from : List Parts) → AreSameBut w from to change.now.changed.now.points → truth ≡ said w from formula.now →
        result ≡ said w to formula.now }
{
    if change.has(node, step) {
        holds(change.setting, formula, change.run)
    } else {
        truth
    }
}

/// The same of formulas, the first of which stands at a place. Whether all are true.
#[cycle(judge_again)]
fn judge_all(change: &Change, parts: &[Formula<Fact>], first: usize, truths: &mut [bool]) -> bool
    requires parts { take (all_parts part_of parts.now).size (drop first change.now.parts.now) ≡ flat_map parts_of parts.now }
    requires truths { length change.now.parts.now ≤ length truths.old }
    ensures { let w = world_of change.now.setting.now in let to = set_of change.now.run.now in
        (from : List Parts) (before behind : List Bool) → AreSameBut w from to change.now.changed.now.points → length before ≡ first →
        truths.old ≡ before ++ (flat_map (truths_of w from) parts.now ++ behind) →
        (result ≡ list_all (said w to) parts.now) × (truths.new ≡ before ++ (flat_map (truths_of w to) parts.now ++ behind)) }
{
    let mut at = first;
    let mut all = true;
    'parts: for part in parts {
        let truth = judge_again(change, part, at, truths);
        all = all && truth;
        at += change.size_at(at);
    }
    all
}

/// The same, but whether any is true.
#[cycle(judge_again)]
fn judge_any(change: &Change, parts: &[Formula<Fact>], first: usize, truths: &mut [bool]) -> bool
    requires parts { take (all_parts part_of parts.now).size (drop first change.now.parts.now) ≡ flat_map parts_of parts.now }
    requires truths { length change.now.parts.now ≤ length truths.old }
    ensures { let w = world_of change.now.setting.now in let to = set_of change.now.run.now in
        (from : List Parts) (before behind : List Bool) → AreSameBut w from to change.now.changed.now.points → length before ≡ first →
        truths.old ≡ before ++ (flat_map (truths_of w from) parts.now ++ behind) →
        (result ≡ list_any (said w to) parts.now) × (truths.new ≡ before ++ (flat_map (truths_of w to) parts.now ++ behind)) }
{
    let mut at = first;
    let mut any = false;
    'parts: for part in parts {
        let truth = judge_again(change, part, at, truths);
        any = any || truth;
        at += change.size_at(at);
    }
    any
}
