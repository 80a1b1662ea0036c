//! On which points the truth of a formula rests.

ghost use Rattle.std.specs.Prelude.{◌≡◌, ℕ, true, List, [], ◌++◌, IfOk, OnOk, IfSome, map};
ghost use Rattle.std.specs.Option.{is_some, option_map, unwrap_or};
ghost use Rattle.lf_sim.specs.Settings.{IsRun, set_of, world_of};
ghost use Rattle.lf_outcome.specs.Evidence.{AreUp, ArePoints, Covers, all_of, evidence_at, evidence_of, first_of};
ghost use Rattle.lf_outcome.specs.Truth.{reaches, reaches_within};
ghost use Rattle.lf_outcome.specs.Unfolding.{later, steps};

use crate::entries::{is_single, push_up};
use crate::truth::shows;
use crate::unfolding::later;
use crate::{Formula, Point};
use lf_sim::{Machine, Run, Setting};
use std::alloc::{AllocError, Global};

/// The points at which the run shows the facts that make the formula true, in the formula's order: of All those of all parts, of Any those of its first true
/// part, of One all of its points at which nodes are up, and of Over those of the All or Any that it unfolds into, by step and then by part. A fact named twice
/// gives its point twice, and a node that is down gives none. None where the formula is false.
pub fn evidence<M: Machine>(
    alloc: Global,
    setting: &Setting<M>,
    formula: &Formula<M::Fact>,
    run: &Run<M>,
) -> Result<Option<Vec<Point>>, AllocError>
    requires { IsRun (world_of setting.now) run.now }
    ensures value { IfOk result (λ found. option_map (λ points. points.items) found ≡
        evidence_of (world_of setting.now) (set_of run.now) formula.now) }
    ensures truth { IfOk result (λ found. is_some found ≡ reaches (world_of setting.now) (set_of run.now) formula.now) }
    ensures points { IfOk result (λ found. IfSome found (λ points. ArePoints (world_of setting.now) points.items)) }
    ensures up { IfOk result (λ found. IfSome found (λ points. AreUp (world_of setting.now) (set_of run.now) points.items)) }
    ensures suffices { IfOk result (λ found. IfSome found (λ points. (reach : List ℕ) → Covers reach points.items →
        reaches_within (world_of setting.now) (set_of run.now) reach formula.now ≡ true)) }
{
    let mut points = Vec::new(alloc);
    if gather(setting, formula, run, 0, &mut points)? {
        Ok(Some(points))
    } else {
        Ok(None)
    }
}

/// Puts the points of the formula, its steps counted from a step, behind those of the list. False, and the list as it was, where the formula is false.
#[cycle(gather)]
fn gather<M: Machine>(
    setting: &Setting<M>,
    formula: &Formula<M::Fact>,
    run: &Run<M>,
    offset: u32,
    points: &mut Vec<Point>,
) -> Result<bool, AllocError>
    requires { IsRun (world_of setting.now) run.now }
    ensures found { IfOk result (λ found. found ≡ is_some (evidence_at (world_of setting.now) (set_of run.now) offset formula.now)) }
    ensures points { OnOk result (points.new.items ≡
        points.old.items ++ unwrap_or (evidence_at (world_of setting.now) (set_of run.now) offset formula.now) []) }
{
    match formula {
        Formula::All(parts) => gather_all(setting, parts.as_slice(), run, offset, points),
        Formula::Any(parts) => gather_first(setting, parts.as_slice(), run, offset, points),
        Formula::Down { node, step } => Ok(!run.up(*node, later(offset, *step))),
        Formula::Shows { node, step, fact } => {
            let step = later(offset, *step);
            let shown = shows(setting, run, *node, step, *fact);
            if shown {
                points.push(Point { node: *node, step })?;
            }
            Ok(shown)
        }
        Formula::One { nodes, last, topic } => {
            let single = is_single(setting, run, *nodes, *last, *topic);
            if single {
                push_up(setting, run, *nodes, *last, points)?;
            }
            Ok(single)
        }
        Formula::Over {
            every,
            first,
            last,
            parts,
        } => {
            if *every {
                gather_all_over(
                    setting,
                    *first,
                    *last,
                    parts.as_slice(),
                    run,
                    offset,
                    points,
                )
            } else {
                gather_first_over(
                    setting,
                    *first,
                    *last,
                    parts.as_slice(),
                    run,
                    offset,
                    points,
                )
            }
        }
    }
}

/// The same for all parts.
#[cycle(gather)]
fn gather_all<M: Machine>(
    setting: &Setting<M>,
    parts: &[Formula<M::Fact>],
    run: &Run<M>,
    offset: u32,
    points: &mut Vec<Point>,
) -> Result<bool, AllocError>
    requires { IsRun (world_of setting.now) run.now }
    ensures found { IfOk result (λ found.
        found ≡ is_some (all_of (map (evidence_at (world_of setting.now) (set_of run.now) offset) parts.now))) }
    ensures points { OnOk result (points.new.items ≡
        points.old.items ++ unwrap_or (all_of (map (evidence_at (world_of setting.now) (set_of run.now) offset) parts.now)) []) }
{
    let before = points.len();
    'all: for part in parts {
        if !gather(setting, part, run, offset, points)? {
            points.truncate(before);
            return Ok(false);
        }
    }
    Ok(true)
}

/// The same for the first part that is true.
#[cycle(gather)]
fn gather_first<M: Machine>(
    setting: &Setting<M>,
    parts: &[Formula<M::Fact>],
    run: &Run<M>,
    offset: u32,
    points: &mut Vec<Point>,
) -> Result<bool, AllocError>
    requires { IsRun (world_of setting.now) run.now }
    ensures found { IfOk result (λ found.
        found ≡ is_some (first_of (map (evidence_at (world_of setting.now) (set_of run.now) offset) parts.now))) }
    ensures points { OnOk result (points.new.items ≡
        points.old.items ++ unwrap_or (first_of (map (evidence_at (world_of setting.now) (set_of run.now) offset) parts.now)) []) }
{
    'any: for part in parts {
        if gather(setting, part, run, offset, points)? {
            return Ok(true);
        }
    }
    Ok(false)
}

/// The same for all parts at each of the steps.
#[cycle(gather)]
fn gather_all_over<M: Machine>(
    setting: &Setting<M>,
    first: u32,
    last: u32,
    parts: &[Formula<M::Fact>],
    run: &Run<M>,
    offset: u32,
    points: &mut Vec<Point>,
) -> Result<bool, AllocError>
    requires { IsRun (world_of setting.now) run.now }
    ensures found { IfOk result (λ found. found ≡
        is_some (all_of (map (λ t. all_of (map (evidence_at (world_of setting.now) (set_of run.now) (later offset t)) parts.now)) (steps first last)))) }
    ensures points { OnOk result (points.new.items ≡ points.old.items ++
        unwrap_or (all_of (map (λ t. all_of (map (evidence_at (world_of setting.now) (set_of run.now) (later offset t)) parts.now)) (steps first last))) []) }
{
    let before = points.len();
    'steps: for step in first..=last {
        if !gather_all(setting, parts, run, later(offset, step), points)? {
            points.truncate(before);
            return Ok(false);
        }
    }
    Ok(true)
}

/// The same for the first part that is true at the first of the steps at which one is.
#[cycle(gather)]
fn gather_first_over<M: Machine>(
    setting: &Setting<M>,
    first: u32,
    last: u32,
    parts: &[Formula<M::Fact>],
    run: &Run<M>,
    offset: u32,
    points: &mut Vec<Point>,
) -> Result<bool, AllocError>
    requires { IsRun (world_of setting.now) run.now }
    ensures found { IfOk result (λ found. found ≡
        is_some (first_of (map (λ t. first_of (map (evidence_at (world_of setting.now) (set_of run.now) (later offset t)) parts.now)) (steps first last)))) }
    ensures points { OnOk result (points.new.items ≡ points.old.items ++
        unwrap_or (first_of (map (λ t. first_of (map (evidence_at (world_of setting.now) (set_of run.now) (later offset t)) parts.now))
        (steps first last))) []) }
{
    'steps: for step in first..=last {
        if gather_first(setting, parts, run, later(offset, step), points)? {
            return Ok(true);
        }
    }
    Ok(false)
}
