//! On which points a formula rests whose parts are judged.

ghost use Rattle.std.specs.Prelude.{◌≡◌, ◌+◌, ◌<◌, ◌++◌, true, [], OnOk, length, map, take, drop, slice_index_or};
ghost use Rattle.std.specs.List.{flat_map, list_all};
ghost use Rattle.std.specs.Option.{unwrap_or};
ghost use Rattle.lf_outcome.specs.Evidence.{all_of, first_of};
ghost use Rattle.lf_sim.specs.Settings.{IsRun, set_of, world_of};
ghost use Rattle.lf_residual.specs.declared.part.Part.{Part};
ghost use Rattle.lf_residual.specs.Judging.{points_for, said, truths_of};
ghost use Rattle.lf_residual.specs.Parts.{all_parts, part_of, parts_of, size_of};

use crate::Part;
use lf_outcome::{Formula, Point, push_up};
use lf_protocols::{Fact, Protocol};
use lf_sim::{Run, Setting};
use std::alloc::AllocError;

/// A run, and the parts of a formula with their truth in it, in preorder.
#[derive(Drop)]
pub(crate) struct Ground<'a> {
    pub setting: &'a Setting<Protocol>,
    pub run: &'a Run<Protocol>,
    pub parts: &'a [Part],
    pub truths: &'a [bool],
    ghost plays: { IsRun (world_of setting.now) run.now },
}

impl Ground<'_> {
    /// How many parts the part at a place has, with itself.
    fn size_at(&self, at: usize) -> usize
        requires { at < length self.now.parts.now }
        ensures { (part : Part) → result ≡ (slice_index_or self.now.parts.now at part).size }
    {
        self.parts[at].size
    }
}

/// Puts the points behind others on which a true formula without Over rests, whose truth stands at a place. The error is that memory has run out.
#[cycle(put_points)]
pub(crate) fn put_points(
    ground: &Ground,
    formula: &Formula<Fact>,
    at: usize,
    points: &mut Vec<Point>,
) -> Result<(), AllocError>
    requires parts { take (size_of formula.now) (drop at ground.now.parts.now) ≡ parts_of formula.now }
    requires truths { take (size_of formula.now) (drop at ground.now.truths.now) ≡
        truths_of (world_of ground.now.setting.now) (set_of ground.now.run.now) formula.now }
    requires holds { said (world_of ground.now.setting.now) (set_of ground.now.run.now) formula.now ≡ true }
    ensures { OnOk result (points.new.items ≡
        points.old.items ++ unwrap_or (points_for (world_of ground.now.setting.now) (set_of ground.now.run.now) formula.now) []) }
{
    match formula {
        Formula::All(parts) => put_all(ground, parts.as_slice(), at + 1, points),
        Formula::Any(parts) => put_first(ground, parts.as_slice(), at + 1, points),
        Formula::Down { .. } => Ok(()),
        Formula::Shows { node, step, .. } => {
            points.push(Point {
                node: *node,
                step: *step,
            })?;
            Ok(())
        }
        Formula::One { nodes, last, .. } => {
            push_up(ground.setting, ground.run, *nodes, *last, points)
        }
        Formula::Over { .. } => Ok(()),
    }
}

/// The same for all of some formulas, the first of which stands at a place.
#[cycle(put_points)]
fn put_all(
    ground: &Ground,
    parts: &[Formula<Fact>],
    first: usize,
    points: &mut Vec<Point>,
) -> Result<(), AllocError>
    requires parts { take (all_parts part_of parts.now).size (drop first ground.now.parts.now) ≡ flat_map parts_of parts.now }
    requires truths { take (all_parts part_of parts.now).size (drop first ground.now.truths.now) ≡
        flat_map (truths_of (world_of ground.now.setting.now) (set_of ground.now.run.now)) parts.now }
    requires holds { list_all (said (world_of ground.now.setting.now) (set_of ground.now.run.now)) parts.now ≡ true }
    ensures { OnOk result (points.new.items ≡
        points.old.items ++ unwrap_or (all_of (map (points_for (world_of ground.now.setting.now) (set_of ground.now.run.now)) parts.now)) []) }
{
    let mut at = first;
    'parts: for part in parts {
        put_points(ground, part, at, points)?;
        at += ground.size_at(at);
    }
    Ok(())
}

/// The same for the first of some formulas that is true, if there is one.
#[cycle(put_points)]
fn put_first(
    ground: &Ground,
    parts: &[Formula<Fact>],
    first: usize,
    points: &mut Vec<Point>,
) -> Result<(), AllocError>
    requires parts { take (all_parts part_of parts.now).size (drop first ground.now.parts.now) ≡ flat_map parts_of parts.now }
    requires truths { take (all_parts part_of parts.now).size (drop first ground.now.truths.now) ≡
        flat_map (truths_of (world_of ground.now.setting.now) (set_of ground.now.run.now)) parts.now }
    ensures { OnOk result (points.new.items ≡
        points.old.items ++ unwrap_or (first_of (map (points_for (world_of ground.now.setting.now) (set_of ground.now.run.now)) parts.now)) []) }
{
    let mut at = first;
    'parts: for part in parts {
        if ground.truths[at] {
            return put_points(ground, part, at, points);
        }
        at += ground.size_at(at);
    }
    Ok(())
}
