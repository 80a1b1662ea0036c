//! The least reach that covers points.

ghost use Rattle.std.specs.Prelude.{◌≡◌, ◌<◌, ◌≤◌, length, replicate};
ghost use Rattle.lf_cone.specs.Sweeps.{IsRaised, SomeBelow, PointAt, AreInside};

use lf_outcome::{Point, Reach};

/// The least reach of so many nodes that covers the points.
pub(crate) fn covering(nodes: u32, points: &[Point]) -> Reach
    requires two { 2 ≤ nodes }
    requires few { nodes ≤ 8 }
    requires inside { AreInside nodes 48 points.now }
    ensures { IsRaised (SomeBelow (PointAt points.now) (length points.now)) (replicate nodes 0) result }
{
    let mut reach = Reach::none(nodes);
    for point in points {
        reach = reach.raised(point.node, point.step);
    }
    reach
}
