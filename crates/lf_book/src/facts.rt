//! Facts for the prover. Each call here computes nothing that is used: its contract says what a type of another crate keeps, where a proof
//! needs it and no other call has said it.

ghost use Rattle.std.specs.Prelude.{◌≤◌};
ghost use Rattle.lf_marks.specs.Marks.{mark_at, level_of};
ghost use Rattle.lf_marks.specs.Steps.{IsShape};

use lf_marks::Marks;
use lf_outcome::Scenario;

/// Every tree of marks has the shape of one, whatever calls made it.
pub(crate) fn marks_have_shape(marks: &Marks)
    ensures { IsShape (level_of marks.now) (mark_at marks.now) }
{
    let _level = marks.level();
}

/// Every scenario lets a level have a set.
pub(crate) fn scenarios_have_sets(scenario: &Scenario)
    ensures { 1 ≤ scenario.now.max_sets }
{
    let _sets = scenario.max_sets();
}
