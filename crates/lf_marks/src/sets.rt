//! Changes of the sets that were taken.

ghost use Rattle.std.specs.Prelude.{◌≡◌, ◌<◌, IfOk, length, slice_get, vec_capacity};
ghost use Rattle.lf_marks.specs.Arena.{look, mark_in, first_in, taken_in};
ghost use Rattle.lf_marks.specs.Building.{AreBare};
ghost use Rattle.lf_marks.specs.Room.{FitsKidOf};
ghost use Rattle.lf_marks.specs.Walks.{IsRemarked, IsWidened, width};

use crate::set::{Set, State};
use lf_tree::Node;
use std::alloc::AllocError;

/// Puts a state in place of another, of a set of which no kid was taken.
pub(crate) fn put_state(sets: &mut Vec<Set>, place: usize, state: State)
    requires within { place < length sets.old.items }
    requires first { (look sets.old.items place).first ≡ first_in state }
    requires taken { (look sets.old.items place).taken ≡ taken_in state }
    requires none { taken_in state ≡ 0 }
    ensures remarked { IsRemarked (look sets.old.items) (look sets.new.items) place (mark_in state) }
    ensures bare { AreBare sets.old.items → AreBare sets.new.items }
    ensures length { length sets.new.items ≡ length sets.old.items }
{
    let set = &mut sets[place];
    set.state = state;
}

/// A larger list for the kids of a branch that are taken, where one kid more has no place.
pub(crate) fn kid_room(sets: &[Set], parent: usize) -> Result<Option<Vec<Node>>, AllocError>
    requires { (look sets.now parent).taken < width (look sets.now parent) }
    ensures { IfOk result (FitsKidOf (slice_get sets.now parent)) }
{
    match &sets[parent].state {
        State::Branch(branch) => branch.kid_room(),
        _ => unreachable!(),
    }
}

/// Takes one more kid of a branch, at a place if it is the first, with the larger list of its kids, where there is one.
pub(crate) fn add_kid(sets: &mut Vec<Set>, parent: usize, place: usize, larger: Option<Vec<Node>>)
    requires more { (look sets.old.items parent).taken < width (look sets.old.items parent) }
    requires room { FitsKidOf (slice_get sets.old.items parent) larger }
    ensures widened { IsWidened (look sets.old.items) (look sets.new.items) parent place }
    ensures bare { AreBare sets.old.items → AreBare sets.new.items }
    ensures length { length sets.new.items ≡ length sets.old.items }
    ensures capacity { vec_capacity sets.new ≡ vec_capacity sets.old }
{
    let set = &mut sets[parent];
    match &mut set.state {
        State::Branch(branch) => branch.add_kid(place, larger),
        _ => unreachable!(),
    }
}
