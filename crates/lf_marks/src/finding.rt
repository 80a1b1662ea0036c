//! Finding an open set.

ghost use Rattle.std.specs.Prelude.{◌≡◌, ◌+◌, ◌<◌, ◌≤◌, length, Some, IfOk, IfSome, IfNone};
ghost use Rattle.lf_marks.specs.Arena.{look};
ghost use Rattle.lf_marks.specs.Marks.{mark_at, level_of, IsNext, IsNextKid, LeadsToLast};
ghost use Rattle.lf_marks.specs.Room.{HasRoom};
ghost use Rattle.lf_marks.specs.Steps.{IsUnmarked, kids_above};
ghost use Rattle.lf_marks.specs.Steps as mark;
ghost use Rattle.lf_marks.specs.Walks.{led_from};

use crate::marks::Marks;
use crate::room::Room;
use crate::set::State;
use crate::steps::Steps;
use std::alloc::AllocError;
use std::marker::Brand;
use std::sync::ledger::{Blank, Ledger};

/// An open set that is to be claimed.
#[derive(Drop)]
pub struct Claimable {
    /// Where it stands.
    pub path: Vec<usize>,
    /// Room for its claim.
    pub room: Room,
}

impl Marks {
    /// Finds the open set that the next claim takes, and makes all room that the claim needs. None where no set is open. It changes
    /// nothing. The path is written into a list that is no longer needed, whatever it holds.
    ///
    /// Its steps are counted: a step is a set that is looked at. For a path there are at most as many as the sets above it have kids, and
    /// for an error at most as many as the level. Where no set is open there are none.
    pub fn find_open<L: Ledger>(
        &self,
        spent: Vec<usize>,
        steps: &mut Steps<L>,
    ) -> Result<Option<Claimable>, AllocError>
        ensures next { IfOk result (λ o. IfSome o (λ found. IsNext self.now found.path.items)) }
        ensures room { IfOk result (λ o. IfSome o (λ found. HasRoom self.now found.room)) }
        ensures ready { IfOk result (λ o. IfSome o (λ found. mark_at self.now found.path.items ≡ Some mark.Open)) }
        ensures none { IfOk result (λ o. IfNone o (IsUnmarked (mark_at self.now) mark.Open)) }
        ensures steps { IfOk result (λ o. IfSome o (λ found. steps.new ≤ steps.old + kids_above (mark_at self.now) found.path.items)) }
        ensures none_steps { IfOk result (λ o. IfNone o (steps.new ≡ steps.old)) }
        ensures most_steps { steps.new ≤ steps.old + level_of self.now }
    {
        let Some(path) = self.next_path(spent, steps)? else {
            return Ok(None);
        };
        let room = self.room()?;
        Ok(Some(Claimable { path, room }))
    }

    /// The path of the set that the next claim takes, in the memory of a list.
    fn next_path<L: Ledger>(
        &self,
        spent: Vec<usize>,
        steps: &mut Steps<L>,
    ) -> Result<Option<Vec<usize>>, AllocError>
        ensures next { IfOk result (λ o. IfSome o (λ path. IsNext self.now path.items)) }
        ensures none { IfOk result (λ o. IfNone o (IsUnmarked (mark_at self.now) mark.Open)) }
        ensures none_steps { IfOk result (λ o. IfNone o (steps.new ≡ steps.old)) }
        ensures steps { steps.new ≤ steps.old + level_of self.now }
    {
        if !self.opened.is_empty() {
            return Ok(Some(self.path_again(spent, steps)?));
        }
        if self.at < self.queue.len() {
            return Ok(Some(self.path_next(spent, steps)?));
        }
        Ok(None)
    }

    /// The path of the last set that was given back, in the memory of a list.
    fn path_again<L: Ledger>(
        &self,
        spent: Vec<usize>,
        steps: &mut Steps<L>,
    ) -> Result<Vec<usize>, AllocError>
        requires { 0 < length self.now.opened.items }
        ensures path { IfOk result (λ path. LeadsToLast self.now.sets.items self.now.opened.items path.items) }
        ensures steps { steps.new ≤ steps.old + level_of self.now }
    {
        let place = self.opened[self.opened.len() - 1];
        self.path_counted(place, spent, steps)
    }

    /// The path of the first set that nobody has taken, in the memory of a list.
    fn path_next<L: Ledger>(
        &self,
        spent: Vec<usize>,
        steps: &mut Steps<L>,
    ) -> Result<Vec<usize>, AllocError>
        requires { self.now.at < length self.now.queue.items }
        ensures path { IfOk result (λ path. IsNextKid self.now.sets.items self.now.queue.items self.now.at path.items) }
        ensures steps { steps.new ≤ steps.old + level_of self.now }
    {
        let parent = self.queue[self.at];
        let mut path = self.path_counted(parent, spent, steps)?;
        steps.tick();
        path.push(self.taken(parent) as usize)?;
        Ok(path)
    }

    /// How many kids of the set at a place were taken.
    pub(crate) fn taken(&self, place: usize) -> u32
        requires { place < length self.now.sets.items }
        ensures { result ≡ (look self.now.sets.items place).taken }
    {
        match &self.sets[place].state {
            State::Branch(branch) => branch.kids.len() as u32,
            _ => 0,
        }
    }

    /// The path that leads to a place.
    pub(crate) fn path_to(&self, place: usize) -> Result<Vec<usize>, AllocError>
        requires { place < length self.now.sets.items }
        ensures { IfOk result (λ path. led_from (look self.now.sets.items) 0 path.items ≡ Some place) }
    {
        self.path_by::<Brand>(place, Blank::new(1))
    }

    /// The same, with steps of its own.
    fn path_by<L: Ledger>(&self, place: usize, blank: Blank) -> Result<Vec<usize>, AllocError>
        requires name { blank.name ≡ L.name }
        requires parts { blank.parts ≡ L.parts }
        requires some { 0 < blank.parts }
        requires within { place < length self.now.sets.items }
        ensures { IfOk result (λ path. led_from (look self.now.sets.items) 0 path.items ≡ Some place) }
    {
        let mut steps = Steps::<L>::new(blank);
        self.path_counted(place, Vec::new(*self.sets.allocator()), &mut steps)
    }

    /// The same, in the memory of a list, with its steps counted: it looks at the place, and at each above it but the root.
    fn path_counted<L: Ledger>(
        &self,
        place: usize,
        spent: Vec<usize>,
        steps: &mut Steps<L>,
    ) -> Result<Vec<usize>, AllocError>
        requires { place < length self.now.sets.items }
        ensures path { IfOk result (λ path. led_from (look self.now.sets.items) 0 path.items ≡ Some place) }
        ensures steps { steps.new ≤ steps.old + (look self.now.sets.items place).depth }
    {
        let mut path = spent;
        path.clear();
        path.reserve(self.level as usize)?;
        let mut at = place;
        while at > 0 {
            steps.tick();
            let set = &self.sets[at];
            path.push(set.kid as usize)?;
            at = set.parent;
        }
        path.as_mut_slice().reverse();
        Ok(path)
    }
}
