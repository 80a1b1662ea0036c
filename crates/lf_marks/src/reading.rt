//! What is read of a tree of marks.

ghost use Rattle.std.specs.Prelude.{◌≡◌, ◌≢◌, ℕ, ◌+◌, ◌<◌, ◌≤◌, ◌↔◌, List, length, map, Some, IsTrue, IfOk, IfSome, MatchOption};
ghost use Rattle.lf_faults.specs.declared.fault.Parts.{Parts};
ghost use Rattle.lf_marks.specs.Arena.{look};
ghost use Rattle.lf_marks.specs.Counting.{AreCounts, AreThose};
ghost use Rattle.lf_marks.specs.Marks.{mark_at, level_of, waiting_of};
ghost use Rattle.lf_marks.specs.Steps.{IsMarked, IsShape};
ghost use Rattle.lf_marks.specs.Steps as mark;
ghost use Rattle.lf_marks.specs.Walks.{led_from, width};

use crate::claims::claim_of;
use crate::marks::Marks;
use crate::set::State;
use lf_faults::Fault;
use lf_outcome::Reach;
use std::alloc::AllocError;

/// How many sets are marked in which way.
#[derive(Clone, Copy, Debug, PartialEq, Eq)]
pub struct Counts {
    /// How many are open.
    pub ready: u64,
    /// How many are claimed.
    pub claimed: u64,
    /// How many are answered.
    pub answered: u64,
    /// How many wait, one beneath the level.
    pub waiting: u64,
}

impl Marks {
    /// How deep the sets stand that may be worked, 0..=16. What stands above it is answered, and what stands one beneath it waits.
    pub fn level(&self) -> u32
        ensures value { result ≡ level_of self.now }
        ensures shape { IsShape (level_of self.now) (mark_at self.now) }
    {
        self.level
    }

    /// How many sets are marked in which way. It takes no memory.
    pub fn counts(&self) -> Counts
        ensures counts { AreCounts (mark_at self.now) result.ready result.claimed result.answered result.waiting }
        ensures waiting { result.waiting ≡ waiting_of self.now }
    {
        Counts {
            ready: self.untaken + self.opened.len() as u64,
            claimed: self.claims.count() as u64,
            answered: self.answered,
            waiting: self.waiting,
        }
    }

    /// Whether the ticket claims a set.
    pub fn has_claim(&self, ticket: u64) -> bool
        ensures { IsTrue result ↔ IsMarked (mark_at self.now) (mark.Claimed ticket) }
    {
        claim_of(self.claims.standing(), ticket).is_some()
    }

    /// Whether the ticket claims the set at the path.
    pub fn is_claimed_at(&self, ticket: u64, path: &[usize]) -> bool
        ensures { IsTrue result ↔ (mark_at self.now path.now ≡ Some (mark.Claimed ticket)) }
    {
        let Some(place) = self.place_at(path) else {
            return false;
        };
        match &self.sets[place].state {
            State::Claimed(claimer) => *claimer == ticket,
            _ => false,
        }
    }

    /// The reach and the edges of the branch at the path, where one stands. It takes no memory.
    pub fn branch_at(&self, path: &[usize]) -> Option<(&Reach, &[Fault])>
        ensures { MatchOption result ((reach : List ℕ) (edges : List Parts) → mark_at self.now path.now ≢ Some (mark.Branch reach edges))
            (λ b. mark_at self.now path.now ≡ Some (mark.Branch b.0.now b.1.now)) }
    {
        let place = self.place_at(path)?;
        match &self.sets[place].state {
            State::Branch(branch) => Some((&branch.reach, branch.edges.as_slice())),
            _ => None,
        }
    }

    /// Where a path leads, if to a set that was taken.
    fn place_at(&self, path: &[usize]) -> Option<usize>
        ensures leads { result ≡ led_from (look self.now.sets.items) 0 path.now }
        ensures within { IfSome result (λ x. x < length self.now.sets.items) }
    {
        let mut place = 0;
        'path: for kid in path {
            let (first, taken) = self.taken_kids(place);
            if *kid >= taken {
                return None;
            }
            place = first + *kid;
        }
        Some(place)
    }

    /// The place of the first kid of a set that was taken, and how many were.
    fn taken_kids(&self, place: usize) -> (usize, usize)
        requires { place < length self.now.sets.items }
        ensures first { result.0 ≡ (look self.now.sets.items place).first }
        ensures taken { result.1 ≡ (look self.now.sets.items place).taken }
    {
        match &self.sets[place].state {
            State::Branch(branch) => (branch.first, branch.kids.len()),
            _ => (0, 0),
        }
    }

    /// How many kids a set has, taken or not.
    pub(crate) fn kids(&self, place: usize) -> u32
        requires { place < length self.now.sets.items }
        ensures { result ≡ width (look self.now.sets.items place) }
    {
        match &self.sets[place].state {
            State::Branch(branch) => branch.edges.len() as u32,
            _ => 0,
        }
    }

    /// The paths of the sets of the level that miss, in the order in which these were first taken. It looks at the sets of the
    /// level alone.
    pub fn missing(&self) -> Result<Vec<Vec<usize>>, AllocError>
        ensures { IfOk result (λ paths. AreThose (λ p. (mark_at self.now p ≡ Some mark.Misses) × (length p ≡ level_of self.now))
            (map (λ v. v.items) paths.items)) }
    {
        let mut paths = Vec::new(*self.sets.allocator());
        let end = self.sets.len();
        'places: for place in self.start..end {
            if self.misses(place) {
                let path = self.path_to(place)?;
                paths.push(path)?;
            }
        }
        Ok(paths)
    }

    /// Whether the set at a place misses.
    fn misses(&self, place: usize) -> bool
        requires { place < length self.now.sets.items }
        ensures { IsTrue result ↔ ((look self.now.sets.items place).mark ≡ Some mark.Misses) }
    {
        matches!(&self.sets[place].state, State::Misses)
    }
}
