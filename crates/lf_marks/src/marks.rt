//! The tree of marks.

ghost use Rattle.std.specs.Prelude.{◌+◌, ◌≤◌, length, drop, vec_capacity};
ghost use Rattle.lf_marks.specs.Arena.{IsState};
ghost use Rattle.lf_marks.specs.Building.{AreBare, bare-prop};
ghost use Rattle.lf_marks.specs.Claims.{standing};

use crate::claim::Claims;
use crate::set::Set;

/// The sets of faults that a search has marked, from the empty set on, level by level.
///
/// A set stands at a path, the places of the kids from the root on. Of the sets of the level and those beneath it, only those that
/// were taken take memory: 32 bytes each, and a branch besides what it brings and a node for each of its kids.
#[derive(Drop)]
pub struct Marks {
    /// How deep the sets stand that may be worked.
    pub(crate) level: u32,
    /// The place of the first set of the level that was taken, or of the next.
    pub(crate) start: usize,
    /// The sets that were taken, the root first, each before its kids. The kids of a branch stand one after another.
    pub(crate) sets: Vec<Set>,
    /// The places of the branches one above the level, whose kids are the sets of the level.
    pub(crate) queue: Vec<usize>,
    /// The place in the queue of the first branch with a kid that nobody has taken. Only of that one some kids may have been taken.
    pub(crate) at: usize,
    /// The places of the branches of the level with kids.
    pub(crate) coming: Vec<usize>,
    /// The places of the sets that were given back.
    pub(crate) opened: Vec<usize>,
    /// The sets that are worked, in the order of their tickets.
    pub(crate) claims: Claims,
    /// How many sets of the level nobody has taken.
    pub(crate) untaken: u64,
    /// How many sets wait, one beneath the level.
    pub(crate) waiting: u64,
    /// How many sets are answered.
    pub(crate) answered: u64,
    ghost state: { IsState level start sets.items (drop at queue.items) coming.items opened.items (standing claims) untaken waiting answered },
    ghost bare: { AreBare sets.items } by { bare-prop sets.items },
    ghost coming_room: { length coming.items + length (standing claims) ≤ vec_capacity coming },
    ghost opened_room: { length opened.items + length (standing claims) ≤ vec_capacity opened },
}
