//! What a finished search gives.

ghost use Rattle.std.specs.Prelude.{◌≡◌, ◌↔◌, ℕ, List, IsSome, true, false, IfOk, IfErr, OnOk, OnErr, MatchOption};
ghost use Rattle.std.specs.List.{Contains};
ghost use Rattle.std.specs.List.Sorted.{IsPermutation};
ghost use Rattle.std.specs.Ordering.{is_lt};
ghost use Rattle.lf_book.specs.Books.{scenario_of, state_of};
ghost use Rattle.lf_book.specs.Finished.{AreDifferent};
ghost use Rattle.lf_certificate.specs.Accepted.{IsAccepted};
ghost use Rattle.lf_certificate.specs.Grown.{IsTreeOf};
ghost use Rattle.lf_certificate.specs.Places.{place_at};
ghost use Rattle.lf_faults.specs.Faults.{set_is_before};
ghost use Rattle.lf_faults.specs.declared.fault.Parts.{Parts};
ghost use Rattle.lf_marks.specs.Counting.{OfKind};
ghost use Rattle.lf_marks.specs.Steps as marking;
ghost use Rattle.lf_certificate.specs.Closed.{MissesAt};
ghost use Rattle.lf_certificate.specs.Levels.{AreAllLeast, AreAscending};
ghost use Rattle.lf_sim.specs.Settings.{world_of};

use crate::book::Book;
use lf_certificate::settings_are_bounded;
use lf_faults::{FaultSet, orders_are_total};
use lf_tree::Tree;
use std::alloc::AllocError;
use std::cmp::Ordering;
use thiserror::Error;

/// The search hasn't ended.
#[derive(Clone, Copy, Debug, PartialEq, Eq, Error)]
#[error("the search hasn't ended")]
pub struct Unfinished;

impl Book {
    /// The tree of the scenario, which any checker accepts, where the search has ended; else the book is handed back. What waits below the
    /// last level is dropped: the tree has a node for each answered set, and no other. It takes no memory.
    pub fn into_tree(self) -> Result<Tree, (Unfinished, Book)>
        ensures tree { IfOk result (IsTreeOf (world_of (scenario_of self).setting) (scenario_of self).setting.spec (scenario_of self).formula) }
        ensures accepted { IfOk result (IsAccepted (world_of (scenario_of self).setting) (scenario_of self).setting.spec (scenario_of self).formula) }
        ensures places { IfOk result (λ tree. (path : List ℕ) → IsSome (place_at tree path) ↔ OfKind marking.IsAnswer ((state_of self).marks path)) }
        ensures finished { OnOk result ((state_of self).finished ≡ true) }
        ensures unfinished { OnErr result ((state_of self).finished ≡ false) }
        ensures back { IfErr result (λ back. back.1 ≡ self) }
    {
        if !self.finished {
            return Err((Unfinished, self));
        }
        settings_are_bounded(self.scenario.setting());
        Ok(Tree {
            answer: self.least,
            root: self.marks.into_nodes(),
        })
    }

    /// All least sets, in order: each allowed set that misses the outcome with as few faults as any. None where the search hasn't ended. The
    /// error is that memory has run out.
    pub fn all_least(&self) -> Result<Option<Vec<FaultSet>>, AllocError>
        ensures { IfOk result (λ found. MatchOption found ((state_of self.now).finished ≡ false)
            (λ sets. ((state_of self.now).finished ≡ true)
            × AreAllLeast (world_of (scenario_of self.now).setting) (scenario_of self.now).setting.spec (scenario_of self.now).formula sets.items)) }
    {
        if !self.finished {
            return Ok(None);
        }
        settings_are_bounded(self.scenario.setting());
        let mut sets = self.missing()?;
        put_in_order(&mut sets);
        Ok(Some(sets))
    }

    /// The sets that are marked to miss, each once.
    fn missing(&self) -> Result<Vec<FaultSet>, AllocError>
        ensures different { IfOk result (λ sets. AreDifferent sets.items) }
        ensures each { IfOk result (λ sets. (faults : List Parts) → Contains sets.items faults ↔ MissesAt (state_of self.now).marks faults) }
    {
        let alloc = self.alloc;
        let paths = self.marks.missing()?;
        let mut sets = Vec::with_capacity(alloc, paths.len())?;
        'paths: for path in paths.as_slice() {
            let task = self.task(Vec::new(alloc), path.as_slice())?;
            sets.push(task.set)?;
        }
        Ok(sets)
    }
}

/// Puts different sets in order.
fn put_in_order(sets: &mut Vec<FaultSet>)
    requires { AreDifferent sets.old.items }
    ensures same { IsPermutation sets.old.items sets.new.items }
    ensures ascending { AreAscending sets.new.items }
{
    orders_are_total();
    sets.sort_unstable_by(|one, other| compare(one, other));
}

/// The order of two sets: fewer faults first, and sets of one size by their lists.
fn compare(one: &FaultSet, other: &FaultSet) -> Ordering
    ensures { is_lt result ≡ set_is_before one.now other.now }
{
    if one.is_before(other) {
        Ordering::Less
    } else if other.is_before(one) {
        Ordering::Greater
    } else {
        Ordering::Equal
    }
}
