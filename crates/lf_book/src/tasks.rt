//! What the sets of a book are worked with.

ghost use Rattle.std.specs.Prelude.{◌≡◌, ◌<◌, ◌↔◌, ◌++◌, List, IsTrue, IsSome, IfOk, Some, length, slice_index_or, take};
ghost use Rattle.lf_book.specs.Books.{state_of};
ghost use Rattle.lf_book.specs.Ways.{LeadsTo, LeadsOn};
ghost use Rattle.lf_faults.specs.declared.fault.Parts.{Parts};
ghost use Rattle.lf_certificate.specs.Tasks.{task_at};

use crate::book::Book;
use lf_faults::{Fault, FaultSet, with};
use std::alloc::AllocError;

/// A set, and what is excluded beneath it.
#[derive(Drop)]
pub(crate) struct Task {
    pub(crate) set: FaultSet,
    pub(crate) excluded: Vec<Fault>,
}

impl Book {
    /// What the set at a path is worked with. What is excluded is written into a list that is no longer needed, whatever it holds.
    pub(crate) fn task(&self, spent: Vec<Fault>, path: &[usize]) -> Result<Task, AllocError>
        requires { IsSome ((state_of self.now).marks path.now) }
        ensures { IfOk result (λ task. task_at (state_of self.now).marks path.now ≡ Some (record { faults = task.set; excluded = task.excluded.items })) }
    {
        let mut set = FaultSet::empty();
        let mut excluded = spent;
        excluded.clear();
        excluded.reserve(sum(path))?;
        'path: for depth in 0..path.len() {
            let (more, larger) = self.step(path, depth, &set);
            excluded.extend_from_slice(more)?;
            set = larger;
        }
        Ok(Task { set, excluded })
    }

    /// Whether the set at a path is worked with these. It takes no memory.
    pub(crate) fn is_task(&self, path: &[usize], set: &FaultSet, excluded: &[Fault]) -> bool
        requires { IsSome ((state_of self.now).marks path.now) }
        ensures { IsTrue result ↔ (task_at (state_of self.now).marks path.now ≡ Some (record { faults = set.now; excluded = excluded.now })) }
    {
        let mut found = FaultSet::empty();
        let mut at = 0;
        'path: for depth in 0..path.len() {
            let (more, larger) = self.step(path, depth, &found);
            if !begins_with(&excluded[at..], more) {
                return false;
            }
            at += more.len();
            found = larger;
        }
        if at < excluded.len() {
            return false;
        }
        are_same(found.items(), set.items())
    }

    /// One step down the path to a set, from the set so far down it: what is excluded besides from there on, and the set with one
    /// fault more.
    pub(crate) fn step(&self, path: &[usize], depth: usize, set: &FaultSet) -> (&[Fault], FaultSet)
        requires stands { IsSome ((state_of self.now).marks path.now) }
        requires within { depth < length path.now }
        requires leads { LeadsTo (state_of self.now).marks (take depth path.now) set.now }
        ensures { LeadsOn (state_of self.now).marks path.now depth set.now result.0.now result.1 }
    {
        let Some((_, edges)) = self.marks.branch_at(&path[..depth]) else {
            unreachable!()
        };
        let kid = path[depth];
        let larger = with(&self.scenario.setting().spec, set, fault_at(edges, kid));
        (&edges[..kid], larger)
    }
}

/// The sum of the places of a path, or the largest number: as many edges stand before its kids.
fn sum(path: &[usize]) -> usize {
    let mut sum = 0usize;
    for kid in path {
        sum = sum.saturating_add(*kid);
    }
    sum
}

/// The fault at a place of a list.
fn fault_at(list: &[Fault], place: usize) -> Fault
    requires { place < length list.now }
    ensures { result ≡ slice_index_or list.now place result }
{
    list[place]
}

/// Whether a list of faults begins with others, in order.
fn begins_with(list: &[Fault], start: &[Fault]) -> bool
    ensures { IsTrue result ↔ ((rest : List Parts) × (list.now ≡ start.now ++ rest)) }
{
    if list.len() < start.len() {
        return false;
    }
    are_same(&list[..start.len()], start)
}

/// Whether two lists of faults are the same, in order.
fn are_same(one: &[Fault], other: &[Fault]) -> bool
    ensures { IsTrue result ↔ (one.now ≡ other.now) }
{
    if one.len() != other.len() {
        return false;
    }
    'faults: for (i, fault) in one.iter().enumerate() {
        if !is_same(fault, &other[i]) {
            return false;
        }
    }
    true
}

/// Whether two faults are the same.
fn is_same(one: &Fault, other: &Fault) -> bool
    ensures { IsTrue result ↔ (one.now ≡ other.now) }
{
    one == other
}
