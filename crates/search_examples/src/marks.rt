//! A small search by hand.

ghost use Rattle.std.specs.Prelude.{◌≡◌, ℕ, ◌<◌, IsTrue, OnSome};
ghost use Rattle.lf_marks.specs.Marks.{mark_at};
ghost use Rattle.lf_marks.specs.Steps.{IsMarked, IsUnmarked};
ghost use Rattle.lf_marks.specs.Steps as mark;

use crate::texts::agrees;
use lf_faults::Fault;
use lf_list::Listed;
use lf_marks::{Answer, Claimable, Counts, Grown, Marks, Steps};
use lf_outcome::Reach;
use lf_tree::Node;
use std::alloc::Global;
use std::marker::Brand;
use std::sync::ledger::{Blank, Ledger};

/// A branch with two kids.
fn two_kids(alloc: Global) -> Option<Answer> {
    let reach = Reach::new(&[3, 3])?;
    let lost = Fault::omit(0, 1, 1)?;
    let crash = Fault::crash(0, 1)?;
    let Ok(edges) = vec![in alloc; lost, crash] else {
        return None;
    };
    if edges.len() > 65_535 {
        return None;
    }
    match Grown::new(alloc, reach, Listed::from_vec(edges)) {
        Ok(grown) => Some(Answer::Branch(grown)),
        Err(_) => None,
    }
}

/// Whether so many sets are open, claimed, answered, and wait.
fn are(counts: Counts, ready: u64, claimed: u64, answered: u64, waiting: u64) -> bool {
    counts.ready == ready
        && counts.claimed == claimed
        && counts.answered == answered
        && counts.waiting == waiting
}

/// Whether no set is open or claimed.
fn is_done(marks: &Marks) -> bool
    ensures done { IsTrue result → IsUnmarked (mark_at marks.now) mark.Open }
    ensures free { IsTrue result → (t : ℕ) → IsUnmarked (mark_at marks.now) (mark.Claimed t) }
{
    let counts = marks.counts();
    if counts.ready > 0 {
        return false;
    }
    counts.claimed == 0
}

/// Takes an open set, where no other is claimed, and tells its path.
fn take(alloc: Global, marks: &mut Marks, ticket: u64) -> Option<Vec<usize>>
    ensures { OnSome result (IsMarked (mark_at marks.new) (mark.Claimed ticket)) }
{
    take_by::<Brand>(alloc, marks, ticket, Blank::new(1))
}

/// The same, with steps of its own.
fn take_by<L: Ledger>(
    alloc: Global,
    marks: &mut Marks,
    ticket: u64,
    blank: Blank,
) -> Option<Vec<usize>>
    requires name { blank.name ≡ L.name }
    requires parts { blank.parts ≡ L.parts }
    requires some { 0 < blank.parts }
    ensures { OnSome result (IsMarked (mark_at marks.new) (mark.Claimed ticket)) }
{
    if marks.counts().claimed > 0 {
        return None;
    }
    let mut steps = Steps::<L>::new(blank);
    let Ok(Some(Claimable { path, room })) = marks.find_open(Vec::new(alloc), &mut steps) else {
        return None;
    };
    marks.claim(ticket, room, &mut steps);
    Some(path)
}

/// Takes a set and answers it, where no other is claimed, and tells its path.
fn work(alloc: Global, marks: &mut Marks, ticket: u64, answer: Answer) -> Option<Vec<usize>> {
    let path = take(alloc, marks, ticket)?;
    marks.answer(ticket, answer);
    Some(path)
}

/// Lowers the level of a small tree. Tells whether it may be lowered.
fn lower(marks: &mut Marks) -> bool {
    if !is_done(marks) || marks.counts().waiting > 9 || marks.level() > 9 {
        return false;
    }
    marks.go_down();
    true
}

/// Whether a path is that of a kid of the root.
fn is_kid(path: &[usize], kid: usize) -> bool {
    path.len() == 1 && path[0] == kid
}

/// Whether the node of a tree is a branch with two leaves, of which the second alone misses.
fn is_grown(node: &Node) -> bool {
    let Node::Branch { kids, .. } = node else {
        return false;
    };
    let kids = kids.as_slice();
    kids.len() == 2 && matches!(&kids[0], Node::Reaches) && matches!(&kids[1], Node::Misses)
}

/// Whether the root of a new tree is taken and answered, and the tree shows it.
fn answers_root(alloc: Global, marks: &mut Marks, answer: Answer) -> bool {
    let is_open = are(marks.counts(), 1, 0, 0, 0);
    let Some(root) = take(alloc, marks, 1) else {
        return false;
    };
    let is_taken = root.is_empty() && marks.is_claimed_at(1, &[]) && marks.has_claim(1);
    marks.answer(1, answer);
    is_open
        && is_taken
        && are(marks.counts(), 0, 0, 1, 2)
        && marks.branch_at(&[]).is_some()
        && marks.branch_at(&[0]).is_none()
}

/// The same, of a tree of its own.
fn root_is_answered(alloc: Global) -> bool {
    match (Marks::new(alloc), two_kids(alloc)) {
        (Ok(mut marks), Some(answer)) => answers_root(alloc, &mut marks, answer),
        _ => false,
    }
}

#[test]
fn answers_the_root(rt: HostRuntime) {
    agrees(&rt, root_is_answered(rt.alloc()), "the root");
}

/// Whether the set that is taken third is the second kid, which then misses.
fn second_misses(alloc: Global, marks: &mut Marks) -> bool {
    match work(alloc, marks, 3, Answer::Misses) {
        Some(second) => is_kid(second.as_slice(), 1),
        None => false,
    }
}

/// Whether the second kid alone is told to miss.
fn is_missing(marks: &Marks) -> bool {
    match marks.missing() {
        Ok(missing) => missing.len() == 1 && is_kid(missing[0].as_slice(), 1),
        Err(_) => false,
    }
}

/// Whether the root and its kids are taken and answered, and the second kid alone is told to miss.
fn are_answered(alloc: Global, marks: &mut Marks, root: Answer, first: Answer) -> bool {
    work(alloc, marks, 1, root).is_some()
        && lower(marks)
        && work(alloc, marks, 2, first).is_some()
        && second_misses(alloc, marks)
        && is_missing(marks)
}

/// Whether the root and its kids are answered, and the tree of nodes shows it.
fn grows(alloc: Global, marks: Marks, root: Answer, first: Answer) -> bool {
    let mut marks = marks;
    are_answered(alloc, &mut marks, root, first) && is_done(&marks) && is_grown(&marks.into_nodes())
}

/// The same, of a tree of its own.
fn two_levels_are_answered(alloc: Global) -> bool {
    match (Marks::new(alloc), two_kids(alloc), two_kids(alloc)) {
        (Ok(marks), Some(root), Some(first)) => grows(alloc, marks, root, first),
        _ => false,
    }
}

#[test]
fn answers_two_levels(rt: HostRuntime) {
    agrees(&rt, two_levels_are_answered(rt.alloc()), "two levels");
}
