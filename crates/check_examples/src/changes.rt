//! Trees with one change, at every place and of every kind, and whether the two checkers agree on them.
//!
//! What is found has a bit for the number of each reason that was met, the lowest where a tree was accepted, and a bit of no
//! reason where the checkers differ.

use crate::lists::{BranchParts, Edit, branch, exchange};
use crate::plain::{Case, NO_REASON, looked};
use lf_check::{Verdict, check};
use lf_faults::{Fault, FaultSet, FaultSpec};
use lf_outcome::Reach;
use lf_tree::{Node, Tree};
use std::alloc::AllocError;

/// What is found where the checkers differ.
pub(crate) const DIFFER: u32 = 1 << NO_REASON;

/// What both checkers say of the tree.
pub(crate) fn judged(case: &Case<'_>, tree: &Tree) -> u32 {
    let look = looked(case, tree);
    let is_same = match check(case.alloc, case.scenario, tree) {
        Ok(Verdict::Yes) => look.reason == 0,
        Ok(Verdict::No { reason, path }) => {
            reason.number() == look.reason && path.as_slice() == look.path.as_slice()
        }
        Err(_) => false,
    };
    if is_same {
        1u32.wrapping_shl(look.reason)
    } else {
        DIFFER
    }
}

/// What both say of the tree with another answer.
fn with_answer(case: &Case<'_>, tree: &mut Tree, answer: Option<FaultSet>) -> u32 {
    let kept = tree.answer;
    tree.answer = answer;
    let found = judged(case, tree);
    tree.answer = kept;
    found
}

/// What both say of the tree with a set as its answer, and with the set and each fault more.
fn with_wider(case: &Case<'_>, tree: &mut Tree, set: FaultSet) -> u32 {
    let mut met = with_answer(case, tree, Some(set));
    for fault in case.faults {
        if let Some(wider) = set.insert(*fault) {
            met |= with_answer(case, tree, Some(wider));
        }
    }
    met
}

/// The set without one of its faults.
fn without(set: &FaultSet, fault: &Fault) -> FaultSet {
    let mut smaller = FaultSet::empty();
    for kept in set.items() {
        if kept != fault {
            smaller = smaller.insert(*kept).unwrap_or(smaller);
        }
    }
    smaller
}

/// What both say of the tree with other answers: none, the empty set, each set of one fault, the sets with a fault more or
/// fewer, and the sets of leaves that miss.
pub(crate) fn with_answers(case: &Case<'_>, tree: &mut Tree) -> u32 {
    let mut met = with_answer(case, tree, None) | with_wider(case, tree, FaultSet::empty());
    if let Some(set) = tree.answer {
        met |= with_wider(case, tree, set);
        for fault in set.items() {
            met |= with_answer(case, tree, Some(without(&set, fault)));
        }
    }
    for set in looked(case, tree).missing {
        met |= with_answer(case, tree, Some(set));
    }
    met
}

/// What both say of the tree with another node at a place of the order of rows, with its answer and with none.
fn with_node(case: &Case<'_>, tree: &mut Tree, place: u64, node: Result<Node, AllocError>) -> u32 {
    let Ok(mut other) = node else {
        return DIFFER;
    };
    exchange(&mut tree.root, &mut 0, place, &mut other);
    judged(case, tree) | with_answer(case, tree, None)
}

/// What both say of the tree with a branch of this reach at the place. No bit where there is no such reach.
fn with_reach(
    case: &Case<'_>,
    tree: &mut Tree,
    place: u64,
    reach: Option<Reach>,
    edges: &[Fault],
    kids: &[Node],
) -> u32 {
    let Some(reach) = reach else {
        return 0;
    };
    let parts = BranchParts { reach, edges, kids };
    let node = branch(case.alloc, &parts, (Edit::Kept, Edit::Kept), 0);
    with_node(case, tree, place, node)
}

/// The reach of so many nodes with another step for one of them. None where that is none.
fn other_reach(reach: &Reach, count: usize, node: u32, step: u32) -> Option<Reach> {
    let mut steps = [0; 9];
    for (i, place) in (0..9).zip(steps.iter_mut()) {
        *place = if i == node { step } else { reach.at(i) };
    }
    Reach::new(steps.get(..count)?)
}

/// What both say of the tree with each change of the reach of the branch at the place: a number less or more, and each step one
/// higher and one lower.
fn with_reaches(case: &Case<'_>, tree: &mut Tree, place: u64, parts: &BranchParts<'_>) -> u32 {
    let (reach, edges, kids) = (parts.reach, parts.edges, parts.kids);
    let count = reach.len();
    let nodes = count as u32;
    let shorter = other_reach(&reach, count.saturating_sub(1), nodes, 0);
    let longer = other_reach(&reach, count.saturating_add(1), nodes, reach.at(0));
    let mut met = with_reach(case, tree, place, shorter, edges, kids)
        | with_reach(case, tree, place, longer, edges, kids);
    for node in 0..nodes {
        let step = reach.at(node);
        let higher = other_reach(&reach, count, node, step + 1);
        let lower = other_reach(&reach, count, node, step.saturating_sub(1));
        met |= with_reach(case, tree, place, higher, edges, kids)
            | with_reach(case, tree, place, lower, edges, kids);
    }
    met
}

/// What both say of the tree with these edits of the edges and the kids of the branch at the place.
fn with_edits(
    case: &Case<'_>,
    tree: &mut Tree,
    place: u64,
    parts: &BranchParts<'_>,
    edits: (Edit, Edit),
    at: usize,
) -> u32 {
    let node = branch(case.alloc, parts, edits, at);
    with_node(case, tree, place, node)
}

/// What both say of the tree with each change of the branch at the place: of its reach, of one of its edges, of one of its
/// kids, and of both.
fn with_branches(case: &Case<'_>, tree: &mut Tree, place: u64, parts: &BranchParts<'_>) -> u32 {
    let mut met = with_reaches(case, tree, place, parts);
    for at in 0..parts.edges.len() {
        met |= with_edits(case, tree, place, parts, (Edit::Exchanged, Edit::Kept), at);
        for edit in [Edit::Dropped, Edit::Doubled, Edit::Swapped, Edit::Moved] {
            met |= with_edits(case, tree, place, parts, (edit, Edit::Kept), at)
                | with_edits(case, tree, place, parts, (Edit::Kept, edit), at)
                | with_edits(case, tree, place, parts, (edit, edit), at);
        }
    }
    met
}

/// The reach of a scenario's nodes that goes up to the last step.
fn whole(spec: &FaultSpec) -> Option<Reach> {
    let steps = [spec.horizon(); 8];
    Reach::new(steps.get(..spec.nodes() as usize)?)
}

/// What both say of the tree with each change at a place of the order of rows: a leaf of either kind, a branch without
/// edges, and each change of a branch. The tree is the same afterwards.
pub(crate) fn with_changes(case: &Case<'_>, tree: &mut Tree, place: u64) -> u32 {
    let mut node = Node::Misses;
    exchange(&mut tree.root, &mut 0, place, &mut node);
    let bare = whole(&case.scenario.setting().spec);
    let mut met = with_node(case, tree, place, Ok(Node::Misses))
        | with_node(case, tree, place, Ok(Node::Reaches))
        | with_reach(case, tree, place, bare, &[], &[]);
    if let Node::Branch { reach, edges, kids } = &node {
        let parts = BranchParts {
            reach: *reach,
            edges: edges.as_slice(),
            kids: kids.as_slice(),
        };
        met |= with_branches(case, tree, place, &parts);
    }
    exchange(&mut tree.root, &mut 0, place, &mut node);
    met
}
