//! A plain checker: what is wrong first with a tree, read off the order of reasons, one place after another.

use crate::required::{is_closed, wrong_edges};
use lf_faults::{Fault, FaultSet, admits};
use lf_outcome::{Reach, Scenario, holds, holds_within};
use lf_sim::run;
use lf_tree::{Node, Tree};
use std::alloc::Global;

/// A number that is of no reason. It stands where memory has run out.
pub(crate) const NO_REASON: u32 = 12;

/// A scenario whose trees are judged.
#[derive(Drop)]
pub(crate) struct Case<'a> {
    pub(crate) alloc: Global,
    pub(crate) scenario: &'a Scenario,
    /// All faults of the scenario's nodes and steps.
    pub(crate) faults: &'a [Fault],
}

/// A look at a tree: where it stands, and what it has met.
#[derive(Drop)]
pub(crate) struct Look {
    /// The number of the reason for which the tree isn't accepted, or 0 where it is.
    pub(crate) reason: u32,
    /// The way from the root, to what is wrong first where the look has ended.
    pub(crate) path: Vec<usize>,
    /// The sets of the leaves met that say, rightly, that they miss.
    pub(crate) missing: Vec<FaultSet>,
    /// What is excluded here.
    excluded: Vec<Fault>,
    /// How many branches are to stand above each leaf.
    last: usize,
}

/// How many branches are to stand above each leaf of the tree.
fn last_depth(scenario: &Scenario, tree: &Tree) -> usize {
    match &tree.answer {
        Some(answer) => answer.len(),
        None => scenario.setting().spec.budget() as usize,
    }
}

/// The number of the reason for which a leaf isn't right, or 0.
fn wrong_leaf(case: &Case<'_>, look: &mut Look, set: FaultSet, misses: bool) -> u32 {
    if look.path.len() != look.last {
        return 9;
    }
    let setting = case.scenario.setting();
    let reaches = match run(case.alloc, setting, &set) {
        Ok(played) => holds(setting, case.scenario.formula(), &played),
        Err(_) => return NO_REASON,
    };
    if !misses && !reaches {
        return 2;
    }
    if misses && reaches {
        return 3;
    }
    if misses && look.missing.push(set).is_err() {
        return NO_REASON;
    }
    0
}

/// Whether the reach has a number for each node, none past the last step.
fn has_form(scenario: &Scenario, reach: &Reach) -> bool {
    let spec = scenario.setting().spec;
    for node in 0..8 {
        if spec.horizon() < reach.at(node) {
            return false;
        }
    }
    reach.len() == spec.nodes() as usize
}

/// The number of the reason for which a branch isn't right, whatever stands beneath it, or 0.
fn wrong_branch(
    case: &Case<'_>,
    look: &Look,
    set: FaultSet,
    reach: &Reach,
    edges: &[Fault],
    kids: usize,
) -> u32 {
    if look.path.len() >= look.last {
        return 9;
    }
    let setting = case.scenario.setting();
    let formula = case.scenario.formula();
    let Ok(played) = run(case.alloc, setting, &set) else {
        return NO_REASON;
    };
    let excluded = look.excluded.as_slice();
    if !holds(setting, formula, &played) {
        11
    } else if !has_form(case.scenario, reach) || !holds_within(setting, formula, &played, reach) {
        4
    } else if !is_closed(setting, &played, reach, case.faults) {
        5
    } else {
        match wrong_edges(setting, &played, reach, excluded, case.faults, edges) {
            0 if kids != edges.len() => 8,
            reason => reason,
        }
    }
}

/// The number of the reason for which a node of a set isn't right, or of the first place beneath it that isn't, or 0. Where it isn't 0
/// the look stands there.
#[cycle(wrong)]
fn wrong_from(case: &Case<'_>, look: &mut Look, node: &Node, set: FaultSet) -> u32 {
    match node {
        Node::Misses => wrong_leaf(case, look, set, true),
        Node::Reaches => wrong_leaf(case, look, set, false),
        Node::Branch { reach, edges, kids } => {
            let (edges, kids) = (edges.as_slice(), kids.as_slice());
            match wrong_branch(case, look, set, reach, edges, kids.len()) {
                0 => wrong_beneath(case, look, edges, kids, set),
                reason => reason,
            }
        }
    }
}

/// The same of the kids of a branch of a set, one after another.
#[cycle(wrong)]
fn wrong_beneath(
    case: &Case<'_>,
    look: &mut Look,
    edges: &[Fault],
    kids: &[Node],
    set: FaultSet,
) -> u32 {
    let before = look.excluded.len();
    'kids: for (i, kid) in kids.iter().enumerate() {
        let Some(edge) = edges.get(i).copied() else {
            return 8;
        };
        if look.path.push(i).is_err() {
            return NO_REASON;
        }
        let reason = wrong_from(case, look, kid, set.insert(edge).unwrap_or(set));
        if reason != 0 {
            return reason;
        }
        let _place = look.path.pop();
        if look.excluded.push(edge).is_err() {
            return NO_REASON;
        }
    }
    look.excluded.truncate(before);
    0
}

/// The first of the sets, in the order of sets.
fn first_of(sets: &[FaultSet]) -> Option<FaultSet> {
    let mut first: Option<FaultSet> = None;
    for set in sets {
        first = match first {
            Some(first) if first.is_before(set) => Some(first),
            _ => Some(*set),
        };
    }
    first
}

/// A look at a tree: at its answer first, at its places next, and at its answer again.
pub(crate) fn looked(case: &Case<'_>, tree: &Tree) -> Look {
    let mut look = Look {
        reason: 1,
        path: Vec::new(case.alloc),
        missing: Vec::new(case.alloc),
        excluded: Vec::new(case.alloc),
        last: last_depth(case.scenario, tree),
    };
    if let Some(answer) = &tree.answer
        && !admits(&case.scenario.setting().spec, answer)
    {
        return look;
    }
    look.reason = wrong_from(case, &mut look, &tree.root, FaultSet::empty());
    if look.reason == 0 && first_of(look.missing.as_slice()) != tree.answer {
        look.reason = 10;
    }
    look
}
