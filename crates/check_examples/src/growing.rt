//! Trees of small scenarios, grown plainly from the definitions.
//!
//! Nothing is remembered from one depth to the next, and each run takes memory of its own.

use lf_cone::{edges, sharp};
use lf_faults::{Fault, FaultSet};
use lf_outcome::{Scenario, evidence, holds};
use lf_sim::run;
use lf_tree::{Edges, Kids, Node, Tree};
use std::alloc::{AllocError, Global};

/// What is put together while a tree grows.
#[derive(Drop)]
struct Growth {
    /// What is excluded at the node that grows.
    excluded: Vec<Fault>,
    /// The first, in the order of sets, of the sets at the last depth that miss, of those met so far.
    first: Option<FaultSet>,
}

/// The tree of a scenario's search: grown down to no branch, one branch and so on, up to the budget, until a set at the
/// last depth misses. Its answer is the first of these in the order of sets, or none where no set within the budget misses.
///
/// The error is that memory has run out.
pub(crate) fn grown(alloc: Global, scenario: &Scenario) -> Result<Tree, AllocError> {
    let budget = scenario.setting().spec.budget();
    for last in 0..budget {
        let tree = grown_to(alloc, scenario, last)?;
        if tree.answer.is_some() {
            return Ok(tree);
        }
    }
    grown_to(alloc, scenario, budget)
}

/// The tree in which so many branches stand above each leaf. Its answer is the first of the leaves' sets that miss.
fn grown_to(alloc: Global, scenario: &Scenario, last: u32) -> Result<Tree, AllocError> {
    let mut growth = Growth {
        excluded: Vec::new(alloc),
        first: None,
    };
    let root = node(alloc, scenario, &mut growth, FaultSet::empty(), last)?;
    Ok(Tree {
        answer: growth.first,
        root,
    })
}

/// The node of a set, with `room` branches from it on. A set that misses above the last depth is a leaf.
#[cycle(grow)]
fn node(
    alloc: Global,
    scenario: &Scenario,
    growth: &mut Growth,
    set: FaultSet,
    room: u32,
) -> Result<Node, AllocError> {
    if room == 0 {
        return leaf(alloc, scenario, growth, set);
    }
    let setting = scenario.setting();
    let played = run(alloc, setting, &set)?;
    let Some(points) = evidence(alloc, setting, scenario.formula(), &played)? else {
        return Ok(Node::Misses);
    };
    let reach = sharp(setting, &played, points.as_slice());
    let found = edges(alloc, setting, &played, &reach, growth.excluded.as_slice())?;
    let beneath = kids(alloc, scenario, growth, set, found.as_slice(), room - 1)?;
    Ok(Node::Branch {
        reach,
        edges: Edges::from_vec(found),
        kids: Kids::from_vec(beneath),
    })
}

/// A node for each edge of a set, in order, with `room` branches from it on. Beneath it the edges before its own are excluded.
#[cycle(grow)]
fn kids(
    alloc: Global,
    scenario: &Scenario,
    growth: &mut Growth,
    set: FaultSet,
    edges: &[Fault],
    room: u32,
) -> Result<Vec<Node>, AllocError> {
    let before = growth.excluded.len();
    let mut beneath = Vec::new(alloc);
    'edges: for edge in edges {
        let larger = set.insert(*edge).unwrap_or(set);
        beneath.push(node(alloc, scenario, growth, larger, room)?)?;
        growth.excluded.push(*edge)?;
    }
    growth.excluded.truncate(before);
    Ok(beneath)
}

/// The leaf of a set. Where it misses, it may be the first.
fn leaf(
    alloc: Global,
    scenario: &Scenario,
    growth: &mut Growth,
    set: FaultSet,
) -> Result<Node, AllocError> {
    let setting = scenario.setting();
    let played = run(alloc, setting, &set)?;
    if holds(setting, scenario.formula(), &played) {
        return Ok(Node::Reaches);
    }
    growth.first = first_of(growth.first, set);
    Ok(Node::Misses)
}

/// The first of a set and of the one that was the first before, if there was one.
fn first_of(before: Option<FaultSet>, set: FaultSet) -> Option<FaultSet> {
    match before {
        Some(first) if first.is_before(&set) => Some(first),
        _ => Some(set),
    }
}
