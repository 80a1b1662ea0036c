//! Lists with one change, and copies of nodes.

use lf_faults::{Fault, Parts};
use lf_outcome::Reach;
use lf_tree::{Edges, Kids, Node};
use std::alloc::{AllocError, Global};
use std::mem::swap;

/// What is done to a list, at one of its places.
#[derive(Clone, Copy)]
pub(crate) enum Edit {
    /// Nothing.
    Kept,
    /// The item is dropped.
    Dropped,
    /// The item stands twice.
    Doubled,
    /// The item and the next change places.
    Swapped,
    /// The item stands last.
    Moved,
    /// Another stands in its place.
    Exchanged,
}

/// Which item of a list of so many stands at a place once the edit is made at `at`.
fn before(edit: Edit, count: usize, at: usize, place: usize) -> usize {
    let next = place.saturating_add(1);
    match edit {
        Edit::Dropped if at <= place => next,
        Edit::Doubled if at < place => place.saturating_sub(1),
        Edit::Swapped if place == at && next < count => next,
        Edit::Swapped if place == at.saturating_add(1) && place < count => at,
        Edit::Moved if next == count => at,
        Edit::Moved if at <= place && next < count => next,
        _ => place,
    }
}

/// Another fault of the same nodes and step.
fn other_fault(fault: &Fault) -> Option<Fault> {
    match fault.parts() {
        Parts::Omit { from, to, step } => Fault::omit(to, from, step),
        Parts::Crash { node, step } => Fault::pause(node, step),
        Parts::Pause { node, step } => Fault::crash(node, step),
    }
}

/// The faults after an edit.
fn edited_edges(
    alloc: Global,
    edges: &[Fault],
    edit: Edit,
    at: usize,
) -> Result<Vec<Fault>, AllocError> {
    let mut edited = Vec::new(alloc);
    for place in 0..edges.len().saturating_add(1) {
        if let Some(edge) = edges.get(before(edit, edges.len(), at, place)) {
            edited.push(*edge)?;
        }
    }
    if let Edit::Exchanged = edit
        && let Some(edge) = edited.get_mut(at)
    {
        *edge = other_fault(edge).unwrap_or(*edge);
    }
    Ok(edited)
}

/// Copies of the nodes after an edit.
fn edited_kids(
    alloc: Global,
    kids: &[Node],
    edit: Edit,
    at: usize,
) -> Result<Vec<Node>, AllocError> {
    let mut edited = Vec::new(alloc);
    for place in 0..kids.len().saturating_add(1) {
        if let Some(kid) = kids.get(before(edit, kids.len(), at, place)) {
            edited.push(copied(alloc, kid)?)?;
        }
    }
    Ok(edited)
}

/// What a branch is made of.
#[derive(Drop)]
pub(crate) struct BranchParts<'a> {
    pub(crate) reach: Reach,
    pub(crate) edges: &'a [Fault],
    pub(crate) kids: &'a [Node],
}

/// A branch of these parts after an edit of its edges and one of its kids.
pub(crate) fn branch(
    alloc: Global,
    parts: &BranchParts<'_>,
    edits: (Edit, Edit),
    at: usize,
) -> Result<Node, AllocError> {
    let edges = Edges::from_vec(edited_edges(alloc, parts.edges, edits.0, at)?);
    let kids = Kids::from_vec(edited_kids(alloc, parts.kids, edits.1, at)?);
    let reach = parts.reach;
    Ok(Node::Branch { reach, edges, kids })
}

/// A copy of a node, with all beneath it.
#[cycle(copied)]
fn copied(alloc: Global, node: &Node) -> Result<Node, AllocError> {
    match node {
        Node::Misses => Ok(Node::Misses),
        Node::Reaches => Ok(Node::Reaches),
        Node::Branch { reach, edges, kids } => {
            let kids = Kids::from_vec(copied_kids(alloc, kids.as_slice())?);
            let edges = Edges::from_vec(edges.as_slice().to_vec(alloc)?);
            Ok(Node::Branch {
                reach: *reach,
                edges,
                kids,
            })
        }
    }
}

/// Copies of the nodes.
#[cycle(copied)]
fn copied_kids(alloc: Global, kids: &[Node]) -> Result<Vec<Node>, AllocError> {
    let mut copies = Vec::new(alloc);
    'kids: for kid in kids {
        copies.push(copied(alloc, kid)?)?;
    }
    Ok(copies)
}

/// Exchanges the node at a place of the order of rows with another. `met` counts the nodes met before.
#[cycle(exchanged)]
pub(crate) fn exchange(node: &mut Node, met: &mut u64, place: u64, other: &mut Node) {
    let is_here = *met == place;
    *met = met.saturating_add(1);
    if is_here {
        swap(node, other);
    } else if let Node::Branch { kids, .. } = node {
        exchange_beneath(kids.items.as_mut_slice(), met, place, other);
    }
}

/// The same of nodes, one after another.
#[cycle(exchanged)]
fn exchange_beneath(kids: &mut [Node], met: &mut u64, place: u64, other: &mut Node) {
    'kids: for kid in kids.iter_mut() {
        exchange(kid, met, place, other);
    }
}
