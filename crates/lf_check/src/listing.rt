//! How the nodes of a tree are listed, and what is read of one by the rows of the branches above it.

ghost use Rattle.std.specs.Prelude.{◌≡◌, ◌↔◌, ℕ, ◌<◌, ◌++◌, List, IsTrue, length, map, take, vec_len, slice_get, IfOk, IfSome, OnOk, Some};
ghost use Rattle.lf_check.specs.Rows.{ArePlaces, AreSets, IsSetAt, StandsAt, edges_of, ways_of};
ghost use Rattle.lf_certificate.specs.Places.{Place};
ghost use Rattle.lf_tree.specs.Rows.{Seen, rows_of, seen};

use crate::places::Places;
use lf_cone::MOST_EDGES;
use lf_faults::{Fault, FaultSet};
use lf_tree::{Node, Row, Tree, rows};
use std::alloc::{AllocError, Global};

/// All nodes of a tree, each with its set.
pub(crate) fn places_of(alloc: Global, tree: &Tree) -> Result<Places<'_>, AllocError>
    ensures places { IfOk result ArePlaces }
    ensures tree { IfOk result (λ places. places.tree.now ≡ tree.now) }
{
    let rows = rows(alloc, tree)?;
    let sets = sets_of(alloc, tree, rows.as_slice())?;
    Ok(Places { tree, rows, sets })
}

/// The set of each node.
fn sets_of(
    alloc: Global,
    tree: &Tree,
    rows: &[Row<'_>],
) -> Result<Vec<Option<FaultSet>>, AllocError>
    requires { map seen rows.now ≡ rows_of tree.now }
    ensures count { IfOk result (λ sets. length sets.items ≡ length rows.now) }
    ensures sets { IfOk result (λ sets. AreSets tree.now sets.items) }
{
    let mut sets = Vec::with_capacity(alloc, rows.len())?;
    for _row in rows {
        let set = next_set(tree, rows, sets.as_slice());
        sets.push(set)?;
    }
    Ok(sets)
}

/// The set of the first node that has none so far: that of its branch with the edge that leads to it. None where the branch
/// can't be right.
fn next_set(tree: &Tree, rows: &[Row<'_>], sets: &[Option<FaultSet>]) -> Option<FaultSet>
    requires rows { map seen rows.now ≡ rows_of tree.now }
    requires more { length sets.now < length rows.now }
    requires sets { AreSets tree.now sets.now }
    ensures { IsSetAt tree.now (length sets.now) result }
{
    let at = sets.len();
    let Some(above) = above(tree, rows, at) else {
        return Some(FaultSet::empty());
    };
    let set = sets[above]?;
    let branch = rows[above].node;
    if is_crowded(branch) {
        return None;
    }
    let edge = edge_at(branch, rows[at].kid)?;
    set.insert(edge)
}

/// Whether a node has more edges than any branch that is right.
fn is_crowded(node: &Node) -> bool
    ensures { IsTrue result ↔ (3840 < length (edges_of node.now)) }
{
    MOST_EDGES < edges(node).len()
}

/// The place in the list of the branch whose kid the node at a place is. None at the root.
pub(crate) fn above(tree: &Tree, rows: &[Row<'_>], at: usize) -> Option<usize>
    requires rows { map seen rows.now ≡ rows_of tree.now }
    requires at { at < length rows.now }
    ensures parent { (r : Seen) → slice_get (rows_of tree.now) at ≡ Some r → result ≡ r.parent }
    ensures before { IfSome result (λ above. above < at) }
{
    rows[at].parent
}

/// The edge that leads from a node to its kid at a place.
fn edge_at(node: &Node, kid: usize) -> Option<Fault>
    ensures { result ≡ slice_get (edges_of node.now) kid }
{
    edges(node).get(kid).copied()
}

/// The edges before a place.
pub(crate) fn edges_before(node: &Node, kid: usize) -> &[Fault]
    ensures { result.now ≡ take kid (edges_of node.now) }
{
    let edges = edges(node);
    if edges.len() <= kid {
        return edges;
    }
    &edges[..kid]
}

/// The edges of a node. A leaf has none.
fn edges(node: &Node) -> &[Fault]
    ensures { result.now ≡ edges_of node.now }
{
    match node {
        Node::Misses => &[],
        Node::Reaches => &[],
        Node::Branch { edges, .. } => edges.as_slice(),
    }
}

/// Puts what is excluded at a node: the edges before each that leads to it, from the root down.
pub(crate) fn put_excluded(
    places: &Places<'_>,
    at: usize,
    excluded: &mut Vec<Fault>,
) -> Result<(), AllocError>
    requires places { ArePlaces places.now }
    requires at { at < vec_len places.now.rows }
    ensures { OnOk result ((way : List ℕ) (p : Place) → StandsAt places.now.tree.now at way p →
        excluded.new.items ≡ excluded.old.items ++ p.excluded) }
{
    let rows = places.rows.as_slice();
    if let Some(above) = above(places.tree, rows, at) {
        put_excluded(places, above, excluded)?;
        excluded.extend_from_slice(edges_before(rows[above].node, rows[at].kid))?;
    }
    Ok(())
}

/// Puts the way from the root to a node.
pub(crate) fn put_way(
    places: &Places<'_>,
    at: usize,
    way: &mut Vec<usize>,
) -> Result<(), AllocError>
    requires places { ArePlaces places.now }
    requires at { at < vec_len places.now.rows }
    ensures { OnOk result ((whole : List ℕ) → slice_get (ways_of places.now.tree.now) at ≡ Some whole →
        way.new.items ≡ way.old.items ++ whole) }
{
    let rows = places.rows.as_slice();
    if let Some(above) = above(places.tree, rows, at) {
        put_way(places, above, way)?;
        way.push(rows[at].kid)?;
    }
    Ok(())
}
