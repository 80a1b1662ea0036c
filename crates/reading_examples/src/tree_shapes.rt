//! Trees of all shapes.

use crate::rows::agrees;
use crate::same::{are_same, depth};
use crate::tree_rows::taken;
use lf_faults::{Fault, FaultSet};
use lf_outcome::Reach;
use lf_tree::{Edges, Kids, Node, Tree, TreeFault, read_tree, to_text};
use std::alloc::{AllocError, Global};

/// The edges of a branch, by how many kids it has and how many nodes are left.
fn edges(alloc: Global, count: u32, left: usize) -> Result<Vec<Fault>, AllocError> {
    let mut edges = Vec::new(alloc);
    if let Some(edge) = Fault::omit(0, 1, count.saturating_add(7))
        && left != 1
    {
        edges.push(edge)?;
    }
    if let Some(edge) = Fault::pause(count, 48)
        && left == 2
    {
        edges.push(edge)?;
    }
    Ok(edges)
}

/// A branch of the last nodes, at most two, which are taken out. Its edges and its reach go by how many nodes are left.
fn branch(alloc: Global, count: u32, nodes: &mut Vec<Node>) -> Result<Node, AllocError> {
    let left = nodes.len().saturating_sub(count as usize);
    let edges = edges(alloc, count, left)?;
    let mut kids = taken(alloc, nodes, count)?;
    kids.reverse();
    Ok(with_reach(left, edges, kids))
}

/// The branch with one of two reaches.
fn with_reach(left: usize, edges: Vec<Fault>, kids: Vec<Node>) -> Node {
    let reach = if left == 0 {
        Reach::new(&[0, 48])
    } else {
        Reach::new(&[1, 2, 3, 4, 5, 6, 7, 10])
    };
    match reach {
        Some(reach) => Node::Branch {
            reach,
            edges: Edges::from_vec(edges),
            kids: Kids::from_vec(kids),
        },
        None => Node::Misses,
    }
}

/// Puts what a digit stands for on the stack: 0 and 1 a leaf, and 2, 3 and 4 a branch in place of its last none, one or two nodes.
fn put(alloc: Global, nodes: &mut Vec<Node>, digit: u32) -> Result<(), AllocError> {
    let node = match digit {
        0 => Node::Misses,
        1 => Node::Reaches,
        digit => branch(alloc, digit.saturating_sub(2), nodes)?,
    };
    nodes.push(node)?;
    Ok(())
}

/// The tree that a word of so many digits spells, from its last digit on. Each tree whose branches have at most two kids is spelled by
/// a word.
fn spelled(alloc: Global, word: u32, digits: u32) -> Result<Node, AllocError> {
    let mut nodes = Vec::new(alloc);
    let mut rest = word;
    for _ in 0..digits {
        put(alloc, &mut nodes, rest % 5)?;
        rest /= 5;
    }
    Ok(nodes.pop().unwrap_or(Node::Misses))
}

/// An answer: none, the empty set, or a set of two faults, the last a pause.
fn answer(number: u32) -> Option<FaultSet> {
    match number % 3 {
        0 => None,
        1 => Some(FaultSet::empty()),
        _ => FaultSet::empty()
            .insert(Fault::crash(1, 2)?)?
            .insert(Fault::pause(1, 3)?),
    }
}

/// Whether the tree is written and read back, or refused as too deep where more than six branches stand one in the other.
fn reads_back(alloc: Global, tree: &Tree) -> bool {
    let Ok(text) = to_text(alloc, tree) else {
        return false;
    };
    match read_tree(alloc, text.as_slice()) {
        Ok(found) => depth(&tree.root) <= 6 && are_same(&found, tree),
        Err(fault) => depth(&tree.root) > 6 && fault == TreeFault::TooDeep,
    }
}

/// Whether the tree of each word of so many digits reads back.
fn all_read_back(alloc: Global, digits: u32, words: u32) -> bool {
    for word in 0..words {
        let Ok(root) = spelled(alloc, word, digits) else {
            return false;
        };
        let answer = answer(word);
        if !reads_back(alloc, &Tree { answer, root }) {
            return false;
        }
    }
    true
}

#[test]
fn trees_of_all_shapes_read_back(rt: HostRuntime) {
    let read_back = all_read_back(rt.alloc(), 1, 5)
        && all_read_back(rt.alloc(), 2, 25)
        && all_read_back(rt.alloc(), 4, 625)
        && all_read_back(rt.alloc(), 7, 78_125);
    agrees(&rt, read_back, "trees of all shapes");
}
