//! The text of a certificate as long as may be, and one that is longer by a byte.

use crate::rows::agrees;
use crate::same::are_same;
use lf_faults::Fault;
use lf_outcome::Reach;
use lf_tree::{Edges, Kids, Node, Tree, TreeFault, read_tree, text_length, to_text};
use std::alloc::{AllocError, Global};

/// A tree of one branch with so many edges `omit 0>1 @10`, this reach and no kids.
fn wide(alloc: Global, count: u32, reach: Reach) -> Result<Tree, AllocError> {
    let mut edges = Vec::new(alloc);
    if let Some(edge) = Fault::omit(0, 1, 10) {
        for _ in 0..count {
            edges.push(edge)?;
        }
    }
    Ok(Tree {
        answer: None,
        root: Node::Branch {
            reach,
            edges: Edges::from_vec(edges),
            kids: Kids::from_vec(Vec::new(alloc)),
        },
    })
}

/// Whether the text is that of the tree.
fn is_read(alloc: Global, text: &[u8], tree: &Tree) -> bool {
    match read_tree(alloc, text) {
        Ok(found) => are_same(&found, tree),
        Err(_) => false,
    }
}

/// Whether the tree's text has so many bytes and is read back, or is refused where it has too many.
fn fits(alloc: Global, tree: &Tree, length: u32) -> bool {
    let is_long = text_length(tree) == length;
    match to_text(alloc, tree) {
        Ok(text) => {
            is_long
                && length == 16_777_216
                && text.len() == 16_777_216
                && is_read(alloc, text.as_slice(), tree)
        }
        Err(fault) => is_long && length == 16_777_217 && fault == TreeFault::TooLong,
    }
}

/// Whether a tree of a reach of these numbers fits, or is refused, with so many bytes.
fn wide_fits(alloc: Global, steps: &[u32], length: u32) -> bool {
    let Some(reach) = Reach::new(steps) else {
        return false;
    };
    match wide(alloc, 1_118_476, reach) {
        Ok(tree) => fits(alloc, &tree, length),
        Err(_) => false,
    }
}

#[test]
fn the_longest_text_reads_back_and_a_byte_more_is_refused(rt: HostRuntime) {
    let reads_back = wide_fits(rt.alloc(), &[10, 0, 0, 0, 0], 16_777_216);
    let is_refused = wide_fits(rt.alloc(), &[10, 10, 0, 0, 0], 16_777_217);
    agrees(&rt, reads_back && is_refused, "the longest text");
}
