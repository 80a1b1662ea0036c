//! The nodes of a tree, one after another.

ghost use Rattle.std.specs.Prelude.{◌≡◌, ◌<◌, ◌++◌, OnOk, IfOk, map, vec_len};
ghost use Rattle.lf_tree.specs.Preorder.{AreHung, AreRows};
ghost use Rattle.lf_tree.specs.Rows.{rows_of, beneath, preorder, seen};

use crate::{Node, Tree};
use std::alloc::{AllocError, Global};

/// A node of a tree, and where it stands.
#[derive(Debug, Clone, Copy)]
pub struct Row<'a> {
    /// The place in the list of the row of the branch whose kid the node is. None for the root.
    pub parent: Option<usize>,
    /// The place of the node among its siblings, from 0. 0 for the root.
    pub kid: usize,
    /// How many branches stand above the node.
    pub depth: usize,
    /// The node.
    pub node: &'a Node,
}

/// All nodes of a tree, one row for each: the root first, and then each kid in order, with all that is beneath it.
///
/// The root has no parent. Each later row names an earlier one as its parent: that of the branch whose kid its node is.
pub fn rows(alloc: Global, tree: &Tree) -> Result<Vec<Row<'_>>, AllocError>
    ensures rows { IfOk result (λ rows. map seen rows.items ≡ rows_of tree.now) }
    ensures preorder { IfOk result (λ rows. map (λ row. row.node.now) rows.items ≡ preorder tree.now.root) }
    ensures hung { IfOk result (λ rows. AreHung (map seen rows.items)) }
    ensures each { IfOk result (λ rows. AreRows tree.now (map seen rows.items)) }
{
    let mut rows = Vec::new(alloc);
    rows.push(Row {
        parent: None,
        kid: 0,
        depth: 0,
        node: &tree.root,
    })?;
    put_beneath(&mut rows, &tree.root, 0, 0)?;
    Ok(rows)
}

/// Puts the nodes beneath a node whose row stands at `place`, with `depth` branches above it.
fn put_beneath<'a>(
    rows: &mut Vec<Row<'a>>,
    node: &'a Node,
    place: usize,
    depth: usize,
) -> Result<(), AllocError>
    requires { depth < vec_len rows.old }
    ensures { OnOk result (map seen rows.new.items ≡ map seen rows.old.items ++ beneath node.now place depth (vec_len rows.old)) }
{
    match node {
        Node::Misses => Ok(()),
        Node::Reaches => Ok(()),
        Node::Branch { kids, .. } => {
            'kids: for (i, kid) in kids.as_slice().iter().enumerate() {
                let next = rows.len();
                rows.push(Row {
                    parent: Some(place),
                    kid: i,
                    depth: depth + 1,
                    node: kid,
                })?;
                put_beneath(rows, kid, next, depth + 1)?;
            }
            Ok(())
        }
    }
}
