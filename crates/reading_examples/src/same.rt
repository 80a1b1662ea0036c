//! Equality of trees, and how deep they are, written apart from the crate of trees.

use lf_tree::{Node, Tree};

/// Whether two trees are equal.
pub(crate) fn are_same(one: &Tree, other: &Tree) -> bool {
    one.answer == other.answer && same(&one.root, &other.root)
}

/// Whether two nodes are equal, with all beneath them.
#[cycle(same)]
fn same(one: &Node, other: &Node) -> bool {
    match one {
        Node::Misses => matches!(other, Node::Misses),
        Node::Reaches => matches!(other, Node::Reaches),
        Node::Branch { reach, edges, kids } => match other {
            Node::Branch {
                reach: other_reach,
                edges: other_edges,
                kids: other_kids,
            } => {
                reach == other_reach
                    && edges.as_slice() == other_edges.as_slice()
                    && all_same(kids.as_slice(), other_kids.as_slice())
            }
            _ => false,
        },
    }
}

/// Whether two lists of nodes are equal.
#[cycle(same)]
fn all_same(ones: &[Node], others: &[Node]) -> bool {
    if ones.len() != others.len() {
        return false;
    }
    'kids: for (i, kid) in ones.iter().enumerate() {
        if !same(kid, &others[i]) {
            return false;
        }
    }
    true
}

/// How many branches stand one in the other.
pub(crate) fn depth(node: &Node) -> u32 {
    match node {
        Node::Misses | Node::Reaches => 0,
        Node::Branch { kids, .. } => {
            let mut deepest: u32 = 0;
            'kids: for kid in kids.as_slice() {
                deepest = deepest.max(depth(kid));
            }
            deepest.saturating_add(1)
        }
    }
}
