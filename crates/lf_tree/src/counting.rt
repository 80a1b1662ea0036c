//! How many nodes a tree has.

ghost use Rattle.std.specs.Prelude.{◌≡◌, map, min, sum};
ghost use Rattle.lf_tree.specs.Counts.{nodes_in, nodes_of};

use crate::{Node, Tree};

/// How many nodes the tree has, its root among them: 2^64 - 1 where they are more. It takes no memory.
pub fn count(tree: &Tree) -> u64
    ensures { result ≡ min (nodes_of tree.now) 18446744073709551615 }
{
    count_node(&tree.root)
}

/// How many nodes there are from a node on.
fn count_node(node: &Node) -> u64
    ensures { result ≡ min (nodes_in node.now) 18446744073709551615 }
{
    match node {
        Node::Misses | Node::Reaches => 1,
        Node::Branch { kids, .. } => {
            let mut count: u64 = 1;
            'kids: for kid in kids.as_slice() {
                count = count.saturating_add(count_node(kid));
            }
            count
        }
    }
}
