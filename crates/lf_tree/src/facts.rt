//! What holds of every tree: calls whose contracts are the laws.

ghost use Rattle.std.specs.Prelude.{◌≡◌, true, List, Ok};
ghost use Rattle.std.specs.List.{list_all};
ghost use Rattle.lf_tree.specs.declared.tree.Tree.{Tree};
ghost use Rattle.lf_tree.specs.FirstFaults.{IsJson};
ghost use Rattle.lf_tree.specs.Preorder.{AreRows};
ghost use Rattle.lf_tree.specs.Reading.{tree_in};
ghost use Rattle.lf_tree.specs.Rows.{Seen, rows_of};
ghost use Rattle.lf_tree.specs.Texts.{IsInRange, tree_text};
ghost use Rattle.lf_tree.specs.Trees.{IsTree, is_answer, is_fault, is_node};
ghost use Rattle.lf_tree.specs.Values.{tree_value};

use crate::{Node, Tree};
use lf_faults::{Fault, FaultSet};

/// The text of each tree in range is JSON that stands for the tree's value, and what is read of that value is the tree.
pub fn texts_are_json()
    ensures json { (t : Tree) → IsTree t → IsInRange t → IsJson (tree_text t) (tree_value t) }
    ensures read_back { (t : Tree) → IsTree t → IsInRange t → tree_in (tree_value t) ≡ Ok t }
{}

/// A tree has one list of rows alone, in which the root is first and each kid has the row that is its own.
pub fn rows_are_one()
    ensures { (t : Tree) (rows : List Seen) → AreRows t rows → rows ≡ rows_of t }
{}

/// Each tree that the code holds has faults, reaches and an answer as their types keep them.
pub fn types_are_kept(tree: &Tree)
    ensures { IsTree tree.now }
{
    answer_is_kept(&tree.answer);
    node_is_kept(&tree.root);
}

/// An answer is a set of faults.
fn answer_is_kept(answer: &Option<FaultSet>)
    ensures { is_answer answer.now ≡ true }
{
    if let Some(faults) = answer {
        let items = faults.items();
        faults_are_kept(items);
    }
}

/// Each fault is one.
fn faults_are_kept(faults: &[Fault])
    ensures { list_all is_fault faults.now ≡ true }
{
    'faults: for fault in faults {
        let _parts = fault.parts();
    }
}

/// Each part of a node is one.
#[cycle(kept)]
fn node_is_kept(node: &Node)
    ensures { is_node node.now ≡ true }
{
    match node {
        Node::Misses | Node::Reaches => {}
        Node::Branch { reach, edges, kids } => {
            let _count = reach.len();
            faults_are_kept(edges.as_slice());
            nodes_are_kept(kids.as_slice());
        }
    }
}

/// Each part of each node is one.
#[cycle(kept)]
fn nodes_are_kept(nodes: &[Node])
    ensures { list_all is_node nodes.now ≡ true }
{
    'nodes: for node in nodes {
        node_is_kept(node);
    }
}
