//! Which format a tree's text has.

ghost use Rattle.std.specs.Prelude.{◌≡◌};
ghost use Rattle.std.specs.List.{list_any};
ghost use Rattle.lf_tree.specs.Texts.{answer_faults, format_of, has_pause, is_pause};

use crate::{Node, Tree};
use lf_faults::{Fault, Parts};

/// The format of the tree's text: 2 where a fault of the tree is a pause, else 1.
pub(crate) fn format_number(tree: &Tree) -> u32
    ensures { result ≡ format_of tree.now }
{
    if answer_has_pause(tree) || node_has_pause(&tree.root) {
        2
    } else {
        1
    }
}

/// Whether a fault of the tree's answer is a pause.
fn answer_has_pause(tree: &Tree) -> bool
    ensures { result ≡ list_any is_pause (answer_faults tree.now.answer) }
{
    match &tree.answer {
        Some(faults) => some_is_pause(faults.items()),
        None => false,
    }
}

/// Whether an edge in the node is a pause.
#[cycle(pause)]
fn node_has_pause(node: &Node) -> bool
    ensures { result ≡ has_pause node.now }
{
    match node {
        Node::Branch { edges, kids, .. } => {
            some_is_pause(edges.as_slice()) || some_has_pause(kids.as_slice())
        }
        Node::Misses | Node::Reaches => false,
    }
}

/// Whether an edge in one of the nodes is a pause.
#[cycle(pause)]
fn some_has_pause(nodes: &[Node]) -> bool
    ensures { result ≡ list_any has_pause nodes.now }
{
    'nodes: for node in nodes {
        if node_has_pause(node) {
            return true;
        }
    }
    false
}

/// Whether one of the faults is a pause.
fn some_is_pause(faults: &[Fault]) -> bool
    ensures { result ≡ list_any is_pause faults.now }
{
    faults.iter().any(|fault| match fault.parts() {
        Parts::Pause { .. } => true,
        Parts::Omit { .. } | Parts::Crash { .. } => false,
    })
}
