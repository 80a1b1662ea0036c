//! Places in a tree.

use crate::hint::{LONGEST_STEP, Words};
use crate::misspelt::spelling;
use lf_faults::Fault;
use lf_tree::{Node, Tree};

/// A node of a tree, and where it stands.
#[derive(Clone, Copy)]
pub(crate) struct Stand<'a> {
    /// The way to it, and the faults of its set.
    pub place: Words,
    /// How many faults its set has.
    pub depth: usize,
    /// The node.
    pub node: &'a Node,
}

/// What stands at a path, as the places of kids from the root on. None where the tree ends before.
pub(crate) fn at_path<'a>(tree: &'a Tree, path: &[usize]) -> Option<Stand<'a>> {
    if path.is_empty() {
        return Some(Stand {
            place: Words::of("at the root, without faults"),
            depth: 0,
            node: &tree.root,
        });
    }
    let mut stand = Stand {
        place: Words::of(format_args!("at {}: ", path_text(path).as_str())),
        depth: 0,
        node: &tree.root,
    };
    for kid in path {
        stand = below(stand, *kid)?;
    }
    Some(stand)
}

/// A path as the reply to a check has it.
fn path_text(path: &[usize]) -> Words {
    let mut text = Words::of("");
    let mut dot = "";
    for kid in path {
        text = text.and(format_args!("{dot}{kid}"), LONGEST_STEP);
        dot = ".";
    }
    text
}

/// What stands at a kid of a branch. None where there is none.
fn below<'a>(stand: Stand<'a>, kid: usize) -> Option<Stand<'a>> {
    let Node::Branch { edges, kids, .. } = stand.node else {
        return None;
    };
    let edge = edges.as_slice().get(kid)?;
    let comma = if stand.depth == 0 { "" } else { "," };
    Some(Stand {
        place: with_fault(stand.place, comma, edge),
        depth: stand.depth.saturating_add(1),
        node: kids.as_slice().get(kid)?,
    })
}

/// The texts of faults with commas between them.
pub(crate) fn faults_text(faults: &[Fault]) -> Words {
    let mut text = Words::of("");
    let mut comma = "";
    for fault in faults {
        text = with_fault(text, comma, fault);
        comma = ",";
    }
    text
}

/// A text with a fault behind it.
fn with_fault(text: Words, comma: &str, fault: &Fault) -> Words {
    let spelling = spelling(fault.parts());
    text.and_str(comma, LONGEST_STEP)
        .and_str(spelling.as_str(), LONGEST_STEP)
}
