//! How long a tree's text is.

ghost use Rattle.std.specs.Prelude.{◌≡◌, ◌+◌, ◌<◌, ◌≤◌, length, map, min, max};
ghost use Rattle.std.specs.Fmt.{decimal};
ghost use Rattle.lf_tree.specs.Texts.{answer_text, faults_text, in_brackets, most_bytes, node_text, quoted, tree_text};

use crate::{Node, Tree};
use lf_faults::{Fault, Parts};
use lf_outcome::Reach;

/// The most bytes that the text of a tree may have.
pub const LONGEST_TREE: usize = 16_777_216;

/// The length that stands for every length past the most.
const PAST: u32 = LONGEST_TREE as u32 + 1;

/// How many bytes the text of the tree has: 16,777,217 where they are more than 16,777,216. It takes no memory.
pub fn text_length(tree: &Tree) -> u32
    ensures { result ≡ min (length (tree_text tree.now)) (most_bytes + 1) }
{
    // `{"answer":`, `,"format":`, its digit, `,"root":` and `}`
    let frame = 10 + 10 + 1 + 8 + 1;
    capped(frame, capped(answer_length(tree), node_length(&tree.root)))
}

/// The length of the text of the tree's answer.
fn answer_length(tree: &Tree) -> u32
    ensures { result ≡ min (length (answer_text tree.now.answer)) 16777217 }
{
    match &tree.answer {
        Some(faults) => faults_length(faults.items()),
        None => 4,
    }
}

/// The length of the text of a node.
#[cycle(length)]
fn node_length(node: &Node) -> u32
    ensures { result ≡ min (length (node_text node.now)) 16777217 }
{
    match node {
        Node::Misses => 15,
        Node::Reaches => 16,
        Node::Branch { reach, edges, kids } => {
            // `{"edges":`, `,"kids":`, `,"reach":` and `}`
            let frame = 9 + 8 + 9 + 1 + reach_length(reach);
            let edges = faults_length(edges.as_slice());
            capped(frame, capped(edges, kids_length(kids.as_slice())))
        }
    }
}

/// The length of a list of nodes.
#[cycle(length)]
fn kids_length(kids: &[Node]) -> u32
    ensures { result ≡ min (length (in_brackets (map node_text kids.now))) 16777217 }
{
    let mut items = 0;
    'kids: for kid in kids {
        items = with_item(items, node_length(kid));
    }
    list_length(items)
}

/// The length of a list of faults.
fn faults_length(faults: &[Fault]) -> u32
    ensures { result ≡ min (length (faults_text faults.now)) 16777217 }
{
    let mut items = 0;
    'faults: for fault in faults {
        items = with_item(items, fault_length(fault));
    }
    list_length(items)
}

/// The length of a reach, at most 25.
fn reach_length(reach: &Reach) -> u32
    ensures { result ≡ min (length (in_brackets (map decimal reach.now))) 16777217 }
{
    let mut items = 0;
    'steps: for step in reach.items() {
        items = with_item(items, digits(u32::from(*step)));
    }
    list_length(items)
}

/// The length of a fault in quotes.
fn fault_length(fault: &Fault) -> u32
    ensures { result ≡ length (quoted fault.now) }
{
    match fault.parts() {
        // `"omit 0>1 @` and `"`
        Parts::Omit { step, .. } => 12 + digits(step),
        // `"crash 0 @` and `"`
        Parts::Crash { step, .. } => 11 + digits(step),
        // `"pause 0 @` and `"`
        Parts::Pause { step, .. } => 11 + digits(step),
    }
}

/// How many digits a number below 100 has.
fn digits(number: u32) -> u32
    requires { number < 100 }
    ensures value { result ≡ length (decimal number) }
    ensures short { result ≤ 2 }
{
    if number < 10 { 1 } else { 2 }
}

/// The length of the items of a list and one more, each with the comma or the bracket that follows it.
fn with_item(items: u32, item: u32) -> u32
    ensures { result ≡ min (items + item + 1) 16777217 }
{
    capped(capped(items, item), 1)
}

/// The length of a list in brackets, from that of its items, each with the comma or the bracket that follows it.
fn list_length(items: u32) -> u32
    ensures { result ≡ min (1 + max 1 items) 16777217 }
{
    capped(1, items.max(1))
}

/// The sum of two lengths.
fn capped(one: u32, other: u32) -> u32
    ensures { result ≡ min (one + other) 16777217 }
{
    one.saturating_add(other).min(PAST)
}
