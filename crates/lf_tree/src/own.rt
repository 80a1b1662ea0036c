//! Whether bytes are the text of a tree. The text itself isn't written.

ghost use Rattle.std.specs.Prelude.{◌≡◌, ◌<◌, ◌↔◌, ◌==◌, [], IsTrue, codes, if◌then◌else◌, map};
ghost use Rattle.std.specs.Fmt.{decimal};
ghost use Rattle.lf_faults.specs.Texts.{node_at_step};
ghost use Rattle.lf_tree.specs.Rests.{left_of, skip};
ghost use Rattle.lf_tree.specs.Texts.{answer_text, faults_text, in_brackets, node_text, quoted, tree_text};

use crate::pauses::format_number;
use crate::{Node, Tree};
use lf_faults::{Fault, FaultSet, Parts};
use lf_outcome::Reach;

/// Whether the bytes are the text of the tree.
pub(crate) fn is_own(tree: &Tree, bytes: &[u8]) -> bool
    ensures { IsTrue result ↔ (tree_text tree.now ≡ bytes.now) }
{
    match after_tree(Some(bytes), tree) {
        Some(left) => left.is_empty(),
        None => false,
    }
}

/// What is left after the text of a tree.
fn after_tree<'a>(left: Option<&'a [u8]>, tree: &Tree) -> Option<&'a [u8]>
    ensures { left_of result ≡ skip (tree_text tree.now) (left_of left.entry) }
{
    let left = after(left, b"{\"answer\":");
    let left = after_answer(left, &tree.answer);
    let left = after(left, b",\"format\":");
    let left = after_number(left, format_number(tree));
    let left = after(left, b",\"root\":");
    let left = after_node(left, &tree.root);
    after(left, b"}")
}

/// What is left after the answer of a tree.
fn after_answer<'a>(left: Option<&'a [u8]>, answer: &Option<FaultSet>) -> Option<&'a [u8]>
    ensures { left_of result ≡ skip (answer_text answer.now) (left_of left.entry) }
{
    match answer {
        Some(faults) => after_faults(left, faults.items()),
        None => after(left, b"null"),
    }
}

/// What is left after a node.
#[cycle(own)]
fn after_node<'a>(left: Option<&'a [u8]>, node: &Node) -> Option<&'a [u8]>
    ensures { left_of result ≡ skip (node_text node.now) (left_of left.entry) }
{
    match node {
        Node::Misses => after(left, b"{\"misses\":true}"),
        Node::Reaches => after(left, b"{\"misses\":false}"),
        Node::Branch { reach, edges, kids } => {
            let left = after(left, b"{\"edges\":");
            let left = after_faults(left, edges.as_slice());
            let left = after(left, b",\"kids\":");
            let left = after_kids(left, kids.as_slice());
            let left = after(left, b",\"reach\":");
            let left = after_reach(left, reach);
            after(left, b"}")
        }
    }
}

/// What is left after a list of nodes.
#[cycle(own)]
fn after_kids<'a>(left: Option<&'a [u8]>, kids: &[Node]) -> Option<&'a [u8]>
    ensures { left_of result ≡ skip (in_brackets (map node_text kids.now)) (left_of left.entry) }
{
    let mut left = after(left, b"[");
    'kids: for (i, kid) in kids.iter().enumerate() {
        let next = after_comma(left, i);
        left = after_node(next, kid);
    }
    after(left, b"]")
}

/// What is left after a list of faults.
fn after_faults<'a>(left: Option<&'a [u8]>, faults: &[Fault]) -> Option<&'a [u8]>
    ensures { left_of result ≡ skip (faults_text faults.now) (left_of left.entry) }
{
    let mut left = after(left, b"[");
    'faults: for (i, fault) in faults.iter().enumerate() {
        let next = after_comma(left, i);
        left = after_fault(next, fault);
    }
    after(left, b"]")
}

/// What is left after a reach.
fn after_reach<'a>(left: Option<&'a [u8]>, reach: &Reach) -> Option<&'a [u8]>
    ensures { left_of result ≡ skip (in_brackets (map decimal reach.now)) (left_of left.entry) }
{
    let mut left = after(left, b"[");
    'steps: for (i, step) in reach.items().iter().enumerate() {
        let next = after_comma(left, i);
        left = after_number(next, u32::from(*step));
    }
    after(left, b"]")
}

/// What is left after that which stands before the item at a place of a list: a comma, but before the first nothing.
fn after_comma<'a>(left: Option<&'a [u8]>, place: usize) -> Option<&'a [u8]>
    ensures { left_of result ≡ skip (if place == 0 then [] else codes ",") (left_of left.entry) }
{
    if place > 0 { after(left, b",") } else { left }
}

/// What is left after a fault in quotes.
fn after_fault<'a>(left: Option<&'a [u8]>, fault: &Fault) -> Option<&'a [u8]>
    ensures { left_of result ≡ skip (quoted fault.now) (left_of left.entry) }
{
    match fault.parts() {
        Parts::Omit { from, to, step } => {
            let left = after(left, b"\"omit ");
            let left = after_number(left, from);
            let left = after(left, b">");
            let left = after_point(left, to, step);
            after(left, b"\"")
        }
        Parts::Crash { node, step } => {
            let left = after(left, b"\"crash ");
            let left = after_point(left, node, step);
            after(left, b"\"")
        }
        Parts::Pause { node, step } => {
            let left = after(left, b"\"pause ");
            let left = after_point(left, node, step);
            after(left, b"\"")
        }
    }
}

/// What is left after a node and a step, as `3 @10`.
fn after_point<'a>(left: Option<&'a [u8]>, node: u32, step: u32) -> Option<&'a [u8]>
    requires node { node < 100 }
    requires step { step < 100 }
    ensures { left_of result ≡ skip (node_at_step node step) (left_of left.entry) }
{
    let left = after_number(left, node);
    let left = after(left, b" @");
    after_number(left, step)
}

/// What is left after a number below 100.
fn after_number<'a>(left: Option<&'a [u8]>, number: u32) -> Option<&'a [u8]>
    requires { number < 100 }
    ensures { left_of result ≡ skip (decimal number) (left_of left.entry) }
{
    if number < 10 {
        return after_digit(left, number);
    }
    let left = after_digit(left, number / 10);
    after_digit(left, number % 10)
}

/// What is left after a digit.
fn after_digit<'a>(left: Option<&'a [u8]>, digit: u32) -> Option<&'a [u8]>
    requires { digit < 10 }
    ensures { left_of result ≡ skip (decimal digit) (left_of left.entry) }
{
    after(left, &[b'0' + digit as u8])
}

/// What is left after a text. None where something else comes.
fn after<'a>(left: Option<&'a [u8]>, text: &[u8]) -> Option<&'a [u8]>
    ensures { left_of result ≡ skip text.now (left_of left.entry) }
{
    match left {
        Some(bytes) => bytes.strip_prefix(text),
        None => None,
    }
}
