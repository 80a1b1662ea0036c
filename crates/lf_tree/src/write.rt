//! The text of a tree.

ghost use Rattle.std.specs.Prelude.{◌≡◌, ◌≢◌, ◌+◌, ◌<◌, ◌≤◌, ◌↔◌, ◌++◌, ◌==◌, [], Err, IfErr, IfOk, OnOk, codes, if◌then◌else◌, length, map};
ghost use Rattle.std.specs.Fmt.{decimal};
ghost use Rattle.lf_faults.specs.Faults.{IsFault};
ghost use Rattle.lf_faults.specs.Texts.{node_at_step, spelling};
ghost use Rattle.lf_tree.specs.Texts.{answer_text, faults_text, in_brackets, most_bytes, node_text, quoted, tree_text};

use crate::pauses::format_number;
use crate::size::text_length;
use crate::{LONGEST_TREE, Node, Tree, TreeFault};
use lf_faults::{Fault, FaultSet, Parts};
use lf_outcome::Reach;
use std::alloc::{AllocError, Global};

/// The one text of a tree: compact JSON with the keys in byte order, and no line feed.
///
/// It is refused as too long where it has more than 16,777,216 bytes. Its length is counted first, and the memory is taken
/// at once.
pub fn to_text(alloc: Global, tree: &Tree) -> Result<Vec<u8>, TreeFault>
    ensures text { IfOk result (λ text. text.items ≡ tree_text tree.now) }
    ensures too_long { (result ≡ Err TreeFault.TooLong) ↔ (most_bytes < length (tree_text tree.now)) }
    ensures other { IfErr result (λ fault. fault ≢ TreeFault.TooLong → fault ≡ TreeFault.Memory) }
{
    let length = text_length(tree) as usize;
    if length > LONGEST_TREE {
        return Err(TreeFault::TooLong);
    }
    match written(alloc, tree, length) {
        Ok(text) => Ok(text),
        Err(_) => Err(TreeFault::Memory),
    }
}

/// The text of a tree, of which the length is known.
fn written(alloc: Global, tree: &Tree, length: usize) -> Result<Vec<u8>, AllocError>
    ensures { IfOk result (λ text. text.items ≡ tree_text tree.now) }
{
    let mut text = Vec::with_capacity(alloc, length)?;
    put_tree(&mut text, tree)?;
    Ok(text)
}

/// Writes a tree.
fn put_tree(text: &mut Vec<u8>, tree: &Tree) -> Result<(), AllocError>
    ensures { OnOk result (text.new.items ≡ text.old.items ++ tree_text tree.now) }
{
    text.extend_from_slice(b"{\"answer\":")?;
    put_answer(text, &tree.answer)?;
    text.extend_from_slice(b",\"format\":")?;
    put_number(text, format_number(tree))?;
    text.extend_from_slice(b",\"root\":")?;
    put_node(text, &tree.root)?;
    text.push(b'}')?;
    Ok(())
}

/// Writes the answer of a tree.
fn put_answer(text: &mut Vec<u8>, answer: &Option<FaultSet>) -> Result<(), AllocError>
    ensures { OnOk result (text.new.items ≡ text.old.items ++ answer_text answer.now) }
{
    match answer {
        Some(faults) => put_faults(text, faults.items()),
        None => text.extend_from_slice(b"null"),
    }
}

/// Writes a node.
#[cycle(put)]
fn put_node(text: &mut Vec<u8>, node: &Node) -> Result<(), AllocError>
    ensures { OnOk result (text.new.items ≡ text.old.items ++ node_text node.now) }
{
    match node {
        Node::Misses => text.extend_from_slice(b"{\"misses\":true}"),
        Node::Reaches => text.extend_from_slice(b"{\"misses\":false}"),
        Node::Branch { reach, edges, kids } => {
            text.extend_from_slice(b"{\"edges\":")?;
            put_faults(text, edges.as_slice())?;
            text.extend_from_slice(b",\"kids\":")?;
            put_kids(text, kids.as_slice())?;
            text.extend_from_slice(b",\"reach\":")?;
            put_reach(text, reach)?;
            text.push(b'}')?;
            Ok(())
        }
    }
}

/// Writes a list of nodes.
#[cycle(put)]
fn put_kids(text: &mut Vec<u8>, kids: &[Node]) -> Result<(), AllocError>
    ensures { OnOk result (text.new.items ≡ text.old.items ++ in_brackets (map node_text kids.now)) }
{
    text.push(b'[')?;
    'kids: for (i, kid) in kids.iter().enumerate() {
        put_comma(text, i)?;
        put_node(text, kid)?;
    }
    text.push(b']')?;
    Ok(())
}

/// Writes a list of faults.
fn put_faults(text: &mut Vec<u8>, faults: &[Fault]) -> Result<(), AllocError>
    ensures { OnOk result (text.new.items ≡ text.old.items ++ faults_text faults.now) }
{
    text.push(b'[')?;
    'faults: for (i, fault) in faults.iter().enumerate() {
        put_comma(text, i)?;
        put_fault(text, fault)?;
    }
    text.push(b']')?;
    Ok(())
}

/// Writes a reach.
fn put_reach(text: &mut Vec<u8>, reach: &Reach) -> Result<(), AllocError>
    ensures { OnOk result (text.new.items ≡ text.old.items ++ in_brackets (map decimal reach.now)) }
{
    text.push(b'[')?;
    'steps: for (i, step) in reach.items().iter().enumerate() {
        put_comma(text, i)?;
        put_number(text, u32::from(*step))?;
    }
    text.push(b']')?;
    Ok(())
}

/// Writes what stands before the item at a place of a list: a comma, but before the first nothing.
fn put_comma(text: &mut Vec<u8>, place: usize) -> Result<(), AllocError>
    ensures { OnOk result (text.new.items ≡ text.old.items ++ (if place == 0 then [] else codes ",")) }
{
    if place > 0 {
        text.push(b',')?;
    }
    Ok(())
}

/// Writes a fault in quotes.
fn put_fault(text: &mut Vec<u8>, fault: &Fault) -> Result<(), AllocError>
    ensures { OnOk result (text.new.items ≡ text.old.items ++ quoted fault.now) }
{
    put_parts(text, fault.parts())?;
    text.push(b'"')?;
    Ok(())
}

/// Writes a quote and the spelling of a fault.
fn put_parts(text: &mut Vec<u8>, parts: Parts) -> Result<(), AllocError>
    requires { IsFault parts }
    ensures { OnOk result (text.new.items ≡ text.old.items ++ (codes "\"" ++ spelling parts)) }
{
    match parts {
        Parts::Omit { from, to, step } => put_omit(text, from, to, step),
        Parts::Crash { node, step } => {
            text.extend_from_slice(b"\"crash ")?;
            put_node_at_step(text, node, step)
        }
        Parts::Pause { node, step } => {
            text.extend_from_slice(b"\"pause ")?;
            put_node_at_step(text, node, step)
        }
    }
}

/// Writes a quote and the spelling of an omission.
fn put_omit(text: &mut Vec<u8>, from: u32, to: u32, step: u32) -> Result<(), AllocError>
    requires { IsFault (Parts.Omit from to step) }
    ensures { OnOk result (text.new.items ≡ text.old.items ++ (codes "\"" ++ spelling (Parts.Omit from to step))) }
{
    text.extend_from_slice(b"\"omit ")?;
    put_number(text, from)?;
    text.push(b'>')?;
    put_node_at_step(text, to, step)
}

/// Writes a node and a step, as `3 @10`.
fn put_node_at_step(text: &mut Vec<u8>, node: u32, step: u32) -> Result<(), AllocError>
    requires node { node < 100 }
    requires step { step < 100 }
    ensures { OnOk result (text.new.items ≡ text.old.items ++ node_at_step node step) }
{
    put_number(text, node)?;
    text.extend_from_slice(b" @")?;
    put_number(text, step)
}

/// Writes a number below 100.
fn put_number(text: &mut Vec<u8>, number: u32) -> Result<(), AllocError>
    requires { number < 100 }
    ensures { OnOk result (text.new.items ≡ text.old.items ++ decimal number) }
{
    if number < 10 {
        return put_digit(text, number);
    }
    put_digit(text, number / 10)?;
    put_digit(text, number % 10)
}

/// Writes a number below 10.
fn put_digit(text: &mut Vec<u8>, digit: u32) -> Result<(), AllocError>
    requires { digit < 10 }
    ensures { OnOk result (text.new.items ≡ text.old.items ++ decimal digit) }
{
    text.push(b'0' + digit as u8)?;
    Ok(())
}
