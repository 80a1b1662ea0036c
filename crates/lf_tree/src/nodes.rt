//! The nodes of a tree's text.

ghost use Rattle.std.specs.Prelude.{◌≡◌, ◌≢◌, ◌-◌, MatchOption, Some, None, Ok, Err, IfOk, IfErr};
ghost use Rattle.serde_json.specs.View.{view, items_view, members_view};
ghost use Rattle.serde_json.specs.Events.{members_len};
ghost use Rattle.lf_tree.specs.Views.{branch_view};
ghost use Rattle.lf_tree.specs.Reading.{one_in, branch_parts, leaf_in, branch_in, kids_in, node_in, all_in};

use crate::lists::{edges_in, reach_in};
use crate::{Kids, Node, TreeFault};
use lf_list::Listed;
use serde_json::{Map, Value};
use std::alloc::Global;

/// The parts of a branch, as they are written.
#[derive(Clone, Copy)]
struct BranchParts<'a> {
    edges: &'a Value,
    kids: &'a Value,
    reach: &'a Value,
}

/// How many keys an object has.
pub(crate) fn count_of(map: &Map<String, Value>) -> usize
    ensures { result ≡ members_len (members_view map.now.entries) }
{
    map.len()
}

/// The value of an object whose one key this is.
fn one_in<'a>(value: &'a Value, key: &str) -> Option<&'a Value>
    ensures { MatchOption result (one_in key.now (view value.entry.now) ≡ None) (λ v. one_in key.now (view value.entry.now) ≡ Some (view v.now)) }
{
    match value {
        Value::Object(map) if count_of(map) == 1 => value.get(key),
        _ => None,
    }
}

/// The parts of a branch, where the value has their keys and no other.
fn branch_parts(value: &Value) -> Option<BranchParts<'_>>
    ensures { MatchOption result (branch_parts (view value.entry.now) ≡ None) (λ parts. branch_parts (view value.entry.now) ≡ Some (branch_view parts)) }
{
    match value {
        Value::Object(map) if count_of(map) == 3 => Some(BranchParts {
            edges: value.get("edges")?,
            kids: value.get("kids")?,
            reach: value.get("reach")?,
        }),
        _ => None,
    }
}

/// A leaf.
fn leaf_in(value: &Value) -> Result<Node, TreeFault>
    ensures { result ≡ leaf_in (view value.now) }
{
    match value {
        Value::Bool(true) => Ok(Node::Misses),
        Value::Bool(false) => Ok(Node::Reaches),
        _ => Err(TreeFault::Form),
    }
}

/// A node in which at most so many branches stand one in the other.
#[cycle(node)]
pub(crate) fn node_in(alloc: Global, value: &Value, room: u32) -> Result<Node, TreeFault>
    ensures ok { IfOk result (λ node. node_in room (view value.now) ≡ Ok node) }
    ensures err { IfErr result (λ e. e ≢ TreeFault.Memory → node_in room (view value.now) ≡ Err e) }
{
    if let Some(misses) = one_in(value, "misses") {
        return leaf_in(misses);
    }
    let Some(parts) = branch_parts(value) else {
        return Err(TreeFault::Form);
    };
    if room == 0 {
        return Err(TreeFault::TooDeep);
    }
    branch_in(alloc, parts, room - 1)
}

/// The branch of its edges, its kids and its reach, with at most so many branches in each kid one in the other.
#[cycle(node)]
fn branch_in(alloc: Global, parts: BranchParts<'_>, room: u32) -> Result<Node, TreeFault>
    ensures ok { IfOk result (λ node. branch_in (node_in room) (branch_view parts.entry) ≡ Ok node) }
    ensures err { IfErr result (λ e. e ≢ TreeFault.Memory → branch_in (node_in room) (branch_view parts.entry) ≡ Err e) }
{
    let edges = edges_in(alloc, parts.edges)?;
    let reach = reach_in(parts.reach)?;
    let kids = kids_in(alloc, parts.kids, room)?;
    Ok(Node::Branch { reach, edges, kids })
}

/// The kids of a branch, in each of which at most so many branches stand one in the other.
#[cycle(node)]
fn kids_in(alloc: Global, value: &Value, room: u32) -> Result<Kids, TreeFault>
    ensures ok { IfOk result (λ kids. kids_in (node_in room) (view value.now) ≡ Ok kids) }
    ensures err { IfErr result (λ e. e ≢ TreeFault.Memory → kids_in (node_in room) (view value.now) ≡ Err e) }
{
    match value {
        Value::Array(items) => nodes_in(alloc, items.as_slice(), room),
        _ => Err(TreeFault::Form),
    }
}

/// The nodes of a list's items.
#[cycle(node)]
fn nodes_in(alloc: Global, items: &[Value], room: u32) -> Result<Kids, TreeFault>
    ensures ok { IfOk result (λ kids. all_in (node_in room) (items_view items.now) ≡ Ok kids) }
    ensures err { IfErr result (λ e. e ≢ TreeFault.Memory → all_in (node_in room) (items_view items.now) ≡ Err e) }
{
    let mut kids = Vec::new(alloc);
    'items: for item in items {
        let kid = node_in(alloc, item, room)?;
        kids.push(kid).map_err(|_| TreeFault::Memory)?;
    }
    Ok(Listed::from_vec(kids))
}
