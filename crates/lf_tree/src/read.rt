//! The reader of trees.

ghost use Rattle.std.specs.Prelude.{◌≡◌, ◌≢◌, ◌<◌, ◌≤◌, length, Some, None, Ok, Err, IfOk, IfErr, MatchOption, MatchResult};
ghost use Rattle.serde_json.specs.Data.{Data};
ghost use Rattle.serde_json.specs.View.{view};
ghost use Rattle.lf_tree.specs.declared.tree.Tree.{Tree};
ghost use Rattle.lf_tree.specs.FirstFaults.{IsJson, IsFirstFault};
ghost use Rattle.lf_tree.specs.Reading.{parts_in, tree_in, tree_parts};
ghost use Rattle.lf_tree.specs.Texts.{IsInRange, most_bytes, tree_text};
ghost use Rattle.lf_tree.specs.Trees.{IsTree};
ghost use Rattle.lf_tree.specs.Views.{tree_view};

use crate::lists::{answer_in, format_in};
use crate::nodes::{count_of, node_in};
use crate::own::is_own;
use crate::{LONGEST_TREE, Tree, TreeFault};
use serde_json::Value;
use std::alloc::Global;

/// The most branches that may stand one in the other.
const MOST_BRANCHES: u32 = 6;

/// The tree of which the bytes are the text, or what is wrong with them first.
///
/// Only the one text of a tree is taken, byte for byte, so that `to_text` of the tree gives the bytes again. They are
/// refused where they are longer than 16,777,216 bytes, then where they aren't JSON, then for what their value says, key by
/// key, and last where they are not written as a tree is: with blanks, a key twice, another order of keys, an escape, a
/// number spelled otherwise, or the format of other trees. `Memory` comes only where memory has run out.
pub fn read_tree(alloc: Global, bytes: &[u8]) -> Result<Tree, TreeFault>
    ensures tree { IfOk result (λ t. (tree_text t ≡ bytes.now) × IsInRange t) }
    ensures own_text { (t : Tree) → IsTree t → IsInRange t → tree_text t ≡ bytes.now →
        MatchResult result (λ r. r ≡ t) (λ e. e ≡ TreeFault.Memory) }
    ensures refused { IfErr result (λ e. e ≢ TreeFault.Memory → IsFirstFault bytes.now e) }
{
    if bytes.len() > LONGEST_TREE {
        return Err(TreeFault::TooLong);
    }
    let tree = said(alloc, bytes)?;
    if is_own(&tree, bytes) {
        Ok(tree)
    } else {
        Err(TreeFault::Form)
    }
}

/// The tree that the bytes say as JSON, whatever way they are written.
fn said(alloc: Global, bytes: &[u8]) -> Result<Tree, TreeFault>
    requires { length bytes.now ≤ most_bytes }
    ensures tree { IfOk result (λ t. (d : Data) × IsJson bytes.now d × (tree_in d ≡ Ok t)) }
    ensures own_text { (t : Tree) → IsTree t → IsInRange t → tree_text t ≡ bytes.now →
        MatchResult result (λ r. r ≡ t) (λ e. e ≡ TreeFault.Memory) }
    ensures refused { IfErr result (λ e. e ≢ TreeFault.Memory → IsFirstFault bytes.now e) }
{
    match Value::from_slice(alloc, bytes) {
        Ok(value) => tree_in(alloc, &value),
        Err(e) if e.is_memory() => Err(TreeFault::Memory),
        Err(_) => Err(TreeFault::NoJson),
    }
}

/// The parts of a tree, as they are written.
#[derive(Clone, Copy)]
struct TreeParts<'a> {
    answer: &'a Value,
    format: &'a Value,
    root: &'a Value,
}

/// The parts of a tree, where the value has their keys and no other.
fn tree_parts(value: &Value) -> Option<TreeParts<'_>>
    ensures { MatchOption result (tree_parts (view value.entry.now) ≡ None) (λ parts. tree_parts (view value.entry.now) ≡ Some (tree_view parts)) }
{
    match value {
        Value::Object(map) if count_of(map) == 3 => Some(TreeParts {
            answer: value.get("answer")?,
            format: value.get("format")?,
            root: value.get("root")?,
        }),
        _ => None,
    }
}

/// The tree of a value.
fn tree_in(alloc: Global, value: &Value) -> Result<Tree, TreeFault>
    ensures ok { IfOk result (λ t. tree_in (view value.now) ≡ Ok t) }
    ensures err { IfErr result (λ e. e ≢ TreeFault.Memory → tree_in (view value.now) ≡ Err e) }
{
    let Some(parts) = tree_parts(value) else {
        return Err(TreeFault::Form);
    };
    parts_in(alloc, parts)
}

/// The tree of its answer, its format and its root.
fn parts_in(alloc: Global, parts: TreeParts<'_>) -> Result<Tree, TreeFault>
    ensures ok { IfOk result (λ t. parts_in (tree_view parts.entry) ≡ Ok t) }
    ensures err { IfErr result (λ e. e ≢ TreeFault.Memory → parts_in (tree_view parts.entry) ≡ Err e) }
{
    let answer = answer_in(alloc, parts.answer)?;
    let _format = format_in(parts.format)?;
    let root = node_in(alloc, parts.root, MOST_BRANCHES)?;
    Ok(Tree { answer, root })
}
