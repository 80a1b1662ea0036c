//! How many sets a search ran, level by level.

ghost use Rattle.std.specs.Prelude.{◌≡◌, ◌++◌, ◌≤◌, IfOk, min, string_bytes};
ghost use Rattle.lf_why.specs.Levels.{count_line, level_line, level_lines, sets_at};

use lf_tree::Node;
use std::alloc::AllocError;

/// How many sets stand so many levels beneath a node of a tree, itself at level 0: 2^64 - 1 where they are more. Beneath the root of the tree of a search
/// these are the sets with so many faults that it ran. It takes no memory.
pub fn sets_at(node: &Node, level: u32) -> u64
    ensures { result ≡ min (sets_at node.now level) 18446744073709551615 }
{
    match node {
        Node::Misses | Node::Reaches => u64::from(level == 0),
        Node::Branch { .. } if level == 0 => 1,
        Node::Branch { kids, .. } => {
            let mut count: u64 = 0;
            'kids: for kid in kids.as_slice() {
                count = count.saturating_add(sets_at(kid, level - 1));
            }
            count
        }
    }
}

/// Adds how many sets a search ran at each level up to the last.
pub(crate) fn push_levels(root: &Node, last: u32, text: &mut String) -> Result<(), AllocError>
    requires { last ≤ 6 }
    ensures { IfOk result (λ _. string_bytes text.new ≡ string_bytes text.old ++ level_lines root.now last) }
{
    'levels: for level in 0..last + 1 {
        push_level(root, level, text)?;
    }
    Ok(())
}

/// Adds how many sets a search ran at a level.
fn push_level(root: &Node, level: u32, text: &mut String) -> Result<(), AllocError>
    ensures { IfOk result (λ _. string_bytes text.new ≡ string_bytes text.old ++ level_line root.now level) }
{
    push_count(level, sets_at(root, level), text)
}

/// Adds that a search ran so many sets at a level.
fn push_count(level: u32, count: u64, text: &mut String) -> Result<(), AllocError>
    ensures { IfOk result (λ _. string_bytes text.new ≡ string_bytes text.old ++ count_line level count) }
{
    writeln!(text, "runs at level {level}: {count}")
}
