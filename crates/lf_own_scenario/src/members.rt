//! The nodes of sets.

ghost use Rattle.std.specs.Prelude.{◌≡◌, IfOk, length, slice_get};
ghost use Rattle.lf_rule_machine.specs.Moments.{row_of};
ghost use Rattle.lf_own_scenario.specs.Members.{is_in, is_in_set, members, others};

use crate::Scene;
use lf_rule_machine::{fixed_value, sets};
use lf_rules::Expr;
use std::alloc::{AllocError, Global};

/// The nodes of which something is said, ascending: those that are in the set which an expression gives at them, or all.
#[tactic(auto, unfolding(crate::specs::Members::members))]
pub(crate) fn members(
    alloc: Global,
    scene: &Scene,
    of: &Option<Expr>,
) -> Result<Vec<u32>, AllocError>
    ensures { IfOk result (λ nodes. nodes.items ≡ members scene.now of.now) }
{
    let mut nodes = Vec::new(alloc);
    for node in 0..scene.nodes {
        if is_in(scene, of, node) {
            nodes.push(node)?;
        }
    }
    Ok(nodes)
}

/// How many they are.
#[tactic(auto, unfolding(crate::specs::Members::members))]
pub(crate) fn count_members(scene: &Scene, of: &Option<Expr>) -> u32
    ensures { result ≡ length (members scene.now of.now) }
{
    let mut count = 0;
    for node in 0..scene.nodes {
        if is_in(scene, of, node) {
            count += 1;
        }
    }
    count
}

/// Whether something is said of a node.
fn is_in(scene: &Scene, of: &Option<Expr>, node: u32) -> bool
    ensures { result ≡ is_in scene.now of.now node }
{
    match of {
        Some(set) => is_in_set(scene, set, node),
        None => true,
    }
}

/// Whether a node is in the set that an expression gives at it.
fn is_in_set(scene: &Scene, set: &Expr, node: u32) -> bool
    ensures { result ≡ is_in_set scene.now set.now node }
{
    let given = constants_at(scene, node);
    let found = fixed_value(scene.nodes, &given, set);
    sets::has(found, u64::from(node))
}

/// The values of the constants at a node.
fn constants_at(scene: &Scene, node: u32) -> [u8; 16]
    ensures { result ≡ row_of (slice_get scene.now.given node) }
{
    match scene.given.get(node as usize) {
        Some(row) => *row,
        None => [0; 16],
    }
}

/// The nodes but one.
#[tactic(auto, unfolding(crate::specs::Members::others))]
pub(crate) fn others(alloc: Global, nodes: &[u32], but: u32) -> Result<Vec<u32>, AllocError>
    ensures { IfOk result (λ found. found.items ≡ others nodes.now but) }
{
    let mut others = Vec::new(alloc);
    for node in nodes {
        if *node != but {
            others.push(*node)?;
        }
    }
    Ok(others)
}
