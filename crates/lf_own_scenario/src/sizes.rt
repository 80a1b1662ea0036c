//! How large the formula of a promise is, counted before anything of it is made.
//!
//! It is counted as it is unfolded, step by step. It is as large at one step as at another, and whatever numbers its topics have, so it is counted at step 0
//! with topics from 0.

ghost use Rattle.std.specs.Prelude.{◌≡◌, ◌&&◌, length, map, max, min, nat_le, sum};
ghost use Rattle.std.specs.List.{fold};
ghost use Rattle.lf_outcome.specs.Measures.{atoms_of, depth_of};
ghost use Rattle.lf_own_scenario.specs.Sizes.{atoms_of_many, depth_of_many};
ghost use Rattle.lf_own_scenario.specs.Spans.{spanned_at};
ghost use Rattle.lf_own_scenario.specs.Unfolding.{formula_at};

use crate::Scene;
use crate::members::count_members;
use lf_promises::{Many, Promise};

/// How deep the formula of a promise may be.
pub const DEEPEST: u32 = 8;

/// The most atoms of the formula of a promise.
pub const MOST_ATOMS: u32 = 4096;

/// The most topics of a promise.
pub const MOST_TOPICS: u32 = 256;

/// Whether the formula of a promise at the last step isn't too deep and hasn't too many atoms.
pub(crate) fn fits(scene: &Scene, promise: &Promise) -> bool
    ensures { result ≡ (nat_le (depth_of (spanned_at scene.now 0 promise.now scene.now.horizon)) 8
        && nat_le (atoms_of (spanned_at scene.now 0 promise.now scene.now.horizon)) 4096) }
{
    depth(scene, promise) <= DEEPEST && atoms(scene, promise) <= MOST_ATOMS
}

/// How deep the formula of a promise is. Past 2^32 - 1 it is that.
#[cycle(depths)]
fn depth(scene: &Scene, promise: &Promise) -> u32
    ensures { result ≡ min (depth_of (formula_at scene.now 0 promise.now 0)) 4294967295 }
{
    match promise {
        Promise::All(parts) | Promise::Any(parts) => {
            deepest(scene, parts.as_slice()).saturating_add(1)
        }
        Promise::Always(parts) | Promise::Ever(parts) => {
            if scene.horizon == 0 {
                1
            } else {
                deepest(scene, parts.as_slice()).saturating_add(1)
            }
        }
        Promise::Nodes { many, of, .. } => depth_of_many(*many, count_members(scene, of)),
        Promise::Down { .. } | Promise::At { .. } | Promise::One(_) => 1,
    }
}

/// How deep the deepest formula of some parts is.
#[cycle(depths)]
fn deepest(scene: &Scene, parts: &[Promise]) -> u32
    ensures { result ≡ min (fold max 0 (map (λ part. depth_of (formula_at scene.now 0 part 0)) parts.now)) 4294967295 }
{
    let mut deepest = 0;
    'parts: for part in parts {
        deepest = deepest.max(depth(scene, part));
    }
    deepest
}

/// How deep the formula is that so many of some nodes show a fact.
fn depth_of_many(many: Many, nodes: u32) -> u32
    ensures { result ≡ depth_of_many many nodes }
{
    if nodes == 0 {
        return 1;
    }
    match many {
        Many::Each | Many::No => 3,
        Many::Some => 2,
        Many::AtMostOne => { if nodes == 1 { 2 } else { 4 } }
    }
}

/// How many atoms the formula of a promise has. Past 2^32 - 1 it is that.
#[cycle(counts)]
fn atoms(scene: &Scene, promise: &Promise) -> u32
    ensures { result ≡ min (atoms_of (formula_at scene.now 0 promise.now 0)) 4294967295 }
{
    match promise {
        Promise::All(parts) | Promise::Any(parts) => atoms_of_parts(scene, parts.as_slice()),
        Promise::Always(parts) | Promise::Ever(parts) => {
            let at_each_step = atoms_of_parts(scene, parts.as_slice());
            scene.horizon.saturating_mul(at_each_step)
        }
        Promise::Nodes { many, of, .. } => atoms_of_many(*many, count_members(scene, of)),
        Promise::Down { .. } | Promise::At { .. } | Promise::One(_) => 1,
    }
}

/// How many atoms the formulas of some parts have together.
#[cycle(counts)]
fn atoms_of_parts(scene: &Scene, parts: &[Promise]) -> u32
    ensures { result ≡ min (sum (map (λ part. atoms_of (formula_at scene.now 0 part 0)) parts.now)) 4294967295 }
{
    let mut count: u32 = 0;
    'parts: for part in parts {
        count = count.saturating_add(atoms(scene, part));
    }
    count
}

/// How many atoms the formula has that so many of some nodes show a fact.
fn atoms_of_many(many: Many, nodes: u32) -> u32
    ensures { result ≡ min (atoms_of_many many nodes) 4294967295 }
{
    match many {
        Many::Each | Many::No => nodes.saturating_mul(2),
        Many::Some => nodes,
        Many::AtMostOne => nodes.saturating_mul(nodes.saturating_sub(1).saturating_mul(2)),
    }
}
