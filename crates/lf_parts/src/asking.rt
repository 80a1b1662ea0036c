//! The promise that asks whether a part is ever at stake.

ghost use Rattle.std.specs.Prelude.{◌≡◌, ◌++◌, ◌∷◌, [], IfOk};
ghost use Rattle.std.specs.List.{flat_map};
ghost use Rattle.lf_parts.specs.Leaves.{leaves};
ghost use Rattle.lf_parts.specs.Questions.{asked, question, some_ever};

use crate::leaf::Leaf;
use lf_list::Listed;
use lf_promises::{Many, Promise};
use lf_rule_machine::Fact;
use lf_rules::Expr;
use std::alloc::{AllocError, Global};

/// The promise that asks whether the part with this place is ever at stake; the first part has the place 0. None where there is no such part, or where it is
/// promised that something is one value, of which this is asked otherwise.
///
/// Of a part that each or some node or one node shows a fact, it is that part. Of a part that no node or at most one shows it, it is that some node of those
/// shows it at some step. The promise is taken apart, and all else of it is let go. The error is that memory has run out.
pub fn asked(alloc: Global, promise: Promise, place: usize) -> Result<Option<Promise>, AllocError>
    ensures { IfOk result (λ question. question ≡ asked promise place) }
{
    let mut taken = Vec::new(alloc);
    put_leaves(promise, &mut taken)?;
    if place >= taken.len() {
        return Ok(None);
    }
    question(alloc, taken.swap_remove(place))
}

/// Puts the parts of a promise behind others.
fn put_leaves(promise: Promise, taken: &mut Vec<Leaf>) -> Result<(), AllocError>
    ensures { IfOk result (λ _. taken.new.items ≡ taken.old.items ++ leaves promise) }
{
    match promise {
        Promise::All(parts) | Promise::Any(parts) | Promise::Always(parts) | Promise::Ever(parts) =>
            {
                'parts: for part in parts.into_vec() {
                    put_leaves(part, taken)?;
                }
                Ok(())
            }
        Promise::Nodes { many, fact, of } => put_leaf(Leaf::Nodes { many, fact, of }, taken),
        Promise::Down { .. } => Ok(()),
        Promise::At { node, fact } => put_leaf(Leaf::At { node, fact }, taken),
        Promise::One(topic) => put_leaf(Leaf::One(topic), taken),
    }
}

/// Puts a part behind others.
fn put_leaf(leaf: Leaf, taken: &mut Vec<Leaf>) -> Result<(), AllocError>
    ensures { IfOk result (λ _. taken.new.items ≡ taken.old.items ++ leaf ∷ []) }
{
    match taken.push(leaf) {
        Ok(()) => Ok(()),
        Err(_) => Err(AllocError),
    }
}

/// The promise that asks whether a part is ever at stake, where there is one.
fn question(alloc: Global, leaf: Leaf) -> Result<Option<Promise>, AllocError>
    ensures { IfOk result (λ found. found ≡ question leaf) }
{
    match leaf {
        Leaf::Nodes {
            many: Many::No | Many::AtMostOne,
            fact,
            of,
        } => Ok(Some(some_ever(alloc, fact, of)?)),
        Leaf::Nodes { many, fact, of } => Ok(Some(Promise::Nodes { many, fact, of })),
        Leaf::At { node, fact } => Ok(Some(Promise::At { node, fact })),
        Leaf::One(_) => Ok(None),
    }
}

/// The promise that some node shows a fact at some step: of all nodes, or of those in the set.
fn some_ever(alloc: Global, fact: Fact, of: Option<Expr>) -> Result<Promise, AllocError>
    ensures { IfOk result (λ promise. promise ≡ some_ever fact of) }
{
    let mut parts = Vec::new(alloc);
    let shown = Promise::Nodes {
        many: Many::Some,
        fact,
        of,
    };
    match parts.push(shown) {
        Ok(()) => Ok(Promise::Ever(Listed::from_vec(parts))),
        Err(_) => Err(AllocError),
    }
}
