//! The parts of a promise.

ghost use Rattle.std.specs.Prelude.{◌≡◌, ◌∷◌, [], ◌++◌, IfOk};
ghost use Rattle.std.specs.List.{count_by, flat_map};
ghost use Rattle.lf_parts.specs.Leaves.{leaves};
ghost use Rattle.lf_parts.specs.Parts.{is_one_value, part_of_many, parts_from, parts_of};

use crate::Part;
use lf_promises::{Many, Promise};
use std::alloc::{AllocError, Global};

/// The parts of a promise, from the left. The error is that memory has run out.
pub fn parts(alloc: Global, promise: &Promise) -> Result<Vec<Part>, AllocError>
    ensures { IfOk result (λ parts. parts.items ≡ parts_of promise.now) }
{
    let mut parts = Vec::new(alloc);
    put_parts(promise, &mut parts)?;
    Ok(parts)
}

/// Puts the parts of a promise behind others. Its topics are numbered on from those of the others.
#[cycle(listing)]
fn put_parts(promise: &Promise, parts: &mut Vec<Part>) -> Result<(), AllocError>
    ensures { IfOk result (λ _. parts.new.items ≡ parts.old.items ++ parts_from (count_by is_one_value parts.old.items) (leaves promise.now)) }
{
    match promise {
        Promise::All(inner) | Promise::Any(inner) | Promise::Always(inner) | Promise::Ever(inner) =>
            { put_all(inner.as_slice(), parts) }
        Promise::Nodes { many, .. } => put_part(part_of_many(*many), parts),
        Promise::Down { .. } => Ok(()),
        Promise::At { node, .. } => put_part(Part::At { node: *node }, parts),
        Promise::One(_) => {
            let topic = count_topics(parts.as_slice());
            put_part(Part::One { topic }, parts)
        }
    }
}

/// Puts the parts of promises behind others.
#[cycle(listing)]
fn put_all(promises: &[Promise], parts: &mut Vec<Part>) -> Result<(), AllocError>
    ensures { IfOk result (λ _. parts.new.items
        ≡ parts.old.items ++ parts_from (count_by is_one_value parts.old.items) (flat_map leaves promises.now)) }
{
    'promises: for promise in promises {
        put_parts(promise, parts)?;
    }
    Ok(())
}

/// Puts a part behind others.
fn put_part(part: Part, parts: &mut Vec<Part>) -> Result<(), AllocError>
    ensures { IfOk result (λ _. parts.new.items ≡ parts.old.items ++ part ∷ []) }
{
    parts.push(part)?;
    Ok(())
}

/// The part that is of so many nodes.
fn part_of_many(many: Many) -> Part
    ensures { result ≡ part_of_many many }
{
    match many {
        Many::Each => Part::Each,
        Many::No => Part::No,
        Many::Some => Part::Some,
        Many::AtMostOne => Part::AtMostOne,
    }
}

/// How many of some parts ask for one value.
fn count_topics(parts: &[Part]) -> usize
    ensures { result ≡ count_by is_one_value parts.now }
{
    parts
        .iter()
        .filter(|part| matches!(part, Part::One { .. }))
        .count()
}
