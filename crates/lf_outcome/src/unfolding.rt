//! What a formula says at each of its steps.

ghost use Rattle.std.specs.Prelude.{◌≡◌, ◌++◌, IfOk, OnOk, map};
ghost use Rattle.std.specs.List.{flat_map};
ghost use Rattle.lf_outcome.specs.Unfolding.{joined, later, steps, unfold_at, unfolded};

use crate::{Formula, Formulas};
use lf_list::Listed;
use std::alloc::{AllocError, Global};

/// The formula without Over: in its place All or Any of each of its parts at each of its steps, as many as there are.
pub fn unfold<F: Copy>(alloc: Global, formula: &Formula<F>) -> Result<Formula<F>, AllocError>
    ensures { IfOk result (λ f. f ≡ unfolded formula.now) }
{
    unfold_at(alloc, formula, 0)
}

/// The same, where the formula's steps are counted from a step.
#[cycle(unfold_at)]
fn unfold_at<F: Copy>(
    alloc: Global,
    formula: &Formula<F>,
    offset: u32,
) -> Result<Formula<F>, AllocError>
    ensures { IfOk result (λ f. f ≡ unfold_at formula.now offset) }
{
    match formula {
        Formula::All(parts) => Ok(Formula::All(unfold_parts(alloc, parts.as_slice(), offset)?)),
        Formula::Any(parts) => Ok(Formula::Any(unfold_parts(alloc, parts.as_slice(), offset)?)),
        Formula::Down { node, step } => {
            let step = later(offset, *step);
            Ok(Formula::Down { node: *node, step })
        }
        Formula::Shows { node, step, fact } => {
            let step = later(offset, *step);
            Ok(Formula::Shows {
                node: *node,
                step,
                fact: *fact,
            })
        }
        Formula::One { nodes, last, topic } => Ok(Formula::One {
            nodes: *nodes,
            last: *last,
            topic: *topic,
        }),
        Formula::Over {
            every,
            first,
            last,
            parts,
        } => {
            let unfolded = unfold_over(alloc, *first, *last, parts.as_slice(), offset)?;
            Ok(joined(*every, unfolded))
        }
    }
}

/// The parts, one by one.
#[cycle(unfold_at)]
fn unfold_parts<F: Copy>(
    alloc: Global,
    parts: &[Formula<F>],
    offset: u32,
) -> Result<Formulas<F>, AllocError>
    ensures { IfOk result (λ unfolded. unfolded ≡ map (λ part. unfold_at part offset) parts.now) }
{
    let mut unfolded = Vec::new(alloc);
    push_parts(alloc, parts, offset, &mut unfolded)?;
    Ok(Listed::from_vec(unfolded))
}

/// The parts at each of the steps.
#[cycle(unfold_at)]
fn unfold_over<F: Copy>(
    alloc: Global,
    first: u32,
    last: u32,
    parts: &[Formula<F>],
    offset: u32,
) -> Result<Formulas<F>, AllocError>
    ensures { IfOk result (λ unfolded. unfolded ≡ flat_map (λ t. map (λ part. unfold_at part (later offset t)) parts.now) (steps first last)) }
{
    let mut unfolded = Vec::new(alloc);
    'steps: for step in first..=last {
        push_parts(alloc, parts, later(offset, step), &mut unfolded)?;
    }
    Ok(Listed::from_vec(unfolded))
}

/// Puts the parts, one by one, behind other formulas.
#[cycle(unfold_at)]
fn push_parts<F: Copy>(
    alloc: Global,
    parts: &[Formula<F>],
    offset: u32,
    onto: &mut Vec<Formula<F>>,
) -> Result<(), AllocError>
    ensures { OnOk result (onto.new.items ≡ onto.old.items ++ map (λ part. unfold_at part offset) parts.now) }
{
    'parts: for part in parts {
        onto.push(unfold_at(alloc, part, offset)?)?;
    }
    Ok(())
}

/// All of the parts, or some.
fn joined<F>(every: bool, parts: Formulas<F>) -> Formula<F>
    ensures { result ≡ joined every parts }
{
    if every {
        Formula::All(parts)
    } else {
        Formula::Any(parts)
    }
}

/// A step counted from another, past 2^32 - 1 that.
pub(crate) fn later(offset: u32, step: u32) -> u32
    ensures { result ≡ later offset step }
{
    step.saturating_add(offset)
}
