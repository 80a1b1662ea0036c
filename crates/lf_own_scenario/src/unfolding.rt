//! The formula of a promise.

ghost use Rattle.std.specs.Prelude.{◌≡◌, ◌≢◌, ◌≤◌, ◌+◌, ◌++◌, IfOk, MatchResult, Ok, Err};
ghost use Rattle.std.specs.List.{flat_map, list_all, range_with_len};
ghost use Rattle.lf_own_scenario.specs.Topics.{count_topics, count_all};
ghost use Rattle.lf_outcome.specs.Unfolding.{joined};
ghost use Rattle.lf_own_scenario.specs.Spans.{all_spanned, is_span, is_steady, over_steps, spanned_at, unfolded};

use crate::checking::names_nodes;
use crate::members::members;
use crate::quantities::so_many;
use crate::sizes::{MOST_TOPICS, fits};
use crate::spans::is_span;
use crate::topics::count_topics;
use crate::{Scene, UnfoldError};
use lf_list::Listed;
use lf_outcome::{Formula, Formulas};
use lf_promises::Promise;
use lf_protocols::Fact;
use std::alloc::{AllocError, Global};

/// The formula that a promise is in a scenario.
///
/// At step u, which is the last one, and under `Always` and `Ever` the one that is named there:
///
/// | promise | formula |
/// |---|---|
/// | `All`, `Any` | `All` or `Any` of its parts at u, in order |
/// | `Always`, `Ever` | `Over` the steps 1 to the last, every one or some, of its parts at step 0 |
/// | the same, with `Always` or `Ever` in a part | `All` or `Any` of its parts at step 1, at step 2, and so on to the last |
/// | each of the nodes shows a fact | `All` of `Any [Down n, Shows n fact]`, for each node n of them, ascending |
/// | no node shows it | the same with the fact's opposite |
/// | some node shows it | `Any` of `Shows n fact`, for each node n, ascending |
/// | at most one shows it | `Any`, for each node n, of `All` of `Any [Down m, Shows m opposite]` for the other nodes m; `All []` where there is no node |
/// | `Down`, `At` | `Down`, `Shows` |
/// | `One` | `One` of all nodes up to the last step, under the topic's number: how many topics stand to the left of it, as `topics_in` has them |
///
/// `Over` counts the steps of its parts from each of its own, so what is said of all steps can't be a part of it.
///
/// It is refused where it names a node by its number that there isn't, and else where the formula is too large, or has more than 256 topics. How large it would
/// be, unfolded, is counted first, so nothing is made of a formula that is too large.
#[tactic(auto, unfolding(crate::specs::Spans::unfolded, crate::specs::Unfolding::asked_of, crate::specs::Unfolding::limited))]
pub fn unfold(alloc: Global, scene: &Scene, promise: &Promise) -> Result<Formula<Fact>, UnfoldError>
    ensures { MatchResult result (λ formula. unfolded scene.now promise.now ≡ Ok formula)
        (λ e. e ≢ UnfoldError.Memory → unfolded scene.now promise.now ≡ Err e) }
{
    if !names_nodes(scene.nodes, promise) {
        return Err(UnfoldError::NoNode);
    }
    if MOST_TOPICS < count_topics(promise) {
        return Err(UnfoldError::TooLarge);
    }
    if !fits(scene, promise) {
        return Err(UnfoldError::TooLarge);
    }
    match formula_at(alloc, scene, 0, promise, scene.horizon) {
        Ok(formula) => Ok(formula),
        Err(_) => Err(UnfoldError::Memory),
    }
}

/// The formula of a promise at a step, whose first topic has a number. No number may be above 255.
#[cycle(unfolding)]
fn formula_at(
    alloc: Global,
    scene: &Scene,
    first: u32,
    promise: &Promise,
    step: u32,
) -> Result<Formula<Fact>, AllocError>
    ensures { IfOk result (λ formula. first + count_topics promise.now ≤ 256 → formula ≡ spanned_at scene.now first promise.now step) }
{
    match promise {
        Promise::All(parts) => Ok(Formula::All(parts_at(
            alloc,
            scene,
            first,
            parts.as_slice(),
            step,
        )?)),
        Promise::Any(parts) => Ok(Formula::Any(parts_at(
            alloc,
            scene,
            first,
            parts.as_slice(),
            step,
        )?)),
        Promise::Always(parts) => over_steps(alloc, scene, first, true, parts.as_slice()),
        Promise::Ever(parts) => over_steps(alloc, scene, first, false, parts.as_slice()),
        Promise::Nodes { many, fact, of } => {
            let nodes = members(alloc, scene, of)?;
            so_many(alloc, *many, nodes.as_slice(), step, *fact)
        }
        Promise::Down { node } => Ok(Formula::Down { node: *node, step }),
        Promise::At { node, fact } => Ok(Formula::Shows {
            node: *node,
            step,
            fact: Fact::Ruled(*fact),
        }),
        Promise::One(_) => Ok(Formula::One {
            nodes: scene.nodes,
            last: scene.horizon,
            topic: number(first),
        }),
    }
}

/// All or some of the parts at all steps: over the span of the steps if each part is of one step, and else step by step. A topic has the same number at each.
#[cycle(unfolding)]
fn over_steps(
    alloc: Global,
    scene: &Scene,
    first: u32,
    every: bool,
    parts: &[Promise],
) -> Result<Formula<Fact>, AllocError>
    ensures { IfOk result (λ formula. first + count_all parts.now ≤ 256 → formula
        ≡ over_steps every scene.now.horizon (is_span scene.now.horizon (list_all is_steady parts.now))
        (all_spanned scene.now first parts.now 0) (flat_map (all_spanned scene.now first parts.now) (range_with_len 1 scene.now.horizon))) }
{
    if is_span(scene.horizon, parts) {
        Ok(Formula::Over {
            every,
            first: 1,
            last: scene.horizon,
            parts: parts_at(alloc, scene, first, parts, 0)?,
        })
    } else {
        let parts = parts_always(alloc, scene, first, parts)?;
        Ok(joined(every, parts))
    }
}

/// All of the parts, or some.
fn joined(every: bool, parts: Formulas<Fact>) -> Formula<Fact>
    ensures { result ≡ joined every parts }
{
    if every {
        Formula::All(parts)
    } else {
        Formula::Any(parts)
    }
}

/// The number of a topic, which is at most 255.
fn number(first: u32) -> u8
    ensures { first ≤ 255 → result ≡ first }
{
    match u8::try_from(first) {
        Ok(number) => number,
        Err(_) => u8::MAX,
    }
}

/// The formulas of parts at a step, the first topic of which has a number.
#[cycle(unfolding)]
fn parts_at(
    alloc: Global,
    scene: &Scene,
    first: u32,
    parts: &[Promise],
    step: u32,
) -> Result<Formulas<Fact>, AllocError>
    ensures { IfOk result (λ formulas. first + count_all parts.now ≤ 256 → formulas ≡ all_spanned scene.now first parts.now step) }
{
    let mut formulas = Vec::new(alloc);
    put_parts(alloc, scene, first, parts, step, &mut formulas)?;
    Ok(Listed::from_vec(formulas))
}

/// The formulas of parts at all steps. A topic has the same number at each.
#[cycle(unfolding)]
fn parts_always(
    alloc: Global,
    scene: &Scene,
    first: u32,
    parts: &[Promise],
) -> Result<Formulas<Fact>, AllocError>
    ensures { IfOk result (λ formulas. first + count_all parts.now ≤ 256 → formulas
        ≡ flat_map (all_spanned scene.now first parts.now) (range_with_len 1 scene.now.horizon)) }
{
    let mut formulas = Vec::new(alloc);
    'steps: for before in 0..scene.horizon {
        put_parts(alloc, scene, first, parts, before + 1, &mut formulas)?;
    }
    Ok(Listed::from_vec(formulas))
}

/// Puts the formulas of parts at a step behind others. The topics of each are numbered on from those to the left of it.
#[cycle(unfolding)]
fn put_parts(
    alloc: Global,
    scene: &Scene,
    first: u32,
    parts: &[Promise],
    step: u32,
    formulas: &mut Vec<Formula<Fact>>,
) -> Result<(), AllocError>
    ensures { IfOk result (λ _. first + count_all parts.now ≤ 256 → formulas.new.items ≡ formulas.old.items ++ all_spanned scene.now first parts.now step) }
{
    let mut next = first;
    'parts: for part in parts {
        let formula = formula_at(alloc, scene, next, part, step)?;
        next = next.saturating_add(count_topics(part));
        match formulas.push(formula) {
            Ok(()) => {}
            Err(_) => return Err(AllocError),
        }
    }
    Ok(())
}
