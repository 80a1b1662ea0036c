//! That so many of some nodes show a fact.

ghost use Rattle.std.specs.Prelude.{◌≡◌, IfOk};
ghost use Rattle.lf_outcome.specs.Named.{shows_or_down};
ghost use Rattle.lf_promises.specs.Fronts.{opposite};
ghost use Rattle.lf_own_scenario.specs.Quantities.{each, any_of, all_but_one, where_any, so_many};

use crate::members::others;
use lf_list::Listed;
use lf_outcome::Formula;
use lf_promises::Many;
use lf_protocols::Fact;
use std::alloc::{AllocError, Global};

/// The formula that so many of the nodes show a fact at a step.
pub(crate) fn so_many(
    alloc: Global,
    many: Many,
    nodes: &[u32],
    step: u32,
    fact: lf_rule_machine::Fact,
) -> Result<Formula<Fact>, AllocError>
    ensures { IfOk result (λ formula. formula ≡ so_many many step fact nodes.now) }
{
    match many {
        Many::Each => each(alloc, nodes, step, Fact::Ruled(fact)),
        Many::No => each(alloc, nodes, step, Fact::Ruled(opposite(fact))),
        Many::Some => any_of(alloc, nodes, step, Fact::Ruled(fact)),
        Many::AtMostOne => at_most_one(alloc, nodes, step, Fact::Ruled(opposite(fact))),
    }
}

/// The opposite of a fact.
fn opposite(fact: lf_rule_machine::Fact) -> lf_rule_machine::Fact
    ensures { result ≡ opposite fact }
{
    lf_rule_machine::Fact {
        told: fact.told,
        denied: !fact.denied,
    }
}

/// Each of the nodes that is up shows the fact.
#[tactic(auto, unfolding(crate::specs::Quantities::each))]
fn each(alloc: Global, nodes: &[u32], step: u32, fact: Fact) -> Result<Formula<Fact>, AllocError>
    ensures { IfOk result (λ formula. formula ≡ each step fact nodes.now) }
{
    let mut parts = Vec::new(alloc);
    for node in nodes {
        match parts.push(shows_or_down(alloc, *node, step, fact)?) {
            Ok(()) => {}
            Err(_) => return Err(AllocError),
        }
    }
    Ok(Formula::All(Listed::from_vec(parts)))
}

/// A node isn't up, or shows the fact.
fn shows_or_down(
    alloc: Global,
    node: u32,
    step: u32,
    fact: Fact,
) -> Result<Formula<Fact>, AllocError>
    ensures { IfOk result (λ formula. formula ≡ shows_or_down step fact node) }
{
    let parts = Vec::from_array(
        alloc,
        [
            Formula::Down { node, step },
            Formula::Shows { node, step, fact },
        ],
    )?;
    Ok(Formula::Any(Listed::from_vec(parts)))
}

/// One of the nodes shows the fact.
#[tactic(auto, unfolding(crate::specs::Quantities::any_of))]
fn any_of(alloc: Global, nodes: &[u32], step: u32, fact: Fact) -> Result<Formula<Fact>, AllocError>
    ensures { IfOk result (λ formula. formula ≡ any_of step fact nodes.now) }
{
    let mut parts = Vec::new(alloc);
    for node in nodes {
        let node = *node;
        match parts.push(Formula::Shows { node, step, fact }) {
            Ok(()) => {}
            Err(_) => return Err(AllocError),
        }
    }
    Ok(Formula::Any(Listed::from_vec(parts)))
}

/// All of the nodes that are up but one show the fact, whichever that one is.
fn at_most_one(
    alloc: Global,
    nodes: &[u32],
    step: u32,
    fact: Fact,
) -> Result<Formula<Fact>, AllocError>
    ensures { IfOk result (λ formula. formula ≡ where_any nodes.now (all_but_one step fact nodes.now)) }
{
    if nodes.is_empty() {
        return Ok(Formula::All(Listed::from_vec(Vec::new(alloc))));
    }
    Ok(Formula::Any(Listed::from_vec(each_but_one(alloc, nodes, step, fact)?)))
}

/// For each of the nodes, that all others that are up show the fact.
#[tactic(auto, unfolding(crate::specs::Quantities::all_but_one))]
fn each_but_one(
    alloc: Global,
    nodes: &[u32],
    step: u32,
    fact: Fact,
) -> Result<Vec<Formula<Fact>>, AllocError>
    ensures { IfOk result (λ ways. ways.items ≡ all_but_one step fact nodes.now) }
{
    let mut parts = Vec::new(alloc);
    for node in nodes {
        let others = others(alloc, nodes, *node)?;
        match parts.push(each(alloc, others.as_slice(), step, fact)?) {
            Ok(()) => {}
            Err(_) => return Err(AllocError),
        }
    }
    Ok(parts)
}
