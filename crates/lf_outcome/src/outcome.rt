//! The named outcomes.

ghost use Rattle.std.specs.Prelude.{◌≡◌, ◌⊎◌, ◌↔◌, ℕ, true, false, List, IfOk};
ghost use Rattle.lf_faults.specs.declared.fault.Parts.{Parts};
ghost use Rattle.lf_protocols.specs.declared.fact.Fact.{Fact};
ghost use Rattle.lf_sim.specs.Runs.{World, is_up, view};
ghost use Rattle.lf_outcome.specs.Named.{AllUpShow, UpShows, each_shows, one_primary_at, durable_at, formula_of};
ghost use Rattle.lf_outcome.specs.Truth.{reaches};

use crate::Formula;
use lf_list::Listed;
use lf_protocols::Fact;
use std::alloc::{AllocError, Global};

/// An outcome with a name: a formula for so many nodes and a last step.
#[derive(Clone, Copy, Debug, PartialEq, Eq)]
pub enum Outcome {
    /// Of a delivery: all nodes that are up at the last step have the data, or all of them lack it.
    Delivered,
    /// Of a commit: no node that is up at the last step has committed, or none of them has aborted.
    Agreement,
    /// Of a commit: no node that is up at the last step is blocked.
    Unblocked,
    /// Of a primary and a backup: at the last step node 0 isn't up, or node 1 isn't, or node 1 is a backup.
    OnePrimary,
    /// Of a primary and a backup: where node 2 is up at the last step and was told that its write is done, node 0 or
    /// node 1 is up and holds it.
    Durable,
}

/// The formula of a named outcome, for so many nodes and a last step.
pub fn named(
    alloc: Global,
    outcome: Outcome,
    nodes: u32,
    horizon: u32,
) -> Result<Formula<Fact>, AllocError>
    ensures { IfOk result (λ formula. formula ≡ formula_of outcome nodes horizon) }
{
    match outcome {
        Outcome::Delivered => {
            let has = each(alloc, nodes, horizon, Fact::Has)?;
            let lacks = each(alloc, nodes, horizon, Fact::Lacks)?;
            Ok(Formula::Any(Listed::from_vec(Vec::from_array(alloc, [has, lacks])?)))
        }
        Outcome::Agreement => {
            let no_commit = each(alloc, nodes, horizon, Fact::NotCommitted)?;
            let no_abort = each(alloc, nodes, horizon, Fact::NotAborted)?;
            Ok(Formula::Any(Listed::from_vec(Vec::from_array(alloc, [no_commit, no_abort])?)))
        }
        Outcome::Unblocked => each(alloc, nodes, horizon, Fact::Free),
        Outcome::OnePrimary => one_primary(alloc, horizon),
        Outcome::Durable => durable(alloc, horizon),
    }
}

/// The formula of `OnePrimary`.
fn one_primary(alloc: Global, step: u32) -> Result<Formula<Fact>, AllocError>
    ensures { IfOk result (λ formula. formula ≡ one_primary_at step) }
{
    let fact = Fact::Backup;
    let parts = Vec::from_array(
        alloc,
        [
            Formula::Down { node: 0, step },
            Formula::Down { node: 1, step },
            Formula::Shows {
                node: 1,
                step,
                fact,
            },
        ],
    )?;
    Ok(Formula::Any(Listed::from_vec(parts)))
}

/// The formula of `Durable`.
fn durable(alloc: Global, step: u32) -> Result<Formula<Fact>, AllocError>
    ensures { IfOk result (λ formula. formula ≡ durable_at step) }
{
    let fact = Fact::Holds;
    let parts = Vec::from_array(
        alloc,
        [
            Formula::Down { node: 2, step },
            Formula::Shows {
                node: 2,
                step,
                fact: Fact::NotDone,
            },
            Formula::Shows {
                node: 0,
                step,
                fact,
            },
            Formula::Shows {
                node: 1,
                step,
                fact,
            },
        ],
    )?;
    Ok(Formula::Any(Listed::from_vec(parts)))
}

/// What `delivered` promises, for every world whose states show these facts and every list of faults: the nodes
/// that are up at the last step all have the data, or all lack it.
pub fn delivered_by_nodes<State, Note>()
    ensures { (w : World State Note Fact) (faults : List Parts) (nodes t : ℕ) →
        (reaches w faults (formula_of Outcome.Delivered nodes t) ≡ true)
        ↔ (AllUpShow w faults nodes t Fact.Has ⊎ AllUpShow w faults nodes t Fact.Lacks) }
{}

/// What `agreement` promises: of the nodes that are up at the last step none shows that it has committed, or none that
/// it has aborted.
pub fn agreement_by_nodes<State, Note>()
    ensures { (w : World State Note Fact) (faults : List Parts) (nodes t : ℕ) →
        (reaches w faults (formula_of Outcome.Agreement nodes t) ≡ true)
        ↔ (AllUpShow w faults nodes t Fact.NotCommitted ⊎ AllUpShow w faults nodes t Fact.NotAborted) }
{}

/// What `unblocked` promises: the nodes that are up at the last step are all free.
pub fn unblocked_by_nodes<State, Note>()
    ensures { (w : World State Note Fact) (faults : List Parts) (nodes t : ℕ) →
        (reaches w faults (formula_of Outcome.Unblocked nodes t) ≡ true)
        ↔ AllUpShow w faults nodes t Fact.Free }
{}

/// What `one_primary` promises: where nodes 0 and 1 are both up at the last step, node 1 is a backup.
pub fn one_primary_by_nodes<State, Note>()
    ensures { (w : World State Note Fact) (faults : List Parts) (nodes t : ℕ) →
        (reaches w faults (formula_of Outcome.OnePrimary nodes t) ≡ true)
        ↔ (is_up w faults 0 t ≡ true → is_up w faults 1 t ≡ true →
        w.rules.shows 1 (view w faults 1 t) Fact.Backup ≡ true) }
{}

/// What `durable` promises: where node 2 is up at the last step and doesn't show that it wasn't told of the end of its
/// write, node 0 is up and holds it, or node 1 is.
pub fn durable_by_nodes<State, Note>()
    ensures { (w : World State Note Fact) (faults : List Parts) (nodes t : ℕ) →
        (reaches w faults (formula_of Outcome.Durable nodes t) ≡ true)
        ↔ (is_up w faults 2 t ≡ true → w.rules.shows 2 (view w faults 2 t) Fact.NotDone ≡ false →
        (UpShows w faults 0 t Fact.Holds ⊎ UpShows w faults 1 t Fact.Holds)) }
{}

/// Every node that is up at the step shows the fact.
fn each<F: Copy>(alloc: Global, nodes: u32, step: u32, fact: F) -> Result<Formula<F>, AllocError>
    ensures { IfOk result (λ formula. formula ≡ each_shows nodes step fact) }
{
    let mut parts = Vec::new(alloc);
    for node in 0..nodes {
        let mut either = Vec::new(alloc);
        either.push(Formula::Down { node, step })?;
        either.push(Formula::Shows { node, step, fact })?;
        parts.push(Formula::Any(Listed::from_vec(either)))?;
    }
    Ok(Formula::All(Listed::from_vec(parts)))
}
