//! What stands behind `none`.

ghost use Rattle.std.specs.Prelude.{◌≡◌, ◌++◌, [], true, IfOk, codes, string_bytes};
ghost use Rattle.lf_certificate.specs.Grown.{IsReachFor};
ghost use Rattle.lf_outcome.specs.Truth.{reaches};
ghost use Rattle.lf_sim.specs.Settings.{IsRun, set_of, world_of};
ghost use Rattle.lf_why.specs.Idle.{idle_line, idle_world};
ghost use Rattle.lf_why.specs.Rests.{TellsNone, is_bare, rest_line, rest_lines};

use crate::idle::idle_keeps;
use crate::levels::push_levels;
use lf_cone::sharp;
use lf_faults::FaultSet;
use lf_outcome::{Formula, Reach, evidence};
use lf_sim::{Machine, Run, Setting, run};
use lf_tree::Tree;
use std::alloc::{AllocError, Global};

/// What stands behind `none`, where the tree is that of a search which found no set of faults: how many sets it ran, level by level; on which steps of
/// which nodes the promise rests in the run without faults, or `rests on nothing`; and `true before step 1` where nodes that do nothing keep it, too.
///
/// The error is that memory has run out.
pub fn why_none<M: Machine>(
    alloc: Global,
    setting: &Setting<M>,
    formula: &Formula<M::Fact>,
    tree: &Tree,
) -> Result<String, AllocError>
    requires { reaches (world_of setting.now) [] formula.now ≡ true }
    ensures { IfOk result (λ text. TellsNone (world_of setting.now) setting.now.spec formula.now tree.now (string_bytes text)) }
{
    let unharmed = run(alloc, setting, &FaultSet::empty())?;
    let reach = reach_of(alloc, setting, formula, &unharmed)?;
    let mut text = String::new(alloc);
    push_levels(&tree.root, setting.spec.budget(), &mut text)?;
    push_rests(setting.spec.nodes(), &reach, &mut text)?;
    push_idle(idle_keeps(setting, formula, &unharmed), &mut text)?;
    Ok(text)
}

/// The reach of what the promise rests on in the run without faults.
fn reach_of<M: Machine>(
    alloc: Global,
    setting: &Setting<M>,
    formula: &Formula<M::Fact>,
    unharmed: &Run<M>,
) -> Result<Reach, AllocError>
    requires run { IsRun (world_of setting.now) unharmed.now }
    requires set { set_of unharmed.now ≡ [] }
    requires reaching { reaches (world_of setting.now) [] formula.now ≡ true }
    ensures { IfOk result (IsReachFor (world_of setting.now) setting.now.spec formula.now []) }
{
    let found = evidence(alloc, setting, formula, unharmed)?;
    let Some(points) = found else { unreachable!() };
    Ok(sharp(setting, unharmed, points.as_slice()))
}

/// Adds on which steps of which of so many nodes the promise rests.
fn push_rests(nodes: u32, reach: &Reach, text: &mut String) -> Result<(), AllocError>
    ensures { IfOk result (λ _. string_bytes text.new ≡ string_bytes text.old ++ rest_lines nodes reach.now) }
{
    if is_bare(reach) {
        return text.push_str("rests on nothing\n");
    }
    'nodes: for node in 0..nodes {
        push_rest(node, reach.at(node), text)?;
    }
    Ok(())
}

/// Whether no node counts at any step.
fn is_bare(reach: &Reach) -> bool
    ensures { result ≡ is_bare reach.now }
{
    reach.items().iter().all(|step| *step == 0)
}

/// Adds up to which step of a node the promise rests.
fn push_rest(node: u32, step: u32, text: &mut String) -> Result<(), AllocError>
    ensures { IfOk result (λ _. string_bytes text.new ≡ string_bytes text.old ++ rest_line node step) }
{
    if step == 0 {
        writeln!(text, "rests on no step of node {node}")
    } else {
        writeln!(text, "rests on node {node} up to step {step}")
    }
}

/// Adds that nodes that do nothing keep the promise, where they do.
fn push_idle(kept: bool, text: &mut String) -> Result<(), AllocError>
    ensures { IfOk result (λ _. string_bytes text.new ≡ string_bytes text.old ++ idle_line kept) }
{
    if kept {
        text.push_str("true before step 1\n")
    } else {
        Ok(())
    }
}
