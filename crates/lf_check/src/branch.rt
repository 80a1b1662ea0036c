//! Branches.

ghost use Rattle.std.specs.Prelude.{◌≡◌, ◌↔◌, length, IsTrue, IfOk, MatchOption};
ghost use Rattle.std.specs.List.{Contains};
ghost use Rattle.lf_check.specs.Nodes.{FirstOfBranch, FirstOfEdges, FirstOfReach};
ghost use Rattle.lf_certificate.specs.Accepted.{IsRightBranch};
ghost use Rattle.lf_certificate.specs.Faults.{Suffices};
ghost use Rattle.lf_cone.specs.Cones.{AreRequired, IsClosed, IsRequired};
ghost use Rattle.lf_faults.specs.declared.fault.Parts.{Parts};
ghost use Rattle.lf_sim.specs.Settings.{IsRun, set_of, world_of};

use crate::same::are_same;
use crate::site::{Judged, Site};
use lf_certificate::Reason;
use lf_cone::{is_closed, put_edges};
use lf_faults::Fault;
use lf_outcome::{Reach, holds, holds_within};
use lf_sim::{Machine, Run, Setting};
use lf_tree::Node;
use std::alloc::AllocError;

/// A branch as it stands in a tree.
#[derive(Clone, Copy)]
pub(crate) struct Branch<'a> {
    pub(crate) reach: &'a Reach,
    pub(crate) edges: &'a [Fault],
    pub(crate) kids: &'a [Node],
}

/// What is wrong first with a branch where it stands. None where it is right.
///
/// The list of required edges is used as memory.
pub(crate) fn branch_fault<M: Machine>(
    judged: &Judged<'_, M>,
    branch: Branch<'_>,
    site: &Site<'_, M>,
    required: &mut Vec<Fault>,
) -> Result<Option<Reason>, AllocError>
    requires { IsRun (world_of judged.now.setting.now) site.now.run.now }
    ensures { IfOk result (λ found. MatchOption found
        (IsRightBranch (world_of judged.now.setting.now) judged.now.setting.now.spec judged.now.formula.now judged.now.last
        site.now.depth (set_of site.now.run.now) site.now.excluded.now branch.entry.reach.now branch.entry.edges.now
        branch.entry.kids.now)
        (FirstOfBranch (world_of judged.now.setting.now) judged.now.setting.now.spec judged.now.formula.now judged.now.last
        site.now.depth (set_of site.now.run.now) site.now.excluded.now branch.entry.reach.now branch.entry.edges.now
        branch.entry.kids.now)) }
{
    if site.depth >= judged.last {
        return Ok(Some(Reason::WrongDepth));
    }
    if !holds(judged.setting, judged.formula, site.run) {
        return Ok(Some(Reason::BranchMisses));
    }
    if let Some(reason) = reach_fault(judged, site.run, branch.reach) {
        return Ok(Some(reason));
    }
    if let Some(reason) = edges_fault(judged.setting, branch, site, required)? {
        return Ok(Some(reason));
    }
    if !has_each_kid(branch) {
        return Ok(Some(Reason::KidsDiffer));
    }
    Ok(None)
}

/// What is wrong first with the reach of a branch of the run's set. None where it is right.
fn reach_fault<M: Machine>(judged: &Judged<'_, M>, run: &Run<M>, reach: &Reach) -> Option<Reason>
    requires { IsRun (world_of judged.now.setting.now) run.now }
    ensures { MatchOption result
        (Suffices (world_of judged.now.setting.now) judged.now.formula.now (set_of run.now) reach.now
        × IsClosed (world_of judged.now.setting.now) (set_of run.now) reach.now)
        (FirstOfReach (world_of judged.now.setting.now) judged.now.formula.now (set_of run.now) reach.now) }
{
    if !suffices(judged, run, reach) {
        return Some(Reason::ReachFallsShort);
    }
    if !is_closed(judged.setting, run, reach) {
        return Some(Reason::ReachNotClosed);
    }
    None
}

/// What is wrong first with the edges of a branch where it stands. None where they are the required ones, in order.
///
/// The list of required edges is used as memory.
fn edges_fault<M: Machine>(
    setting: &Setting<M>,
    branch: Branch<'_>,
    site: &Site<'_, M>,
    required: &mut Vec<Fault>,
) -> Result<Option<Reason>, AllocError>
    requires { IsRun (world_of setting.now) site.now.run.now }
    ensures { IfOk result (λ found. MatchOption found
        (AreRequired (world_of setting.now) (set_of site.now.run.now) setting.now.spec branch.entry.reach.now
        site.now.excluded.now branch.entry.edges.now)
        (FirstOfEdges (world_of setting.now) setting.now.spec (set_of site.now.run.now) site.now.excluded.now
        branch.entry.reach.now branch.entry.edges.now)) }
{
    put_edges(setting, site.run, branch.reach, site.excluded, required)?;
    if are_same(branch.edges, required.as_slice()) {
        return Ok(None);
    }
    let all = tries_all(setting, branch, site, required)?;
    if all {
        return Ok(Some(Reason::EdgesDiffer));
    }
    Ok(Some(Reason::EdgeMissing))
}

/// Whether a branch has a kid for each of its edges.
fn has_each_kid(branch: Branch<'_>) -> bool
    ensures { IsTrue result ↔ (length branch.entry.kids.now ≡ length branch.entry.edges.now) }
{
    branch.kids.len() == branch.edges.len()
}

/// Whether the reach has a number for each node, up to the horizon, and the outcome is true within it.
fn suffices<M: Machine>(judged: &Judged<'_, M>, run: &Run<M>, reach: &Reach) -> bool
    requires { IsRun (world_of judged.now.setting.now) run.now }
    ensures { IsTrue result
        ↔ Suffices (world_of judged.now.setting.now) judged.now.formula.now (set_of run.now) reach.now }
{
    if !reach.has_form(judged.setting.spec.nodes(), judged.setting.spec.horizon()) {
        return false;
    }
    holds_within(judged.setting, judged.formula, run, reach)
}

/// Whether each required edge is among the branch's edges, in whatever order: then none is required beside them.
fn tries_all<M: Machine>(
    setting: &Setting<M>,
    branch: Branch<'_>,
    site: &Site<'_, M>,
    required: &mut Vec<Fault>,
) -> Result<bool, AllocError>
    requires { IsRun (world_of setting.now) site.now.run.now }
    ensures { IfOk result (λ all. IsTrue all ↔
        ((f : Parts) → IsRequired (world_of setting.now) (set_of site.now.run.now) setting.now.spec branch.entry.reach.now
        site.now.excluded.now f → Contains branch.entry.edges.now f)) }
{
    let mut passed = Vec::new(*required.allocator());
    passed.extend_from_slice(site.excluded)?;
    passed.extend_from_slice(branch.edges)?;
    put_edges(setting, site.run, branch.reach, passed.as_slice(), required)?;
    Ok(required.is_empty())
}
