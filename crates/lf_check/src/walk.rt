//! The walk over a tree: the root first, and then each kid in order, with all that is beneath it.

ghost use Rattle.std.specs.Prelude.{◌≡◌, ℕ, ◌<◌, ◌++◌, ◌∷◌, [], length, slice_get, IfOk, IfSome, OnOk, Some};
ghost use Rattle.std.specs.List.{Contains};
ghost use Rattle.lf_check.specs.Nodes.{IsFaultAt, place_of};
ghost use Rattle.lf_check.specs.Walks.{IsWalkFrom, IsWalkOver, Lowers, kid_of, stand_of};
ghost use Rattle.lf_faults.specs.Allowed.{CanAdd};
ghost use Rattle.lf_faults.specs.declared.fault.Parts.{Parts};
ghost use Rattle.lf_sim.specs.Settings.{IsRun, set_of, world_of};

use crate::node::node_fault;
use crate::site::{Judged, Site};
use lf_certificate::Reason;
use lf_faults::{Fault, FaultSet, with};
use lf_sim::{Machine, Run, Setting, rerun, run};
use lf_tree::Node;
use std::alloc::{AllocError, Global};

/// Where a walk stands, and the memory that it uses again.
#[derive(Drop)]
pub(crate) struct Walk<M: Machine> {
    /// The run of the set that was run last, of which the next run is made.
    spent: Option<Run<M>>,
    /// Memory for required edges.
    required: Vec<Fault>,
    /// What is excluded where the walk stands.
    excluded: Vec<Fault>,
    /// The way from the root to where the walk stands, or to what is wrong.
    pub(crate) path: Vec<usize>,
    /// The first, in the order of sets, of the sets at the last depth that miss, of those met so far.
    pub(crate) first: Option<FaultSet>,
}

impl<M: Machine> Walk<M> {
    ghost use Rattle.std.specs.Prelude.{None};
    ghost use Rattle.lf_sim.specs.Runs.{World};

    /// A walk that stands at the root and has met nothing.
    pub(crate) fn new(alloc: Global) -> Walk<M>
        ensures stand { stand_of result ≡ record { excluded = []; path = []; first = None } }
        ensures spent { (w : World M.State M.Note M.Fact) → IfSome result.spent (IsRun w) }
    {
        Walk {
            spent: None,
            required: Vec::new(alloc),
            excluded: Vec::new(alloc),
            path: Vec::new(alloc),
            first: None,
        }
    }
}

/// The first of a set that misses and of the one that was the first before, if there was one.
pub(crate) fn lowered(first: Option<FaultSet>, set: FaultSet) -> Option<FaultSet>
    ensures { Lowers (λ other. set ≡ other) first result }
{
    match first {
        Some(least) => {
            if set.is_before(&least) {
                Some(set)
            } else {
                first
            }
        }
        None => Some(set),
    }
}

/// The run of a set. It is made of one of the same setting that is no longer needed, if there is one.
pub(crate) fn run_of<M: Machine>(
    alloc: Global,
    setting: &Setting<M>,
    set: &FaultSet,
    spent: Option<Run<M>>,
) -> Result<Run<M>, AllocError>
    requires { IfSome spent (IsRun (world_of setting.now)) }
    ensures run { IfOk result (IsRun (world_of setting.now)) }
    ensures set { IfOk result (λ run. set_of run ≡ set.now) }
{
    match spent {
        Some(mut spent) => {
            rerun(setting, &mut spent, set);
            Ok(spent)
        }
        None => run(alloc, setting, set),
    }
}

/// Judges what stands at a node of a set, with `depth` branches above it, and all beneath it: what is wrong with it first,
/// with the way there on the walk's path. None where all of it is right: then the sets that miss have been met.
///
/// It goes no further down than the last depth. The error is that memory has run out.
#[cycle(visit)]
pub(crate) fn visit<M: Machine>(
    alloc: Global,
    judged: &Judged<'_, M>,
    walk: &mut Walk<M>,
    node: &Node,
    set: FaultSet,
    depth: u32,
) -> Result<Option<Reason>, AllocError>
    requires spent { IfSome walk.old.spent (IsRun (world_of judged.now.setting.now)) }
    ensures walk { IfOk result (IsWalkFrom (world_of judged.now.setting.now) judged.now.setting.now.spec judged.now.formula.now
        judged.now.last depth (place_of node.now set walk.old.excluded.items) (stand_of walk.old) (stand_of walk.new)) }
    ensures spent { IfSome walk.new.spent (IsRun (world_of judged.now.setting.now)) }
{
    let fault = fault_of(alloc, judged, walk, node, &set, depth)?;
    if fault.is_some() {
        return Ok(fault);
    }
    match node {
        Node::Misses => {
            walk.first = lowered(walk.first, set);
            Ok(None)
        }
        Node::Reaches => Ok(None),
        Node::Branch { edges, kids, .. } => {
            visit_kids(
                alloc,
                judged,
                walk,
                edges.as_slice(),
                kids.as_slice(),
                set,
                depth,
            )
        }
    }
}

/// The same of the kids of a branch that is right itself: each is of the set with one edge more, and the edges before its
/// own are excluded beneath it.
#[cycle(visit)]
fn visit_kids<M: Machine>(
    alloc: Global,
    judged: &Judged<'_, M>,
    walk: &mut Walk<M>,
    edges: &[Fault],
    kids: &[Node],
    set: FaultSet,
    depth: u32,
) -> Result<Option<Reason>, AllocError>
    requires above { depth < judged.now.last }
    requires each { (f : Parts) → Contains edges.now f → CanAdd judged.now.setting.now.spec set f }
    requires count { length kids.now ≡ length edges.now }
    requires spent { IfSome walk.old.spent (IsRun (world_of judged.now.setting.now)) }
    ensures walk { IfOk result (IsWalkOver (world_of judged.now.setting.now) judged.now.setting.now.spec judged.now.formula.now
        judged.now.last depth (kid_of edges.now kids.now set walk.old.excluded.items) (length edges.now) (stand_of walk.old)
        (stand_of walk.new)) }
    ensures spent { IfSome walk.new.spent (IsRun (world_of judged.now.setting.now)) }
{
    let before = walk.excluded.len();
    'kids: for (i, kid) in kids.iter().enumerate() {
        let edge = edges[i];
        let larger = with(&judged.setting.spec, &set, edge);
        go_to(&mut walk.path, i)?;
        let found = visit(alloc, judged, walk, kid, larger, depth + 1)?;
        if found.is_some() {
            return Ok(found);
        }
        let _place = walk.path.pop();
        exclude(&mut walk.excluded, edges, i)?;
    }
    walk.excluded.truncate(before);
    Ok(None)
}

/// What is wrong first with what stands at a node of a set, whatever stands beneath it. The walk stands where it stood.
fn fault_of<M: Machine>(
    alloc: Global,
    judged: &Judged<'_, M>,
    walk: &mut Walk<M>,
    node: &Node,
    set: &FaultSet,
    depth: u32,
) -> Result<Option<Reason>, AllocError>
    requires { IfSome walk.old.spent (IsRun (world_of judged.now.setting.now)) }
    ensures fault { IfOk result (IsFaultAt (world_of judged.now.setting.now) judged.now.setting.now.spec
        judged.now.formula.now judged.now.last depth (place_of node.now set.now walk.old.excluded.items)) }
    ensures stand { stand_of walk.new ≡ stand_of walk.old }
    ensures spent { IfSome walk.new.spent (IsRun (world_of judged.now.setting.now)) }
{
    let run = run_of(alloc, judged.setting, set, walk.spent.take())?;
    let site = Site {
        run: &run,
        depth,
        excluded: walk.excluded.as_slice(),
    };
    let fault = node_fault(judged, node, &site, &mut walk.required);
    walk.spent = Some(run);
    fault
}

/// Goes on to a kid, by its place.
fn go_to(path: &mut Vec<usize>, kid: usize) -> Result<(), AllocError>
    ensures { OnOk result (path.new.items ≡ path.old.items ++ kid ∷ []) }
{
    path.push(kid)?;
    Ok(())
}

/// Excludes the edge to a kid, for the kids after it.
fn exclude(excluded: &mut Vec<Fault>, edges: &[Fault], kid: usize) -> Result<(), AllocError>
    requires { kid < length edges.now }
    ensures { OnOk result ((edge : Parts) → slice_get edges.now kid ≡ Some edge →
        excluded.new.items ≡ excluded.old.items ++ edge ∷ []) }
{
    excluded.push(edges[kid])?;
    Ok(())
}
