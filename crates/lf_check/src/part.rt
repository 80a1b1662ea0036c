//! The nodes of a part of a tree, judged one after another.

ghost use Rattle.std.specs.Prelude.{◌≡◌, ℕ, ◌+◌, ◌<◌, ◌≤◌, List, length, slice_get, vec_len, IfOk, IfSome, OnOk, MatchOption, Some};
ghost use Rattle.lf_certificate.specs.Places.{Place};
ghost use Rattle.lf_check.specs.Nodes.{IsFaultAt};
ghost use Rattle.lf_check.specs.Rows.{ArePlaces, IsExcluded, IsFound, StandsAt};
ghost use Rattle.lf_check.specs.Walks.{Lowers};
ghost use Rattle.lf_sim.specs.Settings.{IsRun, world_of};

use crate::excluded::Excluded;
use crate::found::Found;
use crate::node::node_fault;
use crate::places::Places;
use crate::site::{Judged, Site};
use crate::walk::{lowered, run_of};
use lf_certificate::Reason;
use lf_faults::{Fault, FaultSet};
use lf_sim::{Machine, Run};
use lf_tree::Node;
use std::alloc::{AllocError, Global};

/// How many nodes are judged by one run, that of one set after another.
pub(crate) const PART: usize = 256;

/// The first of two sets, where there are any.
pub(crate) fn lower(first: Option<FaultSet>, other: Option<FaultSet>) -> Option<FaultSet>
    ensures { MatchOption other (result ≡ first) (λ set. Lowers (λ one. set ≡ one) first result) }
{
    match other {
        Some(set) => lowered(first, set),
        None => first,
    }
}

/// The memory that is used again from node to node.
#[derive(Drop)]
struct Memory<M: Machine> {
    /// The run of the set that was run last, of which the next run is made.
    spent: Option<Run<M>>,
    /// Memory for required edges.
    required: Vec<Fault>,
    /// What is excluded at the node that was judged last.
    excluded: Excluded,
}

/// What is found in the nodes of one part, which starts at a place of the list.
pub(crate) fn found_from<M: Machine>(
    alloc: Global,
    judged: &Judged<'_, M>,
    places: &Places<'_>,
    from: usize,
) -> Result<Found, AllocError>
    requires places { ArePlaces places.now }
    requires from { from ≤ vec_len places.now.rows }
    ensures { IfOk result (IsFound (world_of judged.now.setting.now) judged.now.setting.now.spec judged.now.formula.now
        judged.now.last places.now.tree.now places.now.sets.items from (from + 256)) }
{
    let mut memory = Memory {
        spent: None,
        required: Vec::new(alloc),
        excluded: Excluded::new(alloc),
    };
    let to = end_of(places.rows.len(), from);
    found_within(alloc, judged, places, from, to, &mut memory)
}

/// What is found in the nodes from one place of the list to before another.
fn found_within<M: Machine>(
    alloc: Global,
    judged: &Judged<'_, M>,
    places: &Places<'_>,
    from: usize,
    to: usize,
    memory: &mut Memory<M>,
) -> Result<Found, AllocError>
    requires places { ArePlaces places.now }
    requires order { from ≤ to }
    requires within { to ≤ vec_len places.now.rows }
    requires excluded { IsExcluded places.now.tree.now memory.old.excluded }
    requires spent { IfSome memory.old.spent (IsRun (world_of judged.now.setting.now)) }
    ensures { IfOk result (IsFound (world_of judged.now.setting.now) judged.now.setting.now.spec judged.now.formula.now
        judged.now.last places.now.tree.now places.now.sets.items from to) }
{
    let mut first = None;
    for at in from..to {
        match found_at(alloc, judged, places, at, memory)? {
            Found::Fails { at, reason } => return Ok(Found::Fails { at, reason }),
            Found::Passes { first: other } => first = lower(first, other),
        }
    }
    Ok(Found::Passes { first })
}

/// Where the part ends that starts at a place of a list.
fn end_of(len: usize, from: usize) -> usize
    requires { from ≤ len }
    ensures start { from ≤ result }
    ensures within { result ≤ len }
    ensures near { result ≤ from + 256 }
    ensures whole { result < from + 256 → result ≡ len }
{
    if len - from < PART {
        return len;
    }
    from + PART
}

/// What is found in one node.
fn found_at<M: Machine>(
    alloc: Global,
    judged: &Judged<'_, M>,
    places: &Places<'_>,
    at: usize,
    memory: &mut Memory<M>,
) -> Result<Found, AllocError>
    requires places { ArePlaces places.now }
    requires at { at < vec_len places.now.rows }
    requires excluded { IsExcluded places.now.tree.now memory.old.excluded }
    requires spent { IfSome memory.old.spent (IsRun (world_of judged.now.setting.now)) }
    ensures found { IfOk result (IsFound (world_of judged.now.setting.now) judged.now.setting.now.spec judged.now.formula.now
        judged.now.last places.now.tree.now places.now.sets.items at (at + 1)) }
    ensures excluded { OnOk result (IsExcluded places.now.tree.now memory.new.excluded) }
    ensures spent { IfSome memory.new.spent (IsRun (world_of judged.now.setting.now)) }
{
    let Some(set) = places.sets[at] else {
        return Ok(Found::Passes { first: None });
    };
    if let Some(reason) = fault_at(alloc, judged, places, at, &set, memory)? {
        return Ok(Found::Fails { at, reason });
    }
    let first = match places.rows[at].node {
        Node::Misses => Some(set),
        Node::Reaches => None,
        Node::Branch { .. } => None,
    };
    Ok(Found::Passes { first })
}

/// What is wrong first with a node of a set, whatever stands beneath it.
fn fault_at<M: Machine>(
    alloc: Global,
    judged: &Judged<'_, M>,
    places: &Places<'_>,
    at: usize,
    set: &FaultSet,
    memory: &mut Memory<M>,
) -> Result<Option<Reason>, AllocError>
    requires places { ArePlaces places.now }
    requires at { at < vec_len places.now.rows }
    requires set { slice_get places.now.sets.items at ≡ Some (Some set.now) }
    requires excluded { IsExcluded places.now.tree.now memory.old.excluded }
    requires spent { IfSome memory.old.spent (IsRun (world_of judged.now.setting.now)) }
    ensures fault { IfOk result (λ found. (way : List ℕ) (p : Place) → StandsAt places.now.tree.now at way p →
        IsFaultAt (world_of judged.now.setting.now) judged.now.setting.now.spec judged.now.formula.now judged.now.last
        (length way) p found) }
    ensures excluded { OnOk result (IsExcluded places.now.tree.now memory.new.excluded) }
    ensures spent { IfSome memory.new.spent (IsRun (world_of judged.now.setting.now)) }
{
    memory.excluded.go_to(places, at)?;
    let run = run_of(alloc, judged.setting, set, memory.spent.take())?;
    let site = Site {
        run: &run,
        depth: set.len() as u32,
        excluded: memory.excluded.faults(),
    };
    let found = node_fault(judged, places.rows[at].node, &site, &mut memory.required);
    memory.spent = Some(run);
    found
}
