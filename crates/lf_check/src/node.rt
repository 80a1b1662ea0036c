//! Nodes.

ghost use Rattle.std.specs.Prelude.{IfOk};
ghost use Rattle.lf_check.specs.Nodes.{IsFaultAt, place_of};
ghost use Rattle.lf_sim.specs.Settings.{IsRun, set_of, world_of};

use crate::branch::{Branch, branch_fault};
use crate::leaf::leaf_fault;
use crate::site::{Judged, Site};
use lf_certificate::Reason;
use lf_faults::Fault;
use lf_sim::Machine;
use lf_tree::Node;
use std::alloc::AllocError;

/// What is wrong first with a node where it stands. None where it is right, whatever stands beneath it.
///
/// The list of required edges is used as memory: what it holds doesn't matter, before and after. The error is that memory
/// has run out.
pub(crate) fn node_fault<M: Machine>(
    judged: &Judged<'_, M>,
    node: &Node,
    site: &Site<'_, M>,
    required: &mut Vec<Fault>,
) -> Result<Option<Reason>, AllocError>
    requires { IsRun (world_of judged.now.setting.now) site.now.run.now }
    ensures { IfOk result (IsFaultAt (world_of judged.now.setting.now) judged.now.setting.now.spec judged.now.formula.now
        judged.now.last site.now.depth (place_of node.now (set_of site.now.run.now) site.now.excluded.now)) }
{
    match node {
        Node::Misses => Ok(leaf_fault(judged, site, false)),
        Node::Reaches => Ok(leaf_fault(judged, site, true)),
        Node::Branch { reach, edges, kids } => {
            let branch = Branch {
                reach,
                edges: edges.as_slice(),
                kids: kids.as_slice(),
            };
            branch_fault(judged, branch, site, required)
        }
    }
}
