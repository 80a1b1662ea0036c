//! What is excluded at one node of a tree after another.

ghost use Rattle.std.specs.Prelude.{◌≡◌, ◌<◌, ◌≤◌, ◌++◌, List, ℕ, length, drop, take, vec_len, IfOk, OnOk, Some};
ghost use Rattle.lf_certificate.specs.Places.{Place};
ghost use Rattle.lf_check.specs.Rows.{ArePlaces, ExcludesAt, IsExcluded, StandsAt, edges_of};
ghost use Rattle.lf_tree.specs.declared.tree.Tree.{Tree};

use crate::listing::{above, edges_before, put_excluded};
use crate::places::Places;
use lf_faults::Fault;
use lf_tree::Node;
use std::alloc::{AllocError, Global};

/// What is excluded at one node of a tree after another. From a kid of a branch to a later one it adds only the edges between
/// the two, and elsewhere it starts anew.
#[derive(Drop)]
pub(crate) struct Excluded {
    faults: Vec<Fault>,
    /// The kid that was gone to last. None at first, and at the root.
    last: Option<Kid>,
}

/// A kid of a branch.
#[derive(Clone, Copy, Drop)]
struct Kid {
    /// The place of the branch in the list of all nodes.
    branch: usize,
    /// The place of the kid among its siblings.
    kid: usize,
}

impl Excluded {
    /// The start: no node was gone to.
    pub(crate) fn new(alloc: Global) -> Excluded
        ensures { (tree : Tree) → IsExcluded tree result }
    {
        Excluded {
            faults: Vec::new(alloc),
            last: None,
        }
    }

    /// What is excluded at the node that was gone to last.
    pub(crate) fn faults(&self) -> &[Fault]
        ensures { result.now ≡ self.now.faults.items }
    {
        self.faults.as_slice()
    }

    /// Goes to the node at a place of the list.
    pub(crate) fn go_to(&mut self, places: &Places<'_>, at: usize) -> Result<(), AllocError>
        requires places { ArePlaces places.now }
        requires at { at < vec_len places.now.rows }
        requires before { IsExcluded places.now.tree.now self.old }
        ensures here { OnOk result ((way : List ℕ) (p : Place) → StandsAt places.now.tree.now at way p →
            self.new.faults.items ≡ p.excluded) }
        ensures after { OnOk result (IsExcluded places.now.tree.now self.new) }
    {
        let rows = places.rows.as_slice();
        match above(places.tree, rows, at) {
            Some(branch) => self.go_to_kid(places, branch, rows[at].kid),
            None => {
                self.faults.clear();
                self.last = None;
                Ok(())
            }
        }
    }

    /// Goes to a kid of the branch at a place of the list.
    fn go_to_kid(
        &mut self,
        places: &Places<'_>,
        branch: usize,
        kid: usize,
    ) -> Result<(), AllocError>
        requires places { ArePlaces places.now }
        requires branch { branch < vec_len places.now.rows }
        requires before { IsExcluded places.now.tree.now self.old }
        ensures here { OnOk result (ExcludesAt places.now.tree.now branch kid self.new.faults.items) }
        ensures last { OnOk result (self.new.last ≡ Some (record { branch = branch; kid = kid })) }
    {
        let taken = self.start(places, branch, kid)?;
        let node = places.rows[branch].node;
        self.faults
            .extend_from_slice(edges_between(node, taken, kid))?;
        self.last = Some(Kid { branch, kid });
        Ok(())
    }

    /// Stands at a kid of the branch that is no later than this one, and answers its place among its siblings: the kid that was
    /// gone to last, if it was one of this branch, and else the first.
    fn start(&mut self, places: &Places<'_>, branch: usize, kid: usize) -> Result<usize, AllocError>
        requires places { ArePlaces places.now }
        requires branch { branch < vec_len places.now.rows }
        requires before { IsExcluded places.now.tree.now self.old }
        ensures up_to { IfOk result (λ taken. taken ≤ kid) }
        ensures here { IfOk result (λ taken. ExcludesAt places.now.tree.now branch taken self.new.faults.items) }
    {
        if let Some(last) = self.last {
            if last.branch == branch && last.kid <= kid {
                return Ok(last.kid);
            }
        }
        self.faults.clear();
        put_excluded(places, branch, &mut self.faults)?;
        Ok(0)
    }
}

/// The edges of a node from one place to before another.
fn edges_between(node: &Node, from: usize, to: usize) -> &[Fault]
    ensures { result.now ≡ drop from (take to (edges_of node.now)) }
{
    let edges = edges_before(node, to);
    if edges.len() <= from {
        return &[];
    }
    &edges[from..]
}
