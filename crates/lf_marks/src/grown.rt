//! What an answer brings.

ghost use Rattle.std.specs.Prelude.{◌≡◌, ◌≤◌, [], IfOk, length};
ghost use Rattle.lf_marks.specs.Branches.{IsFresh};

use crate::set::Branch;
use lf_faults::Fault;
use lf_outcome::Reach;
use lf_tree::Edges;
use std::alloc::{AllocError, Global};

/// The reach and the edges of a set that reaches the outcome. Whoever works the set makes it, so that the tree of marks need
/// take no memory for the answer.
#[derive(Drop)]
pub struct Grown {
    pub(crate) branch: Box<Branch>,
    ghost fresh: { IsFresh branch.value },
}

impl Grown {
    ghost use Rattle.lf_marks.specs.Answers.{reach_of, edges_of};

    /// A branch with this reach and these edges, at most 65,535, and no kids that were taken.
    pub fn new(alloc: Global, reach: Reach, edges: Edges) -> Result<Grown, AllocError>
        requires { length edges ≤ 65535 }
        ensures reach { IfOk result (λ g. reach_of g ≡ reach) }
        ensures edges { IfOk result (λ g. edges_of g ≡ edges) }
    {
        let branch = Box::new(
            alloc,
            Branch {
                reach,
                edges,
                first: 0,
                kids: Vec::new(alloc),
            },
        )?;
        Ok(Grown { branch })
    }

    /// What the outcome rests on.
    pub fn reach(&self) -> &Reach
        ensures { result.now ≡ reach_of self.now }
    {
        &self.branch.reach
    }

    /// The faults that lead to the kids.
    pub fn edges(&self) -> &[Fault]
        ensures { result.now ≡ edges_of self.now }
    {
        self.branch.edges.as_slice()
    }
}

/// What became of a set that was claimed.
#[derive(Drop)]
pub enum Answer {
    /// Its run misses the outcome.
    Misses,
    /// Its run reaches the outcome, and nothing more is asked.
    Reaches,
    /// Its run reaches the outcome, and a kid stands beneath it for each edge.
    Branch(Grown),
}
