//! Refutation trees.

use lf_faults::{Fault, FaultSet};
use lf_list::Listed;
use lf_outcome::Reach;

/// A refutation tree, as a search hands it out and a checker judges it.
///
/// Its root stands for the empty set of faults. Nothing here says that the tree is right.
#[derive(Debug, Drop)]
pub struct Tree {
    /// The set of faults that is said to be the answer, or None where every allowed set is said to reach the outcome.
    pub answer: Option<FaultSet>,
    /// What is said of the empty set of faults.
    pub root: Node,
}

/// What is said of one set of faults.
#[derive(Debug, Drop)]
#[cycle(node)]
pub enum Node {
    /// The run of the set misses the outcome.
    Misses,
    /// The run of the set reaches the outcome.
    Reaches,
    /// The run of the set reaches the outcome, which rests on nothing past `reach`. A larger set that misses it holds one
    /// of `edges`. The kid at a place stands for the set with the edge at that place.
    Branch {
        reach: Reach,
        edges: Edges,
        kids: Kids,
    },
}

/// The faults that lead from a set to its kids.
pub type Edges = Listed<Fault>;

/// The nodes beneath a branch.
pub type Kids = Listed<Node>;
