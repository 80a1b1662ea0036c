//! The nodes of a tree, one after another, each with the set of which it speaks.

use lf_faults::FaultSet;
use lf_tree::{Row, Tree};

/// All nodes of a tree.
#[derive(Debug, Drop)]
pub(crate) struct Places<'a> {
    pub(crate) tree: &'a Tree,
    /// The root first, and then each kid in order, with all that is beneath it.
    pub(crate) rows: Vec<Row<'a>>,
    /// The set of each node. None where no edge leads to the node, or something is plainly wrong with a branch above it: an edge
    /// that can't be added to its set, or more edges than there are faults.
    pub(crate) sets: Vec<Option<FaultSet>>,
}
