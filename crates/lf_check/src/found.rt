//! What is found where the nodes of a tree are judged one after another.

use lf_certificate::Reason;
use lf_faults::FaultSet;

/// What is found from one node of a tree to another.
#[derive(Clone, Copy, Debug)]
pub(crate) enum Found {
    /// The first that fails, by its place in the list of all nodes, and what is wrong with it first.
    Fails { at: usize, reason: Reason },
    /// None fails: the first, in the order of sets, of the sets at the last depth that miss.
    Passes { first: Option<FaultSet> },
}
