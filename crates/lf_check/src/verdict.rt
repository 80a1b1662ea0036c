//! What a checker says.

use lf_certificate::Reason;

/// What a checker says of a tree.
#[derive(Debug, Drop)]
pub enum Verdict {
    /// The tree is accepted, so its answer is the answer.
    Yes,
    /// The tree isn't accepted: what is wrong with it first, and the way from the root to where that is, as the places of
    /// kids, from 0.
    No { reason: Reason, path: Vec<usize> },
}
