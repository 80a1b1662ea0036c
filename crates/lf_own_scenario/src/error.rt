//! Why a promise is no formula.

use crate::sizes::{DEEPEST, MOST_ATOMS, MOST_TOPICS};
use thiserror::Error;

/// Why a promise is no formula in a scenario.
#[derive(Clone, Copy, Debug, PartialEq, Eq, Error)]
pub enum UnfoldError {
    #[error("the promise names a node that there isn't")]
    NoNode,
    #[error("the promise is a formula of more than {} atoms, deeper than {}, or of more than {} topics", MOST_ATOMS, DEEPEST, MOST_TOPICS)]
    TooLarge,
    #[error("out of memory")]
    Memory,
}
