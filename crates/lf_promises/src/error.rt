//! Why tokens are no promise.

use lf_grammar::Slip;
use thiserror::Error;

/// Why tokens are no promise.
#[derive(Clone, Copy, Debug, PartialEq, Eq, Error)]
pub enum PromiseError {
    #[error("no promise, which has units as `each FACT`, `no FACT of SET`, `some FACT`, `at most one FACT`, `down NODE`, `FACT at NODE` and `one value of X`")]
    Unfit(Slip),
    #[error("out of memory")]
    Memory,
}
