//! What can be wrong with a sweep.

ghost use Rattle.std.specs.Prelude.{◌≡◌};

use std::alloc::AllocError;
use thiserror::Error;

/// Why a text doesn't say what varies.
#[derive(Clone, Copy, Debug, PartialEq, Eq, Error)]
pub enum VaryError {
    #[error("it takes KEY=VALUES, as in patience=1..8, seed=0..99, outcome=agreement,unblocked or given.timeout=2,4")]
    NoPair,
    #[error("nothing stands before =")]
    NoPlace,
    #[error("a range takes two whole numbers, and the first is no more than the last")]
    NoRange,
    /// By its number, from 1, as below.
    #[error("value {0} is missing")]
    NoValue(u64),
    /// A value that begins with a bracket or a quote.
    #[error("value {0} begins with a bracket or a quote, but TOML reads no value up to a comma or the end; a text that begins so takes quotes")]
    Unread(u64),
    /// A value that begins otherwise.
    #[error("value {0} has a bracket or a quote further in; a text that has one takes quotes")]
    Marked(u64),
    #[error("there are more than 1000000 values")]
    TooMany,
    #[error("out of memory")]
    Memory,
}

impl From<AllocError> for VaryError {
    ghost use Rattle.lf_sweep.specs.declared.error.VaryError.TheVariants.{Memory};

    ghost from_gives = { λ _ e. e ≡ Memory };

    fn from(_error: AllocError) -> VaryError {
        VaryError::Memory
    }
}

/// Why some values can't be combined.
#[derive(Clone, Copy, Debug, PartialEq, Eq, Error)]
pub enum PlanError {
    #[error("a key is there twice")]
    Twice,
    #[error("a key stands within another: vary one of them")]
    Within,
    #[error("there are more than 1000000000 combinations")]
    TooMany,
}

/// Why a combination has no text.
#[derive(Clone, Copy, Debug, PartialEq, Eq, Error)]
pub enum TextError {
    #[error("the scenario is not TOML")]
    NoDocument,
    #[error("the scenario has a date that can't be written")]
    Date,
    #[error("out of memory")]
    Memory,
}

impl From<AllocError> for TextError {
    ghost use Rattle.lf_sweep.specs.declared.error.TextError.TheVariants.{Memory};

    ghost from_gives = { λ _ e. e ≡ Memory };

    fn from(_error: AllocError) -> TextError {
        TextError::Memory
    }
}
