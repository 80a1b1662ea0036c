//! Why a text has no tokens.

ghost use Rattle.std.specs.Prelude.{◌≡◌};

use std::alloc::AllocError;
use thiserror::Error;

/// Why a text can't be read as tokens.
#[derive(Clone, Copy, Debug, PartialEq, Eq, Error)]
pub enum TokenError {
    #[error("a character that begins no number, no word and no sign")]
    Stray,
    #[error("a number over 255")]
    TooLarge,
    #[error("more than 160 numbers, words and signs")]
    TooMany,
    #[error("more than 12 brackets that are open at once")]
    TooDeep,
    #[error("out of memory")]
    Memory,
}

impl From<AllocError> for TokenError {
    ghost use Rattle.lf_grammar.specs.declared.token_error.TokenError.TheVariants.{Memory};

    ghost from_gives = { λ _ fault. fault ≡ Memory };

    fn from(_: AllocError) -> TokenError {
        TokenError::Memory
    }
}
