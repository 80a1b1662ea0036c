//! Why texts aren't read.

ghost use Rattle.std.specs.Prelude.{◌≡◌};

use lf_grammar::{TokenError, Unread};
use std::alloc::AllocError;
use thiserror::Error;

/// Why a text can't stand where it stands.
#[derive(Clone, Copy, Debug, PartialEq, Eq, Error)]
pub enum TextError {
    #[error("a text that can't stand there")]
    Unfit,
    #[error("a text that is past a limit")]
    PastLimit,
    #[error("out of memory")]
    Memory,
}

impl From<AllocError> for TextError {
    ghost use Rattle.lf_texts.specs.declared.error.TextError.TheVariants.{Memory};

    ghost from_gives = { λ _ fault. fault ≡ Memory };

    fn from(_: AllocError) -> TextError {
        TextError::Memory
    }
}

impl From<TokenError> for TextError {
    ghost use Rattle.lf_texts.specs.Faults.{of_tokens};

    ghost from_gives = { λ e fault. fault ≡ of_tokens e };

    fn from(e: TokenError) -> TextError {
        match e {
            TokenError::Stray => TextError::Unfit,
            TokenError::TooLarge | TokenError::TooMany | TokenError::TooDeep =>
                TextError::PastLimit,
            TokenError::Memory => TextError::Memory,
        }
    }
}

impl From<Unread> for TextError {
    ghost use Rattle.lf_texts.specs.Faults.{of_reading};

    ghost from_gives = { λ e fault. fault ≡ of_reading e };

    fn from(e: Unread) -> TextError {
        match e {
            Unread::Wrong(_) => TextError::Unfit,
            Unread::Memory => TextError::Memory,
        }
    }
}
