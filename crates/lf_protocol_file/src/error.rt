//! Why a protocol file is refused.

ghost use Rattle.std.specs.Prelude.{◌≡◌, option_map};
ghost use Rattle.lf_protocol_file.specs.Refusals.{number_of, place_of};

use crate::path::Path;
use std::alloc::AllocError;
use thiserror::Error;

/// The most bytes that the text of a protocol file may have.
pub const LONGEST: usize = 65536;

/// Why a text is no protocol file.
#[derive(Debug, Drop, Error)]
pub enum ProtocolError {
    #[error("the protocol is longer than {} bytes", LONGEST)]
    TooLong,
    #[error("the protocol is not TOML")]
    NoDocument,
    #[error("`{0}` of the protocol is missing")]
    Missing(Path),
    #[error("`{0}` is no key of a protocol")]
    Unknown(Path),
    #[error("`{0}` of the protocol is of the wrong kind")]
    WrongKind(Path),
    #[error("`{0}` of the protocol is past a limit")]
    PastLimit(Path),
    #[error("`{0}` of the protocol can't stand there")]
    Unfit(Path),
    #[error("out of memory")]
    Memory,
}

impl ProtocolError {
    /// The number of the refusal, 1..=8: the seven refusals of a file, and want of memory.
    pub fn number(&self) -> u32
        ensures { result ≡ number_of self.now }
    {
        match self {
            ProtocolError::TooLong => 1,
            ProtocolError::NoDocument => 2,
            ProtocolError::Missing(_) => 3,
            ProtocolError::Unknown(_) => 4,
            ProtocolError::WrongKind(_) => 5,
            ProtocolError::PastLimit(_) => 6,
            ProtocolError::Unfit(_) => 7,
            ProtocolError::Memory => 8,
        }
    }

    /// What is refused. None where that is the text as a whole, or memory has run out.
    pub fn place(&self) -> Option<&Path>
        ensures { option_map (λ p. p.now) result ≡ place_of self.now }
    {
        match self {
            ProtocolError::Missing(path)
            | ProtocolError::Unknown(path)
            | ProtocolError::WrongKind(path)
            | ProtocolError::PastLimit(path)
            | ProtocolError::Unfit(path) => Some(path),
            ProtocolError::TooLong | ProtocolError::NoDocument | ProtocolError::Memory => None,
        }
    }
}

impl From<AllocError> for ProtocolError {
    ghost use Rattle.lf_protocol_file.specs.declared.error.ProtocolError.TheVariants.{Memory};

    ghost from_gives = { λ _ fault. fault ≡ Memory };

    fn from(_: AllocError) -> ProtocolError {
        ProtocolError::Memory
    }
}
