//! Why an engine gives no whole reply.

ghost use Rattle.std.specs.Prelude.{◌≡◌};

use std::alloc::AllocError;
use thiserror::Error;

/// Why an engine gives no whole reply.
#[derive(Clone, Copy, Debug, PartialEq, Eq, Error)]
pub enum BytesFault {
    /// The source failed. Nothing was written.
    #[error("a read failed")]
    Read,
    /// The sink failed. What was written is a part of the reply, from its front.
    #[error("a write failed")]
    Write,
    /// Memory ran out. Nothing was written.
    #[error("out of memory")]
    Memory,
    /// The workers of a search gave no answer, for the cause with this number: 1 where their number is out of 1..=32, 4 where all tickets
    /// were given and a set is open. Nothing was written.
    #[error("the workers gave no answer: {0}")]
    Pool(u32),
}

impl From<AllocError> for BytesFault {
    ghost use Rattle.leastfault.specs.declared.fault.BytesFault.TheVariants.{Memory};

    ghost from_gives = { λ _ fault. fault ≡ Memory };

    fn from(_error: AllocError) -> BytesFault {
        BytesFault::Memory
    }
}
