//! Why it ends before the last question.

ghost use Rattle.std.specs.Prelude.{◌≡◌};

use crate::TextError;
use std::alloc::AllocError;
use thiserror::Error;

/// Why it ends before the last question.
#[derive(Clone, Copy, Debug, PartialEq, Eq, Error)]
pub enum SweepFault {
    /// The scenario is no TOML document.
    #[error("the scenario is not TOML")]
    NoDocument,
    /// The scenario has a date that TOML can't write.
    #[error("the scenario has a date that can't be written")]
    Date,
    /// The protocol file is refused.
    #[error("the protocol file is refused")]
    Protocol,
    /// Memory ran out.
    #[error("out of memory")]
    Memory,
    /// The sink failed.
    #[error("a write failed")]
    Write,
}

impl From<AllocError> for SweepFault {
    ghost use Rattle.lf_sweep.specs.declared.fault.SweepFault.TheVariants.{Memory};

    ghost from_gives = { λ _ fault. fault ≡ Memory };

    fn from(_error: AllocError) -> SweepFault {
        SweepFault::Memory
    }
}

impl From<TextError> for SweepFault {
    ghost use Rattle.lf_sweep.specs.Faults.{fault_of};

    ghost from_gives = { λ error fault. fault ≡ fault_of error };

    fn from(error: TextError) -> SweepFault {
        match error {
            TextError::NoDocument => SweepFault::NoDocument,
            TextError::Date => SweepFault::Date,
            TextError::Memory => SweepFault::Memory,
        }
    }
}
