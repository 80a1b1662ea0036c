//! What is wrong with a value, wherever it stands.

ghost use Rattle.std.specs.Prelude.{◌≡◌, ◌≢◌};
ghost use Rattle.lf_protocol_file.specs.Refusals.{placed, shown};

use crate::error::ProtocolError;
use crate::path::{Path, Shown};
use crate::section::Naming;
use lf_texts::TextError;
use std::alloc::{AllocError, Global};

/// What is wrong with a value.
#[derive(Clone, Copy, Debug, PartialEq, Eq)]
pub enum Fault {
    /// It is missing.
    Missing,
    /// It is of the wrong kind.
    WrongKind,
    /// It is past a limit.
    PastLimit,
    /// It is a text, or has a name, that can't stand there.
    Unfit,
    /// Nothing: memory has run out.
    Memory,
}

impl Fault {
    /// The refusal of the value at a place.
    pub fn at(self, path: Path) -> ProtocolError
        ensures { result ≡ placed self path }
    {
        match self {
            Fault::Missing => ProtocolError::Missing(path),
            Fault::WrongKind => ProtocolError::WrongKind(path),
            Fault::PastLimit => ProtocolError::PastLimit(path),
            Fault::Unfit => ProtocolError::Unfit(path),
            Fault::Memory => ProtocolError::Memory,
        }
    }

    /// The refusal of an entry of a section.
    pub fn at_entry(self, alloc: Global, naming: Naming, key: &str) -> ProtocolError
        ensures { result ≢ ProtocolError.Memory → result ≡ placed self (Path.Entry naming (shown key.now)) }
    {
        match Shown::of(alloc, key) {
            Ok(shown) => self.at(Path::Entry(naming, shown)),
            Err(_) => ProtocolError::Memory,
        }
    }
}

impl From<AllocError> for Fault {
    ghost use Rattle.lf_protocol_file.specs.declared.fault.Fault.TheVariants.{Memory};

    ghost from_gives = { λ _ fault. fault ≡ Memory };

    fn from(_: AllocError) -> Fault {
        Fault::Memory
    }
}

impl From<TextError> for Fault {
    ghost use Rattle.lf_protocol_file.specs.Readings.{of_text};

    ghost from_gives = { λ e fault. fault ≡ of_text e };

    fn from(error: TextError) -> Fault {
        match error {
            TextError::Unfit => Fault::Unfit,
            TextError::PastLimit => Fault::PastLimit,
            TextError::Memory => Fault::Memory,
        }
    }
}
