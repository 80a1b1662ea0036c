//! Why a scenario is refused.

ghost use Rattle.std.specs.Prelude.{◌≡◌};
ghost use Rattle.lf_scenario.specs.Refusals.{number_of, key_of};

use crate::{Key, LONGEST};
use thiserror::Error;

/// Why a text is no scenario.
#[derive(Clone, Copy, Debug, PartialEq, Eq, Error)]
pub enum ScenarioError {
    #[error("the text is longer than {} bytes", LONGEST)]
    TooLong,
    #[error("the text is not TOML")]
    NoDocument,
    #[error("the key `{}` is missing: it takes {}", .0.name(), .0.takes())]
    Missing(Key),
    #[error("there is a key that scenarios don't have")]
    UnknownKey,
    #[error("the key `{}` is not one of this protocol", .0.name())]
    OtherProtocol(Key),
    #[error("a table of `links` has a key that isn't `from`, `to`, `least` or `spread`")]
    UnknownLinkKey,
    #[error("the value of `{}` is of the wrong kind: it takes {}", .0.name(), .0.takes())]
    WrongKind(Key),
    #[error("a number of `{}` is out of range: it takes {}", .0.name(), .0.takes())]
    OutOfRange(Key),
    #[error("`seed` is not a text of 64 hexadecimal digits")]
    Seed,
    #[error("a table of `links` is not of two different nodes, or an earlier table has the same two in this order")]
    Link,
    #[error("`protocol` is no protocol: it takes {}", Key::Protocol.takes())]
    Protocol,
    #[error("`outcome` is no outcome of this protocol: it takes {}", Key::Outcome.takes())]
    Outcome,
    #[error("`outcome` is a list that is no formula of this protocol: it takes {}", Key::Outcome.takes())]
    Formula,
    #[error("out of memory")]
    Memory,
}

impl ScenarioError {
    /// The number of the refusal, 1..=12.
    pub fn number(&self) -> u32
        ensures { result ≡ number_of self.now }
    {
        match self {
            ScenarioError::TooLong => 1,
            ScenarioError::NoDocument => 2,
            ScenarioError::Missing(_) => 3,
            ScenarioError::UnknownKey => 4,
            ScenarioError::OtherProtocol(_) => 4,
            ScenarioError::UnknownLinkKey => 4,
            ScenarioError::WrongKind(_) => 5,
            ScenarioError::OutOfRange(_) => 6,
            ScenarioError::Seed => 7,
            ScenarioError::Link => 8,
            ScenarioError::Protocol => 9,
            ScenarioError::Outcome => 10,
            ScenarioError::Formula => 11,
            ScenarioError::Memory => 12,
        }
    }

    /// The key that is refused. None where no key is named.
    pub fn key(&self) -> Option<Key>
        ensures { result ≡ key_of self.now }
    {
        match self {
            ScenarioError::Missing(key)
            | ScenarioError::OtherProtocol(key)
            | ScenarioError::WrongKind(key)
            | ScenarioError::OutOfRange(key) => Some(*key),
            ScenarioError::Seed => Some(Key::Seed),
            ScenarioError::UnknownLinkKey | ScenarioError::Link => Some(Key::Links),
            ScenarioError::Protocol => Some(Key::Protocol),
            ScenarioError::Outcome | ScenarioError::Formula => Some(Key::Outcome),
            ScenarioError::TooLong
            | ScenarioError::NoDocument
            | ScenarioError::UnknownKey
            | ScenarioError::Memory => None,
        }
    }
}
