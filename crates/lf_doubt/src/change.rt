//! A scenario with another value at one key.

ghost use Rattle.std.specs.Prelude.{◌≡◌, IfOk};
ghost use Rattle.toml.specs.View.{view};
ghost use Rattle.lf_doubt.specs.Changes.{data_of, key_of};

use lf_scenario::Key;
use std::alloc::{AllocError, Global};
use toml::Value;

/// Another value at one key of a scenario.
#[derive(Clone, Copy, Debug, PartialEq, Eq)]
pub enum Change {
    /// The last step.
    Horizon(u32),
    /// The most faults in a set.
    Budget(u32),
    /// The most crashes in a set.
    Crashes(u32),
    /// How many steps a pause takes.
    PauseLength(u32),
    /// How many steps more than its link's least delay a note may take.
    Spread(u32),
    /// The outcome is that no value ever passes the range of its kind.
    NoneClamped,
    /// The outcome is that no note is ever replaced.
    NoneReplaced,
}

impl Change {
    /// The key.
    pub fn key(self) -> Key
        ensures { result ≡ key_of self }
    {
        match self {
            Change::Horizon(_) => Key::Horizon,
            Change::Budget(_) => Key::Budget,
            Change::Crashes(_) => Key::Crashes,
            Change::PauseLength(_) => Key::PauseLength,
            Change::Spread(_) => Key::Spread,
            Change::NoneClamped | Change::NoneReplaced => Key::Outcome,
        }
    }

    /// The value. The error is that memory has run out.
    pub fn value(self, alloc: Global) -> Result<Value, AllocError>
        ensures { IfOk result (λ value. view value ≡ data_of self) }
    {
        match self {
            Change::Horizon(number)
            | Change::Budget(number)
            | Change::Crashes(number)
            | Change::PauseLength(number)
            | Change::Spread(number) => Ok(Value::from(number)),
            Change::NoneClamped => Ok(Value::from(String::from_str(alloc, "always no clamped")?)),
            Change::NoneReplaced => Ok(Value::from(String::from_str(alloc, "always no replaced")?)),
        }
    }
}
