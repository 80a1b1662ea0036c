//! What varies in a sweep.

ghost use Rattle.std.specs.Prelude.{◌≡◌, ◌<◌, ◌≤◌};
ghost use Rattle.lf_sweep.specs.Words.{count_of, most_values};

use crate::words::Words;

/// What takes other values in a sweep.
#[derive(Debug, PartialEq, Eq, Drop)]
pub enum Place {
    /// A key of the scenario.
    Key(String),
    /// A constant of the scenario's protocol, by its name in the table `given`.
    Constant(String),
}

/// What takes other values in a sweep, and which: one at least, and `MOST_VALUES` at most.
#[derive(Debug, PartialEq, Eq, Drop)]
pub struct Varied {
    pub(crate) place: Place,
    pub(crate) words: Words,
    ghost some: { 0 < count_of words },
    ghost few: { count_of words ≤ most_values },
}

impl Varied {
    /// What varies.
    pub fn place(&self) -> &Place
        ensures { result.now ≡ self.now.place }
    {
        &self.place
    }

    /// Its values.
    pub fn words(&self) -> &Words
        ensures { result.now ≡ self.now.words }
    {
        &self.words
    }
}
