//! How many answers there are of each kind.

use lf_faults::FaultSet;

/// How many answers there are of each kind.
#[derive(Clone, Copy, Debug)]
pub(crate) struct Tally {
    /// The empty set.
    needless: u32,
    /// A set with faults.
    sets: u32,
    /// None.
    nones: u32,
}

impl Tally {
    /// No answers.
    pub(crate) fn new() -> Tally {
        Tally {
            needless: 0,
            sets: 0,
            nones: 0,
        }
    }

    /// Counts an answer.
    pub(crate) fn count(&mut self, answer: &Option<FaultSet>) {
        match answer {
            Some(set) if set.is_empty() => self.needless = self.needless.saturating_add(1),
            Some(_) => self.sets = self.sets.saturating_add(1),
            None => self.nones = self.nones.saturating_add(1),
        }
    }

    /// Whether there are at least so many sets with faults, and so many times none.
    pub(crate) fn has(&self, sets: u32, nones: u32) -> bool {
        self.sets >= sets && self.nones >= nones
    }
}
