//! Which questions stand out.

use crate::counts::Kind;

/// A question with a set of faults that defeats the outcome.
#[derive(Clone, Copy, Debug, PartialEq, Eq)]
pub struct Defeated {
    /// Its number, from 0.
    pub number: u64,
    /// How many faults its least sets have.
    pub faults: u32,
}

/// Which questions stand out by their replies. No contract speaks of it.
#[derive(Clone, Copy, Debug, PartialEq, Eq)]
pub struct Marks {
    /// The first with as few faults as any.
    pub fewest: Option<Defeated>,
    /// The number of the first that is refused, from 0.
    pub refused: Option<u64>,
}

impl Marks {
    /// Of no question.
    pub fn none() -> Marks {
        Marks {
            fewest: None,
            refused: None,
        }
    }

    /// Of the question with this number, by what its reply says, and how many faults that tells of, where it does.
    pub(crate) fn at(number: u64, kind: Kind, faults: Option<u32>) -> Marks {
        match (kind, faults) {
            (Kind::Missed, Some(faults)) => Marks {
                fewest: Some(Defeated { number, faults }),
                refused: None,
            },
            (Kind::Refused, _) => Marks {
                fewest: None,
                refused: Some(number),
            },
            _ => Marks::none(),
        }
    }

    /// Takes in those of questions that come later.
    pub(crate) fn take(&mut self, later: Marks) {
        self.refused = self.refused.or(later.refused);
        self.fewest = fewer(self.fewest, later.fewest);
    }
}

/// The one with fewer faults, and of two with as many the first.
fn fewer(before: Option<Defeated>, later: Option<Defeated>) -> Option<Defeated> {
    match (before, later) {
        (Some(one), Some(other)) if other.faults < one.faults => later,
        (Some(_), _) => before,
        (None, _) => later,
    }
}
