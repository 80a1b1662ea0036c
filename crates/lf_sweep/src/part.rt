//! A part of the questions.

ghost use Rattle.std.specs.Prelude.{◌≡◌, ◌≤◌, MatchOption};
ghost use Rattle.lf_sweep.specs.Limits.{most_combinations, most_parts};

/// The most parts.
pub const MOST_PARTS: u64 = 1000000;

/// Every so many-th question: `I/N` is the I-th of N parts, with the questions I, I + N, I + 2N and so on, counted from 1.
#[derive(Clone, Copy, Debug, PartialEq, Eq)]
pub struct Part {
    which: u64,
    parts: u64,
    ghost some: { (1 ≤ which) × (which ≤ parts) },
    ghost few: { parts ≤ most_parts },
}

impl Part {
    ghost use Rattle.lf_sweep.specs.Parts.{IsLengthOf, number_at};

    /// The I-th of N parts, N up to 1,000,000. None where there is no such part.
    pub fn new(which: u64, parts: u64) -> Option<Part>
        ensures { MatchOption result (((1 ≤ which) × (which ≤ parts) × (parts ≤ most_parts)) → ⊥)
            (λ part. (part.which ≡ which) × (part.parts ≡ parts)) }
    {
        if 1 <= which && which <= parts && parts <= MOST_PARTS {
            Some(Part { which, parts })
        } else {
            None
        }
    }

    /// All questions.
    pub fn whole() -> Part
        ensures { (result.which ≡ 1) × (result.parts ≡ 1) }
    {
        Part { which: 1, parts: 1 }
    }

    /// How many of so many questions the part has.
    pub fn count(self, questions: u64) -> u64
        requires { questions ≤ most_combinations }
        ensures { IsLengthOf self questions result }
    {
        if questions < self.which {
            0
        } else {
            (questions - self.which) / self.parts + 1
        }
    }

    /// The number, from 0, of its question at a place, from 0.
    pub fn number(self, place: u64) -> u64
        requires { place ≤ most_combinations }
        ensures { result ≡ number_at self place }
    {
        self.which - 1 + place * self.parts
    }
}
