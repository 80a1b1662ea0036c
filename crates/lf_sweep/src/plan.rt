//! The combinations of the values of all that varies.

ghost use Rattle.std.specs.Prelude.{◌≡◌, ◌<◌, ◌≤◌, map, IfOk, MatchOption, MatchResult, string_bytes};
ghost use Rattle.lf_sweep.specs.Apart.{AreApart, HaveNoPlan};
ghost use Rattle.lf_sweep.specs.Combinations.{combinations, words_at};
ghost use Rattle.lf_sweep.specs.Limits.{most_combinations};

use crate::apart::some_clash;
use crate::error::PlanError;
use crate::varied::Varied;
use std::alloc::{AllocError, Global};

/// The most combinations that a sweep may have.
pub const MOST_COMBINATIONS: u64 = 1000000000;

/// What varies in a sweep, in its order: the last runs fastest.
#[derive(Debug, Drop)]
pub struct Plan {
    varied: Vec<Varied>,
    count: u64,
    ghost counted: { count ≡ combinations varied.items },
    ghost few: { count ≤ most_combinations },
    ghost apart: { AreApart varied.items },
}

impl Plan {
    /// The combinations of these values. Nothing may vary twice, and nothing within something else that varies.
    pub fn new(varied: Vec<Varied>) -> Result<Plan, PlanError>
        ensures { MatchResult result (λ plan. plan.varied ≡ varied) (HaveNoPlan varied.items) }
    {
        if some_clash(varied.as_slice(), false) {
            return Err(PlanError::Twice);
        }
        if some_clash(varied.as_slice(), true) {
            return Err(PlanError::Within);
        }
        match counted(varied.as_slice()) {
            Some(count) => Ok(Plan { varied, count }),
            None => Err(PlanError::TooMany),
        }
    }

    /// What varies.
    pub fn varied(&self) -> &[Varied]
        ensures { result.now ≡ self.now.varied.items }
    {
        self.varied.as_slice()
    }

    /// How many combinations there are, at most `MOST_COMBINATIONS`.
    pub fn count(&self) -> u64
        ensures count { result ≡ combinations self.now.varied.items }
        ensures few { result ≤ most_combinations }
    {
        self.count
    }

    /// The values of a combination, by its number from 0: one of each that varies, as they are written.
    pub fn words(&self, alloc: Global, number: u64) -> Result<Vec<String>, AllocError>
        requires { number < combinations self.now.varied.items }
        ensures { IfOk result (λ words. map string_bytes words.items ≡ words_at self.now.varied.items number) }
    {
        words_of(alloc, self.varied.as_slice(), self.count, number)
    }
}

/// The values of a combination of so many, by its number.
fn words_of(
    alloc: Global,
    varied: &[Varied],
    count: u64,
    number: u64,
) -> Result<Vec<String>, AllocError>
    requires count { count ≡ combinations varied.now }
    requires number { number < count }
    ensures { IfOk result (λ words. map string_bytes words.items ≡ words_at varied.now number) }
{
    let mut words = Vec::new(alloc);
    let mut below = count;
    let mut left = number;
    'each: for one in varied {
        below /= one.words.count();
        words.push(one.words.word(alloc, left / below)?)?;
        left %= below;
    }
    Ok(words)
}

/// How many combinations there are. None where there are more than `MOST_COMBINATIONS`.
fn counted(varied: &[Varied]) -> Option<u64>
    ensures { MatchOption result (most_combinations < combinations varied.now) (λ n. (n ≡ combinations varied.now) × (n ≤ most_combinations)) }
{
    let mut count = 1;
    'each: for one in varied {
        count *= one.words.count();
        if count > MOST_COMBINATIONS {
            return None;
        }
    }
    Some(count)
}
