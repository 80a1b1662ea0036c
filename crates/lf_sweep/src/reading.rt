//! The reading of what varies.

ghost use Rattle.std.specs.Prelude.{◌≡◌, ◌≢◌, ◌≤◌, ◌<◌, ℕ, List, ◌∷◌, IfErr, IfOk, MatchOption, MatchResult};
ghost use Rattle.lf_sweep.specs.declared.varied.Place.{Place};
ghost use Rattle.lf_sweep.specs.declared.words.Words.{Words};
ghost use Rattle.lf_sweep.specs.declared.varied.Varied.{Varied};
ghost use Rattle.lf_sweep.specs.Varied.{AreListed, AreNoNumbers, AreNoWords, AreNotListed, AreNumbers, AreWords};
ghost use Rattle.lf_sweep.specs.Varied.{IsConstant, IsCut, IsNoPlace, IsNoneOf, IsNotVaried};
ghost use Rattle.lf_sweep.specs.Varied.{IsPlace, IsRange, IsVaried};
ghost use Rattle.lf_sweep.specs.Words.{count_of, most_values};

use crate::error::VaryError;
use crate::listed::{has_mark, values_in};
use crate::varied::{Place, Varied};
use crate::words::{MOST_VALUES, Words};
use std::alloc::Global;

/// What a text says that varies: `KEY=VALUES`.
///
/// KEY is a key of the scenario, or `given.NAME` for a constant of its protocol. VALUES are `A..B`, the whole numbers from A to B with
/// both ends, or values with a comma between any two. Where a value begins with a bracket or a quote it is the first that TOML reads there
/// before a comma or the end, so its own commas belong to it. Every other value ends before the next comma, and has no bracket and no
/// quote. The refusal `Memory` comes only where memory has run out.
pub fn read_varied(alloc: Global, text: &str) -> Result<Varied, VaryError>
    ensures varied { MatchResult result (IsVaried text.now) (IsNotVaried text.now) }
    ensures none { IfErr result (λ e. e ≢ VaryError.Memory → (v : Varied) → IsVaried text.now v → ⊥) }
{
    match cut(text, '=') {
        Some((name, values)) => varied(alloc, name, values),
        None => Err(VaryError::NoPair),
    }
}

/// What varies, by its name, and its values.
fn varied(alloc: Global, name: &str, values: &str) -> Result<Varied, VaryError>
    ensures { MatchResult result (λ v. IsPlace name.now v.place × AreWords values.now v.words) (IsNoneOf name.now values.now) }
{
    let place = place_in(alloc, name)?;
    let words = words_in(alloc, values)?;
    Ok(Varied { place, words })
}

/// What stands before the first of these characters and behind it. None where there is none.
fn cut(text: &str, at: char) -> Option<(&str, &str)>
    requires { at < 128 }
    ensures { MatchOption result ((front back : List ℕ) → IsCut at text.now front back → ⊥) (λ parts. IsCut at text.now parts.0.now parts.1.now) }
{
    text.split_once(at)
}

/// What varies, by its name.
fn place_in(alloc: Global, name: &str) -> Result<Place, VaryError>
    ensures { MatchResult result (IsPlace name.now) (IsNoPlace name.now) }
{
    let constant = constant_in(name);
    if constant.unwrap_or(name).is_empty() {
        return Err(VaryError::NoPlace);
    }
    match constant {
        Some(constant) => Ok(Place::Constant(String::from_str(alloc, constant)?)),
        None => Ok(Place::Key(String::from_str(alloc, name)?)),
    }
}

/// The name of the constant behind `given.`. None where that doesn't stand first.
fn constant_in(name: &str) -> Option<&str>
    ensures { MatchOption result ((rest : List ℕ) → IsConstant name.now rest → ⊥) (λ rest. IsConstant name.now rest.now) }
{
    match name.split_once('.') {
        Some((first, rest)) if first == "given" => Some(rest),
        _ => None,
    }
}

/// The values of a text.
fn words_in(alloc: Global, text: &str) -> Result<Words, VaryError>
    ensures value { MatchResult result (AreWords text.now) (AreNoWords text.now) }
    ensures some { IfOk result (λ words. 0 < count_of words) }
    ensures few { IfOk result (λ words. count_of words ≤ most_values) }
{
    match range_in(text) {
        Some((first, last)) => numbers(first, last),
        None => listed(alloc, text),
    }
}

/// The ends of a range. None where a text has no `..` behind its first point, or a bracket or a quote before it.
fn range_in(text: &str) -> Option<(&str, &str)>
    ensures { MatchOption result ((first last : List ℕ) → IsRange text.now first last → ⊥) (λ ends. IsRange text.now ends.0.now ends.1.now) }
{
    let (first, rest) = cut(text, '.')?;
    if has_mark(first.as_bytes()) {
        return None;
    }
    match behind_point(rest) {
        Some(last) => Some((first, last)),
        None => None,
    }
}

/// What stands behind a point at the front. None where there is none.
fn behind_point(text: &str) -> Option<&str>
    ensures { MatchOption result ((rest : List ℕ) → text.now ≡ 46 ∷ rest → ⊥) (λ rest. text.now ≡ 46 ∷ rest.now) }
{
    text.strip_prefix('.')
}

/// The numbers between two ends.
fn numbers(first: &str, last: &str) -> Result<Words, VaryError>
    ensures value { MatchResult result (AreNumbers first.now last.now) (AreNoNumbers first.now last.now) }
    ensures some { IfOk result (λ words. 0 < count_of words) }
    ensures few { IfOk result (λ words. count_of words ≤ most_values) }
{
    let (Ok(first), Ok(last)) = (first.parse::<u32>(), last.parse::<u32>()) else {
        return Err(VaryError::NoRange);
    };
    if last < first {
        return Err(VaryError::NoRange);
    }
    if u64::from(last - first) >= MOST_VALUES {
        return Err(VaryError::TooMany);
    }
    Ok(Words::Numbers { first, last })
}

/// The words of a list of values.
fn listed(alloc: Global, text: &str) -> Result<Words, VaryError>
    ensures value { MatchResult result (AreListed text.now) (AreNotListed text.now) }
    ensures some { IfOk result (λ words. 0 < count_of words) }
    ensures few { IfOk result (λ words. count_of words ≤ most_values) }
{
    let words = values_in(alloc, text)?;
    if words.len() as u64 > MOST_VALUES {
        return Err(VaryError::TooMany);
    }
    Ok(Words::Listed(words))
}
