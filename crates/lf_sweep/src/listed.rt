//! The reading of values in a list.

ghost use Rattle.std.specs.Prelude.{◌≡◌, ◌+◌, ◌≤◌, ◌<◌, ◌++◌, ◌∷◌, [], ℕ, false, length, map, IfOk, MatchOption, MatchResult, string_bytes, IsCharBoundary};
ghost use Rattle.lf_sweep.specs.Listed.{AreValues, EndsAt, IsNoList, IsNoValue, IsValue, is_end, has_mark, is_mark, is_opened, is_value, may_end};

use crate::error::VaryError;
use std::alloc::{AllocError, Global};
use toml::Value;

/// The values of a text, as they are written, with a comma between any two.
pub(crate) fn values_in(alloc: Global, text: &str) -> Result<Vec<String>, VaryError>
    ensures { MatchResult result (λ words. AreValues (map string_bytes words.items) text.now) (IsNoList text.now) }
{
    let mut words = Vec::new(alloc);
    let mut rest = text;
    let mut end = value_end(alloc, rest, 1)?;
    'values: while end < rest.len() {
        let (word, _behind) = rest.split_at(end);
        add(alloc, &mut words, word)?;
        rest = &rest[end + 1..];
        end = value_end(alloc, rest, words.len() as u64 + 1)?;
    }
    add(alloc, &mut words, rest)?;
    Ok(words)
}

/// Adds a copy of a text.
fn add(alloc: Global, words: &mut Vec<String>, text: &str) -> Result<(), AllocError>
    ensures { IfOk result (λ _. map string_bytes words.new.items ≡ map string_bytes words.old.items ++ text.now ∷ []) }
{
    words.push(String::from_str(alloc, text)?)?;
    Ok(())
}

/// Where the first value of a text ends, which has this number.
fn value_end(alloc: Global, text: &str, number: u64) -> Result<usize, VaryError>
    ensures value { MatchResult result (IsValue text.now) (IsNoValue text.now number) }
    ensures boundary { IfOk result (IsCharBoundary text.now) }
    ensures behind { IfOk result (λ n. n < length text.now → IsCharBoundary text.now (n + 1)) }
{
    let Some(end) = first_end(alloc, text)? else {
        return Err(VaryError::Unread(number));
    };
    if end == 0 {
        return Err(VaryError::NoValue(number));
    }
    if !is_opened(text.as_bytes()) && has_mark(&text.as_bytes()[..end]) {
        return Err(VaryError::Marked(number));
    }
    Ok(end)
}

/// Where the first value of a text ends. None where a bracket or a quote stands first, and TOML reads no value there.
fn first_end(alloc: Global, text: &str) -> Result<Option<usize>, AllocError>
    ensures { IfOk result (λ end. MatchOption end ((n : ℕ) → n ≤ length text.now → may_end text.now n ≡ false) (EndsAt text.now)) }
{
    let mut place = 0;
    'places: while place <= text.len() {
        if may_end(alloc, text, place)? {
            return Ok(Some(place));
        }
        place += 1;
    }
    Ok(None)
}

/// Whether a value may end at a place of a text.
#[tactic(auto, using(crate::proofs::ListedLemmas::end_boundary), unfolding(crate::specs::Listed::may_end))]
fn may_end(alloc: Global, text: &str, place: usize) -> Result<bool, AllocError>
    requires { place ≤ length text.now }
    ensures { IfOk result (λ may. may ≡ may_end text.now place) }
{
    if !is_end(text.as_bytes(), place) {
        return Ok(false);
    }
    if !is_opened(text.as_bytes()) {
        return Ok(true);
    }
    is_value(alloc, &text[..place])
}

/// Whether TOML reads a value in a whole text.
#[tactic(auto, unfolding(crate::specs::Listed::is_value))]
fn is_value(alloc: Global, text: &str) -> Result<bool, AllocError>
    ensures { IfOk result (λ is. is ≡ is_value text.now) }
{
    match Value::from_str(alloc, text) {
        Ok(_) => Ok(true),
        Err(error) if error.is_memory() => Err(AllocError),
        Err(_) => Ok(false),
    }
}

/// Whether a text is over at a place, or a comma stands there.
fn is_end(bytes: &[u8], place: usize) -> bool
    requires { place ≤ length bytes.now }
    ensures { result ≡ is_end bytes.now place }
{
    place == bytes.len() || bytes[place] == b','
}

/// Whether a bracket or a quote stands first.
fn is_opened(bytes: &[u8]) -> bool
    ensures { result ≡ is_opened bytes.now }
{
    match bytes.first() {
        Some(byte) => is_mark(*byte),
        None => false,
    }
}

/// Whether one of the bytes is a bracket or a quote.
pub(crate) fn has_mark(bytes: &[u8]) -> bool
    ensures { result ≡ has_mark bytes.now }
{
    bytes.iter().any(|byte| is_mark(*byte))
}

/// Whether a byte is a bracket or a quote.
#[tactic(auto, unfolding(crate::specs::Listed::is_mark))]
fn is_mark(byte: u8) -> bool
    ensures { result ≡ is_mark byte }
{
    matches!(byte, b'"' | b'\'' | b'[' | b']' | b'{' | b'}')
}
