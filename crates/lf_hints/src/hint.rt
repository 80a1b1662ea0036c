//! A hint, and the short texts that it is made of.

use std::alloc::{AllocError, Global};
use std::fmt::InlineText;

/// How many bytes a hint takes at most: a way, a quote and words fit in.
const LONGEST_HINT: usize = 512;

/// How many bytes of words are told at most.
const LONGEST_WORDS: usize = 256;

/// How many bytes of a way are told at most.
const LONGEST_WAY: usize = 160;

/// How many bytes one step of a way takes at most.
pub(crate) const LONGEST_STEP: usize = 30;

/// How many bytes of a list of names are told at most.
pub(crate) const LONGEST_LIST: usize = 300;

/// How many bytes are quoted at most. What is longer is cut, and ends in three dots.
const LONGEST_QUOTE: usize = 60;

/// What is told of a text.
pub(crate) type Hint = InlineText<LONGEST_HINT>;

/// What may stand at a place, in words.
pub(crate) type Words = InlineText<LONGEST_WORDS>;

/// The way to a part of a text, such as `outcome[1][2]`.
pub(crate) type Way = InlineText<LONGEST_WAY>;

/// A value, a name or a word of a text, in short.
pub(crate) type Quote = InlineText<LONGEST_QUOTE>;

/// The way with a step more.
pub(crate) fn onward(way: Way, step: &str) -> Way {
    way.and_str(step, LONGEST_STEP)
}

/// The way to an item of the list at a way.
pub(crate) fn item_of(way: Way, place: usize) -> Way {
    way.and(format_args!("[{place}]"), LONGEST_STEP)
}

/// The word in short, in quotes and on one line.
pub(crate) fn in_quotes(word: &str) -> Quote {
    Quote::of(format_args!("{word:?}"))
}

/// What is told of what stands at a place.
pub(crate) fn said(place: &str, words: &str) -> Hint {
    Hint::of(format_args!("{place}: {words}"))
}

/// A bound of the scenario, and what follows from it.
pub(crate) fn bound(key: &str, number: u32, so: &str) -> Words {
    Words::of(format_args!("{key} = {number}, and {so}"))
}

/// That this stands at a way, and what may.
pub(crate) fn refusal(way: Way, found: Quote, wanted: &str) -> Hint {
    Hint::of(format_args!("{} = {}: {wanted}", way.as_str(), found.as_str()))
}

/// The hint as a text of its own, which is empty where there is none. The error is that memory has run out.
pub(crate) fn told(alloc: Global, hint: Option<Hint>) -> Result<String, AllocError> {
    match hint {
        Some(hint) => String::from_str(alloc, hint.as_str()),
        None => Ok(String::new(alloc)),
    }
}
