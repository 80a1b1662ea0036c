//! A hint, and the short texts that it is made of.

use crate::near::near_name;
use std::alloc::{AllocError, Global};
use std::fmt::InlineText;

/// How many bytes a hint takes at most: a place, a quote and words fit in.
const LONGEST_HINT: usize = 640;

/// How many bytes of a part of a hint are told at most.
pub const LONGEST_PART: usize = 300;

/// How many bytes words of a hint take at most.
const LONGEST_WORDS: usize = 320;

/// How many bytes are quoted at most. What is longer is cut, and ends in three dots.
const LONGEST_QUOTE: usize = 80;

/// What is told of a file.
pub type Hint = InlineText<LONGEST_HINT>;

/// A word, a name or a text of a file, in short.
pub type Quote = InlineText<LONGEST_QUOTE>;

/// Words of a hint.
pub type Words = InlineText<LONGEST_WORDS>;

/// A word or a text in short, in quotes and on one line.
pub fn in_quotes(word: &str) -> Quote {
    if !word.is_empty() && word.chars().all(is_plain) {
        Quote::of(format_args!("`{word}`"))
    } else {
        Quote::of(format_args!("{word:?}"))
    }
}

/// Whether a character may stand between backticks as it is.
fn is_plain(c: char) -> bool {
    (' ' <= c && c <= '~' && c != '`') || '\u{a1}' <= c
}

/// Whether a character may stand in a word.
pub fn is_of_word(c: char) -> bool {
    c.is_ascii_alphanumeric() || c == '_'
}

/// What is told of what stands at a place.
pub fn said(place: &str, words: &str) -> Hint {
    Hint::of(format_args!("{place}: {words}"))
}

/// What is told of a word at a place.
pub fn said_of(place: &str, word: &str, words: &str) -> Hint {
    Hint::of(format_args!("{place}: {}: {words}", in_quotes(word).as_str()))
}

/// That a word at a place is none of these names, with the near one, or else with more words.
pub(crate) fn instead(
    alloc: Global,
    place: &str,
    word: &str,
    why: &str,
    names: &[&str],
    otherwise: &str,
) -> Result<Hint, AllocError> {
    let hint = said_of(place, word, why);
    Ok(match near_name(alloc, word, names)? {
        Some(near) => hint.and(format_args!("; did you mean `{near}`?"), LONGEST_PART),
        None => hint.and_str(otherwise, LONGEST_PART),
    })
}

/// Whether a name is one of these.
pub(crate) fn is_one_of(name: &str, names: &[&str]) -> bool {
    for other in names {
        if *other == name {
            return true;
        }
    }
    false
}
