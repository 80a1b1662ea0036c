//! Names.

ghost use Rattle.std.specs.Prelude.{◌≡◌, MatchResult};
ghost use Rattle.std.specs.List.{list_all};
ghost use Rattle.lf_texts.specs.Names.{is_name, is_name_behind, is_of_name, is_of_note_name, begins_with_not, is_note_name, is_note_name_behind};
ghost use Rattle.lf_texts.specs.Names.{is_reserved, is_value, is_operator, is_of_outcomes, is_among, is_declared, is_free};

use crate::TextError;
use lf_grammar::Meaning;
use lf_rules::Name;
use std::alloc::Global;

/// Whether a text is a name: a small letter and at most 23 small letters, digits and `_`, not beginning with `not_`.
#[tactic(auto, unfolding(crate::specs::Names::is_name))]
pub fn is_name(text: &str) -> bool
    ensures { result ≡ is_name text.now }
{
    match text.as_bytes().split_first() {
        Some((first, more)) => {
            first.is_ascii_lowercase() && is_name_behind(more) && !begins_with_not(text)
        }
        None => false,
    }
}

/// Whether a name goes on with these bytes.
fn is_name_behind(more: &[u8]) -> bool
    ensures { result ≡ is_name_behind more.now }
{
    more.len() <= 23 && are_of_name(more)
}

/// Whether a name goes on with each of these bytes.
fn are_of_name(bytes: &[u8]) -> bool
    ensures { result ≡ list_all is_of_name bytes.now }
{
    bytes.iter().all(|byte| is_of_name(*byte))
}

/// Whether a name goes on with a byte.
fn is_of_name(byte: u8) -> bool
    ensures { result ≡ is_of_name byte }
{
    byte.is_ascii_lowercase() || byte.is_ascii_digit() || byte == b'_'
}

/// Whether a text begins with `not_`, as the opposite of a fact does.
fn begins_with_not(text: &str) -> bool
    ensures { result ≡ begins_with_not text.now }
{
    text.as_bytes().starts_with(b"not_")
}

/// Whether a text is a note's name: a capital and at most 23 capitals, digits and `_`.
#[tactic(auto, unfolding(crate::specs::Names::is_note_name))]
pub fn is_note_name(text: &str) -> bool
    ensures { result ≡ is_note_name text.now }
{
    match text.as_bytes().split_first() {
        Some((first, more)) => first.is_ascii_uppercase() && is_note_name_behind(more),
        None => false,
    }
}

/// Whether a note's name goes on with these bytes.
fn is_note_name_behind(more: &[u8]) -> bool
    ensures { result ≡ is_note_name_behind more.now }
{
    more.len() <= 23 && are_of_note_name(more)
}

/// Whether a note's name goes on with each of these bytes.
fn are_of_note_name(bytes: &[u8]) -> bool
    ensures { result ≡ list_all is_of_note_name bytes.now }
{
    bytes.iter().all(|byte| is_of_note_name(*byte))
}

/// Whether a note's name goes on with a byte.
fn is_of_note_name(byte: u8) -> bool
    ensures { result ≡ is_of_note_name byte }
{
    byte.is_ascii_uppercase() || byte.is_ascii_digit() || byte == b'_'
}

/// Whether a text is a word of the language, which nothing else has as its name.
#[tactic(auto, unfolding(crate::specs::Names::is_reserved))]
pub fn is_reserved(text: &str) -> bool
    ensures { result ≡ is_reserved text.now }
{
    is_value(text) || is_operator(text) || is_of_outcomes(text)
}

/// Whether a word stands for a value.
#[tactic(auto, unfolding(crate::specs::Names::is_value))]
fn is_value(word: &str) -> bool
    ensures { result ≡ is_value word.now }
{
    matches!(
        word,
        "t" | "me" | "sender" | "it" | "nodes" | "all" | "true" | "false" | "clamped" | "replaced"
    )
}

/// Whether a word stands between values, or before them.
#[tactic(auto, unfolding(crate::specs::Names::is_operator))]
fn is_operator(word: &str) -> bool
    ensures { result ≡ is_operator word.now }
{
    matches!(
        word,
        "and"
            | "or"
            | "not"
            | "in"
            | "where"
            | "mod"
            | "count"
            | "lowest"
            | "highest"
            | "majority"
            | "min"
            | "max"
    )
}

/// Whether a word belongs to outcomes, to kinds or to the parts of a rule.
#[tactic(auto, unfolding(crate::specs::Names::is_of_outcomes))]
fn is_of_outcomes(word: &str) -> bool
    ensures { result ≡ is_of_outcomes word.now }
{
    matches!(
        word,
        "to" | "else" | "flag" | "step" | "each" | "some" | "no" | "at" | "down" | "always" | "ever"
    )
}

/// Whether a name is one of some.
fn is_among(word: &str, names: &[Name]) -> bool
    ensures { result ≡ is_among names.now word.now }
{
    names.iter().any(|name| name.as_str() == word)
}

/// Whether a word means something so far.
fn is_declared(word: &str, names: &[Meaning]) -> bool
    ensures { result ≡ is_declared names.now word.now }
{
    names.iter().any(|meaning| meaning.name.as_str() == word)
}

/// Whether a word may be given as a name to something new: it is a name, no word of the language, and means nothing so far.
#[tactic(auto, unfolding(crate::specs::Names::is_free))]
pub(crate) fn is_free(word: &str, names: &[Meaning], others: &[Name]) -> bool
    ensures { result ≡ is_free names.now others.now word.now }
{
    is_name(word) && !is_reserved(word) && !is_declared(word, names) && !is_among(word, others)
}

/// A name with this text.
pub(crate) fn named(alloc: Global, word: &str) -> Result<Name, TextError>
    ensures { MatchResult result (λ name. name ≡ word.now) (λ e. e ≡ TextError.Memory) }
{
    match String::from_str(alloc, word) {
        Ok(text) => Ok(Name::new(text)),
        Err(_) => Err(TextError::Memory),
    }
}
