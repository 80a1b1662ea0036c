//! What variables hold.

ghost use Rattle.std.specs.Prelude.{◌∷◌, [], IfOk, Ok, Err};
ghost use Rattle.lf_grammar.specs.Places.{context_of};
ghost use Rattle.lf_texts.specs.Lists.{listed};
ghost use Rattle.lf_texts.specs.Reading.{Says, Gives, read_by};
ghost use Rattle.lf_texts.specs.Variables.{first_free, words_in, own_in, kind_alone, held_in, variable_in, HasWords};

use crate::TextError;
use crate::fronts::{ended, first_word, past};
use crate::kinds::{first_range, kind_named};
use crate::lists::put;
use crate::names::{is_free, is_name, named};
use crate::tables::first_cells;
use lf_grammar::{Meaning, Place, Sign, Token, behind_sign};
use lf_list::Listed;
use lf_rules::{Cells, Kind, Name};
use std::alloc::Global;

/// The most words that a variable has.
const MOST_WORDS: u8 = 16;

/// What a variable's text says of the values of its cells.
#[derive(Debug, Drop)]
pub enum VariableText {
    /// They are of a kind of the language.
    Kind(Kind),
    /// They are of the kind of the variable with this name.
    Like(Name),
    /// They are these words, 2..=16, in order.
    Words(Listed<Name>),
}

/// Reads a text that says what a variable holds: `[nodes]` or `[1..` and a number, 1 to 32, and `]`, where it is a table, and then a kind, another variable's
/// name, or words of its own with `|` between, which are those of each cell. A word is free: it means nothing so far, and stands once.
#[tactic(auto, unfolding(crate::specs::Variables::variable_in))]
pub fn read_variable(
    alloc: Global,
    place: &Place<'_>,
    tokens: &[Token],
) -> Result<(Cells, VariableText), TextError>
    ensures read { Gives (λ v. v) (variable_in (context_of place.now) tokens.now) result }
    ensures words { IfOk result (λ v. HasWords v.1) }
{
    let (cells, rest) = first_cells(tokens)?;
    let text = read_held(alloc, place, rest)?;
    Ok((cells, text))
}

/// Reads what a cell holds.
#[tactic(auto, unfolding(crate::specs::Variables::held_in))]
fn read_held(alloc: Global, place: &Place<'_>, tokens: &[Token]) -> Result<VariableText, TextError>
    ensures read { Gives (λ text. text) (held_in (context_of place.now) tokens.now) result }
    ensures words { IfOk result HasWords }
{
    match tokens.split_first() {
        Some((Token::Word(word), rest)) => match kind_named(word.as_str()) {
            Some(kind) => kind_alone(kind, rest),
            None => read_own(alloc, place, tokens, word.as_str(), rest),
        },
        _ => {
            let (kind, rest) = first_range(tokens)?;
            kind_alone(kind, rest)
        }
    }
}

/// A kind, where nothing stands behind it.
fn kind_alone(kind: Kind, rest: &[Token]) -> Result<VariableText, TextError>
    ensures { Says (λ text. text) (kind_alone (record { value = kind; rest = rest.now })) result }
{
    ended(rest)?;
    Ok(VariableText::Kind(kind))
}

/// Reads tokens that begin with a word that is no kind: it is another variable's name where it is alone, and the first of the words where it isn't.
fn read_own(
    alloc: Global,
    place: &Place<'_>,
    tokens: &[Token],
    word: &str,
    rest: &[Token],
) -> Result<VariableText, TextError>
    ensures read { Gives (λ text. text) (own_in (context_of place.now) tokens.now word.now rest.now) result }
    ensures words { IfOk result HasWords }
{
    if !rest.is_empty() {
        read_words(alloc, place.names, tokens)
    } else if is_name(word) {
        let name = named(alloc, word)?;
        Ok(VariableText::Like(name))
    } else {
        Err(TextError::Unfit)
    }
}

/// Reads words with `|` between.
#[tactic(auto, unfolding(crate::specs::Variables::words_in))]
fn read_words(alloc: Global, names: &[Meaning], tokens: &[Token]) -> Result<VariableText, TextError>
    ensures read { Gives (λ text. text) (words_in names.now tokens.now) result }
    ensures words { IfOk result HasWords }
{
    let (first, after) = first_free(alloc, names, &[], tokens)?;
    let next = past(after, Sign::Bar)?;
    let (words, rest) = listed_words(alloc, names, first, next)?;
    ended(rest)?;
    Ok(VariableText::Words(Listed::from_vec(words)))
}

/// A word with those that come first, and the tokens behind them.
#[tactic(auto, using(crate::proofs::ListLemmas::rows))]
fn listed_words<'t>(
    alloc: Global,
    names: &[Meaning],
    first: Name,
    tokens: &'t [Token],
) -> Result<(Vec<Name>, &'t [Token]), TextError>
    ensures { Gives (λ r. record { value = r.0.items; rest = r.1.now }) (listed (first_free names.now) Sign.Bar 15 (first ∷ []) tokens.now) result }
{
    let mut words = Vec::new(alloc);
    put(&mut words, first)?;
    let mut rest = tokens;
    for _ in 1..MOST_WORDS {
        let (word, after) = first_free(alloc, names, words.as_slice(), rest)?;
        put(&mut words, word)?;
        match behind_sign(after, Sign::Bar) {
            Some(next) => rest = next,
            None => return Ok((words, after)),
        }
    }
    Err(TextError::PastLimit)
}

/// The word that comes first, which is free and none of those before it, and the tokens behind it.
#[tactic(auto, unfolding(crate::specs::Variables::first_free))]
fn first_free<'t>(
    alloc: Global,
    names: &[Meaning],
    before: &[Name],
    tokens: &'t [Token],
) -> Result<(Name, &'t [Token]), TextError>
    ensures { Gives read_by (first_free names.now before.now tokens.now) result }
{
    let (word, rest) = first_word(tokens)?;
    if is_free(word.as_str(), names, before) {
        let name = named(alloc, word.as_str())?;
        Ok((name, rest))
    } else {
        Err(TextError::Unfit)
    }
}
