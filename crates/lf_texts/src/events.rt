//! What rules are on.

ghost use Rattle.std.specs.Prelude.{◌≡◌, [], Ok, Err};
ghost use Rattle.lf_grammar.specs.Places.{context_of};
ghost use Rattle.lf_texts.specs.Events.{event_named, first_bind, names_inside, names_in, heard_in, event_in};
ghost use Rattle.lf_texts.specs.Lists.{bracketed};
ghost use Rattle.lf_texts.specs.Reading.{Gives, read_by};

use crate::TextError;
use crate::forms::form_named;
use crate::fronts::{ended, first_word};
use crate::lists::{closed, opened, put};
use crate::names::{is_free, named};
use lf_grammar::{Meaning, Place, Token};
use lf_list::Listed;
use lf_rules::{Event, Kind, Name};
use std::alloc::Global;

/// What a rule is on.
#[derive(Debug, Drop)]
pub struct Heard {
    pub on: Event,
    /// The names that the note's fields have in the rule, in order. A field that has none is `_` there. None where no field has one.
    pub fields: Listed<Name>,
}

/// Reads a text that says what a rule is on: `start`, `wake`, `begin`, `end`, or a note's name, and behind it in brackets a name or `_` for each of the
/// note's fields. The brackets may be missing, and are where there are no fields. A name is free: it means nothing so far, and stands once.
#[tactic(auto, unfolding(crate::specs::Events::event_in))]
pub fn read_event(alloc: Global, place: &Place<'_>, tokens: &[Token]) -> Result<Heard, TextError>
    ensures { Gives (λ heard. heard) (event_in (context_of place.now) tokens.now) result }
{
    let (word, rest) = first_word(tokens)?;
    match event_named(word.as_str()) {
        Some(on) => {
            ended(rest)?;
            Ok(Heard {
                on,
                fields: Listed::from_vec(Vec::new(alloc)),
            })
        }
        None => read_heard(alloc, place, word.as_str(), rest),
    }
}

/// The event that is no note's.
fn event_named(word: &str) -> Option<Event>
    ensures { result ≡ event_named word.now }
{
    match word {
        "start" => Some(Event::Start),
        "wake" => Some(Event::Wake),
        "begin" => Some(Event::Begin),
        "end" => Some(Event::End),
        _ => None,
    }
}

/// Reads what stands behind a note's name.
#[tactic(auto, unfolding(crate::specs::Events::heard_in))]
fn read_heard(
    alloc: Global,
    place: &Place<'_>,
    word: &str,
    tokens: &[Token],
) -> Result<Heard, TextError>
    ensures { Gives (λ heard. heard) (heard_in (context_of place.now) word.now tokens.now) result }
{
    let (form, kinds) = form_named(place.definition.notes.as_slice(), word)?;
    let fields = read_names(alloc, place.names, kinds, tokens)?;
    Ok(Heard {
        on: Event::Note(form),
        fields: Listed::from_vec(fields),
    })
}

/// Reads the names of fields: none, or one for each in brackets.
fn read_names(
    alloc: Global,
    names: &[Meaning],
    kinds: &[Kind],
    tokens: &[Token],
) -> Result<Vec<Name>, TextError>
    ensures { Gives (λ binds. binds.items) (names_in names.now kinds.now tokens.now) result }
{
    if tokens.is_empty() {
        Ok(Vec::new(alloc))
    } else {
        read_inside(alloc, names, kinds, tokens)
    }
}

/// Reads a name for each field, in brackets.
#[tactic(auto, unfolding(crate::specs::Events::names_inside))]
fn read_inside(
    alloc: Global,
    names: &[Meaning],
    kinds: &[Kind],
    tokens: &[Token],
) -> Result<Vec<Name>, TextError>
    ensures { Gives (λ binds. binds.items) (names_inside names.now kinds.now tokens.now) result }
{
    let (binds, rest) = read_binds(alloc, names, kinds, tokens)?;
    ended(rest)?;
    Ok(binds)
}

/// Reads a name for each field, in brackets, and nothing where there are no fields; and gives the tokens behind.
fn read_binds<'t>(
    alloc: Global,
    names: &[Meaning],
    kinds: &[Kind],
    tokens: &'t [Token],
) -> Result<(Vec<Name>, &'t [Token]), TextError>
    ensures { Gives (λ r. record { value = r.0.items; rest = r.1.now }) (bracketed (λ kind. first_bind names.now) kinds.now [] tokens.now) result }
{
    let mut binds = Vec::new(alloc);
    let mut rest = tokens;
    for _kind in kinds {
        let inner = opened(binds.as_slice(), rest)?;
        let (name, after) = first_bind(alloc, names, binds.as_slice(), inner)?;
        put(&mut binds, name)?;
        rest = after;
    }
    let rest = closed(binds.as_slice(), rest)?;
    Ok((binds, rest))
}

/// The name of a field that comes first, `_` or one that is free and none of those before it, and the tokens behind it.
#[tactic(auto, unfolding(crate::specs::Events::first_bind))]
fn first_bind<'t>(
    alloc: Global,
    names: &[Meaning],
    before: &[Name],
    tokens: &'t [Token],
) -> Result<(Name, &'t [Token]), TextError>
    ensures { Gives read_by (first_bind names.now before.now tokens.now) result }
{
    let (word, rest) = first_word(tokens)?;
    if word.as_str() == "_" || is_free(word.as_str(), names, before) {
        let name = named(alloc, word.as_str())?;
        Ok((name, rest))
    } else {
        Err(TextError::Unfit)
    }
}
