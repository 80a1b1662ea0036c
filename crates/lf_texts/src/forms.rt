//! Forms of notes.

ghost use Rattle.std.specs.Prelude.{◌≡◌, ◌≤◌, [], length, map, IfOk, Ok, Err};
ghost use Rattle.lf_texts.specs.Forms.{form_from, is_form, is_field, first_field, kinds_inside, kinds_in, note_in};
ghost use Rattle.lf_texts.specs.Lists.{listed};
ghost use Rattle.lf_texts.specs.Reading.{Says, Gives, read_by};

use crate::TextError;
use crate::fronts::{ended, first_word, past};
use crate::kinds::first_kind;
use crate::lists::put;
use crate::names::{is_name, is_note_name, named};
use lf_grammar::{Sign, Token, behind_sign};
use lf_list::Listed;
use lf_rules::{Definition, Kind, Name, NoteForm, Variable};
use std::alloc::Global;

/// The most fields that a note has.
const MOST_FIELDS: u8 = 7;

/// A field of a note.
#[derive(Debug, Drop)]
struct Field {
    name: Name,
    kind: Kind,
}

/// Reads a text that says which form notes have: a new name, and in brackets at most 7 fields, each with a name of its own and the kind of its values, and no
/// brackets where it has none.
#[tactic(auto, unfolding(crate::specs::Forms::note_in))]
pub fn read_note(
    alloc: Global,
    definition: &Definition,
    tokens: &[Token],
) -> Result<NoteForm, TextError>
    ensures read { Gives (λ form. form) (note_in definition.now tokens.now) result }
    ensures few { IfOk result (λ form. length form.fields ≤ 7) }
{
    let (word, rest) = first_word(tokens)?;
    if !is_note_name(word.as_str()) || is_form(definition.notes.as_slice(), word.as_str()) {
        return Err(TextError::Unfit);
    }
    let name = named(alloc, word.as_str())?;
    let fields = read_kinds(alloc, definition.variables.as_slice(), rest)?;
    Ok(NoteForm {
        name,
        fields: Listed::from_vec(fields),
    })
}

/// Whether a note has this name.
fn is_form(notes: &[NoteForm], word: &str) -> bool
    ensures { result ≡ is_form notes.now word.now }
{
    notes.iter().any(|form| form.name.as_str() == word)
}

/// The form with a name: its number, and the kinds of its fields.
pub(crate) fn form_named<'d>(
    notes: &'d [NoteForm],
    word: &str,
) -> Result<(u8, &'d [Kind]), TextError>
    ensures { Says (λ r. record { number = r.0; kinds = r.1.now }) (form_from 0 word.now notes.now) result }
{
    for (i, form) in notes.iter().enumerate() {
        if form.name.as_str() == word {
            return if i < 256 {
                Ok((i as u8, form.fields.as_slice()))
            } else {
                Err(TextError::Unfit)
            };
        }
    }
    Err(TextError::Unfit)
}

/// Reads the kinds of fields.
fn read_kinds(
    alloc: Global,
    variables: &[Variable],
    tokens: &[Token],
) -> Result<Vec<Kind>, TextError>
    ensures read { Gives (λ kinds. kinds.items) (kinds_in variables.now tokens.now) result }
    ensures few { IfOk result (λ kinds. length kinds.items ≤ 7) }
{
    if tokens.is_empty() {
        Ok(Vec::new(alloc))
    } else {
        read_inside(alloc, variables, tokens)
    }
}

/// Reads the kinds of fields in brackets.
#[tactic(auto, unfolding(crate::specs::Forms::kinds_inside))]
fn read_inside(
    alloc: Global,
    variables: &[Variable],
    tokens: &[Token],
) -> Result<Vec<Kind>, TextError>
    ensures read { Gives (λ kinds. kinds.items) (kinds_inside variables.now tokens.now) result }
    ensures few { IfOk result (λ kinds. length kinds.items ≤ 7) }
{
    let inner = past(tokens, Sign::OpenRound)?;
    let (fields, rest) = read_fields(alloc, variables, inner)?;
    let behind = past(rest, Sign::CloseRound)?;
    ended(behind)?;
    kinds_of(alloc, fields.as_slice())
}

/// Reads fields with commas between, and gives the tokens behind.
#[tactic(auto, using(crate::proofs::ListLemmas::rows))]
fn read_fields<'t>(
    alloc: Global,
    variables: &[Variable],
    tokens: &'t [Token],
) -> Result<(Vec<Field>, &'t [Token]), TextError>
    ensures { Gives (λ r. record { value = r.0.items; rest = r.1.now }) (listed (first_field variables.now) Sign.Comma 7 [] tokens.now) result }
{
    let mut fields = Vec::new(alloc);
    let mut rest = tokens;
    for _ in 0..MOST_FIELDS {
        let (field, after) = first_field(alloc, variables, fields.as_slice(), rest)?;
        put(&mut fields, field)?;
        match behind_sign(after, Sign::Comma) {
            Some(next) => rest = next,
            None => return Ok((fields, after)),
        }
    }
    Err(TextError::PastLimit)
}

/// The field that comes first, which has the name of none before it, and the tokens behind it.
#[tactic(auto, unfolding(crate::specs::Forms::first_field))]
fn first_field<'t>(
    alloc: Global,
    variables: &[Variable],
    before: &[Field],
    tokens: &'t [Token],
) -> Result<(Field, &'t [Token]), TextError>
    ensures { Gives read_by (first_field variables.now before.now tokens.now) result }
{
    let (word, behind) = first_word(tokens)?;
    if !is_name(word.as_str()) || is_field(before, word.as_str()) {
        return Err(TextError::Unfit);
    }
    let inner = past(behind, Sign::Colon)?;
    let (kind, rest) = first_kind(variables, inner)?;
    let name = named(alloc, word.as_str())?;
    Ok((Field { name, kind }, rest))
}

/// Whether a field has this name.
fn is_field(fields: &[Field], word: &str) -> bool
    ensures { result ≡ is_field fields.now word.now }
{
    fields.iter().any(|field| field.name.as_str() == word)
}

/// The kinds of fields.
fn kinds_of(alloc: Global, fields: &[Field]) -> Result<Vec<Kind>, TextError>
    ensures { Gives (λ kinds. kinds.items) (Ok (map (λ field. field.kind) fields.now)) result }
{
    let mut kinds = Vec::new(alloc);
    for field in fields {
        put(&mut kinds, field.kind)?;
    }
    Ok(kinds)
}
