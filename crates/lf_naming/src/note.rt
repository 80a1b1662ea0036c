//! The text of a note.

ghost use Rattle.std.specs.Prelude.{◌≡◌, ◌++◌, IfOk, map, slice_get, string_bytes};
ghost use Rattle.std.specs.Char.{to_ascii_lowercase};
ghost use Rattle.lf_rule_machine.specs.Values.{zero_or};
ghost use Rattle.lf_naming.specs.Texts.{fields_text, form_text, note_text};

use crate::value::{push_separator, push_value};
use lf_rule_machine::Note;
use lf_rules::{Definition, Kind, NoteForm};
use std::alloc::AllocError;

/// Appends the text of a note in a trace: its form's name in small letters, and where the form has fields, their values in parentheses, with commas between.
///
/// The error is that memory has run out, and then the text may have a part of it.
pub fn push_note(definition: &Definition, note: &Note, text: &mut String) -> Result<(), AllocError>
    ensures { IfOk result (λ _. string_bytes text.new ≡ string_bytes text.old ++ note_text definition.now note.now) }
{
    match definition.notes.as_slice().get(usize::from(note.form)) {
        Some(form) => push_formed(definition, form, note, text),
        None => Ok(()),
    }
}

/// Appends the text of a note of a form.
fn push_formed(
    definition: &Definition,
    form: &NoteForm,
    note: &Note,
    text: &mut String,
) -> Result<(), AllocError>
    ensures { IfOk result (λ _. string_bytes text.new ≡ string_bytes text.old ++ form_text definition.now form.now note.now) }
{
    push_small(form.name.as_str(), text)?;
    if form.fields.is_empty() {
        return Ok(());
    }
    text.push('(')?;
    push_fields(definition, form.fields.as_slice(), note, text)?;
    text.push(')')
}

/// Appends the values of a note's fields of these kinds, with commas between.
fn push_fields(
    definition: &Definition,
    kinds: &[Kind],
    note: &Note,
    text: &mut String,
) -> Result<(), AllocError>
    ensures { IfOk result (λ _. string_bytes text.new ≡ string_bytes text.old ++ fields_text definition.now kinds.now note.now) }
{
    'fields: for (place, kind) in kinds.iter().enumerate() {
        push_separator(place, ',', text)?;
        push_value(definition, *kind, field(note, place), text)?;
    }
    Ok(())
}

/// The value of the field at a place; 0 where there is none.
fn field(note: &Note, place: usize) -> u8
    ensures { result ≡ zero_or (slice_get note.now.fields place) }
{
    match note.fields.get(place) {
        Some(value) => *value,
        None => 0,
    }
}

/// Appends a name in small letters.
fn push_small(name: &str, text: &mut String) -> Result<(), AllocError>
    ensures { IfOk result (λ _. string_bytes text.new ≡ string_bytes text.old ++ map to_ascii_lowercase name.now) }
{
    for letter in name.chars() {
        text.push(letter.to_ascii_lowercase())?;
    }
    Ok(())
}
