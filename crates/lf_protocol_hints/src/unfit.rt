//! Texts and names that can't stand where they stand.

use crate::drafts::{draft_before, heard_in, reading_at};
use lf_diagnostics::{
    Class, Found, Hint, Known, NAME, Place, Spot, Told, first_named, found_at, names_of, rule_at,
    said, said_of, text_at, text_of, wanted, with_line,
};
use lf_text_hints::{misplaced, text_told};
use lf_texts::{is_name, is_reserved};
use std::alloc::{AllocError, Global};
use toml::{Table, Value};

/// What can't stand at a place of a file: a name, or else a text. The error, also below, is that memory has run out.
pub(crate) fn unfit_hint(
    alloc: Global,
    source: &[u8],
    table: &Table,
    place: &Place<'_>,
) -> Result<String, AllocError> {
    let Some(found) = found_at(table, place) else {
        return plain(alloc, said(place.text, wanted(place)));
    };
    let names = names_of(alloc, table)?;
    if let Some(hint) = name_hint(names.as_slice(), place, found) {
        return plain(alloc, hint);
    }
    let text = text_of(found.value);
    if let Some(told) = misplaced(alloc, table, place, text)? {
        return with_line(alloc, source, place, text, &told);
    }
    match told_of(alloc, table, names.as_slice(), place, found)? {
        Some(told) => with_line(alloc, source, place, text, &told),
        None => plain(alloc, plain_hint(place, found.value)),
    }
}

/// The text of a hint alone.
fn plain(alloc: Global, hint: Hint) -> Result<String, AllocError> {
    String::from_str(alloc, hint.as_str())
}

/// What a text is not, without a word of which that can be told.
fn plain_hint(place: &Place<'_>, value: &Value) -> Hint {
    match value {
        Value::String(text) => said_of(place.text, text.as_str(), wanted(place)),
        _ => said(place.text, wanted(place)),
    }
}

/// Why the name of an entry can't stand there. None where it can.
fn name_hint(names: &[Known<'_>], place: &Place<'_>, found: Found<'_>) -> Option<Hint> {
    let own = match Spot::of(place) {
        Spot::Name => {
            return Some(said_of(place.text, text_of(found.value), NAME));
        }
        Spot::Given => Class::Constant,
        Spot::State => Class::Variable,
        Spot::Let => Class::Let,
        Spot::Fact => Class::Fact,
        Spot::Outcome if !is_name(found.key) => {
            return Some(said_of(place.text, found.key, NAME));
        }
        _ => return None,
    };
    new_hint(names, place, found.key, own)
}

/// Why a name can't be given to something new of a class. None where it can.
fn new_hint(names: &[Known<'_>], place: &Place<'_>, name: &str, own: Class) -> Option<Hint> {
    if !is_name(name) {
        return Some(said_of(place.text, name, NAME));
    }
    if is_reserved(name) {
        return Some(said_of(
            place.text,
            name,
            "a word of the language, which can't be a name",
        ));
    }
    let known = first_named(names, name)?;
    if known.class == own || (own == Class::Variable && known.class.is_variable()) {
        return None;
    }
    let already = Hint::of(format_args!("{} has this name already", known.words().as_str()));
    Some(said_of(place.text, name, already.as_str()))
}

/// What is wrong with the text at a place, or with the first that is of a list of texts.
fn told_of<'a>(
    alloc: Global,
    table: &'a Table,
    names: &[Known<'a>],
    place: &Place<'_>,
    found: Found<'a>,
) -> Result<Option<Told>, AllocError> {
    let on = match place.entry {
        Some(number) if place.section == "rules" => match rule_at(table, number) {
            Some(rule) => text_at(rule, "on"),
            None => "",
        },
        _ => "",
    };
    let draft = draft_before(alloc, table, place, found.key)?;
    let heard = heard_in(alloc, &draft, on)?;
    let reading = reading_at(&draft, Spot::of(place), &heard);
    let Value::Array(items) = found.value else {
        let text = text_of(found.value);
        return text_told(alloc, place, names, &reading, on, text);
    };
    for item in items.as_slice() {
        let told = text_told(alloc, place, names, &reading, on, text_of(item))?;
        if told.is_some() {
            return Ok(told);
        }
    }
    Ok(None)
}
