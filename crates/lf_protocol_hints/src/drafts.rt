//! A protocol file, as far as it is read before a text.

use lf_diagnostics::{Place, Spot, items_at, table_at};
use lf_grammar::Place as Reading;
use lf_protocol_file::{
    Draft, Fault, ProtocolError, with_constant, with_fact, with_let, with_note, with_sketch,
    with_variables,
};
use lf_rules::{Event, Scope};
use lf_texts::{Heard, TextError, read_event, text_tokens};
use std::alloc::{AllocError, Global};
use toml::Table;

/// Sections that declare names, in the order in which they are read.
const SECTIONS: [&str; 5] = ["given", "state", "notes", "lets", "facts"];

/// What is read of a file before the entry at a place, which has this key. Nothing where there is a fault before it. The error, also below, is that
/// memory has run out.
pub(crate) fn draft_before(
    alloc: Global,
    table: &Table,
    place: &Place<'_>,
    key: &str,
) -> Result<Draft, AllocError> {
    match read_before(alloc, table, place, key) {
        Ok(draft) => Ok(draft),
        Err(Fault::Memory) => Err(AllocError),
        Err(_) => Ok(Draft::new(alloc)),
    }
}

/// What is read of a file before the entry at a place, or the first fault before it.
fn read_before(alloc: Global, table: &Table, place: &Place<'_>, key: &str) -> Result<Draft, Fault> {
    let mut draft = Draft::new(alloc);
    for section in SECTIONS {
        let is_last = section == place.section;
        draft = match section {
            "notes" if is_last => draft,
            "notes" => with_notes(alloc, draft, table)?,
            _ => with_entries(alloc, draft, table, section, if is_last { key } else { "" })?,
        };
        if is_last {
            return Ok(draft);
        }
        if section == "state" {
            draft = settled(alloc, draft)?;
        }
    }
    Ok(draft)
}

/// The draft with the entries of a section that stand before the one with a key.
fn with_entries(
    alloc: Global,
    draft: Draft,
    table: &Table,
    section: &str,
    end: &str,
) -> Result<Draft, Fault> {
    let mut draft = draft;
    let Some(entries) = table_at(table, section) else {
        return Ok(draft);
    };
    for (key, value) in entries.iter() {
        let key = key.as_str();
        if key == end {
            return Ok(draft);
        }
        draft = match section {
            "given" => with_constant(alloc, draft, key, value)?,
            "state" => with_sketch(alloc, draft, key, value)?,
            "lets" => with_let(alloc, draft, key, value)?,
            _ => with_fact(alloc, draft, key, value)?,
        };
    }
    Ok(draft)
}

/// The draft with the kinds of its variables.
fn settled(alloc: Global, draft: Draft) -> Result<Draft, Fault> {
    match with_variables(alloc, draft) {
        Ok(draft) => Ok(draft),
        Err(ProtocolError::Memory) => Err(Fault::Memory),
        Err(_) => Err(Fault::Unfit),
    }
}

/// The draft with all forms of notes.
fn with_notes(alloc: Global, draft: Draft, table: &Table) -> Result<Draft, Fault> {
    let mut draft = draft;
    for item in items_at(table, "notes") {
        draft = with_note(alloc, draft, item)?;
    }
    Ok(draft)
}

/// What a rule is on. None where that can't be read.
pub(crate) fn heard_in(
    alloc: Global,
    draft: &Draft,
    on: &str,
) -> Result<Option<Heard>, AllocError> {
    match event_in(alloc, draft, on) {
        Ok(heard) => Ok(Some(heard)),
        Err(TextError::Memory) => Err(AllocError),
        Err(_) => Ok(None),
    }
}

/// What a rule is on, or why that can't be read.
fn event_in(alloc: Global, draft: &Draft, on: &str) -> Result<Heard, TextError> {
    let tokens = text_tokens(alloc, on)?;
    read_event(alloc, &draft.place(&[], Scope::Plain), tokens.as_slice())
}

/// Where a text stands in a draft that is at a place for this, in a rule that is on that.
pub(crate) fn reading_at<'a>(
    draft: &'a Draft,
    spot: Spot,
    heard: &'a Option<Heard>,
) -> Reading<'a> {
    let scope = match spot {
        Spot::Given => Scope::Given,
        Spot::Let => Scope::Let,
        Spot::Fact => Scope::Fact,
        Spot::When | Spot::Set | Spot::Send => match heard {
            Some(heard) => return draft.place(heard.fields.as_slice(), scope_of(heard.on)),
            None => Scope::Plain,
        },
        _ => Scope::Who,
    };
    draft.place(&[], scope)
}

/// Where the expressions of a rule on an event stand.
fn scope_of(on: Event) -> Scope {
    match on {
        Event::Note(form) => Scope::Note(form),
        _ => Scope::Plain,
    }
}
