//! What passes a limit.

use crate::allowed::wanted;
use crate::found::found_at;
use crate::hint::{Hint, Words, said, said_of};
use crate::lines::{Told, with_line};
use crate::pieces::{is_digit, read_text};
use crate::place::Place;
use crate::reader::is_number;
use crate::spot::Spot;
use lf_grammar::{MOST_OPEN, MOST_TOKENS, TokenError, read_tokens};
use std::alloc::{AllocError, Global};
use toml::{Table, Value};

/// The most variables, and the most named guards.
const MOST_VARIABLES: usize = 32;

/// The most places of a table that are numbers.
const MOST_PLACES: u64 = 32;

/// The most items of a list of a constant's values.
const MOST_VALUES: usize = 8;

/// What passes a limit at a place of a file. The error, also below, is that memory has run out.
pub fn limit_hint(
    alloc: Global,
    source: &[u8],
    table: &Table,
    place: &Place<'_>,
) -> Result<String, AllocError> {
    let Some(found) = found_at(table, place) else {
        return String::from_str(alloc, said(place.text, wanted(place)).as_str());
    };
    match found.value {
        Value::String(text) => {
            let text = text.as_str();
            let told = past_told(alloc, place, text)?;
            with_line(alloc, source, place, text, &told)
        }
        value => String::from_str(alloc, past_hint(alloc, place, value)?.as_str()),
    }
}

/// What passes a limit in a text at a place.
fn past_told(alloc: Global, place: &Place<'_>, text: &str) -> Result<Told, AllocError> {
    Ok(match limit_told(alloc, place.text, text)? {
        Some(told) => told,
        None => Told {
            hint: said(place.text, most_in(Spot::of(place), text)),
            before: 0,
            length: text.chars().count(),
        },
    })
}

/// What passes a limit in a value at a place that is no text.
fn past_hint(alloc: Global, place: &Place<'_>, value: &Value) -> Result<Hint, AllocError> {
    match value {
        Value::Table(entries) => Ok(count_hint(place, entries.len(), "entries")),
        Value::Array(items) if place.entry.is_none() => {
            Ok(count_hint(place, items.len(), "items"))
        }
        Value::Array(items) => list_hint(alloc, place, items.as_slice()),
        other => Ok(number_hint(place, "", other)),
    }
}

/// That a section has so many entries or items, and how many it may have.
fn count_hint(place: &Place<'_>, count: usize, what: &str) -> Hint {
    let most: usize = match place.section {
        "state" if count <= MOST_VARIABLES => return cells_hint(place),
        "facts" | "state" | "trace" => MOST_VARIABLES,
        "rules" => 128,
        _ => 16,
    };
    let fewest = match place.section {
        "state" | "trace" => 1,
        _ => 0,
    };
    Hint::of(format_args!(
        "{}: {count} {what}; {fewest} to {most} may stand there",
        place.text
    ))
}

/// That variables have too many cells.
fn cells_hint(place: &Place<'_>) -> Hint {
    said(
        place.text,
        "its variables have more than 64 cells in all: one each, and a table 8 for the nodes, or as many as its brackets say",
    )
}

/// The greatest number in the brackets of a table, and 0 where there is none.
fn places_in(text: &str) -> u64 {
    let Some((places, _kind)) = text.split_once(']') else {
        return last_in(text);
    };
    last_in(places)
}

/// The number behind the points of a range, and 0 where there is none.
fn last_in(places: &str) -> u64 {
    match places.split_once("..") {
        Some((front, last)) if front.trim_start().starts_with('[') => {
            first_number(last.trim_start())
        }
        _ => 0,
    }
}

/// The number with which a text begins, and 0 where it begins with none.
fn first_number(text: &str) -> u64 {
    let behind = text.trim_start_matches(is_digit);
    let digits = text.strip_suffix(behind).unwrap_or("");
    digits.parse::<u64>().unwrap_or(0)
}

/// What passes a limit in a list of a constant's values.
fn list_hint(alloc: Global, place: &Place<'_>, items: &[Value]) -> Result<Hint, AllocError> {
    if items.is_empty() || MOST_VALUES < items.len() {
        return Ok(Hint::of(format_args!(
            "{}: a list of {} items; 1 to {MOST_VALUES} may stand there",
            place.text,
            items.len()
        )));
    }
    for item in items {
        if let Some(hint) = item_hint(alloc, place, item)? {
            return Ok(hint);
        }
    }
    Ok(said(place.text, wanted(place)))
}

/// What passes a limit in an item of a constant's list. None where nothing does.
fn item_hint(alloc: Global, place: &Place<'_>, item: &Value) -> Result<Option<Hint>, AllocError> {
    match item {
        Value::Integer(number) if *number < 0 || 255 < *number => {
            Ok(Some(number_hint(place, "an item is ", item)))
        }
        Value::String(text) => match limit_told(alloc, place.text, text.as_str())? {
            Some(told) => Ok(Some(told.hint)),
            None => Ok(None),
        },
        _ => Ok(None),
    }
}

/// That a number of a constant passes its limits.
fn number_hint(place: &Place<'_>, intro: &str, number: &Value) -> Hint {
    Hint::of(format_args!(
        "{}: {intro}{number}; a number from 0 to 255 may stand there",
        place.text
    ))
}

/// How many parts a text may have.
fn most_in(spot: Spot, text: &str) -> &'static str {
    match spot {
        Spot::State if MOST_PLACES < places_in(text) => {
            "a table with numbers for its places has at most 32 of them"
        }
        Spot::State => "a variable has at most 16 words",
        Spot::Note => "a note has at most 7 fields",
        Spot::Set => "a rule has at most 16 assignments",
        Spot::Send => "a rule sends at most 8 notes",
        _ => "a limit is passed",
    }
}

/// Which limit of all texts the text at a place passes: numbers are 0 to 255, and there are only so many tokens, and brackets open at once. None
/// where it passes none. The error, also below, is that memory has run out.
pub fn limit_told(alloc: Global, place: &str, text: &str) -> Result<Option<Told>, AllocError> {
    let words = match read_tokens(alloc, text.as_bytes()) {
        Err(TokenError::Memory) => return Err(AllocError),
        Err(TokenError::TooLarge) => return large_told(alloc, place, text),
        Err(TokenError::TooMany) => Words::of(format_args!(
            "a text of more than {MOST_TOKENS} numbers, words and signs"
        )),
        Err(TokenError::TooDeep) => Words::of(format_args!(
            "more than {MOST_OPEN} brackets are open at once"
        )),
        Ok(_) | Err(TokenError::Stray) => return Ok(None),
    };
    Ok(Some(Told {
        hint: said(place, words.as_str()),
        before: 0,
        length: text.chars().count(),
    }))
}

/// The first number of a text that is too large.
fn large_told(alloc: Global, place: &str, text: &str) -> Result<Option<Told>, AllocError> {
    for piece in read_text(alloc, text)?.pieces.as_slice() {
        if is_large(piece.text) {
            return Ok(Some(Told {
                hint: said_of(place, piece.text, "numbers are 0 to 255"),
                before: text.len().saturating_sub(piece.from.len()),
                length: piece.text.len(),
            }));
        }
    }
    Ok(None)
}

/// Whether a piece is a number that is too large. Zeros before a number mean nothing.
fn is_large(piece: &str) -> bool {
    let number = piece.trim_start_matches('0');
    is_number(number) && number.parse::<u8>().is_err()
}
